//! Whether terms, and polynomials, are equal.

ghost use Rattle.std.specs.Prelude.{◌≡◌, ◌↔◌, IsTrue};

use crate::entry::Entry;
use dz_monomials::{Term, compare_monomials};
use dz_rank::Ranking;
use std::cmp::Ordering;

#[tactic(auto, using(dz_monomials::proofs::SameTerms::same_pair, dz_monomials::proofs::SameTerms::other_pair))]
/// Whether two terms are equal.
fn same_term(ranking: &Ranking, a: &Term, b: &Term) -> bool
    ensures { IsTrue result ↔ (a.now ≡ b.now) }
{
    if a.coefficient() != b.coefficient() {
        return false;
    }
    match compare_monomials(ranking, a.powers(), b.powers()) {
        Ordering::Equal => true,
        _ => false,
    }
}

#[tactic(auto, using(dz_monomials::proofs::SameTerms::other_term, dz_monomials::proofs::SameTerms::other_length, dz_monomials::proofs::SameTerms::all_same,))]
/// Whether two lists of terms are equal.
fn same_terms(ranking: &Ranking, a: &[Term], b: &[Term]) -> bool
    ensures { IsTrue result ↔ (a.now ≡ b.now) }
{
    if a.len() != b.len() {
        return false;
    }
    for i in 0..a.len() {
        if !same_term(ranking, &a[i], &b[i]) {
            return false;
        }
    }
    true
}

/// Whether two entries are of one polynomial.
pub fn same_entries(ranking: &Ranking, a: &Entry, b: &Entry) -> bool
    ensures { IsTrue result ↔ (a.now.terms ≡ b.now.terms) }
{
    same_terms(ranking, a.terms.as_slice(), b.terms.as_slice())
}
