//! Chains: no equation is reducible by another.

ghost use Rattle.std.specs.Prelude.{◌≡◌};
ghost use Rattle.dz_terms.specs.Entries.{IsEntry};
ghost use Rattle.dz_monomials.specs.Ranked.{symbols_under};
ghost use Rattle.dz_diff.specs.States.{LiveAll, polynomials};
ghost use Rattle.dz_tree.specs.Chain.{is_autoreduced, is_reducible, reducible_by};

use dz_poly::{Book, Poly};
use dz_rank::Ranking;
use dz_terms::Entry;

/// Whether an entry is reducible by another.
#[tactic(auto, using(crate::proofs::ChainParts::reducible_is))]
fn is_reducible(ranking: &Ranking, f: &Entry, q: &Entry) -> bool
    requires f { IsEntry ranking.now f.now }
    requires q { IsEntry ranking.now q.now }
    ensures { result ≡ is_reducible (symbols_under ranking.now) f.now.terms
        q.now.terms }
{
    dz_step::is_reducible(ranking, f, q)
}

/// Whether the equation of a place is reducible by one of another place. Places count from 1.
fn is_reducible_by(book: &Book, polys: &[Poly], place: usize, f: &Entry) -> bool
    requires live { LiveAll book.now polys.now }
    requires f { IsEntry book.now.ranking f.now }
    ensures { result ≡ reducible_by (symbols_under book.now.ranking) place 1 f.now.terms
        (polynomials book.now polys.now) }
{
    'places: for k in 0..polys.len() {
        let other = book.entry(polys[k]);
        if k + 1 != place && is_reducible(book.ranking(), f, other) {
            return true;
        }
    }
    false
}

/// Whether no polynomial in a list is reducible by another.
pub(crate) fn is_autoreduced(book: &Book, polys: &[Poly]) -> bool
    requires { LiveAll book.now polys.now }
    ensures { result ≡ is_autoreduced (symbols_under book.now.ranking)
        (polynomials book.now polys.now) }
{
    'places: for k in 0..polys.len() {
        if is_reducible_by(book, polys, k + 1, book.entry(polys[k])) {
            return false;
        }
    }
    true
}
