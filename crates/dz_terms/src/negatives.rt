//! Negatives.

ghost use Rattle.std.specs.Prelude.{◌≡◌};
ghost use Rattle.dz_algebra.specs.Polynomial.{negated};
ghost use Rattle.dz_rank.specs.Rankings.{RankingValue};
ghost use Rattle.dz_terms.specs.Entries.{IsEntry};

use crate::entry::Entry;
use dz_monomials::Term;

#[tactic(auto, using(dz_monomials::proofs::Negated::none_negated, dz_monomials::proofs::Negated::one_negated, dz_monomials::proofs::Negated::all_negated))]
/// Changes the sign of every coefficient.
fn negate(terms: &mut Vec<Term>)
    ensures { terms.new.items ≡ negated terms.old.items }
{
    for term in terms.iter_mut() {
        term.set_coefficient(-term.coefficient());
    }
}

/// The negative of a polynomial, in place; it takes no memory.
pub fn negative(entry: Entry) -> Entry
    ensures terms { result.terms ≡ negated entry.terms }
    ensures entry { (r : RankingValue) → IsEntry r entry → IsEntry r result }
{
    let mut entry = entry;
    negate(&mut entry.terms);
    entry
}
