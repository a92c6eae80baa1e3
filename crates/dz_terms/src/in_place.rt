//! One term more in a sum.

ghost use Rattle.std.specs.Prelude.{◌≡◌, ◌<◌, ◌≤◌, ◌+◌, ◌+ℤ◌, ◌++◌, [], ◌∷◌, length, unsigned_abs};
ghost use Rattle.std.specs.Prelude.{Ok, IfOk, IfErr, IfSome, IfNone};
ghost use Rattle.dz_algebra.specs.Amount.{greatest};
ghost use Rattle.dz_algebra.specs.Size.{operation};
ghost use Rattle.dz_rank.specs.Rankings.{ranking_cmp};
ghost use Rattle.dz_terms.specs.Answers.{Answers};
ghost use Rattle.dz_monomials.specs.Degrees.{degrees};
ghost use Rattle.dz_terms.specs.Entries.{IsEntry};
ghost use Rattle.dz_monomials.specs.Ranked.{symbols_under};
ghost use Rattle.dz_monomials.specs.Signs.{signed, with_sign};
ghost use Rattle.dz_monomials.specs.Stops.{IsStop};
ghost use Rattle.dz_monomials.specs.InPlace.{added_at, inserted_at};

use crate::entry::Entry;
use dz_monomials::{PolyStop, Sign, Term, degrees_of, limit_of_size, place_of, raise_degrees};
use dz_rank::Ranking;
use std::alloc::Global;

/// The greatest absolute value of a coefficient.
const MOST: u128 = (1 << 127) - 1;

/// A term with its coefficient taken with a sign.
fn signed_term(sign: Sign, term: Term) -> Term
    ensures { result ≡ (term.0, signed sign term.1) }
{
    let mut term = term;
    match sign {
        Sign::Plus => term,
        Sign::Minus => {
            term.set_coefficient(-term.coefficient());
            term
        }
    }
}

/// The one term of a polynomial, taken with a sign.
fn only_term(sign: Sign, one: Entry) -> Term
    requires { length one.terms ≡ 1 }
    ensures { with_sign sign one.terms ≡ result ∷ [] }
{
    let mut one = one;
    match one.terms.pop() {
        Some(term) => signed_term(sign, term),
        None => unreachable!(),
    }
}

/// The sum of the coefficients of two terms, where their absolute values add up to one in range.
fn added(a: &Term, b: &Term) -> Option<i128>
    ensures sum { IfSome result (λ c. c ≡ a.now.1 +ℤ b.now.1) }
    ensures fits { IfSome result (λ c. unsigned_abs a.now.1 + unsigned_abs b.now.1 ≤ greatest) }
    ensures wide { IfNone result (greatest < unsigned_abs a.now.1 + unsigned_abs b.now.1) }
{
    let (a, b) = (a.coefficient(), b.coefficient());
    if a.unsigned_abs() + b.unsigned_abs() > MOST {
        return None;
    }
    Some(a + b)
}

#[tactic(auto, using(dz_monomials::proofs::Changes::set_answer, dz_monomials::proofs::Changes::remove_answer, dz_monomials::proofs::Changes::wide_answer, dz_monomials::proofs::Changes::degrees_set))]
/// The sum with the coefficient of a term added to the one at a place; the term there goes where
/// nothing is left.
fn add_at(
    alloc: Global,
    ranking: &Ranking,
    sum: Entry,
    place: usize,
    term: &Term,
) -> Result<Entry, PolyStop>
    requires inside { place < length sum.terms }
    requires degrees { sum.degrees ≡ degrees (ranking_cmp ranking.now) sum.terms }
    ensures ok { IfOk result (λ all.
        added_at place term.now.1 sum.terms ≡ Ok all.terms) }
    ensures degrees { IfOk result (λ all.
        all.degrees ≡ degrees (ranking_cmp ranking.now) all.terms) }
    ensures refused { IfErr result (λ e. IsStop e (added_at place term.now.1 sum.terms)) }
{
    let mut sum = sum;
    let Some(coefficient) = added(term, &sum.terms[place]) else {
        return Err(PolyStop::Wide);
    };
    if coefficient != 0 {
        sum.terms[place].set_coefficient(coefficient);
        return Ok(sum);
    }
    sum.terms.remove(place);
    sum.degrees = degrees_of(alloc, ranking, sum.terms.as_slice())?;
    Ok(sum)
}

/// The sum with a term more at a place.
fn insert_at(ranking: &Ranking, sum: Entry, place: usize, term: Term) -> Result<Entry, PolyStop>
    requires in_reach { place ≤ length sum.terms }
    requires degrees { sum.degrees ≡ degrees (ranking_cmp ranking.now) sum.terms }
    ensures ok { IfOk result (λ all. inserted_at (ranking_cmp ranking.now) place term
        sum.terms ≡ Ok all.terms) }
    ensures degrees { IfOk result (λ all. all.degrees
        ≡ degrees (ranking_cmp ranking.now) (term ∷ sum.terms)) }
    ensures refused { IfErr result (λ e. IsStop e
        (inserted_at (ranking_cmp ranking.now) place term sum.terms)) }
{
    let mut sum = sum;
    raise_degrees(ranking, &mut sum.degrees, term.powers())?;
    if let Some(limit) = limit_of_size(sum.degrees.len(), sum.terms.len() + 1) {
        return Err(PolyStop::Large(limit));
    }
    sum.terms.insert(place, term)?;
    Ok(sum)
}

#[tactic(auto, using(crate::proofs::Answered::answered, crate::proofs::Answered::stopped))]
/// The sum of a polynomial and one of one term, which is taken with a sign.
pub fn sum_in_place(
    alloc: Global,
    ranking: &Ranking,
    sum: Entry,
    sign: Sign,
    one: Entry,
) -> Result<Entry, PolyStop>
    requires first { IsEntry ranking.now sum }
    requires second { IsEntry ranking.now one }
    requires one { length one.terms ≡ 1 }
    ensures { Answers ranking.now result
        (operation (symbols_under ranking.now) (sum.terms ++ with_sign sign one.terms)) }
{
    let term = only_term(sign, one);
    match place_of(ranking, sum.terms(), term.powers()) {
        Ok(place) => {
            let all = add_at(alloc, ranking, sum, place, &term)?;
            Ok(all)
        }
        Err(place) => {
            let all = insert_at(ranking, sum, place, term)?;
            Ok(all)
        }
    }
}
