//! The places of monomials.

ghost use Rattle.std.specs.Prelude.{◌≤◌, length, take, drop, IfOk, IfErr};
ghost use Rattle.dz_algebra.specs.Monomial.{monomial_cmp};
ghost use Rattle.dz_algebra.specs.Order.{IsAbove};
ghost use Rattle.dz_algebra.specs.Polynomial.{IsPolynomial};
ghost use Rattle.dz_rank.specs.Rankings.{ranking_cmp};
ghost use Rattle.dz_monomials.specs.InPlace.{IsAt, IsBelow};

use crate::powers::compare_monomials;
use crate::term::Term;
use dz_rank::{Ranking, Symbol};
use std::cmp::Ordering;

#[tactic(auto, using(crate::proofs::Searching::turn_less, crate::proofs::Searching::turn_equal, crate::proofs::Searching::turn_greater))]
/// The place of a monomial among falling terms, or the place at which it is missing. The terms
/// between `low` and `high` are halved at each turn.
pub fn place_of(ranking: &Ranking, terms: &[Term], powers: &[(Symbol, u16)]) -> Result<usize, usize>
    requires { IsPolynomial (ranking_cmp ranking.now) terms.now }
    ensures found { IfOk result (λ i. IsAt powers.now i terms.now) }
    ensures in_reach { IfErr result (λ i. i ≤ length terms.now) }
    ensures below { IfErr result (λ i.
        IsBelow (monomial_cmp (ranking_cmp ranking.now)) powers.now (take i terms.now)) }
    ensures above { IfErr result (λ i.
        IsAbove (monomial_cmp (ranking_cmp ranking.now)) powers.now (drop i terms.now)) }
{
    let mut low = 0;
    let mut high = terms.len();
    while low < high {
        let middle = low + (high - low) / 2;
        match compare_monomials(ranking, powers, terms[middle].powers()) {
            Ordering::Less => low = middle + 1,
            Ordering::Equal => return Ok(middle),
            Ordering::Greater => high = middle,
        }
    }
    Err(low)
}
