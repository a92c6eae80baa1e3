//! The degrees of a polynomial.

ghost use Rattle.std.specs.Prelude.{◌≡◌, ◌≤◌, ◌<◌, ℕ, length, max, get_or, set, IfOk, IfErr, OnOk};
ghost use Rattle.std.specs.List.{insert};
ghost use Rattle.dz_algebra.specs.Gather.{put, onto};
ghost use Rattle.dz_monomials.specs.Degrees.{degrees};
ghost use Rattle.dz_rank.specs.Rankings.{ranking_cmp};

use crate::powers::Powers;
use crate::term::Term;
use dz_rank::{Ranking, Symbol};
use smallvec::SmallVec;
use std::alloc::{AllocError, Global};
use std::cmp::Ordering;

#[tactic(auto, using(crate::proofs::Places::there, crate::proofs::Places::missing, crate::proofs::Places::last,))]
/// The place of a symbol in a falling table, or the place at which it is missing.
fn place_of(ranking: &Ranking, table: &[(Symbol, u16)], symbol: Symbol) -> Result<usize, usize>
    ensures found { IfOk result (λ i. (e : ℕ)
        → put (ranking_cmp ranking.now) max symbol e table.now
        ≡ set table.now i (
          (get_or table.now i (symbol, 0)).0,
          max e (get_or table.now i (symbol, 0)).1,
        )) }
    ensures inside { IfOk result (λ i. i < length table.now) }
    ensures missing { IfErr result (λ i. (e : ℕ)
        → put (ranking_cmp ranking.now) max symbol e table.now
        ≡ insert table.now i (symbol, e)) }
    ensures in_reach { IfErr result (λ i. i ≤ length table.now) }
{
    let mut place = 0;
    while place < table.len() {
        match ranking.compare(symbol, table[place].0) {
            Ordering::Less => place += 1,
            Ordering::Equal => return Ok(place),
            Ordering::Greater => return Err(place),
        }
    }
    Err(place)
}

/// Raises the degree in a symbol to an exponent.
fn raise_degree(
    ranking: &Ranking,
    table: &mut Powers,
    power: (Symbol, u16),
) -> Result<(), AllocError>
    ensures { OnOk result (table.new.items
        ≡ put (ranking_cmp ranking.now) max power.0 power.1 table.old.items) }
{
    match place_of(ranking, table.as_slice(), power.0) {
        Ok(place) => {
            let (symbol, exponent) = table.as_slice()[place];
            table.as_mut_slice()[place] = (symbol, power.1.max(exponent));
        }
        Err(place) => {
            table.insert(place, power)?;
        }
    }
    Ok(())
}

/// Raises the degrees to the exponents of a monomial.
pub fn raise_degrees(
    ranking: &Ranking,
    table: &mut Powers,
    powers: &[(Symbol, u16)],
) -> Result<(), AllocError>
    ensures { OnOk result (table.new.items
        ≡ onto (ranking_cmp ranking.now) max powers.now table.old.items) }
{
    for i in 0..powers.len() {
        raise_degree(ranking, table, powers[powers.len() - 1 - i])?;
    }
    Ok(())
}

/// The greatest exponent of each symbol that occurs.
pub fn degrees_of(alloc: Global, ranking: &Ranking, terms: &[Term]) -> Result<Powers, AllocError>
    ensures { IfOk result (λ table. table.items ≡ degrees (ranking_cmp ranking.now) terms.now) }
{
    let mut table = SmallVec::new(alloc);
    for i in 0..terms.len() {
        raise_degrees(ranking, &mut table, terms[terms.len() - 1 - i].powers())?;
    }
    Ok(table)
}
