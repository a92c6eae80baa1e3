//! Rows of a derivation: what the terms that have a symbol contribute.

ghost use Rattle.std.specs.Prelude.{◌≡◌, ◌⊎◌, ◌++◌, ◌≤◌, ◌*ℤ◌, pos, [], ◌∷◌, false, true, length, drop, IfSome, IfNone, IfOk, IfErr, OnOk};
ghost use Rattle.std.specs.Option.{option_to_list};
ghost use Rattle.dz_algebra.specs.Amount.{amount, amounts, gathered};
ghost use Rattle.dz_algebra.specs.Derivation.{once_less};
ghost use Rattle.dz_algebra.specs.Monomial.{IsMonomial, exponent};
ghost use Rattle.dz_algebra.specs.Polynomial.{IsPolynomial};
ghost use Rattle.dz_algebra.specs.declared.Limit.TheVariants.{Exponent};
ghost use Rattle.dz_monomials.specs.Cells.{capped, caps};
ghost use Rattle.dz_monomials.specs.Degrees.{degrees, has_high_exponent};
ghost use Rattle.dz_monomials.specs.declared.PolyStop.TheVariants.{Memory, Large};
ghost use Rattle.dz_rank.specs.Rankings.{ranking_cmp};
ghost use Rattle.dz_monomials.specs.Rows.{AreRates, Begins, Rises, row, rows, times_meant};

use crate::PolyStop;
use crate::absorbing::absorb;
use crate::cell::Cell;
use crate::powers::{Powers, multiply};
use crate::rates::Rate;
use crate::term::Term;
use dz_rank::{Ranking, Symbol};
use smallvec::SmallVec;
use std::alloc::{AllocError, Global};
use std::cmp::Ordering;
use std::collections::VecDeque;

#[tactic(auto, using(crate::proofs::RowPieces::begins, crate::proofs::RowPieces::passed, crate::proofs::RowPieces::rest_falls, crate::proofs::RowPieces::rest_passed))]
/// The place of a symbol in a monomial.
fn place_in(ranking: &Ranking, powers: &[(Symbol, u16)], symbol: Symbol) -> Option<usize>
    requires { IsMonomial (ranking_cmp ranking.now) powers.now }
    ensures found { IfSome result (λ i.
        (i ≤ length powers.now) × Begins symbol (drop i powers.now)) }
    ensures missing { IfNone result (exponent (ranking_cmp ranking.now) symbol powers.now ≡ 0) }
{
    for i in 0..powers.len() {
        match ranking.compare(symbol, powers[i].0) {
            Ordering::Less => {}
            Ordering::Equal => return Some(i),
            Ordering::Greater => return None,
        }
    }
    None
}

#[tactic(auto, using(crate::proofs::RowPieces::one_power_is, crate::proofs::RowPieces::merged_power))]
/// A monomial times a rate.
fn rated_front(
    alloc: Global,
    ranking: &Ranking,
    front: &[(Symbol, u16)],
    rate: Rate,
) -> Result<Powers, PolyStop>
    requires monomial { IsMonomial (ranking_cmp ranking.now) front.now }
    requires low { has_high_exponent front.now ≡ false }
    ensures ok { IfOk result (λ all. all.items
        ≡ times_meant (ranking_cmp ranking.now) rate front.now) }
    ensures fits { IfOk result (λ all. has_high_exponent all.items ≡ false) }
    ensures refused { IfErr result (λ e. (e ≡ Memory) ⊎ ((e ≡ Large Exponent)
        × (has_high_exponent (times_meant (ranking_cmp ranking.now) rate front.now) ≡ true))) }
{
    match rate {
        Rate::One => Ok(SmallVec::from_slice(alloc, front)?),
        Rate::Next(symbol) => {
            let all = multiply(alloc, ranking, &[(symbol, 1)], front)?;
            Ok(all)
        }
    }
}

#[tactic(auto, using(crate::proofs::RowPieces::less_power, crate::proofs::RowPieces::no_power, crate::proofs::MonomialPasses::low_push))]
/// Appends a power with its symbol once less.
fn push_less(all: &mut Powers, power: (Symbol, u16)) -> Result<(), AllocError>
    requires { has_high_exponent all.old.items ≡ false }
    ensures powers { OnOk result (all.new.items ≡ all.old.items ++ once_less power.0 power.1 []) }
    ensures low { OnOk result (has_high_exponent all.new.items ≡ false) }
{
    if power.1 > 1 {
        all.push((power.0, power.1 - 1))?;
    }
    Ok(())
}

#[tactic(auto, using(crate::proofs::RowPieces::joined_powers, crate::proofs::RowPieces::front_high, crate::proofs::MonomialPasses::low_end))]
/// A monomial with one of its symbols once less, times a rate.
fn rated_powers(
    alloc: Global,
    ranking: &Ranking,
    front: &[(Symbol, u16)],
    power: (Symbol, u16),
    back: &[(Symbol, u16)],
    rate: Rate,
) -> Result<Powers, PolyStop>
    requires monomial { IsMonomial (ranking_cmp ranking.now) front.now }
    requires low_front { has_high_exponent front.now ≡ false }
    requires low_back { has_high_exponent back.now ≡ false }
    ensures ok { IfOk result (λ all. all.items
        ≡ times_meant (ranking_cmp ranking.now) rate front.now
        ++ once_less power.0 power.1 back.now) }
    ensures fits { IfOk result (λ all. has_high_exponent all.items ≡ false) }
    ensures refused { IfErr result (λ e. (e ≡ Memory) ⊎ ((e ≡ Large Exponent)
        × (has_high_exponent (times_meant (ranking_cmp ranking.now) rate front.now
        ++ once_less power.0 power.1 back.now) ≡ true))) }
{
    let mut all = rated_front(alloc, ranking, front, rate)?;
    push_less(&mut all, power)?;
    all.extend_from_slice(back)?;
    Ok(all)
}

/// A cell with the coefficient of a term times an exponent.
fn term_cell(powers: Powers, term: &Term, exponent: u16) -> Cell
    ensures { result ≡ (powers.items, capped (amount (term.now.1 *ℤ pos exponent))) }
{
    Cell::of_product(powers, term.coefficient(), i128::from(exponent))
}

/// The cell of a term that has a symbol at a place.
fn cell_at(
    alloc: Global,
    ranking: &Ranking,
    term: &Term,
    place: usize,
    symbol: Symbol,
    rate: Rate,
) -> Result<Cell, PolyStop>
    requires inside { place ≤ length term.now.0 }
    requires begins { Begins symbol (drop place term.now.0) }
    requires monomial { IsMonomial (ranking_cmp ranking.now) term.now.0 }
    requires low { has_high_exponent term.now.0 ≡ false }
    requires rises { Rises (ranking_cmp ranking.now) symbol rate }
    ensures ok { IfOk result (λ cell. cell ∷ []
        ≡ caps (amounts (row (ranking_cmp ranking.now) symbol rate (term.now ∷ [])))) }
    ensures fits { IfOk result (λ cell. has_high_exponent (degrees (ranking_cmp ranking.now)
        (row (ranking_cmp ranking.now) symbol rate (term.now ∷ []))) ≡ false) }
    ensures refused { IfErr result (λ e. (e ≡ Memory) ⊎ ((e ≡ Large Exponent)
        × (has_high_exponent (degrees (ranking_cmp ranking.now)
        (row (ranking_cmp ranking.now) symbol rate (term.now ∷ []))) ≡ true))) }
{
    let (front, rest) = term.powers().split_at(place);
    let [power, back @ ..] = rest else {
        unreachable!()
    };
    let powers = rated_powers(alloc, ranking, front, *power, back, rate)?;
    Ok(term_cell(powers, term, power.1))
}

/// The cell of a term in a row, where the term has the symbol.
fn row_cell(
    alloc: Global,
    ranking: &Ranking,
    term: &Term,
    symbol: Symbol,
    rate: Rate,
) -> Result<Option<Cell>, PolyStop>
    requires monomial { IsMonomial (ranking_cmp ranking.now) term.now.0 }
    requires low { has_high_exponent term.now.0 ≡ false }
    requires rises { Rises (ranking_cmp ranking.now) symbol rate }
    ensures ok { IfOk result (λ found. option_to_list found
        ≡ caps (amounts (row (ranking_cmp ranking.now) symbol rate (term.now ∷ [])))) }
    ensures fits { OnOk result (has_high_exponent (degrees (ranking_cmp ranking.now)
        (row (ranking_cmp ranking.now) symbol rate (term.now ∷ []))) ≡ false) }
    ensures refused { IfErr result (λ e. (e ≡ Memory) ⊎ ((e ≡ Large Exponent)
        × (has_high_exponent (degrees (ranking_cmp ranking.now)
        (row (ranking_cmp ranking.now) symbol rate (term.now ∷ []))) ≡ true))) }
{
    let Some(place) = place_in(ranking, term.powers(), symbol) else {
        return Ok(None);
    };
    let cell = cell_at(alloc, ranking, term, place, symbol, rate)?;
    Ok(Some(cell))
}

/// Appends a cell where there is one.
fn push_found(cells: &mut VecDeque<Cell>, found: Option<Cell>) -> Result<(), AllocError>
    ensures { OnOk result (cells.new.items ≡ cells.old.items ++ option_to_list found) }
{
    if let Some(cell) = found {
        cells.push_back(cell)?;
    }
    Ok(())
}

/// The cells of a row: one for each term that has the symbol, the greatest first.
fn row_cells(
    alloc: Global,
    ranking: &Ranking,
    terms: &[Term],
    symbol: Symbol,
    rate: Rate,
) -> Result<VecDeque<Cell>, PolyStop>
    requires canonical { IsPolynomial (ranking_cmp ranking.now) terms.now }
    requires low { has_high_exponent (degrees (ranking_cmp ranking.now) terms.now) ≡ false }
    requires rises { Rises (ranking_cmp ranking.now) symbol rate }
    ensures ok { IfOk result (λ cells. cells.items
        ≡ caps (amounts (row (ranking_cmp ranking.now) symbol rate terms.now))) }
    ensures fits { OnOk result (has_high_exponent (degrees (ranking_cmp ranking.now)
        (row (ranking_cmp ranking.now) symbol rate terms.now)) ≡ false) }
    ensures refused { IfErr result (λ e. (e ≡ Memory) ⊎ ((e ≡ Large Exponent)
        × (has_high_exponent (degrees (ranking_cmp ranking.now)
        (row (ranking_cmp ranking.now) symbol rate terms.now)) ≡ true))) }
{
    let mut cells = VecDeque::new(alloc);
    for term in terms {
        let found = row_cell(alloc, ranking, term, symbol, rate)?;
        push_found(&mut cells, found)?;
    }
    Ok(cells)
}

/// What the rows of all rates make at each monomial, where their exponents are in range. The halves
/// of the rates are taken apart and merged, so that each contribution takes part in as many merges
/// as the rates can be halved.
pub fn rows_cells(
    alloc: Global,
    ranking: &Ranking,
    terms: &[Term],
    rates: &[(Symbol, Rate)],
) -> Result<VecDeque<Cell>, PolyStop>
    requires canonical { IsPolynomial (ranking_cmp ranking.now) terms.now }
    requires low { has_high_exponent (degrees (ranking_cmp ranking.now) terms.now) ≡ false }
    requires rates { AreRates ranking.now rates.now }
    ensures ok { IfOk result (λ cells. cells.items ≡ caps (gathered (ranking_cmp ranking.now)
        (rows (ranking_cmp ranking.now) rates.now terms.now))) }
    ensures fits { OnOk result (has_high_exponent (degrees (ranking_cmp ranking.now)
        (rows (ranking_cmp ranking.now) rates.now terms.now)) ≡ false) }
    ensures refused { IfErr result (λ e. (e ≡ Memory) ⊎ ((e ≡ Large Exponent)
        × (has_high_exponent (degrees (ranking_cmp ranking.now)
        (rows (ranking_cmp ranking.now) rates.now terms.now)) ≡ true))) }
{
    if rates.is_empty() {
        return Ok(VecDeque::new(alloc));
    }
    if rates.len() == 1 {
        let (symbol, rate) = rates[0];
        let row = row_cells(alloc, ranking, terms, symbol, rate)?;
        return Ok(row);
    }
    let (front, back) = rates.split_at(rates.len() / 2);
    let row = rows_cells(alloc, ranking, terms, front)?;
    let rest = rows_cells(alloc, ranking, terms, back)?;
    let cells = absorb(alloc, ranking, rest, row)?;
    Ok(cells)
}
