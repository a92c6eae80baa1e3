//! Derivations and separants of the terms of polynomials.

ghost use Rattle.std.specs.Prelude.{◌≡◌, ◌<◌, Ok, IfOk, IfErr};
ghost use Rattle.dz_algebra.specs.Size.{derivation_answer, operation, separant_answer};
ghost use Rattle.dz_rank.specs.Rankings.{ranking_cmp};
ghost use Rattle.dz_terms.specs.Answers.{Answers};
ghost use Rattle.dz_monomials.specs.Degrees.{degrees};
ghost use Rattle.dz_terms.specs.Entries.{IsEntry};
ghost use Rattle.dz_monomials.specs.Ranked.{symbols_under};
ghost use Rattle.dz_monomials.specs.Stops.{IsStop};
ghost use Rattle.dz_monomials.specs.Supports.{IsSupportOf};
ghost use Rattle.dz_monomials.specs.Rows.{AreRates, rows};

use crate::concluding::conclude;
use crate::entry::Entry;
use dz_monomials::{Cell, PolyStop, Powers, Rate, Support, raise_degrees, rows_cells, table_rates};
use dz_rank::{Ranking, Symbol};
use smallvec::SmallVec;
use std::alloc::{AllocError, Global};
use std::collections::VecDeque;

/// The greatest exponent of each symbol that occurs in cells.
fn degrees_of_cells(
    alloc: Global,
    ranking: &Ranking,
    cells: &VecDeque<Cell>,
) -> Result<Powers, AllocError>
    ensures { IfOk result (λ table. table.items
        ≡ degrees (ranking_cmp ranking.now) cells.now.items) }
{
    let mut table = SmallVec::new(alloc);
    for i in 0..cells.len() {
        raise_degrees(ranking, &mut table, cells[cells.len() - 1 - i].powers())?;
    }
    Ok(table)
}

/// The support of the rows of rates.
fn rows_support(
    alloc: Global,
    ranking: &Ranking,
    entry: &Entry,
    rates: &[(Symbol, Rate)],
) -> Result<Support, PolyStop>
    requires entry { IsEntry ranking.now entry.now }
    requires rates { AreRates ranking.now rates.now }
    ensures ok { IfOk result (λ support. IsSupportOf ranking.now
        (rows (ranking_cmp ranking.now) rates.now entry.now.terms)
        support.degrees.items support.cells.items) }
    ensures refused { IfErr result (λ e. IsStop e (operation (symbols_under ranking.now)
        (rows (ranking_cmp ranking.now) rates.now entry.now.terms))) }
{
    let cells = rows_cells(alloc, ranking, entry.terms(), rates)?;
    let degrees = degrees_of_cells(alloc, ranking, &cells)?;
    Ok(Support { degrees, cells })
}

#[tactic(auto, using(crate::proofs::Answered::answered, crate::proofs::Answered::stopped))]
/// What the rows of rates answer.
fn rows_answer(
    alloc: Global,
    ranking: &Ranking,
    entry: &Entry,
    rates: &[(Symbol, Rate)],
) -> Result<Entry, PolyStop>
    requires entry { IsEntry ranking.now entry.now }
    requires rates { AreRates ranking.now rates.now }
    ensures { Answers ranking.now result
        (operation (symbols_under ranking.now) (rows (ranking_cmp ranking.now) rates.now
        entry.now.terms)) }
{
    let support = rows_support(alloc, ranking, entry, rates)?;
    conclude(alloc, ranking, support)
}

#[tactic(auto, using(crate::proofs::Answered::answered, crate::proofs::Answered::stopped))]
/// The derivative by the independent with a number.
pub fn derivative(alloc: Global, ranking: &Ranking, entry: &Entry, i: u8) -> Result<Entry, PolyStop>
    requires entry { IsEntry ranking.now entry.now }
    requires within { i < ranking.now.signature.independents }
    ensures { Answers ranking.now result
        (derivation_answer (symbols_under ranking.now) i entry.now.terms) }
{
    // A ranking has at most four independents.
    let _ = ranking.signature();
    let rates = table_rates(alloc, entry.symbol_degrees(), i)?;
    let derivative = rows_answer(alloc, ranking, entry, rates.as_slice())?;
    Ok(derivative)
}

#[tactic(auto, using(crate::proofs::Answered::answered, crate::proofs::Answered::stopped, dz_monomials::proofs::RateTables::single_rate, dz_monomials::proofs::RateTables::single_row))]
/// The partial derivative by a symbol, which is the separant by it.
pub fn partial_derivative(
    alloc: Global,
    ranking: &Ranking,
    entry: &Entry,
    v: Symbol,
) -> Result<Entry, PolyStop>
    requires { IsEntry ranking.now entry.now }
    ensures { Answers ranking.now result
        (separant_answer (symbols_under ranking.now) v entry.now.terms) }
{
    let separant = rows_answer(alloc, ranking, entry, &[(v, Rate::One)])?;
    Ok(separant)
}
