//! Runs that look for a polynomial without leaders which decides an inequation.

ghost use Rattle.std.specs.Prelude.{◌≡◌, ◌≤◌, ◌<◌, ◌+◌, ℕ, length, None, Ok, Err, IfOk, IfErr, OnOk, OnErr};
ghost use Rattle.dz_poly.specs.Books.{IsKept, Lives, Means, polynomial};
ghost use Rattle.dz_rank.specs.Rankings.{ranking_cmp};
ghost use Rattle.dz_terms.specs.Entries.{IsEntry};
ghost use Rattle.dz_monomials.specs.Ranked.{symbols_under};
ghost use Rattle.dz_monomials.specs.declared.PolyStop.{PolyStop};
ghost use Rattle.dz_diff.specs.States.{LiveAll, MeanAll, StandsIn, polynomials, state_in};
ghost use Rattle.dz_regular.specs.Answers.{IsRegularityIn, IsStopOf, LivesRow, components_in};
ghost use Rattle.dz_regular.specs.Answers.{RunBelongs, StopBelongs};
ghost use Rattle.dz_regular.specs.Identities.{IsRowFor};
ghost use Rattle.dz_regular.specs.Progress.{IsAdvance, IsAt, IsOutcome, combine_stop};
ghost use Rattle.dz_regular.specs.Runs.{Course, greatest_leader, inequation_of, next_combine};
ghost use Rattle.dz_regular.specs.Runs.{regularity_of, regularity_run};
ghost use Rattle.dz_regular.specs.Working.{AreEntries, IsPair, IsRow, IsStage, pair_in, polynomials_of};

use crate::answers::{Combine, CombineStop, RegularStop, Regularity, Row};
use crate::combining::{combined, left_after};
use crate::rows::{WorkingRow, inequation_row};
use crate::stages::{WorkingPair, WorkingStage, after, in_hand};
use dz_diff::State;
use dz_poly::{Book, Poly};
use dz_terms::{Entry, PolyStop, copied};
use std::alloc::{AllocError, Global};

/// The combinations so far, the number of the row that is next, and what is left of the budget.
#[derive(Drop)]
pub(crate) struct WorkingRun {
    pub(crate) run: Vec<Combine>,
    pub(crate) next: u32,
    pub(crate) left: u32,
}

/// The combination of two rows at work.
fn next_combine(pair: &WorkingPair) -> Combine
    ensures { result ≡ next_combine (pair_in pair.now) }
{
    Combine {
        first: pair.first.number,
        second: pair.second.number,
        symbol: pair.symbol,
    }
}

/// Why a combination has no result, as the stop of its run.
fn stop_of(stop: PolyStop, combine: Combine) -> CombineStop
    ensures { result ≡ combine_stop combine stop }
{
    match stop {
        PolyStop::Memory => CombineStop::Memory,
        PolyStop::Wide => CombineStop::Wide(combine),
        PolyStop::Large(limit) => CombineStop::Large(limit, combine),
    }
}

/// One combination: the stage after it, or why the run stops here.
fn advance(
    alloc: Global,
    book: &Book,
    equations: &[Poly],
    run: &mut WorkingRun,
    pair: WorkingPair,
) -> Result<WorkingStage, CombineStop>
    requires live { LiveAll book.now equations.now }
    requires few { length equations.now ≤ 65535 }
    requires pair { IsPair book.now.ranking (length equations.now) pair }
    requires room { run.old.next + run.old.left ≤ 4294967295 }
    ensures rows { IfOk result (λ stage. IsStage book.now.ranking (length equations.now) stage) }
    ensures less { IfOk result (λ _. run.new.left < run.old.left) }
    ensures room { run.new.next + run.new.left ≤ 4294967295 }
    ensures advance { (budget : ℕ) (course : Course)
        → IsAt book.now.ranking (polynomials book.now equations.now) budget course run.old pair
        → IsAdvance book.now.ranking (polynomials book.now equations.now) budget course run.new
        result }
{
    let combine = next_combine(&pair);
    let WorkingPair {
        symbol,
        first,
        second,
    } = pair;
    let components = match combined(
        alloc,
        book.ranking(),
        symbol,
        first.components.as_slice(),
        second.components.as_slice(),
    ) {
        Ok(components) => components,
        Err(stop) => return Err(stop_of(stop, combine)),
    };
    let Some(left) = left_after(components.as_slice(), run.left) else {
        return Err(CombineStop::Spent(combine));
    };
    let row = WorkingRow {
        number: run.next,
        components,
    };
    let Ok(stage) = after(alloc, book, equations, symbol, row, second) else {
        return Err(CombineStop::Memory);
    };
    let Ok(_) = run.run.push(combine) else {
        return Err(CombineStop::Memory);
    };
    run.next += 1;
    run.left = left;
    Ok(stage)
}

/// The combinations from two rows at work on: the row in hand at the end, or why they stop.
fn run_on(
    alloc: Global,
    book: &Book,
    equations: &[Poly],
    run: WorkingRun,
    pair: WorkingPair,
) -> (WorkingRun, Result<WorkingRow, CombineStop>)
    requires live { LiveAll book.now equations.now }
    requires few { length equations.now ≤ 65535 }
    requires pair { IsPair book.now.ranking (length equations.now) pair }
    requires room { run.next + run.left ≤ 4294967295 }
    ensures row { IfOk result.1 (λ row. IsRow book.now.ranking (length equations.now) row) }
    ensures outcome { (budget : ℕ) (course : Course)
        → IsAt book.now.ranking (polynomials book.now equations.now) budget course run pair
        → IsOutcome course result.0 result.1 }
{
    let mut run = run;
    let mut pair = pair;
    'combinations: loop {
        match advance(alloc, book, equations, &mut run, pair) {
            Ok(WorkingStage::AtWork(next)) => pair = next,
            Ok(WorkingStage::Ended(row)) => return (run, Ok(row)),
            Err(stop) => return (run, Err(stop)),
        }
    }
}

/// The run for an inequation: the row in hand at its end, or why it stops.
fn run_for(
    alloc: Global,
    book: &Book,
    equations: &[Poly],
    h: Poly,
    budget: u32,
) -> Result<(WorkingRun, Result<WorkingRow, CombineStop>), AllocError>
    requires live { LiveAll book.now equations.now }
    requires h { Lives book.now h }
    requires few { length equations.now ≤ 65535 }
    requires budget { budget ≤ 20000000 }
    ensures row { IfOk result (λ x.
        IfOk x.1 (λ row. IsRow book.now.ranking (length equations.now) row)) }
    ensures outcome { IfOk result (λ x. IsOutcome (regularity_run
        (symbols_under book.now.ranking) (polynomials book.now equations.now) budget
        (polynomial book.now h)) x.0 x.1) }
{
    let row = inequation_row(alloc, book, equations, h)?;
    let run = WorkingRun {
        run: Vec::new(alloc),
        next: equations.len() as u32 + 1,
        left: budget,
    };
    match in_hand(alloc, book, equations, row)? {
        WorkingStage::Ended(row) => Ok((run, Ok(row))),
        WorkingStage::AtWork(pair) => Ok(run_on(alloc, book, equations, run, pair)),
    }
}

/// Puts a copy of a polynomial into the book.
fn keep_copy(book: &mut Book, entry: &Entry) -> Result<Poly, AllocError>
    requires { IsEntry book.old.ranking entry.now }
    ensures means { IfOk result (λ p. Means book.new p entry.now.terms) }
    ensures kept { IsKept book.old book.new }
{
    let copy = copied(book.allocator(), entry)?;
    let kept = book.keep(copy)?;
    Ok(kept)
}

/// Puts polynomials into the book.
fn kept_polys(alloc: Global, book: &mut Book, entries: &[Entry]) -> Result<Vec<Poly>, AllocError>
    requires { AreEntries book.old.ranking entries.now }
    ensures means { IfOk result (λ ps. MeanAll book.new ps.items (polynomials_of entries.now)) }
    ensures kept { IsKept book.old book.new }
{
    let mut all = Vec::with_capacity(alloc, entries.len())?;
    'entries: for entry in entries {
        let p = keep_copy(book, entry)?;
        all.push(p)?;
    }
    Ok(all)
}

/// Puts the components of a row into the book.
fn kept_row(alloc: Global, book: &mut Book, entries: &[Entry]) -> Result<Row, AllocError>
    requires entries { AreEntries book.old.ranking entries.now }
    requires width { 2 ≤ length entries.now }
    ensures live { IfOk result (λ row. LivesRow book.new row) }
    ensures means { IfOk result (λ row.
        components_in book.new row ≡ polynomials_of entries.now) }
    ensures kept { IsKept book.old book.new }
{
    let rest = keep_copy(book, &entries[0])?;
    let cofactor = keep_copy(book, &entries[1])?;
    let parts = kept_polys(alloc, book, &entries[2..])?;
    Ok(Row {
        rest,
        cofactor,
        parts,
    })
}

/// The run for the inequation at a place, where what memory ran out for stays in the book.
fn answered(
    alloc: Global,
    book: &mut Book,
    equations: &[Poly],
    h: Poly,
    budget: u32,
) -> Result<Result<Regularity, RegularStop>, AllocError>
    requires live { LiveAll book.old equations.now }
    requires h { Lives book.old h }
    requires few { length equations.now ≤ 65535 }
    requires budget { budget ≤ 20000000 }
    ensures ended { IfOk result (λ x. IfOk x (λ y. IsRegularityIn book.new (regularity_run
        (symbols_under book.old.ranking) (polynomials book.old equations.now) budget
        (polynomial book.old h)) y)) }
    ensures stopped { IfOk result (λ x. IfErr x (λ y. IsStopOf (regularity_run
        (symbols_under book.old.ranking) (polynomials book.old equations.now) budget
        (polynomial book.old h)) y.run.items y.stop)) }
    ensures kept { IsKept book.old book.new }
    ensures same { IfOk result (λ x. OnErr x (book.new ≡ book.old)) }
{
    let (run, end) = run_for(alloc, book, equations, h, budget)?;
    match end {
        Ok(row) => {
            let row = kept_row(alloc, book, row.components.as_slice())?;
            Ok(Ok(Regularity { run: run.run, row }))
        }
        Err(stop) => Ok(Err(RegularStop { run: run.run, stop })),
    }
}

/// A row that may decide the inequation at a place, counted from 1, by a run.
///
/// Row 0 is the inequation with the cofactor 1, and row i has the i-th equation as its rest, with
/// the part -1. As long as the rest of the row in hand contains leaders, it and the row of the
/// member with the greatest of them are combined in this leader, of the two rows the one of greater
/// degree first, until one of the two is without it; this row is then in hand. A combination counts
/// 1 and the terms of all components of its result.
pub fn regularity(
    alloc: Global,
    book: &mut Book,
    chain: &State,
    j: u16,
    budget: u32,
) -> Result<Regularity, RegularStop>
    requires stands { StandsIn book.old chain.now }
    requires place { 1 ≤ j }
    requires inside { j ≤ length chain.now.inequations }
    requires budget { budget ≤ 20000000 }
    ensures ended { IfOk result (λ x. IsRegularityIn book.new (regularity_of
        (symbols_under book.old.ranking) (state_in book.old chain.now) budget j) x) }
    ensures stopped { IfErr result (λ x. IsStopOf (regularity_of
        (symbols_under book.old.ranking) (state_in book.old chain.now) budget j)
        x.run.items x.stop) }
    ensures row { IfOk result (λ x. IsRowFor (ranking_cmp book.old.ranking)
        (state_in book.old chain.now).equations (inequation_of (state_in book.old chain.now) j)
        (components_in book.new x.row)) }
    ensures no_leader { IfOk result (λ x. greatest_leader (symbols_under book.old.ranking)
        (state_in book.old chain.now).equations (polynomial book.new x.row.rest) ≡ None) }
    ensures symbols { IfOk result (λ x.
        RunBelongs book.old.ranking.signature x.run.items) }
    ensures stop_symbols { IfErr result (λ x.
        StopBelongs book.old.ranking.signature x.run.items x.stop) }
    ensures kept { OnOk result (IsKept book.old book.new) }
    ensures refused { OnErr result (book.new ≡ book.old) }
{
    // The facts of all books are known of this one: its polynomials are over the ranking.
    book.opened();
    let mark = book.mark();
    let h = chain.inequations()[j as usize - 1];
    match answered(alloc, book, chain.equations(), h, budget) {
        Ok(answer) => answer,
        Err(_) => {
            book.restore(mark);
            Err(RegularStop {
                run: Vec::new(alloc),
                stop: CombineStop::Memory,
            })
        }
    }
}
