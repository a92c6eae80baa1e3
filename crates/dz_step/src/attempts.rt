//! Full runs.

ghost use Rattle.std.specs.Prelude.{◌≡◌, ◌≢◌, ◌<◌, ◌≤◌, ◌+◌, ◌-◌, ℕ, true, [], ◌∷◌, ◌++◌, length, Some, Ok, IfOk, IfErr, OnOk, OnErr};
ghost use Rattle.dz_poly.specs.Books.{IsAdded, IsKept, Lives, polynomial};
ghost use Rattle.dz_terms.specs.Entries.{IsEntry};
ghost use Rattle.dz_diff.specs.Operations.{setting_of};
ghost use Rattle.dz_diff.specs.States.{StandsIn, state_in};
ghost use Rattle.dz_step.specs.Attempts.{IsAttemptOf, ended};
ghost use Rattle.dz_step.specs.Divisors.{AreDivisors};
ghost use Rattle.dz_step.specs.FullRun.{finished, full_run, next_step};
ghost use Rattle.dz_step.specs.Step.{step_in};
ghost use Rattle.dz_step.specs.StepStops.{IsStepStop};
ghost use Rattle.dz_step.specs.declared.attempts.AttemptStop.TheVariants.{Memory};
ghost use Rattle.dz_step.specs.declared.stepping.StepStop.TheVariants.{NotStep};
ghost use Rattle.dz_algebra.specs.Norm.{norm};
ghost use Rattle.dz_algebra.specs.Polynomial.{Polynomial};
ghost use Rattle.dz_rank.specs.declared.symbols.Symbol.{Symbol};
ghost use Rattle.dz_step.specs.Turns.{IsAdvance, IsAt, IsTurn};

use crate::divisors::{Divisor, divisors_of};
use crate::permission::equation_at;
use crate::searching::next_step_entry;
use crate::stepping::{StepStop, step_entry};
use crate::{Role, Step, StepList};
use dz_diff::{State, norm_entry};
use dz_poly::{Book, Limit, Poly};
use dz_terms::Entry;
use std::alloc::{AllocError, Global};
use thiserror::Error;

/// Why a full run stops before its end.
#[derive(Clone, Copy, Debug, PartialEq, Eq, Error)]
pub enum AttemptStop {
    #[error("out of memory")]
    Memory,
    /// An operation of the next step is too wide, and all before it are neither wide nor large.
    #[error("the next step is too wide")]
    Wide(Step),
    /// An operation of the next step passes this limit, and all before it are neither wide nor
    /// large.
    #[error("the next step passes the limit {0:?}")]
    Large(Limit, Step),
    /// The next step has a result, with which the run counts more than the budget.
    #[error("the next step passes the budget")]
    Spent(Step),
}

/// A full run that stops before its end: its steps so far, and why it stops.
#[derive(Drop)]
pub struct Attempt {
    pub run: StepList,
    pub stop: AttemptStop,
}

/// What one turn of a full run does.
#[derive(Drop)]
pub(crate) enum Turn {
    /// There is no further step.
    AtRest,
    /// The next step has this result.
    Taken(Step, Entry),
    Stopped(AttemptStop),
}

/// How far a full run has come: its steps, the result of the last, and what is left of the budget.
#[derive(Drop)]
pub(crate) struct Progress {
    pub(crate) run: StepList,
    pub(crate) rest: Entry,
    pub(crate) left: u32,
}

/// The result of the step that is next on `f`.
fn next_result(
    book: &Book,
    state: &State,
    role: Role,
    f: &Entry,
    step: Step,
) -> Result<Entry, StepStop>
    requires stands { StandsIn book.now state.now }
    requires f { IsEntry book.now.ranking f.now }
    requires next { next_step (setting_of book.now.ranking) (state_in book.now state.now) role
        f.now.terms ≡ Some step }
    ensures ok { IfOk result (λ x. step_in (setting_of book.now.ranking)
        (state_in book.now state.now) role f.now.terms step ≡ Ok x.terms) }
    ensures entry { IfOk result (λ x. IsEntry book.now.ranking x) }
    ensures refused { IfErr result (λ stop. IsStepStop stop (step_in (setting_of book.now.ranking)
        (state_in book.now state.now) role f.now.terms step)) }
    ensures limited { IfErr result (λ stop. stop ≢ NotStep) }
{
    // The facts of all books are known of this one.
    book.opened();
    let Some(p) = equation_at(state, step.place) else {
        unreachable!()
    };
    step_entry(
        book.allocator(),
        book.ranking(),
        f,
        book.entry(p),
        step.operator,
    )
}

/// The turn of the step that is next on `f`.
fn turn_by(book: &Book, state: &State, role: Role, f: &Entry, step: Step) -> Turn
    requires stands { StandsIn book.now state.now }
    requires f { IsEntry book.now.ranking f.now }
    requires next { next_step (setting_of book.now.ranking) (state_in book.now state.now) role
        f.now.terms ≡ Some step }
    ensures { IsTurn book.now.ranking (state_in book.now state.now) role f.now.terms result }
{
    match next_result(book, state, role, f, step) {
        Ok(rest) => Turn::Taken(step, rest),
        Err(StepStop::Memory) => Turn::Stopped(AttemptStop::Memory),
        Err(StepStop::Wide) => Turn::Stopped(AttemptStop::Wide(step)),
        Err(StepStop::Large(limit)) => Turn::Stopped(AttemptStop::Large(limit, step)),
        Err(StepStop::NotStep) => unreachable!(),
    }
}

/// One turn of a full run that is at `f`, apart from its budget.
fn one_turn(
    book: &Book,
    state: &State,
    role: Role,
    table: &mut Vec<Option<Divisor>>,
    f: &Entry,
) -> Turn
    requires stands { StandsIn book.now state.now }
    requires table { AreDivisors book.now.ranking (state_in book.now state.now) role table.old.items }
    requires f { IsEntry book.now.ranking f.now }
    ensures table { AreDivisors book.now.ranking (state_in book.now state.now) role table.new.items }
    ensures turn { IsTurn book.now.ranking (state_in book.now state.now) role f.now.terms
        result }
{
    match next_step_entry(book, state, role, table, f) {
        Ok(Some(step)) => turn_by(book, state, role, f, step),
        Ok(None) => Turn::AtRest,
        Err(_) => Turn::Stopped(AttemptStop::Memory),
    }
}

/// A full run goes on by a step with its result, with which it stays within its budget.
fn take_step(progress: &mut Progress, step: Step, next: Entry) -> Result<(), AllocError>
    requires within { length next.terms < progress.old.left }
    ensures run { OnOk result (progress.new.run ≡ progress.old.run ++ step ∷ []) }
    ensures rest { OnOk result (progress.new.rest ≡ next) }
    ensures left { OnOk result
        (progress.new.left + 1 + length next.terms ≡ progress.old.left) }
    ensures refused { OnErr result (progress.new ≡ progress.old) }
{
    let left = progress.left;
    progress.run.push(step)?;
    progress.left = left - (1 + next.term_count() as u32);
    progress.rest = next;
    Ok(())
}

/// One turn of a full run: whether a step was taken, or why it stops here.
#[tactic(auto, using(crate::proofs::Advances::spends, crate::proofs::Advances::stops))]
fn advance(
    book: &Book,
    state: &State,
    role: Role,
    table: &mut Vec<Option<Divisor>>,
    progress: &mut Progress,
) -> Result<bool, AttemptStop>
    requires stands { StandsIn book.now state.now }
    requires table { AreDivisors book.now.ranking (state_in book.now state.now) role table.old.items }
    requires rest { IsEntry book.now.ranking progress.old.rest }
    ensures table { AreDivisors book.now.ranking (state_in book.now state.now) role table.new.items }
    ensures rest { IsEntry book.now.ranking progress.new.rest }
    ensures less { IfOk result (λ taken. taken ≡ true → progress.new.left < progress.old.left) }
    ensures no_more { progress.new.left ≤ progress.old.left }
    ensures advance { (budget : ℕ) (f : Polynomial Symbol)
        → IsAt book.now.ranking (state_in book.now state.now) role budget f progress.old
        → IsAdvance book.now.ranking (state_in book.now state.now) role budget f progress.new result }
{
    match one_turn(book, state, role, table, &progress.rest) {
        Turn::AtRest => Ok(false),
        Turn::Stopped(stop) => Err(stop),
        Turn::Taken(step, next) => {
            if next.term_count() >= progress.left as usize {
                return Err(AttemptStop::Spent(step));
            }
            if take_step(progress, step, next).is_err() {
                return Err(AttemptStop::Memory);
            }
            Ok(true)
        }
    }
}

/// A full run that comes to its end, from where it is.
fn run_out(
    book: &Book,
    state: &State,
    role: Role,
    table: &mut Vec<Option<Divisor>>,
    first: Progress,
) -> Result<Progress, Attempt>
    requires stands { StandsIn book.now state.now }
    requires table { AreDivisors book.now.ranking (state_in book.now state.now) role table.old.items }
    requires rest { IsEntry book.now.ranking first.rest }
    ensures table { AreDivisors book.now.ranking (state_in book.now state.now) role table.new.items }
    ensures ok { IfOk result (λ p. (budget : ℕ) (f : Polynomial Symbol)
        → IsAt book.now.ranking (state_in book.now state.now) role budget f first
        → full_run (setting_of book.now.ranking) (state_in book.now state.now) role budget f
        ≡ finished p.run p.rest.terms (budget - p.left)) }
    ensures no_more { IfOk result (λ p. p.left ≤ first.left) }
    ensures rest { IfOk result (λ p.
        IsEntry book.now.ranking p.rest) }
    ensures stopped { IfErr result (λ a. (budget : ℕ) (f : Polynomial Symbol)
        → IsAt book.now.ranking (state_in book.now state.now) role budget f first
        → IsAttemptOf (full_run (setting_of book.now.ranking) (state_in book.now state.now) role budget f)
        a.run a.stop) }
{
    let mut progress = first;
    'turns: loop {
        match advance(book, state, role, table, &mut progress) {
            Ok(true) => {}
            Ok(false) => return Ok(progress),
            Err(stop) => {
                return Err(Attempt {
                    run: progress.run,
                    stop,
                });
            }
        }
    }
}

/// An attempt without steps for which memory ran out.
fn no_memory(alloc: Global) -> Attempt
    ensures run { result.run ≡ [] }
    ensures stop { result.stop ≡ Memory }
{
    Attempt {
        run: StepList::new(alloc),
        stop: AttemptStop::Memory,
    }
}

/// A full run that came to its end: its steps, its end, and its count, the number of its steps and
/// of the terms of all their results.
#[derive(Drop)]
pub struct FullRun {
    pub run: StepList,
    pub end: Entry,
    pub count: u32,
}

/// The full run from an entry on, which is the norm of `f`, at a state in a role within a budget,
/// with its end and its count. More may be kept of the divisors after it.
pub fn run_with(
    alloc: Global,
    book: &Book,
    start: Entry,
    state: &State,
    role: Role,
    budget: u32,
    table: &mut Vec<Option<Divisor>>,
) -> Result<FullRun, Attempt>
    requires stands { StandsIn book.now state.now }
    requires start { IsEntry book.now.ranking start }
    requires table { AreDivisors book.now.ranking (state_in book.now state.now) role table.old.items }
    ensures table { AreDivisors book.now.ranking (state_in book.now state.now) role table.new.items }
    ensures finished { IfOk result (λ x. (f : Polynomial Symbol) → start.terms ≡ norm f
        → full_run (setting_of book.now.ranking) (state_in book.now state.now) role budget f
        ≡ finished x.run x.end.terms x.count) }
    ensures end { IfOk result (λ x.
        IsEntry book.now.ranking x.end) }
    ensures stopped { IfErr result (λ a. (f : Polynomial Symbol) → start.terms ≡ norm f
        → IsAttemptOf (full_run (setting_of book.now.ranking) (state_in book.now state.now) role
        budget f) a.run a.stop) }
{
    let first = Progress {
        run: StepList::new(alloc),
        rest: start,
        left: budget,
    };
    match run_out(book, state, role, table, first) {
        Ok(Progress { run, rest, left }) => Ok(FullRun {
            run,
            end: rest,
            count: budget - left,
        }),
        Err(attempt) => Err(attempt),
    }
}

/// The same, where nothing is known of the divisors.
pub fn run_fully(
    alloc: Global,
    book: &Book,
    start: Entry,
    state: &State,
    role: Role,
    budget: u32,
) -> Result<FullRun, Attempt>
    requires stands { StandsIn book.now state.now }
    requires start { IsEntry book.now.ranking start }
    ensures finished { IfOk result (λ x. (f : Polynomial Symbol) → start.terms ≡ norm f
        → full_run (setting_of book.now.ranking) (state_in book.now state.now) role budget f
        ≡ finished x.run x.end.terms x.count) }
    ensures end { IfOk result (λ x.
        IsEntry book.now.ranking x.end) }
    ensures stopped { IfErr result (λ a. (f : Polynomial Symbol) → start.terms ≡ norm f
        → IsAttemptOf (full_run (setting_of book.now.ranking) (state_in book.now state.now) role
        budget f) a.run a.stop) }
{
    let Ok(table) = divisors_of(book, state, role) else {
        return Err(no_memory(alloc));
    };
    let mut table = table;
    run_with(alloc, book, start, state, role, budget, &mut table)
}

/// The full run on `f` at a state in a role within a budget, with its end.
///
/// As long as there is a step in the role, it takes the one at the greatest derivative, with the
/// least place. The count of a run is the number of its steps and of the terms of all their results.
/// Where the run stops before its end, the steps so far are a run, and the next step is named that
/// has no result or makes the count pass the budget. Where memory runs out, the steps so far are the
/// first of those that the full run takes. Only the end is put into the book.
pub fn reduce_fully(
    alloc: Global,
    book: &mut Book,
    f: Poly,
    state: &State,
    role: Role,
    budget: u32,
) -> Result<(StepList, Poly), Attempt>
    requires stands { StandsIn book.old state.now }
    requires f { Lives book.old f }
    ensures ended { IfOk result (λ x.
        ended (full_run (setting_of book.old.ranking) (state_in book.old state.now) role budget
        (polynomial book.old f)) ≡ Some (x.0, polynomial book.new x.1)) }
    ensures stopped { IfErr result (λ a. IsAttemptOf (full_run (setting_of book.old.ranking)
        (state_in book.old state.now) role budget (polynomial book.old f)) a.run a.stop) }
    ensures kept { OnOk result (IsKept book.old book.new) }
    ensures added { IfOk result (λ x. IsAdded book.old book.new x.1) }
    ensures refused { OnErr result (book.new ≡ book.old) }
{
    let Ok(norm) = norm_entry(book, f) else {
        return Err(no_memory(alloc));
    };
    let FullRun { run, end, count: _ } = run_fully(alloc, book, norm, state, role, budget)?;
    match book.keep(end) {
        Ok(end) => Ok((run, end)),
        Err(_) => Err(Attempt {
            run,
            stop: AttemptStop::Memory,
        }),
    }
}
