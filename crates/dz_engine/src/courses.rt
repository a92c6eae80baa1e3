//! Full runs on members, as the order of work names them.

ghost use Rattle.std.specs.Prelude.{◌≡◌, ◌≤◌, ◌-◌, ◌+◌, ℕ, Some, IfOk, IfErr, IsSome};
ghost use Rattle.dz_algebra.specs.Norm.{norm};
ghost use Rattle.dz_algebra.specs.Polynomial.{Polynomial};
ghost use Rattle.dz_terms.specs.Entries.{IsEntry};
ghost use Rattle.dz_poly.specs.Books.{BookValue, Lives, polynomial};
ghost use Rattle.dz_rank.specs.Rankings.{RankingValue};
ghost use Rattle.dz_rank.specs.declared.symbols.Symbol.{Symbol};
ghost use Rattle.dz_diff.specs.Operations.{Setting, setting_of};
ghost use Rattle.dz_diff.specs.State.{State as DefinedState, at_place};
ghost use Rattle.dz_diff.specs.States.{LiveAll, StandsIn, polynomials, state_in};
ghost use Rattle.dz_step.specs.Attempts.{IsAttemptOf};
ghost use Rattle.dz_step.specs.Divisors.{AreDivisors};
ghost use Rattle.dz_step.specs.FullRun.{Course, finished, full_run};
ghost use Rattle.dz_step.specs.declared.Role.TheVariants.{Free};
ghost use Rattle.dz_move.specs.TreeLines.{action_of};
ghost use Rattle.dz_engine.specs.Finding.{role_in};
ghost use Rattle.dz_engine.specs.Halting.{IsHalt};
ghost use Rattle.dz_engine.specs.Naming.{CourseHasEntry, HasEntry, IsAction, IsCoursed, IsNamed};
ghost use Rattle.dz_engine.specs.Naming.{members_of, run_action};
ghost use Rattle.dz_engine.specs.Order.{by_course};

use crate::admitting::Members;
use crate::halting::{Halt, halted};
use crate::naming::{Named, ended};
use dz_diff::norm_entry;
use dz_move::{ActionEnd, Line, Next};
use dz_poly::{Book, Limit, Poly};
use dz_step::{
    Attempt, Divisor, FullRun, Role, RunEnd, State, StepList, member_at, run_fully, run_with,
};
use dz_terms::Entry;
use std::alloc::{AllocError, Global};

/// A full run as it is named: its steps up to its end, with the end and its count, or up to its
/// budget, or up to the operation that is refused.
#[derive(Drop)]
pub(crate) enum Coursed {
    Ended(StepList, RunEnd),
    Steps(StepList),
    Wide(StepList),
    Large(Limit, StepList),
}

/// A run that stops before its end.
fn halted_course(halt: Halt) -> Coursed
    ensures course { (course : Course) → IsHalt halt course → IsCoursed result course }
    ensures entry { (r : RankingValue) → CourseHasEntry r result }
{
    match halt {
        Halt::Passed(run) => Coursed::Steps(run),
        Halt::Wide(run) => Coursed::Wide(run),
        Halt::Large(limit, run) => Coursed::Large(limit, run),
    }
}

/// The full run on the member at a place, from its norm on. What is kept of the divisors is used up.
fn run_on(
    book: &Book,
    state: &State,
    members: Members,
    place: u16,
    start: Entry,
    budget: u32,
    table: &mut Vec<Option<Divisor>>,
) -> Result<FullRun, Attempt>
    requires stands { StandsIn book.now state.now }
    requires start { IsEntry book.now.ranking start }
    requires table { AreDivisors book.now.ranking (state_in book.now state.now) Free table.old.items }
    requires there { IsSome (at_place place (members_of members (state_in book.now state.now))) }
    ensures finished { IfOk result (λ x. (f : Polynomial Symbol) → start.terms ≡ norm f
        → full_run (setting_of book.now.ranking) (state_in book.now state.now)
        (role_in members place) budget f ≡ finished x.run x.end.terms x.count) }
    ensures end { IfOk result (λ x.
        IsEntry book.now.ranking x.end) }
    ensures stopped { IfErr result (λ a. (f : Polynomial Symbol) → start.terms ≡ norm f
        → IsAttemptOf (full_run (setting_of book.now.ranking) (state_in book.now state.now)
        (role_in members place) budget f) a.run a.stop) }
{
    let alloc = book.allocator();
    match members {
        Members::Equations => {
            // The equation itself is no divisor.
            table[place as usize - 1] = None;
            run_with(
                alloc,
                book,
                start,
                state,
                Role::Equation(place),
                budget,
                table,
            )
        }
        Members::Inequations => {
            run_fully(alloc, book, start, state, Role::Inequation(place), budget)
        }
    }
}

/// The full run on the member at a place.
fn course(
    book: &Book,
    state: &State,
    members: Members,
    place: u16,
    p: Poly,
    budget: u32,
    table: &mut Vec<Option<Divisor>>,
) -> Result<Coursed, AllocError>
    requires stands { StandsIn book.now state.now }
    requires lives { Lives book.now p }
    requires table { AreDivisors book.now.ranking (state_in book.now state.now) Free table.old.items }
    requires there { IsSome (at_place place (members_of members (state_in book.now state.now))) }
    ensures course { IfOk result (λ x. IsCoursed x (full_run (setting_of book.now.ranking)
        (state_in book.now state.now) (role_in members place) budget (polynomial book.now p))) }
    ensures entry { IfOk result (λ x. CourseHasEntry book.now.ranking x) }
{
    let norm = norm_entry(book, p)?;
    match run_on(book, state, members, place, norm, budget, table) {
        Ok(FullRun { run, end, count }) => Ok(Coursed::Ended(
            run,
            RunEnd {
                end,
                count: count as usize,
            },
        )),
        Err(attempt) => {
            let halt = halted(attempt)?;
            Ok(halted_course(halt))
        }
    }
}

/// The name of a full run on a member.
fn run_name(members: Members, place: u16, run: StepList) -> Next
    ensures name { action_of result ≡ run_action members place run }
    ensures action { IsAction result }
{
    match members {
        Members::Equations => Next::Reduce { place, run },
        Members::Inequations => Next::Weed { place, run },
    }
}

/// The polynomials of one of the lists.
fn members_of(state: &State, members: Members) -> &[Poly]
    ensures value { (book : BookValue) → polynomials book result.now
        ≡ members_of members (state_in book state.now) }
    ensures live { (book : BookValue) → StandsIn book state.now → LiveAll book result.now }
{
    match members {
        Members::Equations => state.equations(),
        Members::Inequations => state.inequations(),
    }
}

/// What is named for a full run on a member.
fn course_named(
    alloc: Global,
    members: Members,
    place: u16,
    coursed: Coursed,
) -> Result<Named, AllocError>
    ensures named { IfOk result (λ x. (g : Setting) (budget w left : ℕ) (s : DefinedState)
        (p : Polynomial Symbol) → at_place place (members_of members s) ≡ Some p
        → IsCoursed coursed (full_run g s (role_in members place) left p)
        → IsNamed g budget w s x (by_course g budget w s (run_action members place)
        (full_run g s (role_in members place) left p))) }
    ensures entry { IfOk result (λ x. (r : RankingValue) → CourseHasEntry r coursed
        → HasEntry r x) }
{
    match coursed {
        Coursed::Ended(run, end) => {
            let end = ActionEnd { terms: 0, run: end };
            Ok(Named::Known(run_name(members, place, run), end))
        }
        Coursed::Steps(run) => Ok(Named::Perform(run_name(members, place, run))),
        Coursed::Wide(run) => ended(alloc, Line::Wide(run_name(members, place, run))),
        Coursed::Large(limit, run) => {
            ended(alloc, Line::Large(limit, run_name(members, place, run)))
        }
    }
}

/// What is named where the member at a place admits a step, by a full run.
pub(crate) fn run_named(
    book: &Book,
    state: &State,
    members: Members,
    place: u16,
    weight: u32,
    budget: u32,
    table: &mut Vec<Option<Divisor>>,
) -> Result<Named, AllocError>
    requires stands { StandsIn book.now state.now }
    requires within { weight ≤ budget }
    requires most { budget ≤ 20000000 }
    requires table { AreDivisors book.now.ranking (state_in book.now state.now) Free table.old.items }
    requires there { IsSome (at_place place (members_of members (state_in book.now state.now))) }
    ensures entry { IfOk result (λ x. HasEntry book.now.ranking x) }
    ensures named { IfOk result (λ x. (p : Polynomial Symbol)
        → at_place place (members_of members (state_in book.now state.now)) ≡ Some p
        → IsNamed (setting_of book.now.ranking) budget weight (state_in book.now state.now) x
        (by_course (setting_of book.now.ranking) budget weight (state_in book.now state.now)
        (run_action members place) (full_run (setting_of book.now.ranking)
        (state_in book.now state.now) (role_in members place) (budget - (weight + 1)) p))) }
{
    let Some(p) = member_at(members_of(state, members), place) else {
        unreachable!()
    };
    let left = budget.saturating_sub(weight + 1);
    let coursed = course(book, state, members, place, p, left, table)?;
    course_named(book.allocator(), members, place, coursed)
}
