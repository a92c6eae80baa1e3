//! The action that an open end names, performed.

ghost use Rattle.std.specs.Prelude.{◌≡◌, IfOk, IfErr, OnOk, OnErr};
ghost use Rattle.dz_poly.specs.Books.{IsKept};
ghost use Rattle.dz_monomials.specs.Ranked.{symbols_under};
ghost use Rattle.dz_diff.specs.Operations.{setting_of};
ghost use Rattle.dz_diff.specs.States.{IsStateOf, StandsIn, state_in};
ghost use Rattle.dz_terms.specs.Entries.{IsEntry};
ghost use Rattle.dz_move.specs.Actions.{IsActionStop, IsDrafted, IsMoveFault, IsPerformed};
ghost use Rattle.dz_move.specs.KnownEnds.{IsKnownEnd};
ghost use Rattle.dz_move.specs.Moves.{perform};
ghost use Rattle.dz_move.specs.TreeLines.{action_of};

use crate::drafts::{Drafted, Performed, settled};
use crate::fault::{ActionStop, MoveFault};
use crate::lines::Next;
use crate::moves::{grown_to, reduced_to, weeded_to};
use crate::pair_runs::ActionEnd;
use crate::performing::performed_next;
use dz_diff::State;
use dz_poly::Book;
use dz_step::StepList;
use std::alloc::Global;

/// The states after the action that is named, with its weight, or the first rule that fails; the
/// budget is not looked at.
#[tactic(auto, using(crate::proofs::ReachedStates::stop_fault))]
pub fn perform_next(
    alloc: Global,
    book: &mut Book,
    state: &State,
    next: &Next,
) -> Result<Performed, MoveFault>
    requires stands { StandsIn book.old state.now }
    requires facts { IsStateOf (symbols_under book.old.ranking) (state_in book.old state.now) }
    ensures states { IfOk result (λ x. IsPerformed book.new x (perform
        (setting_of book.old.ranking) (state_in book.old state.now) (action_of next.now))) }
    ensures fault { IfErr result (λ fault. IsMoveFault fault (perform
        (setting_of book.old.ranking) (state_in book.old state.now) (action_of next.now))) }
    ensures kept { OnOk result (IsKept book.old book.new) }
    ensures refused { OnErr result (book.new ≡ book.old) }
{
    // The book has an allocator of its own.
    let _ = alloc;
    let mark = book.mark();
    match performed_next(book, state, next) {
        Ok(performed) => Ok(performed),
        Err(stop) => {
            book.restore(mark);
            Err(stop.fault)
        }
    }
}

/// The drafts after an action whose run has a known end.
fn drafted_to(
    book: &mut Book,
    state: &State,
    next: &Next,
    end: ActionEnd,
) -> Result<Drafted, ActionStop>
    requires stands { StandsIn book.old state.now }
    requires end { IsKnownEnd (setting_of book.old.ranking) (state_in book.old state.now)
        (action_of next.now) end }
    requires entry { IsEntry book.old.ranking end.run.end }
    ensures ok { IfOk result (λ x. IsDrafted book.new x (perform (setting_of book.old.ranking)
        (state_in book.old state.now) (action_of next.now))) }
    ensures refused { IfErr result (λ stop. IsActionStop stop (perform
        (setting_of book.old.ranking) (state_in book.old state.now) (action_of next.now))) }
    ensures kept { IsKept book.old book.new }
{
    match next {
        Next::Reduce { place, run } => reduced_to(book, state, *place, run, end.run),
        Next::Weed { place, run } => weeded_to(book, state, *place, run, end.run),
        Next::Pair { first, second, run } => grown_to(book, state, *first, *second, run, end),
        Next::Separant { place } => {
            let none = StepList::new(book.allocator());
            reduced_to(book, state, *place, &none, end.run)
        }
        _ => unreachable!(),
    }
}

/// The same, where the polynomials that are made on the way stay in the book on a refusal.
fn performed_to(
    book: &mut Book,
    state: &State,
    next: &Next,
    end: ActionEnd,
) -> Result<Performed, ActionStop>
    requires stands { StandsIn book.old state.now }
    requires facts { IsStateOf (symbols_under book.old.ranking) (state_in book.old state.now) }
    requires end { IsKnownEnd (setting_of book.old.ranking) (state_in book.old state.now)
        (action_of next.now) end }
    requires entry { IsEntry book.old.ranking end.run.end }
    ensures ok { IfOk result (λ x. IsPerformed book.new x (perform (setting_of book.old.ranking)
        (state_in book.old state.now) (action_of next.now))) }
    ensures refused { IfErr result (λ stop. IsActionStop stop (perform
        (setting_of book.old.ranking) (state_in book.old state.now) (action_of next.now))) }
    ensures kept { IsKept book.old book.new }
{
    // The facts of all books are known of this one: a ranking has at most four independents.
    book.opened();
    let _ = book.ranking().signature();
    let drafted = drafted_to(book, state, next, end)?;
    settled(book, drafted)
}

/// The states after a reduce, a weed or a pair whose run has a known end, which is not taken again.
#[tactic(auto, using(crate::proofs::ReachedStates::stop_fault))]
pub fn perform_to(
    alloc: Global,
    book: &mut Book,
    state: &State,
    next: &Next,
    end: ActionEnd,
) -> Result<Performed, MoveFault>
    requires stands { StandsIn book.old state.now }
    requires facts { IsStateOf (symbols_under book.old.ranking) (state_in book.old state.now) }
    requires end { IsKnownEnd (setting_of book.old.ranking) (state_in book.old state.now)
        (action_of next.now) end }
    requires entry { IsEntry book.old.ranking end.run.end }
    ensures states { IfOk result (λ x. IsPerformed book.new x (perform
        (setting_of book.old.ranking) (state_in book.old state.now) (action_of next.now))) }
    ensures fault { IfErr result (λ fault. IsMoveFault fault (perform
        (setting_of book.old.ranking) (state_in book.old state.now) (action_of next.now))) }
    ensures kept { OnOk result (IsKept book.old book.new) }
    ensures refused { OnErr result (book.new ≡ book.old) }
{
    // The book has an allocator of its own.
    let _ = alloc;
    let mark = book.mark();
    match performed_to(book, state, next, end) {
        Ok(performed) => Ok(performed),
        Err(stop) => {
            book.restore(mark);
            Err(stop.fault)
        }
    }
}
