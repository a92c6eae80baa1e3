//! Moves and forks: the states after them.

ghost use Rattle.std.specs.Prelude.{◌≡◌, ◌≤◌, true, [], ◌∷◌, IfOk, IfErr, OnOk, OnErr};
ghost use Rattle.dz_poly.specs.Books.{IsKept};
ghost use Rattle.dz_monomials.specs.Ranked.{symbols_under};
ghost use Rattle.dz_monomials.specs.Lists.{AllOf};
ghost use Rattle.dz_diff.specs.Operations.{setting_of};
ghost use Rattle.dz_diff.specs.States.{IsStateOf, StandsIn, state_in};
ghost use Rattle.dz_move.specs.Actions.{GivesStates, IsActionStop, IsDrafted, IsPerformed};
ghost use Rattle.dz_move.specs.Actions.{ReachedStand, reached_in};
ghost use Rattle.dz_move.specs.Lines.{act, is_fork_line, is_move_line};
ghost use Rattle.dz_move.specs.Moves.{Action, perform};
ghost use Rattle.dz_move.specs.Parts.{is_act};
ghost use Rattle.dz_move.specs.TreeLines.{action_of, line_of};

use crate::drafts::{Drafted, Performed, Reached, settled};
use crate::fault::{ActionStop, MoveFault};
use crate::forks::{factored, split};
use crate::lines::{Line, Next};
use crate::moves::{divided, grown, reduced, weeded};
use dz_diff::State;
use dz_poly::Book;
use dz_step::StepList;
use std::alloc::Global;

/// The drafts after the action of a line.
fn drafted(book: &mut Book, state: &State, line: &Line) -> Result<Drafted, ActionStop>
    requires stands { StandsIn book.old state.now }
    requires splits { state.now.splits ≤ 200 }
    requires act { is_act (line_of line.now) ≡ true }
    ensures ok { IfOk result (λ x. (action : Action) → line_of line.now ≡ act action
        → IsDrafted book.new x (perform (setting_of book.old.ranking)
        (state_in book.old state.now) action)) }
    ensures refused { IfErr result (λ stop. (action : Action) → line_of line.now ≡ act action
        → IsActionStop stop (perform (setting_of book.old.ranking)
        (state_in book.old state.now) action)) }
    ensures kept { IsKept book.old book.new }
{
    match line {
        Line::Reduce { place, run } => reduced(book, state, *place, run),
        Line::Weed { place, run } => weeded(book, state, *place, run),
        Line::Add { first, second, run } => grown(book, state, *first, *second, run),
        Line::Divide { place, symbol } => divided(book, state, *place, *symbol),
        Line::Split { place, which } => split(book, state, *place, *which),
        Line::Factor { place, symbol } => factored(book, state, *place, *symbol),
        _ => unreachable!(),
    }
}

/// The drafts after the action that an open end names.
fn drafted_next(book: &mut Book, state: &State, next: &Next) -> Result<Drafted, ActionStop>
    requires stands { StandsIn book.old state.now }
    requires splits { state.now.splits ≤ 200 }
    ensures ok { IfOk result (λ x. IsDrafted book.new x (perform (setting_of book.old.ranking)
        (state_in book.old state.now) (action_of next.now))) }
    ensures refused { IfErr result (λ stop. IsActionStop stop (perform
        (setting_of book.old.ranking) (state_in book.old state.now) (action_of next.now))) }
    ensures kept { IsKept book.old book.new }
{
    match next {
        Next::Reduce { place, run } => reduced(book, state, *place, run),
        Next::Weed { place, run } => weeded(book, state, *place, run),
        Next::Pair { first, second, run } => grown(book, state, *first, *second, run),
        Next::Divide { place, symbol } => divided(book, state, *place, *symbol),
        Next::Split { place, which } => split(book, state, *place, *which),
        Next::Factor { place, symbol } => factored(book, state, *place, *symbol),
        Next::Separant { place } => {
            let none = StepList::new(book.allocator());
            reduced(book, state, *place, &none)
        }
    }
}

/// The states after the action of a line.
pub fn performed(book: &mut Book, state: &State, line: &Line) -> Result<Performed, ActionStop>
    requires stands { StandsIn book.old state.now }
    requires facts { IsStateOf (symbols_under book.old.ranking) (state_in book.old state.now) }
    requires act { is_act (line_of line.now) ≡ true }
    ensures ok { IfOk result (λ x. (action : Action) → line_of line.now ≡ act action
        → IsPerformed book.new x (perform (setting_of book.old.ranking)
        (state_in book.old state.now) action)) }
    ensures stand { IfOk result (λ x. ReachedStand book.new x.after) }
    ensures facts { IfOk result (λ x. AllOf (IsStateOf (symbols_under book.new.ranking))
        (reached_in book.new x.after)) }
    ensures refused { IfErr result (λ stop. (action : Action) → line_of line.now ≡ act action
        → IsActionStop stop (perform (setting_of book.old.ranking)
        (state_in book.old state.now) action)) }
    ensures kept { IsKept book.old book.new }
{
    // The facts of all books are known of this one: a ranking has at most four independents.
    book.opened();
    let _ = book.ranking().signature();
    let drafted = drafted(book, state, line)?;
    settled(book, drafted)
}

/// The states after the action that an open end names.
pub fn performed_next(book: &mut Book, state: &State, next: &Next) -> Result<Performed, ActionStop>
    requires stands { StandsIn book.old state.now }
    requires facts { IsStateOf (symbols_under book.old.ranking) (state_in book.old state.now) }
    ensures ok { IfOk result (λ x. IsPerformed book.new x (perform (setting_of book.old.ranking)
        (state_in book.old state.now) (action_of next.now))) }
    ensures refused { IfErr result (λ stop. IsActionStop stop (perform
        (setting_of book.old.ranking) (state_in book.old state.now) (action_of next.now))) }
    ensures kept { IsKept book.old book.new }
{
    // The facts of all books are known of this one: a ranking has at most four independents.
    book.opened();
    let _ = book.ranking().signature();
    let drafted = drafted_next(book, state, next)?;
    settled(book, drafted)
}

/// The state after a move, or the first rule that fails; the budget is not looked at.
pub fn advance(
    alloc: Global,
    book: &mut Book,
    state: &State,
    line: &Line,
) -> Result<State, MoveFault>
    requires stands { StandsIn book.old state.now }
    requires facts { IsStateOf (symbols_under book.old.ranking) (state_in book.old state.now) }
    requires is_move { is_move_line (line_of line.now) ≡ true }
    ensures state { (action : Action) → line_of line.now ≡ act action
        → GivesStates (λ s. state_in book.new s ∷ []) result
        (perform (setting_of book.old.ranking) (state_in book.old state.now) action) }
    ensures stands { IfOk result (λ s. StandsIn book.new s) }
    ensures facts { IfOk result (λ s. IsStateOf (symbols_under book.new.ranking)
        (state_in book.new s)) }
    ensures kept { OnOk result (IsKept book.old book.new) }
    ensures refused { OnErr result (book.new ≡ book.old) }
{
    // The book has an allocator of its own.
    let _ = alloc;
    let mark = book.mark();
    match performed(book, state, line) {
        Ok(Performed { after, weight: _ }) => match after {
            Reached::One(after) => Ok(after),
            Reached::Two(_, _) => unreachable!(),
        },
        Err(stop) => {
            book.restore(mark);
            Err(stop.fault)
        }
    }
}

/// The two states after a fork, or the first rule that fails; the budget is not looked at.
pub fn branches(
    alloc: Global,
    book: &mut Book,
    state: &State,
    line: &Line,
) -> Result<(State, State), MoveFault>
    requires stands { StandsIn book.old state.now }
    requires facts { IsStateOf (symbols_under book.old.ranking) (state_in book.old state.now) }
    requires is_fork { is_fork_line (line_of line.now) ≡ true }
    ensures states { (action : Action) → line_of line.now ≡ act action
        → GivesStates (λ ss. state_in book.new ss.0 ∷ state_in book.new ss.1 ∷ []) result
        (perform (setting_of book.old.ranking) (state_in book.old state.now) action) }
    ensures stand { IfOk result (λ ss. StandsIn book.new ss.0 × StandsIn book.new ss.1) }
    ensures facts { IfOk result (λ ss. IsStateOf (symbols_under book.new.ranking)
        (state_in book.new ss.0) × IsStateOf (symbols_under book.new.ranking)
        (state_in book.new ss.1)) }
    ensures kept { OnOk result (IsKept book.old book.new) }
    ensures refused { OnErr result (book.new ≡ book.old) }
{
    // The book has an allocator of its own.
    let _ = alloc;
    let mark = book.mark();
    match performed(book, state, line) {
        Ok(Performed { after, weight: _ }) => match after {
            Reached::Two(first, second) => Ok((first, second)),
            Reached::One(_) => unreachable!(),
        },
        Err(stop) => {
            book.restore(mark);
            Err(stop.fault)
        }
    }
}
