//! What the order of work does at a state.

ghost use Rattle.std.specs.Prelude.{◌≡◌, ◌≤◌, ℕ, false, map, IfOk, OnOk, MatchResult};
ghost use Rattle.dz_poly.specs.Books.{BookValue, IsKept};
ghost use Rattle.dz_monomials.specs.Ranked.{symbols_under};
ghost use Rattle.dz_diff.specs.Operations.{Setting, setting_of};
ghost use Rattle.dz_diff.specs.State.{State as DefinedState};
ghost use Rattle.dz_diff.specs.States.{IsStateOf, StandsIn, state_in};
ghost use Rattle.dz_move.specs.Actions.{IsMoveFault, IsPerformed};
ghost use Rattle.dz_move.specs.Lines.{lines_of_entry};
ghost use Rattle.dz_move.specs.Moves.{perform};
ghost use Rattle.dz_move.specs.Parts.{is_act};
ghost use Rattle.dz_move.specs.TreeLines.{action_of, line_of};
ghost use Rattle.dz_engine.specs.Facts.{AreKnown};
ghost use Rattle.dz_engine.specs.Naming.{IsAction, IsDone};
ghost use Rattle.dz_engine.specs.Order.{line_alone, next_entry, plain};

use crate::facts::Facts;
use crate::naming::{Named, acted, entry_named};
use dz_move::{Line, MoveFault, Next, Performed, Reached, perform_next, perform_to};
use dz_poly::Book;
use dz_step::State;
use std::alloc::{AllocError, Global};

/// The lines at a state, their weight, and the states that they leave.
#[derive(Drop)]
pub(crate) struct Worked {
    pub(crate) lines: Vec<Line>,
    pub(crate) weight: u32,
    pub(crate) after: Option<Reached>,
}

/// An end of one line.
fn one_line(alloc: Global, line: Line) -> Result<Worked, AllocError>
    ensures { IfOk result (λ x. (book : BookValue) (g : Setting) (s : DefinedState)
        → is_act (line_of line) ≡ false → IsDone book g s x (line_alone (line_of line))) }
{
    let mut lines = Vec::new(alloc);
    lines.push(line)?;
    Ok(Worked {
        lines,
        weight: 0,
        after: None,
    })
}

/// An action that holds: it is done within the budget, and else an open end.
fn done(
    alloc: Global,
    next: Next,
    weight: u32,
    budget: u32,
    performed: Performed,
) -> Result<Worked, AllocError>
    requires action { IsAction next }
    requires within { weight ≤ budget }
    ensures { IfOk result (λ x. (book : BookValue) (g : Setting) (s : DefinedState)
        → IsPerformed book performed (perform g s (action_of next))
        → IsDone book g s x (plain g budget weight s (action_of next))) }
{
    let Performed {
        after,
        weight: cost,
    } = performed;
    if cost > (budget - weight) as usize {
        return one_line(alloc, Line::Spent(next));
    }
    let mut lines = Vec::new(alloc);
    lines.push(acted(next))?;
    Ok(Worked {
        lines,
        weight: cost as u32,
        after: Some(after),
    })
}

/// The open end of an action with a fault. The order of work names none that fails by another rule
/// than those of size.
fn open_line(next: Next, fault: MoveFault) -> Result<Line, AllocError>
    ensures line { IfOk result (λ line. (g : Setting) (budget w : ℕ) (s : DefinedState)
        → IsMoveFault fault (perform g s (action_of next)) → IsAction next
        → line_alone (line_of line) ≡ plain g budget w s (action_of next)) }
    ensures open { IfOk result (λ line. IsAction next → is_act (line_of line) ≡ false) }
{
    match fault {
        MoveFault::Memory => Err(AllocError),
        MoveFault::Wide => Ok(Line::Wide(next)),
        MoveFault::Large(limit) => Ok(Line::Large(limit, next)),
        MoveFault::NotPermitted(_) => Ok(Line::Spent(next)),
    }
}

/// What is done where an action is named, by what it leads to.
fn told(
    alloc: Global,
    next: Next,
    weight: u32,
    budget: u32,
    answer: Result<Performed, MoveFault>,
) -> Result<Worked, AllocError>
    requires action { IsAction next }
    requires within { weight ≤ budget }
    ensures { IfOk result (λ x. (book : BookValue) (g : Setting) (s : DefinedState)
        → MatchResult answer (λ d. IsPerformed book d (perform g s (action_of next)))
        (λ fault. IsMoveFault fault (perform g s (action_of next)))
        → IsDone book g s x (plain g budget weight s (action_of next))) }
{
    match answer {
        Ok(performed) => done(alloc, next, weight, budget, performed),
        Err(fault) => {
            let line = open_line(next, fault)?;
            one_line(alloc, line)
        }
    }
}

/// What the order of work does at a state and a running weight. The polynomials that are made stay
/// in the book.
pub(crate) fn work(
    alloc: Global,
    book: &mut Book,
    state: &State,
    weight: u32,
    budget: u32,
    facts: &mut Vec<Facts>,
) -> Result<Worked, AllocError>
    requires stands { StandsIn book.old state.now }
    requires facts { IsStateOf (symbols_under book.old.ranking) (state_in book.old state.now) }
    requires within { weight ≤ budget }
    requires most { budget ≤ 20000000 }
    requires known { AreKnown book.old facts.old.items }
    ensures known { OnOk result (AreKnown book.new facts.new.items) }
    ensures done { IfOk result (λ x. IsDone book.new (setting_of book.old.ranking)
        (state_in book.old state.now) x (next_entry (setting_of book.old.ranking) budget weight
        (state_in book.old state.now))) }
    ensures kept { IsKept book.old book.new }
{
    let named = entry_named(book, state, weight, budget, facts)?;
    match named {
        Named::Perform(next) => {
            let answer = perform_next(alloc, book, state, &next);
            told(alloc, next, weight, budget, answer)
        }
        Named::Known(next, end) => {
            let answer = perform_to(alloc, book, state, &next, end);
            told(alloc, next, weight, budget, answer)
        }
        Named::End(lines, weight) => Ok(Worked {
            lines,
            weight,
            after: None,
        }),
    }
}

/// The line that the order of work names at a state and a running weight, and its evidence after
/// it. The book is as before.
pub fn next_line(
    alloc: Global,
    book: &mut Book,
    state: &State,
    weight: u32,
    budget: u32,
) -> Result<Vec<Line>, AllocError>
    requires stands { StandsIn book.old state.now }
    requires facts { IsStateOf (symbols_under book.old.ranking) (state_in book.old state.now) }
    requires within { weight ≤ budget }
    requires most { budget ≤ 20000000 }
    ensures lines { IfOk result (λ lines. map line_of lines.items ≡ lines_of_entry (next_entry
        (setting_of book.old.ranking) budget weight (state_in book.old state.now))) }
    ensures book { book.new ≡ book.old }
{
    let mark = book.mark();
    let mut facts = Vec::new(alloc);
    let worked = work(alloc, book, state, weight, budget, &mut facts);
    book.restore(mark);
    match worked {
        Ok(Worked { lines, .. }) => Ok(lines),
        Err(error) => Err(error),
    }
}
