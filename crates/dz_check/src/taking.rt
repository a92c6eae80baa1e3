//! Chains that a walk has come to: their states are taken, and stand on in the book.

ghost use Rattle.std.specs.Prelude.{◌≡◌, ◌∷◌, ◌++◌, [], map, length, reverse, ℕ, List, OnOk, IfOk};
ghost use Rattle.dz_poly.specs.Books.{BookValue};
ghost use Rattle.dz_diff.specs.Operations.{Setting};
ghost use Rattle.dz_diff.specs.State.{State as StateRecord};
ghost use Rattle.dz_check.specs.Collecting.{Collects, CollectsOn, StandsFor, chain_at, marked};
ghost use Rattle.dz_move.specs.Lines.{Line as LineValue, is_chain_line};
ghost use Rattle.dz_move.specs.TreeLines.{line_of};

use crate::walking::Pending;
use dz_diff::State;
use dz_move::Line;
use dz_poly::{Book, BookMark};
use std::alloc::AllocError;

/// Whether a line is a chain.
pub(crate) fn is_chain(line: &Line) -> bool
    ensures { result ≡ is_chain_line (line_of line.now) }
{
    matches!(line, Line::Chain)
}

/// The state at a line, where this is a chain.
pub(crate) fn chain_at(line: &Line, state: State) -> Option<State>
    ensures { result ≡ chain_at (line_of line.now) state }
{
    if !is_chain(line) {
        return None;
    }
    Some(state)
}

/// Gives all pending states a mark, so that no restore gives up what the book has up to it.
fn mark_all(stack: &mut Vec<Pending>, mark: BookMark)
    ensures { stack.new.items ≡ map (marked mark) stack.old.items }
{
    for pending in stack.iter_mut() {
        pending.mark = mark;
    }
}

/// Takes the state of a chain. Nothing that the book has is given up any more, up to the mark that
/// is handed on.
pub(crate) fn take_chain(
    book: &Book,
    stack: &mut Vec<Pending>,
    taken: &mut Vec<State>,
    state: State,
) -> Result<BookMark, AllocError>
    ensures mark { IfOk result (λ mark. mark ≡ length book.now.polynomials) }
    ensures stack { OnOk result (reverse stack.new.items
        ≡ map (marked (length book.now.polynomials)) (reverse stack.old.items)) }
    ensures taken { OnOk result (taken.new.items ≡ taken.old.items ++ state ∷ []) }
{
    taken.push(state)?;
    let mark = book.mark();
    mark_all(stack, mark);
    Ok(mark)
}

/// Takes the state of a chain, if there is one.
pub(crate) fn take_any(
    book: &Book,
    stack: &mut Vec<Pending>,
    taken: &mut Vec<State>,
    chain: Option<State>,
) -> Result<(), AllocError>
    ensures stack { OnOk result (StandsFor book.now (reverse stack.old.items)
        (reverse stack.new.items)) }
    ensures collects { OnOk result ((base : BookValue) (g : Setting) (whole : List StateRecord)
        (lines : List LineValue) → CollectsOn base g whole book.now (reverse stack.old.items)
        taken.old.items chain lines
        → Collects base g whole book.now (reverse stack.new.items) taken.new.items lines) }
{
    let Some(state) = chain else {
        return Ok(());
    };
    take_chain(book, stack, taken, state)?;
    Ok(())
}
