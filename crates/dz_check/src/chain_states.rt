//! The states of the chains of a certified tree.

ghost use Rattle.std.specs.Prelude.{◌≡◌, ◌≤◌, ◌∷◌, [], true, false, map, length, reverse, ℕ, List};
ghost use Rattle.std.specs.Prelude.{All, Ok, IfOk, OnOk, OnErr};
ghost use Rattle.dz_poly.specs.Books.{BookValue, IsKept};
ghost use Rattle.dz_monomials.specs.Ranked.{symbols_under};
ghost use Rattle.dz_diff.specs.Operations.{setting_of};
ghost use Rattle.dz_diff.specs.State.{State as StateRecord};
ghost use Rattle.dz_diff.specs.States.{IsStateOf, StandsIn, state_in};
ghost use Rattle.dz_check.specs.Certified.{IsCertified};
ghost use Rattle.dz_check.specs.Collecting.{AreCollected, Holds, IsCollecting, LeavesAgain};
ghost use Rattle.dz_tree.specs.EvidenceLines.{is_pair_line};
ghost use Rattle.dz_move.specs.Lines.{Line as LineValue, entries_of};
ghost use Rattle.dz_move.specs.Parts.{is_act};
ghost use Rattle.dz_check.specs.Pending.{StackedIn, cut};
ghost use Rattle.dz_move.specs.Systems.{IsSystemIn, system_in};
ghost use Rattle.dz_move.specs.TreeLines.{line_of};
ghost use Rattle.dz_check.specs.Walk.{End, chains_of, ends_in, ends_of, walk};

use crate::entering::Left;
use crate::taking::{is_chain, take_chain};
use crate::walking::{Pending, is_pair, push_left, push_state};
use dz_diff::State;
use dz_move::{Line, MoveFault, Performed, System, performed, root};
use dz_poly::{Book, BookMark};
use dz_tree::Tree;
use std::alloc::{AllocError, Global};

/// A state that was taken up, and what its entry leaves.
#[derive(Drop)]
struct Retaken {
    state: State,
    left: Left,
}

/// Whether a line is a move or a fork.
fn is_action(line: &Line) -> bool
    ensures { result ≡ is_act (line_of line.now) }
{
    match line {
        Line::Reduce { .. } | Line::Weed { .. } | Line::Add { .. } => true,
        Line::Divide { .. } | Line::Split { .. } | Line::Factor { .. } => true,
        _ => false,
    }
}

/// The states after a move or a fork that holds.
fn acted_again(book: &mut Book, state: &State, line: &Line) -> Result<Left, AllocError>
    requires stands { StandsIn book.old state.now }
    requires facts { IsStateOf (symbols_under book.old.ranking) (state_in book.old state.now) }
    requires act { is_act (line_of line.now) ≡ true }
    requires holds { Holds (setting_of book.old.ranking) (state_in book.old state.now)
        (line_of line.now) }
    ensures left { IfOk result (λ left. LeavesAgain book.new (setting_of book.old.ranking)
        (state_in book.old state.now) (line_of line.now) left) }
    ensures kept { IsKept book.old book.new }
{
    match performed(book, state, line) {
        Ok(Performed { after, weight: _ }) => Ok(Left::States(after)),
        Err(stop) => match stop.fault {
            MoveFault::Memory => Err(AllocError),
            _ => unreachable!(),
        },
    }
}

/// What is left below a state by an entry that holds.
fn left_again(book: &mut Book, state: &State, line: &Line) -> Result<Left, AllocError>
    requires stands { StandsIn book.old state.now }
    requires facts { IsStateOf (symbols_under book.old.ranking) (state_in book.old state.now) }
    requires holds { Holds (setting_of book.old.ranking) (state_in book.old state.now)
        (line_of line.now) }
    ensures left { IfOk result (λ left. LeavesAgain book.new (setting_of book.old.ranking)
        (state_in book.old state.now) (line_of line.now) left) }
    ensures kept { IsKept book.old book.new }
{
    if is_action(line) {
        return acted_again(book, state, line);
    }
    Ok(Left::End)
}

/// Takes up a pending state, whose entry holds: the polynomials after its mark are given up.
fn retake(book: &mut Book, top: Pending, line: &Line) -> Result<Retaken, AllocError>
    requires mark { top.mark ≤ length book.old.polynomials }
    requires stands { StandsIn (cut top.mark book.old) top.state }
    requires facts { IsStateOf (symbols_under book.old.ranking)
        (state_in (cut top.mark book.old) top.state) }
    requires holds { Holds (setting_of book.old.ranking) (state_in (cut top.mark book.old) top.state)
        (line_of line.now) }
    ensures state { IfOk result (λ x. x.state ≡ top.state) }
    ensures left { IfOk result (λ x. LeavesAgain book.new (setting_of book.old.ranking)
        (state_in (cut top.mark book.old) top.state) (line_of line.now) x.left) }
    ensures kept { IsKept (cut top.mark book.old) book.new }
{
    let Pending { state, mark } = top;
    book.restore(mark);
    let left = left_again(book, &state, line)?;
    Ok(Retaken { state, left })
}

/// One line of a certified tree: the pending state on top is taken up, the states that are left come
/// in its place, and at a chain it is taken. The mark before which nothing is given up any more is
/// handed on.
fn collect(
    book: &mut Book,
    stack: &mut Vec<Pending>,
    taken: &mut Vec<State>,
    floor: BookMark,
    line: &Line,
) -> Result<BookMark, AllocError>
    requires collects { (base : BookValue) × (whole : List StateRecord) × (lines : List LineValue)
        × IsCollecting base (setting_of book.old.ranking) whole book.old floor
        (reverse stack.old.items) taken.old.items (line_of line.now ∷ lines) }
    requires no_pair { is_pair_line (line_of line.now) ≡ false }
    ensures ok { IfOk result (λ mark. (base : BookValue) (whole : List StateRecord)
        (lines : List LineValue) → IsCollecting base (setting_of book.old.ranking) whole book.old
        floor (reverse stack.old.items) taken.old.items (line_of line.now ∷ lines)
        → IsCollecting base (setting_of book.old.ranking) whole book.new mark
        (reverse stack.new.items) taken.new.items lines) }
    ensures kept { (floor : BookValue) → StackedIn floor book.old (reverse stack.old.items)
        → IsKept floor book.new }
{
    let Some(top) = stack.pop() else {
        unreachable!();
    };
    let Retaken { state, left } = retake(book, top, line)?;
    push_left(book, stack, left)?;
    if !is_chain(line) {
        return Ok(floor);
    }
    take_chain(book, stack, taken, state)
}

/// The states of the chains in lines, by a walk over them from a stack of states on.
fn collected(
    book: &mut Book,
    stack: &mut Vec<Pending>,
    lines: &[Line],
) -> Result<Vec<State>, AllocError>
    requires collects { (whole : List StateRecord) × IsCollecting book.old
        (setting_of book.old.ranking) whole book.old (length book.old.polynomials)
        (reverse stack.old.items) [] (map line_of lines.now) }
    ensures ok { IfOk result (λ taken. (whole : List StateRecord) → IsCollecting book.old
        (setting_of book.old.ranking) whole book.old (length book.old.polynomials)
        (reverse stack.old.items) [] (map line_of lines.now)
        → AreCollected book.old book.new whole taken.items) }
    ensures kept { IsKept book.old book.new }
{
    let mut taken = Vec::new(book.allocator());
    let mut floor = book.mark();
    'lines: for k in 0..lines.len() {
        let line = &lines[k];
        if is_pair(line) {
            continue;
        }
        floor = collect(book, stack, &mut taken, floor, line)?;
    }
    book.restore(floor);
    Ok(taken)
}

/// The states of the chains in the lines of a certified tree, from its root on.
fn chain_states(book: &mut Book, root: State, lines: &[Line]) -> Result<Vec<State>, AllocError>
    requires stands { StandsIn book.old root }
    requires facts { IsStateOf (symbols_under book.old.ranking) (state_in book.old root) }
    requires certified { (budget : ℕ) × (ends : List End) × (walk (setting_of book.old.ranking)
        budget 0 1 (state_in book.old root ∷ []) (entries_of (map line_of lines.now)) ≡ Ok ends) }
    ensures ok { IfOk result (λ taken. (budget : ℕ) (ends : List End)
        → walk (setting_of book.old.ranking) budget 0 1 (state_in book.old root ∷ [])
        (entries_of (map line_of lines.now)) ≡ Ok ends
        → AreCollected book.old book.new (chains_of ends) taken.items) }
    ensures kept { IsKept book.old book.new }
{
    let mut stack = Vec::new(book.allocator());
    push_state(&mut stack, root, book.mark())?;
    collected(book, &mut stack, lines)
}

/// The states of the chains of a certified tree, where the polynomials that are made on the way stay
/// in the book on a refusal.
fn taken_chains(
    alloc: Global,
    book: &mut Book,
    system: &System,
    tree: &Tree,
) -> Result<Vec<State>, AllocError>
    requires system { IsSystemIn book.old system.now }
    requires certified { IsCertified (setting_of book.old.ranking)
        (system_in book.old system.now) tree.now }
    ensures ok { IfOk result (λ taken. AreCollected book.old book.new (chains_of (ends_in (ends_of
        (setting_of book.old.ranking) (system_in book.old system.now) tree.now))) taken.items) }
    ensures kept { IsKept book.old book.new }
{
    let root = root(alloc, book, system)?;
    chain_states(book, root, tree.lines())
}

/// The states of the chains of a certified tree, in their order. The polynomials of a branch without
/// a chain are given up when the next one is taken up.
pub fn chains(
    alloc: Global,
    book: &mut Book,
    system: &System,
    tree: &Tree,
) -> Result<Vec<State>, AllocError>
    requires system { IsSystemIn book.old system.now }
    requires certified { IsCertified (setting_of book.old.ranking)
        (system_in book.old system.now) tree.now }
    ensures chains { IfOk result (λ states. map (λ s. state_in book.new s) states.items
        ≡ chains_of (ends_in (ends_of (setting_of book.old.ranking)
        (system_in book.old system.now) tree.now))) }
    ensures stand { IfOk result (λ states. All (λ s. StandsIn book.new s) states.items) }
    ensures facts { IfOk result (λ states. All (λ s. IsStateOf (symbols_under book.new.ranking)
        (state_in book.new s)) states.items) }
    ensures kept { OnOk result (IsKept book.old book.new) }
    ensures refused { OnErr result (book.new ≡ book.old) }
{
    let mark = book.mark();
    match taken_chains(alloc, book, system, tree) {
        Ok(states) => Ok(states),
        Err(error) => {
            book.restore(mark);
            Err(error)
        }
    }
}
