//! The worked tree of a system.

ghost use Rattle.std.specs.Prelude.{◌≡◌, ◌≤◌, [], ◌∷◌, IfOk, OnOk};
ghost use Rattle.std.specs.List.{AllByRecursion};
ghost use Rattle.dz_poly.specs.Books.{IsKept};
ghost use Rattle.dz_monomials.specs.Ranked.{symbols_under};
ghost use Rattle.dz_monomials.specs.Lists.{AllOf};
ghost use Rattle.dz_diff.specs.Operations.{setting_of};
ghost use Rattle.dz_diff.specs.States.{IsStateOf, StandsIn, state_in};
ghost use Rattle.dz_tree.specs.Belonging.{IsLineOf};
ghost use Rattle.dz_move.specs.Systems.{IsSystemIn, system_in};
ghost use Rattle.dz_engine.specs.Naming.{AfterStands, after_in};
ghost use Rattle.dz_engine.specs.Facts.{AreKnown};
ghost use Rattle.dz_engine.specs.Turning.{AreKnownOnTop, ArePushed, AreWorkedLines, IsTopAfter, IsTopNew, IsTurn};
ghost use Rattle.dz_engine.specs.Worked.{IsWorked};

use crate::facts::Facts;
use crate::working::{Worked, work};
use dz_move::{Line, Reached, System, root};
use dz_poly::{Book, BookMark};
use dz_step::State;
use dz_tree::Tree;
use std::alloc::{AllocError, Global};

/// A state that is still to come, and the mark up to which its polynomials stand.
#[derive(Drop)]
struct Pending {
    state: State,
    mark: BookMark,
}

/// How far a tree has come: its lines and their weight, and the states that are still to come, the
/// next last.
#[derive(Drop)]
struct Progress {
    lines: Vec<Line>,
    weight: u32,
    pending: Vec<Pending>,
}

/// Puts a state on the stack.
fn push_state(book: &Book, pending: &mut Vec<Pending>, state: State) -> Result<(), AllocError>
    requires stands { StandsIn book.now state }
    requires facts { IsStateOf (symbols_under book.now.ranking) (state_in book.now state) }
    ensures pushed { OnOk result (ArePushed book.now pending.old.items pending.new.items
        (state_in book.now state ∷ [])) }
    ensures top { OnOk result (IsTopNew book.now pending.new.items) }
{
    pending.push(Pending {
        state,
        mark: book.mark(),
    })?;
    Ok(())
}

/// Puts the states on the stack that an entry leaves, the first on top.
fn push_states(
    book: &Book,
    pending: &mut Vec<Pending>,
    after: Option<Reached>,
) -> Result<(), AllocError>
    requires stand { AfterStands book.now after }
    requires facts { AllOf (IsStateOf (symbols_under book.now.ranking)) (after_in book.now after) }
    ensures pushed { OnOk result (ArePushed book.now pending.old.items pending.new.items
        (after_in book.now after)) }
    ensures top { OnOk result (IsTopAfter book.now after pending.new.items) }
{
    match after {
        None => Ok(()),
        Some(Reached::One(state)) => push_state(book, pending, state),
        Some(Reached::Two(first, second)) => {
            push_state(book, pending, second)?;
            push_state(book, pending, first)
        }
    }
}

/// Writes down the entry that is named at a state, and puts the states that it leaves on the stack.
fn turn(
    alloc: Global,
    book: &mut Book,
    state: &State,
    budget: u32,
    progress: &mut Progress,
    facts: &mut Vec<Facts>,
) -> Result<(), AllocError>
    requires stands { StandsIn book.old state.now }
    requires facts { IsStateOf (symbols_under book.old.ranking) (state_in book.old state.now) }
    requires within { progress.old.weight ≤ budget }
    requires most { budget ≤ 20000000 }
    requires known { AreKnown book.old facts.old.items }
    ensures known { OnOk result (AreKnownOnTop book.new progress.new.pending.items facts.new.items) }
    ensures turn { OnOk result (IsTurn (setting_of book.old.ranking) budget
        (state_in book.old state.now) book.old book.new progress.old progress.new) }
    ensures kept { IsKept book.old book.new }
{
    // The facts of all books are known of this one: a ranking has few independents and dependents.
    book.opened();
    let _ = book.ranking().signature();
    let worked = work(alloc, book, state, progress.weight, budget, facts)?;
    let Worked {
        lines,
        weight,
        after,
    } = worked;
    if after.is_none() {
        // The branch is done, and its polynomials are given up.
        facts.clear();
    }
    let mut lines = lines;
    progress.lines.append(&mut lines)?;
    push_states(book, &mut progress.pending, after)?;
    progress.weight += weight;
    Ok(())
}

/// The lines of the worked tree from a root on.
fn worked_lines(
    alloc: Global,
    book: &mut Book,
    root: State,
    budget: u32,
) -> Result<Vec<Line>, AllocError>
    requires stands { StandsIn book.old root }
    requires facts { IsStateOf (symbols_under book.old.ranking) (state_in book.old root) }
    requires most { budget ≤ 20000000 }
    ensures lines { IfOk result (λ lines. AreWorkedLines (setting_of book.old.ranking) budget
        (state_in book.old root) lines.items) }
    ensures kept { IsKept book.old book.new }
{
    let mut progress = Progress {
        lines: Vec::new(alloc),
        weight: 0,
        pending: Vec::new(alloc),
    };
    push_state(book, &mut progress.pending, root)?;
    let mut facts = Vec::new(alloc);
    'states: loop {
        let Some(Pending { state, mark }) = progress.pending.pop() else {
            return Ok(progress.lines);
        };
        book.restore(mark);
        turn(alloc, book, &state, budget, &mut progress, &mut facts)?;
    }
}

/// The worked tree of a system and a budget. The book is as before.
pub fn decompose(
    alloc: Global,
    book: &mut Book,
    system: &System,
    budget: u32,
) -> Result<Tree, AllocError>
    requires system { IsSystemIn book.old system.now }
    requires most { budget ≤ 20000000 }
    ensures worked { IfOk result (λ t. IsWorked (setting_of book.old.ranking)
        (system_in book.old system.now) t) }
    ensures budget { IfOk result (λ t. t.budget ≡ budget) }
    ensures belong { IfOk result (λ t.
        AllByRecursion (λ line. IsLineOf book.old.ranking.signature line) t.lines) }
    ensures book { book.new ≡ book.old }
{
    // The facts of all books are known of this one: a ranking has few independents and dependents.
    book.opened();
    let _ = book.ranking().signature();
    let mark = book.mark();
    let root = root(alloc, book, system)?;
    book.opened();
    let lines = worked_lines(alloc, book, root, budget);
    book.restore(mark);
    let Some(tree) = Tree::new(budget, lines?) else {
        unreachable!()
    };
    Ok(tree)
}
