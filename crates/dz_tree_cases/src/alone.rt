//! The first line of a tree by itself, at the root.

ghost use Rattle.std.specs.Prelude.{◌≡◌, map};
ghost use Rattle.std.specs.List.{list_all};
ghost use Rattle.dz_poly.specs.Books.{IsKept};
ghost use Rattle.dz_monomials.specs.Ranked.{symbols_under};
ghost use Rattle.dz_diff.specs.States.{IsStateOf, StandsIn, state_in};
ghost use Rattle.dz_tree.specs.EvidenceLines.{is_pair_line};
ghost use Rattle.dz_tree.specs.LineOperators.{HaveOperatorsOf};
ghost use Rattle.dz_move.specs.Lines.{is_fork_line, is_move_line};
ghost use Rattle.dz_move.specs.Systems.{IsSystemIn};
ghost use Rattle.dz_move.specs.TreeLines.{line_of};

use dz_diff::State;
use dz_move::{Line, MoveFault, Rule, System, advance, branches, root};
use dz_poly::{Book, Limit};
use dz_tree::{Tree, is_chain};
use std::alloc::{AllocError, Global};

/// What a move, a fork or a chain is told at the root, where no budget is looked at.
#[derive(Clone, Copy, Debug, PartialEq, Eq)]
pub(crate) enum Alone {
    /// The line is another end, or a chain with more than its evidence behind it.
    Nothing,
    Holds,
    Wide,
    Large(Limit),
    Broken(Rule),
}

/// Whether a line is a move.
fn is_move(line: &Line) -> bool
    ensures { result ≡ is_move_line (line_of line.now) }
{
    match line {
        Line::Reduce { .. } | Line::Weed { .. } => true,
        Line::Add { .. } | Line::Divide { .. } => true,
        _ => false,
    }
}

/// Whether a line is a fork.
fn is_fork(line: &Line) -> bool
    ensures { result ≡ is_fork_line (line_of line.now) }
{
    matches!(line, Line::Split { .. } | Line::Factor { .. })
}

/// Whether a line is evidence.
fn is_pair(line: &Line) -> bool
    ensures { result ≡ is_pair_line (line_of line.now) }
{
    matches!(line, Line::Pair { .. })
}

/// Whether all lines are evidence.
fn are_pairs(lines: &[Line]) -> bool
    ensures { result ≡ list_all is_pair_line (map line_of lines.now) }
{
    'lines: for line in lines {
        if !is_pair(line) {
            return false;
        }
    }
    true
}

/// A fault as what is told.
fn told(fault: MoveFault) -> Result<Alone, AllocError> {
    match fault {
        MoveFault::Memory => Err(AllocError),
        MoveFault::Wide => Ok(Alone::Wide),
        MoveFault::Large(limit) => Ok(Alone::Large(limit)),
        MoveFault::NotPermitted(rule) => Ok(Alone::Broken(rule)),
    }
}

/// What a move or a fork is told.
fn action_alone(
    alloc: Global,
    book: &mut Book,
    state: &State,
    line: &Line,
) -> Result<Alone, AllocError>
    requires stands { StandsIn book.old state.now }
    requires facts { IsStateOf (symbols_under book.old.ranking) (state_in book.old state.now) }
    ensures { IsKept book.old book.new }
{
    if is_move(line) {
        return match advance(alloc, book, state, line) {
            Ok(_) => Ok(Alone::Holds),
            Err(fault) => told(fault),
        };
    }
    if is_fork(line) {
        return match branches(alloc, book, state, line) {
            Ok(_) => Ok(Alone::Holds),
            Err(fault) => told(fault),
        };
    }
    Ok(Alone::Nothing)
}

/// What a chain with these lines behind it is told.
fn chain_alone(
    alloc: Global,
    book: &mut Book,
    state: &State,
    evidence: &[Line],
) -> Result<Alone, AllocError>
    requires stands { StandsIn book.old state.now }
    requires operators { HaveOperatorsOf book.old.ranking.signature.independents
        (map line_of evidence.now) }
    ensures { book.new ≡ book.old }
{
    if !are_pairs(evidence) {
        return Ok(Alone::Nothing);
    }
    match is_chain(alloc, book, state, evidence)? {
        Some(rule) => Ok(Alone::Broken(rule)),
        None => Ok(Alone::Holds),
    }
}

/// What the first of some lines is told.
fn first_alone(
    alloc: Global,
    book: &mut Book,
    system: &System,
    lines: &[Line],
) -> Result<Alone, AllocError>
    requires system { IsSystemIn book.old system.now }
    requires operators { HaveOperatorsOf book.old.ranking.signature.independents
        (map line_of lines.now) }
    ensures { IsKept book.old book.new }
{
    let root = root(alloc, book, system)?;
    let Some((first, rest)) = lines.split_first() else {
        return Ok(Alone::Nothing);
    };
    match first {
        Line::Chain => chain_alone(alloc, book, &root, rest),
        _ => action_alone(alloc, book, &root, first),
    }
}

/// What the first line of a tree is told; the book is as before.
pub(crate) fn told_alone(
    alloc: Global,
    book: &mut Book,
    system: &System,
    tree: &Tree,
) -> Result<Alone, AllocError>
    requires system { IsSystemIn book.old system.now }
    requires operators { HaveOperatorsOf book.old.ranking.signature.independents tree.now.lines }
    ensures { book.new ≡ book.old }
{
    let mark = book.mark();
    let told = first_alone(alloc, book, system, tree.lines());
    book.restore(mark);
    told
}
