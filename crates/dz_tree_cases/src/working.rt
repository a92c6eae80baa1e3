//! Whether the tree of a case is the worked one.

ghost use Rattle.std.specs.Prelude.{◌≡◌};
ghost use Rattle.dz_poly.specs.Books.{IsKept};
ghost use Rattle.dz_move.specs.Systems.{IsSystemIn};

use crate::same::first_other;
use dz_engine::{decompose, next_line};
use dz_move::{System, root};
use dz_poly::Book;
use dz_tree::Tree;
use std::alloc::{AllocError, Global};

/// What is told where a tree is compared with the worked one.
#[derive(Clone, Copy, Debug, PartialEq, Eq)]
pub(crate) enum Working {
    /// It is not asked for.
    Nothing,
    /// The trees have the same lines, and the first of them are the line that is next at the root.
    Same,
    /// The trees have other lines from this number on, counted from 1.
    Other(usize),
    /// The line that is next at the root is another than the worked tree begins with.
    OtherNext,
}

/// Whether the line that is next at the root begins a tree.
fn begins(alloc: Global, book: &mut Book, system: &System, tree: &Tree) -> Result<bool, AllocError>
    requires { IsSystemIn book.old system.now }
    ensures { IsKept book.old book.new }
{
    tree.opened();
    let root = root(alloc, book, system)?;
    let next = next_line(alloc, book, &root, 0, tree.budget())?;
    let lines = tree.lines();
    if next.len() > lines.len() {
        return Ok(false);
    }
    Ok(first_other(&next, &lines[..next.len()]).is_none())
}

/// A tree beside the worked one of the system and its budget.
fn compared(
    alloc: Global,
    book: &mut Book,
    system: &System,
    tree: &Tree,
) -> Result<Working, AllocError>
    requires { IsSystemIn book.old system.now }
    ensures { IsKept book.old book.new }
{
    tree.opened();
    let worked = decompose(alloc, book, system, tree.budget())?;
    if let Some(line) = first_other(tree.lines(), worked.lines()) {
        return Ok(Working::Other(line));
    }
    if !begins(alloc, book, system, tree)? {
        return Ok(Working::OtherNext);
    }
    Ok(Working::Same)
}

/// What is told of a tree beside the worked one, where that is asked for; the book is as before.
pub(crate) fn told_working(
    alloc: Global,
    book: &mut Book,
    system: &System,
    tree: &Tree,
    is_asked: bool,
) -> Result<Working, AllocError>
    requires { IsSystemIn book.old system.now }
    ensures { book.new ≡ book.old }
{
    if !is_asked {
        return Ok(Working::Nothing);
    }
    let mark = book.mark();
    let told = compared(alloc, book, system, tree);
    book.restore(mark);
    told
}
