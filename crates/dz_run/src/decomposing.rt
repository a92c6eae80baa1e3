// The answer of `decompose`, with which those on chains begin.
ghost use Rattle.std.specs.Prelude.{◌≡◌, ◌≤◌, All, IfOk, OnOk, map};
ghost use Rattle.dz_diff.specs.States.{StandsIn, state_in};
ghost use Rattle.dz_poly.specs.Books.{IsKept};
ghost use Rattle.dz_syntax.specs.Names.{signature_of};
ghost use Rattle.dz_syntax.specs.Systems.{HasExpressions, tree_of};
ghost use Rattle.dz_move.specs.Systems.{IsSystemIn, system_in};
ghost use Rattle.dz_move.specs.TreeLines.{line_of};
ghost use Rattle.dz_run.specs.Answer.{answer_of, printed, with_system};
ghost use Rattle.dz_run.specs.Decomposed.{decomposed, lines_ending, open_ending, worked_chains};
ghost use Rattle.dz_run.specs.System.{ranking_of};

use crate::ending::Ending;
use crate::system::{Stop, system_of};
use crate::told::{Told, refused_answer};
use dz_cert::write_document_with;
use dz_check::chains;
use dz_diff::State;
use dz_engine::decompose;
use dz_move::{Line, System};
use dz_poly::Book;
use dz_syntax::{Names, SystemTree};
use std::alloc::{AllocError, Global};

/// How the run ends for an open end of a tree.
fn open_ending(line: &Line) -> Option<Ending>
    ensures { result ≡ open_ending (line_of line.now) }
{
    match line {
        Line::Spent(_) | Line::SpentPairs => Some(Ending::Spent),
        Line::Wide(_) => Some(Ending::Wide),
        Line::Large(..) => Some(Ending::Large),
        _ => None,
    }
}

/// How the run ends for the lines of a tree: as the first open end says.
pub(crate) fn lines_ending(lines: &[Line]) -> Ending
    ensures { result ≡ lines_ending (map line_of lines.now) }
{
    'lines: for line in lines {
        if let Some(ending) = open_ending(line) {
            return ending;
        }
    }
    Ending::Done
}

/// A system that was decomposed: the document of its worked tree, how the run ends for it, and the
/// states of its chains.
#[derive(Drop)]
pub(crate) struct Worked {
    pub document: Vec<u8>,
    pub ending: Ending,
    pub chains: Vec<State>,
}

/// The worked tree of a system and a budget, as a document and as chains in the book.
pub(crate) fn worked_system(
    alloc: Global,
    book: &mut Book,
    names: &Names,
    system: &System,
    budget: u32,
) -> Result<Worked, AllocError>
    requires system { IsSystemIn book.old system.now }
    requires signature { signature_of names.now ≡ book.old.ranking.signature }
    requires most { budget ≤ 20000000 }
    ensures answer { IfOk result (λ w. printed w.document.items w.ending
        ≡ decomposed book.old.ranking names.now budget (system_in book.old system.now)) }
    ensures chains { IfOk result (λ w. map (λ s. state_in book.new s) w.chains.items
        ≡ worked_chains book.old.ranking budget (system_in book.old system.now)) }
    ensures stand { IfOk result (λ w. All (λ s. StandsIn book.new s) w.chains.items) }
    ensures kept { OnOk result (IsKept book.old book.new) }
{
    // The facts of all books are known of this one: a ranking has few independents and dependents.
    book.opened();
    let _ = book.ranking().signature();
    let tree = decompose(alloc, book, system, budget)?;
    let chains = chains(alloc, book, system, &tree)?;
    let document = write_document_with(alloc, book, names, &tree, &chains)?;
    let ending = lines_ending(tree.lines());
    Ok(Worked {
        document,
        ending,
        chains,
    })
}

/// The answer to a system.
fn system_told(
    alloc: Global,
    book: &mut Book,
    names: &Names,
    system: &System,
    budget: u32,
) -> Result<Told, AllocError>
    requires system { IsSystemIn book.old system.now }
    requires signature { signature_of names.now ≡ book.old.ranking.signature }
    requires most { budget ≤ 20000000 }
    ensures { IfOk result (λ told. answer_of told
        ≡ decomposed book.old.ranking names.now budget (system_in book.old system.now)) }
{
    let worked = worked_system(alloc, book, names, system, budget)?;
    Ok(Told::printed(alloc, worked.document, worked.ending))
}

/// The answer of `decompose` for a text.
pub(crate) fn decomposed(
    alloc: Global,
    book: &mut Book,
    text: &SystemTree,
    budget: u32,
) -> Result<Told, AllocError>
    requires ranking { book.old.ranking ≡ ranking_of (tree_of text.now) }
    requires expressions { HasExpressions (tree_of text.now) }
    requires signature { text.now.signature ≡ signature_of text.now.names }
    requires most { budget ≤ 20000000 }
    ensures { IfOk result (λ told. answer_of told ≡ with_system (tree_of text.now)
        (decomposed (ranking_of (tree_of text.now)) text.now.names budget)) }
{
    match system_of(alloc, book, text) {
        Ok(system) => system_told(alloc, book, &text.names, &system, budget),
        Err(Stop::Memory) => Err(AllocError),
        Err(Stop::Refused(refused)) => refused_answer(alloc, refused),
    }
}
