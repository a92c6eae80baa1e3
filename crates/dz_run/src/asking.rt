// The answers of `reduce` and `prepare`.
ghost use Rattle.std.specs.Prelude.{◌≡◌, ◌≤◌, IfOk};
ghost use Rattle.dz_diff.specs.States.{LiveAll, polynomials};
ghost use Rattle.dz_syntax.specs.Names.{signature_of};
ghost use Rattle.dz_syntax.specs.Systems.{HasExpressions, tree_of};
ghost use Rattle.dz_move.specs.Systems.{IsSystemIn, system_in};
ghost use Rattle.dz_run.specs.Answer.{answer_of, with_questions};
ghost use Rattle.dz_run.specs.Asked.{asked, report_ending};
ghost use Rattle.dz_run.specs.System.{ranking_of};

use crate::decomposing::worked_system;
use crate::ending::Ending;
use crate::system::{Stop, questions_of, system_of};
use crate::told::{Told, refused_answer};
use dz_move::System;
use dz_poly::{Book, Poly};
use dz_report::{Asked, AskedChains, ReportEnd, write_report};
use dz_syntax::{Names, SystemTree};
use std::alloc::{AllocError, Global};

/// How the run ends for a report.
fn report_ending(end: ReportEnd) -> Ending
    ensures { result ≡ report_ending end }
{
    match end {
        ReportEnd::Done => Ending::Done,
        ReportEnd::Wide => Ending::Wide,
        ReportEnd::Large => Ending::Large,
        ReportEnd::Spent => Ending::Spent,
    }
}

/// The answer to a system and questions: where the tree is complete, what is told of the questions
/// follows its document.
#[tactic(auto, unfolding(crate::specs::Asked::asked))]
fn questions_told(
    alloc: Global,
    book: &mut Book,
    names: &Names,
    what: Asked,
    system: &System,
    questions: &[Poly],
    budget: u32,
) -> Result<Told, AllocError>
    requires system { IsSystemIn book.old system.now }
    requires questions { LiveAll book.old questions.now }
    requires signature { signature_of names.now ≡ book.old.ranking.signature }
    requires most { budget ≤ 20000000 }
    ensures { IfOk result (λ told. answer_of told ≡ asked what book.old.ranking names.now budget
        (system_in book.old system.now) (polynomials book.old questions.now)) }
{
    let worked = worked_system(alloc, book, names, system, budget)?;
    let mut text = worked.document;
    if !matches!(worked.ending, Ending::Done) {
        return Ok(Told::printed(alloc, text, worked.ending));
    }
    let asked = AskedChains {
        names,
        chains: &worked.chains,
        budget,
    };
    let end = write_report(alloc, book, &asked, what, questions, &mut text)?;
    Ok(Told::printed(alloc, text, report_ending(end)))
}

/// The answer of `reduce` or `prepare` for a text: its questions are expanded after its system.
pub(crate) fn asked_told(
    alloc: Global,
    book: &mut Book,
    text: &SystemTree,
    what: Asked,
    budget: u32,
) -> Result<Told, AllocError>
    requires ranking { book.old.ranking ≡ ranking_of (tree_of text.now) }
    requires expressions { HasExpressions (tree_of text.now) }
    requires signature { text.now.signature ≡ signature_of text.now.names }
    requires most { budget ≤ 20000000 }
    ensures { IfOk result (λ told. answer_of told ≡ with_questions (tree_of text.now)
        (asked what (ranking_of (tree_of text.now)) text.now.names budget)) }
{
    let system = match system_of(alloc, book, text) {
        Ok(system) => system,
        Err(Stop::Memory) => return Err(AllocError),
        Err(Stop::Refused(refused)) => return refused_answer(alloc, refused),
    };
    match questions_of(alloc, book, text) {
        Ok(questions) => {
            questions_told(alloc, book, &text.names, what, &system, &questions, budget)
        }
        Err(Stop::Memory) => Err(AllocError),
        Err(Stop::Refused(refused)) => refused_answer(alloc, refused),
    }
}
