//! The reports on questions.

ghost use Rattle.std.specs.Prelude.{◌≡◌, ◌∷◌, ◌++◌, [], map, IfOk, OnOk};
ghost use Rattle.dz_poly.specs.Books.{Lives, polynomial};
ghost use Rattle.dz_diff.specs.Operations.{setting_of};
ghost use Rattle.dz_diff.specs.States.{LiveAll, polynomials, state_in};
ghost use Rattle.dz_cert.specs.Documents.{ended_lines};
ghost use Rattle.dz_report.specs.Asked.{CanBeAsked, answer_report, report_of};
ghost use Rattle.dz_report.specs.Reports.{◌then◌, by_questions, question_line, told};
ghost use Rattle.dz_report.specs.Writing.{IsReported};

use crate::ReportEnd;
use crate::asked::{Asked, AskedChains};
use crate::lines::push_question;
use crate::preparing::push_preparation;
use crate::reducing::push_reduction;
use dz_poly::{Book, Poly};
use std::alloc::{AllocError, Global};

/// Appends what is told of a question.
fn push_answer(
    alloc: Global,
    book: &mut Book,
    asked: &AskedChains<'_>,
    what: Asked,
    f: Poly,
    into: &mut Vec<u8>,
) -> Result<ReportEnd, AllocError>
    requires f { Lives book.old f }
    requires asked { CanBeAsked book.old asked.now.names.now asked.now.chains.now }
    ensures reported { IfOk result (λ end. IsReported into.old.items into.new.items end
        (answer_report what (setting_of book.old.ranking) asked.now.names.now asked.now.budget
        (map (λ s. state_in book.old s) asked.now.chains.now) (polynomial book.old f))) }
    ensures book { book.new ≡ book.old }
{
    match what {
        Asked::Reductions => push_reduction(alloc, book, asked, f, into),
        Asked::Preparations => push_preparation(alloc, book, asked, f, into),
    }
}

/// Appends the number and the text of a question, and what is told of it.
fn push_numbered_answer(
    alloc: Global,
    book: &mut Book,
    asked: &AskedChains<'_>,
    what: Asked,
    number: usize,
    f: Poly,
    into: &mut Vec<u8>,
) -> Result<ReportEnd, AllocError>
    requires f { Lives book.old f }
    requires asked { CanBeAsked book.old asked.now.names.now asked.now.chains.now }
    ensures reported { IfOk result (λ end. IsReported into.old.items into.new.items end
        (told (question_line asked.now.names.now number (polynomial book.old f) ∷ [])
        then answer_report what (setting_of book.old.ranking) asked.now.names.now asked.now.budget
        (map (λ s. state_in book.old s) asked.now.chains.now) (polynomial book.old f))) }
    ensures book { book.new ≡ book.old }
{
    push_question(into, asked.names, book, number, f)?;
    push_answer(alloc, book, asked, what, f, into)
}

/// Appends what is told of questions, up to the first stop.
fn push_answers(
    alloc: Global,
    book: &mut Book,
    asked: &AskedChains<'_>,
    what: Asked,
    questions: &[Poly],
    into: &mut Vec<u8>,
) -> Result<ReportEnd, AllocError>
    requires questions { LiveAll book.old questions.now }
    requires asked { CanBeAsked book.old asked.now.names.now asked.now.chains.now }
    ensures reported { IfOk result (λ end. IsReported into.old.items into.new.items end
        (by_questions asked.now.names.now (answer_report what (setting_of book.old.ranking)
        asked.now.names.now asked.now.budget (map (λ s. state_in book.old s) asked.now.chains.now))
        (polynomials book.old questions.now))) }
    ensures book { book.new ≡ book.old }
{
    'questions: for k in 0..questions.len() {
        let end = push_numbered_answer(alloc, book, asked, what, k + 1, questions[k], into)?;
        if end.stops() {
            return Ok(end);
        }
    }
    Ok(ReportEnd::Done)
}

/// Appends the report of what is asked of questions by chains, and answers how it ends.
///
/// For each question there stand its number and text, and for each chain its number. Behind it
/// there stand the steps of the full run, and its remainder or the step at which it stops; and
/// behind all runs whether all remainders are zero. Or there stand the factors and the terms of the
/// preparation, and where its turns stop, the product and the step at which they do. A stop ends
/// everything but the line `end`.
pub fn write_report(
    alloc: Global,
    book: &mut Book,
    asked: &AskedChains<'_>,
    what: Asked,
    questions: &[Poly],
    into: &mut Vec<u8>,
) -> Result<ReportEnd, AllocError>
    requires questions { LiveAll book.old questions.now }
    requires asked { CanBeAsked book.old asked.now.names.now asked.now.chains.now }
    ensures written { OnOk result (into.new.items ≡ into.old.items ++ ended_lines
        (report_of what (setting_of book.old.ranking) asked.now.names.now asked.now.budget
        (polynomials book.old questions.now)
        (map (λ s. state_in book.old s) asked.now.chains.now)).lines) }
    ensures ending { IfOk result (λ end. end ≡ (report_of what (setting_of book.old.ranking)
        asked.now.names.now asked.now.budget (polynomials book.old questions.now)
        (map (λ s. state_in book.old s) asked.now.chains.now)).ending) }
    ensures book { book.new ≡ book.old }
{
    let end = push_answers(alloc, book, asked, what, questions, into)?;
    into.extend_from_slice(b"end\n")?;
    Ok(end)
}
