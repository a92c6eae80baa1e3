//! Writing the full runs on one question.

ghost use Rattle.std.specs.Prelude.{◌≡◌, ◌≢◌, ◌∷◌, ◌++◌, [], codes, map, IfOk, OnOk};
ghost use Rattle.dz_poly.specs.Books.{IsKept, Lives, polynomial};
ghost use Rattle.dz_diff.specs.Operations.{setting_of};
ghost use Rattle.dz_diff.specs.States.{StandsIn, state_in};
ghost use Rattle.dz_step.specs.Attempts.{IsAttemptOf};
ghost use Rattle.dz_step.specs.FullRun.{Course, full_run};
ghost use Rattle.dz_step.specs.StepOperators.{AttemptDerivesAlong, DeriveAlong};
ghost use Rattle.dz_step.specs.declared.Role.TheVariants.{Free};
ghost use Rattle.dz_syntax.specs.Names.{signature_of};
ghost use Rattle.dz_cert.specs.Documents.{ended_lines, numbered};
ghost use Rattle.dz_report.specs.Asked.{CanBeAsked};
ghost use Rattle.dz_report.specs.Reductions.{all_run_to_zero, question_report, remainder_line};
ghost use Rattle.dz_report.specs.Reductions.{run_line, run_report, runs_to_zero, vanishing_line};
ghost use Rattle.dz_report.specs.Reports.{◌then◌, by_chains, told};
ghost use Rattle.dz_report.specs.Writing.{IsReduced, IsReported};
ghost use Rattle.dz_report.specs.declared.ending.ReportEnd.TheVariants.{Done};

use crate::ReportEnd;
use crate::asked::AskedChains;
use crate::lines::push_chain;
use crate::stops::write_why;
use dz_ask::{Normal, normal_form};
use dz_cert::{write_member, write_step, write_steps};
use dz_poly::{Book, Poly, term_count};
use dz_step::{Attempt, State, StepList};
use dz_syntax::Names;
use std::alloc::{AllocError, Global};

/// How a report of runs ends, and where it does not stop, whether all of them end at zero.
#[derive(Clone, Copy, Debug, PartialEq, Eq)]
pub(crate) struct Reduced {
    pub(crate) end: ReportEnd,
    pub(crate) zero: bool,
}

/// Appends the line of the steps of a run.
fn push_run(into: &mut Vec<u8>, names: &Names, run: &StepList) -> Result<(), AllocError>
    requires { DeriveAlong names.now.independents run.now }
    ensures { OnOk result (into.new.items ≡ into.old.items
        ++ ended_lines (run_line names.now run.now ∷ [])) }
{
    into.extend_from_slice(b"run")?;
    write_steps(run, names, into)?;
    into.extend_from_slice(b"\n")
}

/// Appends a run that comes to its end.
fn push_normal(
    into: &mut Vec<u8>,
    names: &Names,
    book: &Book,
    normal: &Normal,
) -> Result<(), AllocError>
    requires run { DeriveAlong names.now.independents normal.now.run }
    requires remainder { Lives book.now normal.now.remainder }
    requires signature { signature_of names.now ≡ book.now.ranking.signature }
    ensures { OnOk result (into.new.items ≡ into.old.items
        ++ ended_lines (run_line names.now normal.now.run
        ∷ remainder_line names.now (polynomial book.now normal.now.remainder) ∷ [])) }
{
    push_run(into, names, &normal.run)?;
    write_member(b"remainder", book, normal.remainder, names, into)
}

/// Appends a run up to the step at which it stops.
fn push_attempt(
    into: &mut Vec<u8>,
    names: &Names,
    attempt: &Attempt,
) -> Result<ReportEnd, AllocError>
    requires { AttemptDerivesAlong names.now.independents attempt.now }
    ensures reported { IfOk result (λ end. (course : Course)
        → IsAttemptOf course attempt.now.run attempt.now.stop
        → IsReported into.old.items into.new.items end (run_report names.now course)) }
    ensures stops { IfOk result (λ end. end ≢ Done) }
{
    push_run(into, names, &attempt.run)?;
    let stopped = write_why(attempt.stop, into)?;
    write_step(stopped.step, names, into)?;
    into.extend_from_slice(b"\n")?;
    Ok(stopped.end)
}

/// Appends the full free run on `f` by a chain, whose end stays in the book.
fn push_kept_run(
    alloc: Global,
    book: &mut Book,
    names: &Names,
    f: Poly,
    chain: &State,
    budget: u32,
    into: &mut Vec<u8>,
) -> Result<Reduced, AllocError>
    requires f { Lives book.old f }
    requires chain { StandsIn book.old chain.now }
    requires signature { signature_of names.now ≡ book.old.ranking.signature }
    ensures reduced { IfOk result (λ x. IsReduced into.old.items into.new.items x
        (run_report names.now (full_run (setting_of book.old.ranking)
        (state_in book.old chain.now) Free budget (polynomial book.old f)))
        (runs_to_zero (setting_of book.old.ranking) budget (polynomial book.old f)
        (state_in book.old chain.now))) }
    ensures kept { IsKept book.old book.new }
{
    match normal_form(alloc, book, f, chain, budget) {
        Ok(normal) => {
            push_normal(into, names, book, &normal)?;
            Ok(Reduced {
                end: ReportEnd::Done,
                zero: term_count(book, normal.remainder) == 0,
            })
        }
        Err(attempt) => {
            let end = push_attempt(into, names, &attempt)?;
            Ok(Reduced { end, zero: false })
        }
    }
}

/// Appends the number of a chain, and the full free run on `f` by it; the book is as before.
fn push_numbered_run(
    alloc: Global,
    book: &mut Book,
    names: &Names,
    f: Poly,
    number: usize,
    chain: &State,
    budget: u32,
    into: &mut Vec<u8>,
) -> Result<Reduced, AllocError>
    requires f { Lives book.old f }
    requires chain { StandsIn book.old chain.now }
    requires signature { signature_of names.now ≡ book.old.ranking.signature }
    ensures reduced { IfOk result (λ x. IsReduced into.old.items into.new.items x
        (told (numbered (codes "chain") number ∷ []) then run_report names.now
        (full_run (setting_of book.old.ranking)
        (state_in book.old chain.now) Free budget (polynomial book.old f)))
        (runs_to_zero (setting_of book.old.ranking) budget (polynomial book.old f)
        (state_in book.old chain.now))) }
    ensures book { book.new ≡ book.old }
{
    push_chain(into, number)?;
    let mark = book.mark();
    let reduced = push_kept_run(alloc, book, names, f, chain, budget, into);
    book.restore(mark);
    reduced
}

/// Appends the full free runs on `f` by chains, up to the first that stops.
fn push_runs(
    alloc: Global,
    book: &mut Book,
    asked: &AskedChains<'_>,
    f: Poly,
    into: &mut Vec<u8>,
) -> Result<Reduced, AllocError>
    requires f { Lives book.old f }
    requires asked { CanBeAsked book.old asked.now.names.now asked.now.chains.now }
    ensures reduced { IfOk result (λ x. IsReduced into.old.items into.new.items x
        (by_chains (λ s. run_report asked.now.names.now (full_run (setting_of book.old.ranking)
        s Free asked.now.budget (polynomial book.old f)))
        (map (λ s. state_in book.old s) asked.now.chains.now))
        (all_run_to_zero (setting_of book.old.ranking) asked.now.budget (polynomial book.old f)
        (map (λ s. state_in book.old s) asked.now.chains.now))) }
    ensures book { book.new ≡ book.old }
{
    let AskedChains {
        names,
        chains,
        budget,
    } = *asked;
    let mut zero = true;
    'chains: for k in 0..chains.len() {
        let run = push_numbered_run(alloc, book, names, f, k + 1, &chains[k], budget, into)?;
        if run.end.stops() {
            return Ok(run);
        }
        zero &= run.zero;
    }
    Ok(Reduced {
        end: ReportEnd::Done,
        zero,
    })
}

/// Appends the line that tells whether all runs end at zero.
fn push_vanishing(into: &mut Vec<u8>, zero: bool) -> Result<(), AllocError>
    ensures { OnOk result (into.new.items ≡ into.old.items
        ++ ended_lines (vanishing_line zero ∷ [])) }
{
    if zero {
        into.extend_from_slice(b"vanishing yes\n")
    } else {
        into.extend_from_slice(b"vanishing unknown\n")
    }
}

/// Appends the full free runs on a question by chains, and where none stops, whether all of them
/// end at zero.
#[tactic(auto, unfolding(crate::specs::Reductions::question_report))]
pub(crate) fn push_reduction(
    alloc: Global,
    book: &mut Book,
    asked: &AskedChains<'_>,
    f: Poly,
    into: &mut Vec<u8>,
) -> Result<ReportEnd, AllocError>
    requires f { Lives book.old f }
    requires asked { CanBeAsked book.old asked.now.names.now asked.now.chains.now }
    ensures reported { IfOk result (λ end. IsReported into.old.items into.new.items end
        (question_report (setting_of book.old.ranking) asked.now.names.now
        asked.now.budget (map (λ s. state_in book.old s) asked.now.chains.now)
        (polynomial book.old f))) }
    ensures book { book.new ≡ book.old }
{
    let runs = push_runs(alloc, book, asked, f, into)?;
    if runs.end.stops() {
        return Ok(runs.end);
    }
    push_vanishing(into, runs.zero)?;
    Ok(ReportEnd::Done)
}
