//! Writing why a run or a preparation stops.

ghost use Rattle.std.specs.Prelude.{◌≡◌, ◌≢◌, ◌∷◌, ◌++◌, ℕ, codes, IfOk, OnOk};
ghost use Rattle.dz_cert.specs.LineTexts.{spaced};
ghost use Rattle.dz_ask.specs.Attempts.{Names};
ghost use Rattle.dz_rank.specs.Symbols.{IsOperatorOf};
ghost use Rattle.dz_step.specs.StepOperators.{StopDerivesAlong};
ghost use Rattle.dz_report.specs.Writing.{why_end, why_words};
ghost use Rattle.dz_report.specs.declared.ending.ReportEnd.TheVariants.{Done};

use crate::ReportEnd;
use dz_form::limit_word;
use dz_step::{AttemptStop, Step};
use std::alloc::AllocError;

/// Where a report stops: how it ends, and the step that is not taken.
#[derive(Clone, Copy, Debug, PartialEq, Eq)]
pub(crate) struct Stopped {
    pub(crate) end: ReportEnd,
    pub(crate) step: Step,
}

/// How a report ends for a stop, with its step. Want of memory is told as that.
fn stopped_at(stop: AttemptStop) -> Result<Stopped, AllocError>
    ensures end { IfOk result (λ x. x.end ≡ why_end stop) }
    ensures stops { IfOk result (λ x. x.end ≢ Done) }
    ensures step { IfOk result (λ x. Names stop x.step) }
    ensures derives { (n : ℕ) → StopDerivesAlong n stop
        → IfOk result (λ x. IsOperatorOf n x.step.operator) }
{
    match stop {
        AttemptStop::Memory => Err(AllocError),
        AttemptStop::Wide(step) => Ok(Stopped {
            end: ReportEnd::Wide,
            step,
        }),
        AttemptStop::Large(_, step) => Ok(Stopped {
            end: ReportEnd::Large,
            step,
        }),
        AttemptStop::Spent(step) => Ok(Stopped {
            end: ReportEnd::Spent,
            step,
        }),
    }
}

/// Appends the words of a stop.
fn push_why(into: &mut Vec<u8>, stop: AttemptStop) -> Result<(), AllocError>
    ensures { OnOk result (into.new.items
        ≡ into.old.items ++ spaced (codes "stopped" ∷ why_words stop)) }
{
    into.extend_from_slice(b"stopped")?;
    match stop {
        AttemptStop::Memory => Err(AllocError),
        AttemptStop::Wide(_) => into.extend_from_slice(b" wide"),
        AttemptStop::Large(limit, _) => {
            into.extend_from_slice(b" large ")?;
            into.extend_from_slice(limit_word(limit))
        }
        AttemptStop::Spent(_) => into.extend_from_slice(b" spent"),
    }
}

/// Appends the words of a stop. Answers how the report ends, and the step that is not taken.
pub(crate) fn write_why(stop: AttemptStop, into: &mut Vec<u8>) -> Result<Stopped, AllocError>
    ensures text { OnOk result (into.new.items
        ≡ into.old.items ++ spaced (codes "stopped" ∷ why_words stop)) }
    ensures end { IfOk result (λ x. x.end ≡ why_end stop) }
    ensures stops { IfOk result (λ x. x.end ≢ Done) }
    ensures step { IfOk result (λ x. Names stop x.step) }
    ensures derives { (n : ℕ) → StopDerivesAlong n stop
        → IfOk result (λ x. IsOperatorOf n x.step.operator) }
{
    push_why(into, stop)?;
    stopped_at(stop)
}
