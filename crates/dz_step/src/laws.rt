//! The laws of runs.
//!
//! Each function has an empty body: it does nothing, and its clause is the law.

ghost use Rattle.std.specs.Prelude.{◌≤◌};
ghost use Rattle.dz_rank.specs.Rankings.{RankingValue};
ghost use Rattle.dz_monomials.specs.Lists.{AllOf};
ghost use Rattle.dz_diff.specs.Operations.{Setting};
ghost use Rattle.dz_diff.specs.Over.{IsOver};
ghost use Rattle.dz_diff.specs.State.{State};
ghost use Rattle.dz_step.specs.Laws.{FullRunLaws, ReductionLaws};

/// A full run that comes to its end is a run within its budget, and its end admits no step; any
/// other is a run within its budget up to its last step, which is the next one there.
#[tactic(auto, using(crate::proofs::FullRuns::full_run_laws))]
pub fn full_runs_come_to_rest()
    ensures { (g : Setting) → FullRunLaws g }
{}

/// A step lowers the degree in its derivative and raises none above, so a run of one step or more
/// does not end where it began; the step that a full run takes is one, and where it finds none
/// there is none.
#[tactic(auto, using(crate::proofs::Falls::reduction_laws))]
pub fn steps_lower_degrees()
    ensures { (r : RankingValue) (s : State) → r.signature.independents ≤ 4
        → AllOf (IsOver r) s.equations → ReductionLaws r s }
{}
