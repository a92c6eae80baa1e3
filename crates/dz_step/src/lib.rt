//! Steps of Ritt's reduction, runs of them, and full runs.
//!
//! [`permitted`] tells which multipliers a state permits, `stepping::step` takes one step,
//! [`replay`] a run that is handed in, and [`reduce_fully`] the one full run. The laws of runs stand
//! in `laws`.
#![tactic(auto)]

ghost use Rattle.std.specs.Prelude.{◌≡◌};
ghost use Rattle.dz_rank.specs.Symbols.{identity};

mod attempts;
mod dividing;
mod divisors;
pub mod laws;
mod multiples;
mod permission;
mod reducing;
mod replaying;
mod searching;
pub mod stepping;
mod steps;

pub use attempts::{Attempt, AttemptStop, FullRun, reduce_fully, run_fully, run_with};
pub use dividing::divides_exactly;
pub use divisors::{Divisor, asked_divisor, divisors_of};
pub use dz_diff::State;
use dz_rank::Operator;
pub use multiples::{has_proper_derivative, is_reducible};
pub use permission::{is_granted, may_multiply, member_at, multiplier, permitted};
pub use reducing::Reduction;
pub use replaying::{ReplayFault, RunEnd, replay, run_entry};
pub use searching::{admits, next_step_entry};
pub use stepping::{StepStop, reduction_at};
pub use steps::StepList;

/// The multiplier of a step or a split: the initial or the separant of an equation.
#[derive(Clone, Copy, Debug, PartialEq, Eq, Hash)]
pub enum Which {
    Initial,
    Separant,
}

/// A step: the place of its divisor among the equations, counted from 1, and the operator that is
/// applied to the divisor.
#[derive(Clone, Copy, Debug, PartialEq, Eq, Hash)]
pub struct Step {
    pub place: u16,
    pub operator: Operator,
}

/// Place 0 with no derivation, which is no step, so that steps can be kept in small vectors.
impl Default for Step {
    fn default() -> Step
        ensures { result ≡ record { place = 0; operator = identity } }
    {
        Step {
            place: 0,
            operator: Operator {
                counts: [0, 0, 0, 0],
            },
        }
    }
}

/// What a run is on: any polynomial, or the equation or inequation at a place of the state.
#[derive(Clone, Copy, Debug, PartialEq, Eq, Hash)]
pub enum Role {
    /// Neither restriction of the other two holds.
    Free,
    /// The equation at this place is no divisor.
    Equation(u16),
    /// The inequation at this place permits no multiplier.
    Inequation(u16),
}
