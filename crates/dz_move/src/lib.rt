//! The states of decomposition trees: systems, their roots, and moves and forks.
//!
//! [`System`] and [`root`] begin, [`advance`] and [`branches`] go on, and [`perform_next`] tries what
//! an open end names. What these answer is defined in `specs/`, with a law in [`laws`].
#![tactic(auto)]

ghost use Rattle.std.specs.Prelude.{◌≡◌};
ghost use Rattle.dz_move.specs.RuleNames.{rule_name};

mod closing;
mod drafts;
mod fault;
mod forks;
pub mod laws;
mod lines;
mod lists;
mod moves;
mod next_actions;
mod pair_runs;
mod performing;
mod roots;
mod system;

pub use closing::is_closed;
pub use drafts::{Performed, Reached};
pub use fault::{ActionStop, MoveFault};
pub use lines::{Line, Next};
pub use next_actions::{perform_next, perform_to};
pub use pair_runs::{ActionEnd, open_weight, pair_run};
pub use performing::{advance, branches, performed, performed_next};
pub use roots::root;
pub use system::System;

/// A condition on a line of a tree.
#[derive(Clone, Copy, Debug, PartialEq, Eq, Hash)]
pub enum Rule {
    /// A place is in its list; the first place of a pair is less than the second.
    Place,
    /// Each step of a run is one.
    Step,
    /// Each operation is small, and the states after it are within the limits.
    Large,
    /// Each operation fits.
    Wide,
    /// The state has changed.
    Same,
    /// The running weight with this line is within the budget.
    Weight,
    /// The two equations are a critical pair.
    Pair,
    /// The end of the run is not zero, is not among the equations, and admits no free step.
    End,
    /// The symbol divides the equation, and may be divided by.
    Symbol,
    /// The initial or separant is not ground, and its norm is neither equation nor inequation.
    Fork,
    /// The state is closed.
    Closed,
    /// Every equation has a leader, and no two the same.
    Leader,
    /// No equation is reducible by another.
    Autoreduced,
    /// Every initial and every separant is permitted.
    Multiplier,
    /// No inequation is zero, and none has a proper derivative of a leader.
    Inequation,
    /// The evidence is for the critical pairs, in their order.
    Pairs,
    /// A run of evidence ends at zero, and its divisors have leaders below the common derivative.
    Coherence,
    /// The reason of an open end holds.
    Reason,
}

impl Rule {
    /// The name of the rule in the verdict on a document.
    pub fn name(self) -> &'static [u8]
        ensures { result.now ≡ rule_name self }
    {
        match self {
            Rule::Place => b"place",
            Rule::Step => b"step",
            Rule::Large => b"large",
            Rule::Wide => b"wide",
            Rule::Same => b"same",
            Rule::Weight => b"weight",
            Rule::Pair => b"pair",
            Rule::End => b"end",
            Rule::Symbol => b"symbol",
            Rule::Fork => b"fork",
            Rule::Closed => b"closed",
            Rule::Leader => b"leader",
            Rule::Autoreduced => b"autoreduced",
            Rule::Multiplier => b"multiplier",
            Rule::Inequation => b"inequation",
            Rule::Pairs => b"pairs",
            Rule::Coherence => b"coherence",
            Rule::Reason => b"reason",
        }
    }
}
