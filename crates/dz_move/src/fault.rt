//! Why a line does not hold.

ghost use Rattle.std.specs.Prelude.{◌≡◌};
ghost use Rattle.dz_move.specs.declared.fault.MoveFault.TheVariants.{NotPermitted};

use crate::Rule;
use dz_poly::{Limit, PolyStop};
use dz_step::ReplayFault;
use std::alloc::AllocError;

/// Why a move or a fork does not hold.
#[derive(Clone, Copy, Debug, PartialEq, Eq)]
pub enum MoveFault {
    Memory,
    /// An operation is too wide, and all before it are neither wide nor large.
    Wide,
    /// An operation or a state passes this limit, and all before it are neither wide nor large.
    Large(Limit),
    /// Another rule fails.
    NotPermitted(Rule),
}

/// Why an action does not hold, with the number of steps that were taken before.
#[derive(Clone, Copy, Debug, PartialEq, Eq)]
pub struct ActionStop {
    pub steps: usize,
    pub fault: MoveFault,
}

/// A rule that fails after so many steps.
pub(crate) fn broken(steps: usize, rule: Rule) -> ActionStop
    ensures { result ≡ record { steps = steps; fault = NotPermitted rule } }
{
    ActionStop {
        steps,
        fault: MoveFault::NotPermitted(rule),
    }
}

impl From<AllocError> for ActionStop {
    ghost use Rattle.std.specs.Prelude.{◌≡◌};
    ghost use Rattle.dz_move.specs.declared.fault.MoveFault.TheVariants.{Memory};

    ghost from_gives = { λ _ stop. stop ≡ record { steps = 0; fault = Memory } };

    fn from(_error: AllocError) -> ActionStop {
        ActionStop {
            steps: 0,
            fault: MoveFault::Memory,
        }
    }
}

impl From<PolyStop> for ActionStop {
    ghost use Rattle.std.specs.Prelude.{◌≡◌};
    ghost use Rattle.dz_move.specs.Actions.{operation_stop};

    ghost from_gives = { λ refusal stop. stop ≡ operation_stop refusal };

    fn from(stop: PolyStop) -> ActionStop {
        let fault = match stop {
            PolyStop::Memory => MoveFault::Memory,
            PolyStop::Wide => MoveFault::Wide,
            PolyStop::Large(limit) => MoveFault::Large(limit),
        };
        ActionStop { steps: 0, fault }
    }
}

impl From<ReplayFault> for ActionStop {
    ghost use Rattle.std.specs.Prelude.{◌≡◌};
    ghost use Rattle.dz_move.specs.Actions.{replay_stop};

    ghost from_gives = { λ fault stop. stop ≡ replay_stop fault };

    fn from(fault: ReplayFault) -> ActionStop {
        match fault {
            ReplayFault::Memory => ActionStop {
                steps: 0,
                fault: MoveFault::Memory,
            },
            ReplayFault::Wide(steps) => ActionStop {
                steps,
                fault: MoveFault::Wide,
            },
            ReplayFault::Large(steps, limit) => ActionStop {
                steps,
                fault: MoveFault::Large(limit),
            },
            ReplayFault::NotStep(steps) => broken(steps, Rule::Step),
        }
    }
}
