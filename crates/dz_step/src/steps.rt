//! Lists of steps.

ghost use Rattle.std.specs.Prelude.{◌≡◌};

use crate::Step;
use smallvec::SmallVec;
use std::alloc::{AllocError, Global};
use std::marker::Model;

/// Steps in their order. Up to four of them take no memory.
#[derive(Drop)]
pub struct StepList {
    steps: SmallVec<Step, 4>,
}

impl Model for StepList {
    ghost use Rattle.std.specs.Prelude.{◌≤◌, List};
    ghost use Rattle.dz_step.specs.declared.Step.{Step};

    ghost Value = { List Step };

    ghost view = { λ l. l.steps.items };

    ghost invariant = { λ l. 4 ≤ l.steps.capacity };
}

impl StepList {
    ghost use Rattle.std.specs.Prelude.{◌≡◌, ◌<◌, ◌++◌, [], ◌∷◌, Some, length, slice_get};
    ghost use Rattle.std.specs.Prelude.{IsOk, OnOk, OnErr};

    /// The list without steps.
    pub fn new(alloc: Global) -> StepList
        ensures { result ≡ [] }
    {
        StepList {
            steps: SmallVec::new(alloc),
        }
    }

    /// Appends a step.
    pub fn push(&mut self, step: Step) -> Result<(), AllocError>
        ensures pushed { OnOk result (self.new ≡ self.old ++ step ∷ []) }
        ensures refused { OnErr result (self.new ≡ self.old) }
        ensures inline { length self.old < 4 → IsOk result }
    {
        self.steps.push(step)?;
        Ok(())
    }

    /// The number of steps.
    pub fn len(&self) -> usize
        ensures { result ≡ length self.now }
    {
        self.steps.len()
    }

    /// The step at a position, counted from 0.
    pub fn get(&self, k: usize) -> Step
        requires { k < length self.now }
        ensures { slice_get self.now k ≡ Some result }
    {
        self.steps.as_slice()[k]
    }
}
