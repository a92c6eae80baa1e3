//! Why an entry of a tree does not hold.

use dz_move::Rule;
use std::alloc::AllocError;

/// Why an entry does not hold, with the number of its line in the entry (0 is the line itself, its
/// evidence follows).
#[derive(Clone, Copy, Debug, PartialEq, Eq)]
pub enum EntryFault {
    Memory,
    /// This rule fails at this line.
    Rule { line: usize, rule: Rule },
}

impl From<AllocError> for EntryFault {
    ghost use Rattle.std.specs.Prelude.{◌≡◌};
    ghost use Rattle.dz_tree.specs.declared.entry_fault.EntryFault.TheVariants.{Memory};

    ghost from_gives = { λ _ fault. fault ≡ Memory };

    fn from(_error: AllocError) -> EntryFault {
        EntryFault::Memory
    }
}
