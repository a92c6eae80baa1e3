//! Why a jet has no text.

use dz_rank::Symbol;
use std::alloc::{AllocError, AllocFailed};

/// Why a jet has no text.
#[derive(Clone, Copy, Debug, PartialEq, Eq)]
pub enum SeriesFault {
    Memory,
    /// The coefficient of a derivative does not fit: its value, divided by the factorials of its
    /// exponents.
    Wide(Symbol),
}

impl From<AllocError> for SeriesFault {
    ghost use Rattle.std.specs.Prelude.{◌≡◌};
    ghost use Rattle.dz_series.specs.declared.faults.SeriesFault.TheVariants.{Memory};

    ghost from_gives = { λ _ e. e ≡ Memory };

    fn from(_error: AllocError) -> SeriesFault {
        SeriesFault::Memory
    }
}

impl<T: Drop> From<AllocFailed<T>> for SeriesFault {
    ghost use Rattle.std.specs.Prelude.{◌≡◌};
    ghost use Rattle.dz_series.specs.declared.faults.SeriesFault.TheVariants.{Memory};

    ghost from_gives = { λ _ e. e ≡ Memory };

    fn from(_error: AllocFailed<T>) -> SeriesFault {
        SeriesFault::Memory
    }
}
