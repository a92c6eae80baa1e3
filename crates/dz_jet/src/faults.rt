//! Why there is no jet.

use dz_int::Frac;
use dz_poly::Limit;
use dz_rank::Symbol;
use std::alloc::{AllocError, AllocFailed};

/// A part of a chain, by its place among the equations or the inequations, from 1.
#[derive(Clone, Copy, Debug, PartialEq, Eq)]
pub enum Part {
    Equation(u16),
    Initial(u16),
    Separant(u16),
    Inequation(u16),
}

/// What is evaluated.
#[derive(Clone, Copy, Debug, PartialEq, Eq)]
pub enum At {
    Part(Part),
    Derivative(Symbol),
}

/// Why there is no jet.
#[derive(Clone, Copy, Debug, PartialEq, Eq)]
pub enum JetFault {
    Memory,
    /// The ranking is not orderly.
    NotOrderly,
    /// A value that is needed is not given.
    Missing(Symbol),
    /// A value is given that is not needed.
    NotFree(Symbol),
    /// An equation does not have value zero, but this one.
    OffChain(u16, Frac),
    /// An initial, a separant or an inequation has value zero.
    Vanishes(Part),
    /// An operation on fractions or polynomials does not fit.
    Wide(At),
    /// An operation that makes a derivative of a member is not small.
    Large(Symbol, Limit),
}

impl From<AllocError> for JetFault {
    ghost use Rattle.std.specs.Prelude.{◌≡◌};
    ghost use Rattle.dz_jet.specs.declared.faults.JetFault.TheVariants.{Memory};

    ghost from_gives = { λ _ e. e ≡ Memory };

    fn from(_error: AllocError) -> JetFault {
        JetFault::Memory
    }
}

impl<T: Drop> From<AllocFailed<T>> for JetFault {
    ghost use Rattle.std.specs.Prelude.{◌≡◌};
    ghost use Rattle.dz_jet.specs.declared.faults.JetFault.TheVariants.{Memory};

    ghost from_gives = { λ _ e. e ≡ Memory };

    fn from(_error: AllocFailed<T>) -> JetFault {
        JetFault::Memory
    }
}
