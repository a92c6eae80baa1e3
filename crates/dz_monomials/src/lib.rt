//! Monomials and terms of differential polynomials, and cells, in which an operation adds up what it
//! contributes at each monomial.
//!
//! No polynomial is kept here: crates above make theirs of these.
#![tactic(auto)]

mod absorbing;
mod cell;
mod degrees;
mod finding;
mod finish;
mod powers;
mod rates;
mod rows;
mod sign;
mod term;

pub use absorbing::absorb;
pub use cell::Cell;
pub use degrees::{degrees_of, raise_degrees};
use dz_algebra::Limit;
pub use finding::place_of;
pub use finish::{MOST_SYMBOLS, MOST_TERMS, Support, degrees_left, finished_terms, limit_of_size};
pub use powers::{
    Powers, common_multiple, compare_monomials, exponent_of, multiply, with_exponent,
};
pub use rates::{Rate, table_rates};
pub use rows::rows_cells;
pub use sign::Sign;
use std::alloc::{AllocError, AllocFailed};
pub use term::Term;
use thiserror::Error;

/// Why a call makes no polynomial.
#[derive(Clone, Copy, Debug, PartialEq, Eq, Error)]
pub enum PolyStop {
    #[error("out of memory")]
    Memory,
    /// At some monomial the absolute values of what is added up pass `2^127 - 1`, and the operation
    /// passes no limit of size.
    #[error("a coefficient is too wide")]
    Wide,
    /// The first limit that the operation passes: `Order`, `Exponent`, `Symbols` or `Terms`.
    #[error("the limit {0:?} is passed")]
    Large(Limit),
}

impl From<AllocError> for PolyStop {
    ghost use Rattle.std.specs.Prelude.{◌≡◌};
    ghost use Rattle.dz_monomials.specs.declared.PolyStop.TheVariants.{Memory};

    ghost from_gives = { λ _ e. e ≡ Memory };

    fn from(_error: AllocError) -> PolyStop {
        PolyStop::Memory
    }
}

impl<T: Drop> From<AllocFailed<T>> for PolyStop {
    ghost use Rattle.std.specs.Prelude.{◌≡◌};
    ghost use Rattle.dz_monomials.specs.declared.PolyStop.TheVariants.{Memory};

    ghost from_gives = { λ _ e. e ≡ Memory };

    fn from(_error: AllocFailed<T>) -> PolyStop {
        PolyStop::Memory
    }
}
