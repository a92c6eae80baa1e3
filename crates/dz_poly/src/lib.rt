//! Differential polynomials kept in a book.
//!
//! A polynomial is a finite map from monomials to nonzero whole numbers. A [`Book`] keeps
//! polynomials under one ranking, and a [`Poly`] is the name of one of them. Each call that makes
//! a polynomial is refused exactly where its operation is too large or its coefficients are too
//! wide, whatever the order in which it adds.
#![tactic(auto)]

mod arithmetic;
mod book;
mod coefficients;
mod dividing;
mod making;
mod reading;
#[cfg(test)]
mod tests;

pub use arithmetic::{add, mul, mul_term, sub};
pub use book::{Book, BookMark, Poly};
pub use coefficients::coefficient_of;
pub use dividing::{exact_div_int, normalise};
pub use dz_algebra::Limit;
pub use dz_terms::PolyStop;
pub use making::{constant, symbol_poly, zero};
pub use reading::{
    coefficient_at, degree_in, exponent_at, power_at, power_count, same, symbol_at, symbol_count,
    term_count,
};
