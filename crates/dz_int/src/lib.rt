//! Whole numbers in 128 bits with exact refusals: greatest common divisors, sums of absolute
//! values, and reduced fractions.
//!
//! No call takes memory. A coefficient, a numerator or a denominator is in range if its absolute
//! value is at most `2^127 - 1`.
#![tactic(auto)]

mod divisors;
mod fractions;
mod majorants;
#[cfg(test)]
mod tests;

pub use divisors::{common_divisor, content};
pub use fractions::Frac;
pub use majorants::Majorant;
