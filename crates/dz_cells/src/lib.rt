//! Sums and products of polynomials as rows of exponents that lie one after the other.
//!
//! A polynomial is a falling list of symbols, one row of exponents over it for each term, and one
//! coefficient for each term. What an operation adds up is a run of cells on two stacks: rows, and
//! a [`Tally`] for each. The functions here write into runs that are begun; none takes memory.
#![tactic(auto)]

mod contributions;
mod finishing;
mod merging;
mod tally;

pub use contributions::{put_products, put_signed};
pub use finishing::put_finished;
pub use merging::put_merged;
pub use tally::Tally;
