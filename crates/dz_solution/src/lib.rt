//! Polynomials with functions put for the dependents, and whether functions solve a system.
#![tactic(auto)]

mod evaluating;
pub mod laws;
mod solving;
mod stops;

pub use evaluating::value_at;
pub use solving::{lies_on, solves};
pub use stops::{Place, SolveStop};
