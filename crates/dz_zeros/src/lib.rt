//! Decomposition trees keep the solutions.
//!
//! At every point of every differential domain a certified tree has the solutions of its system.
#![tactic(auto)]

pub mod laws;
mod zeros;

pub use zeros::{run_to_zero, zero_sets};
