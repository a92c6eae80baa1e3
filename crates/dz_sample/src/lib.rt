//! The system that is made from a number.
//!
//! A seed makes 16 equations, by which each derivative of each of eight dependents is a multiple of
//! the dependent, and as many further ones as are asked for, which follow from these
//! ([`sample_equations`]). [`sample_system`] puts their polynomials into a book under
//! [`sample_ranking`], and [`write_summary`] writes what is told of the system.
#![tactic(auto)]

mod draws;
mod equations;
mod polynomials;
mod ranking;
mod summary;
mod system;

pub use equations::{SampleEquation, sample_equations};
pub use polynomials::equation_poly;
pub use ranking::sample_ranking;
pub use summary::{Summary, write_summary};
pub use system::sample_system;
