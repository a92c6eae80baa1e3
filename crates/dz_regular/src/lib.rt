//! Regularity identities.
//!
//! [`regularity`] looks for a polynomial without leaders that decides an inequation of a chain: its
//! cofactor times the inequation is this polynomial and a sum of multiples of the equations.
//! [`laws`] has what such rows mean.
#![tactic(auto)]

mod answers;
mod combining;
pub mod laws;
mod rows;
mod runs;
mod stages;

pub use answers::{Combine, CombineStop, RegularStop, Regularity, Row};
pub use runs::regularity;
