//! The order of work, and the trees that it makes.
//!
//! [`next_line`] names the line at a state, and [`decompose`] makes the whole tree of a system. What
//! they answer is defined in `specs/`, with laws and worked examples in [`laws`]. The searches tell
//! where a rule finds something, `rules` takes the first that does, `courses` and `pairing` take the
//! full runs, and `working` performs what is named.
#![tactic(auto)]

mod admitting;
mod courses;
mod decomposing;
mod deltas;
mod dividing;
mod factoring;
mod facts;
mod halting;
pub mod laws;
mod naming;
mod pairing;
mod rules;
mod splitting;
mod working;

pub use decomposing::decompose;
pub use working::next_line;
