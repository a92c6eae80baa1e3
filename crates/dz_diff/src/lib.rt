//! Leaders, initials, separants and derivations of differential polynomials, on entries and in a
//! book, and the states that are worked on.
#![tactic(auto)]

mod differentiating;
pub mod laws;
mod members;
mod operators;
mod parts;
mod state;

pub use differentiating::{apply, differentiate};
pub use members::{is_among, is_unit, norm_entry};
pub use operators::applied;
pub use parts::{initial, initial_of, leader, leader_of, separant};
pub use state::State;
