//! The check of decomposition trees, and the states of their chains.
//!
//! [`check`] replays a tree and tells its verdict, and [`chains`] gives the states of the chains of a
//! certified tree; [`check_with_chains`] does both in one walk. What these answer is defined in
//! `specs/`, with laws in [`laws`].
#![tactic(auto)]

mod chain_states;
mod checking;
mod entering;
pub mod laws;
mod reasons;
mod taking;
mod verdict;
mod walking;

pub use chain_states::chains;
pub use checking::{check, check_with_chains};
pub use verdict::{Checked, Verdict};
