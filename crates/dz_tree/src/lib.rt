//! Trees as lines, and chains with their evidence.
//!
//! [`Tree`] has lines that form one tree, and [`is_chain`] tells whether a state is a chain with its
//! evidence, which [`chain_weight`] weighs. What these answer is defined in `specs/`.
#![tactic(auto)]

mod autoreduced;
mod chain_conditions;
mod chain_multipliers;
mod chain_test;
mod entry_fault;
mod evidence;
mod forming;
mod inequations;
mod leaders;
mod line_operators;
mod spelling;
mod tree;

pub use chain_test::is_chain;
pub use entry_fault::EntryFault;
pub use evidence::{chain_weight, fault_at};
pub use forming::{Expected, expected_after, left_after, may_stand};
pub use line_operators::have_operators_of;
pub use tree::Tree;
