//! What is told of trees.

use dz_diff::State;
use dz_move::Rule;

/// What is told of a tree.
#[derive(Clone, Copy, Debug, PartialEq, Eq)]
pub enum Verdict {
    /// It is certified and complete.
    Accepted,
    /// It is certified, and an end is open.
    Partial,
    /// This rule is the first that fails, at the first line that does not hold, counted from 1.
    Rejected { place: usize, rule: Rule },
}

/// What is told of a tree, with the states of its chains in their order; none where it is not
/// certified.
#[derive(Drop)]
pub struct Checked {
    pub verdict: Verdict,
    pub chains: Vec<State>,
}
