//! What is asked of chains.

use dz_step::State;
use dz_syntax::Names;

/// What is told of each question by each chain.
#[derive(Clone, Copy, Debug, PartialEq, Eq)]
pub enum Asked {
    /// The full free run, and where all of them end at zero, that the question vanishes.
    Reductions,
    /// The preparation.
    Preparations,
}

/// The chains that are asked, the names that answers are written with, and the budget of each run
/// by itself.
#[derive(Clone, Copy)]
pub struct AskedChains<'a> {
    pub names: &'a Names,
    pub chains: &'a [State],
    pub budget: u32,
}
