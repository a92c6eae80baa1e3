//! A marked arena: a stack of cells on raw memory that never moves.
#![tactic(auto)]

mod block;
mod chunk;
mod stack;
#[cfg(test)]
mod tests;

// Types of private fields of `Stack`: contracts on a `Stack` can be read outside only if these
// can be named there. Nobody outside can make or use one.
#[doc(hidden)]
pub use block::{Block, Start, Title};
#[doc(hidden)]
pub use chunk::Chunk;
pub use stack::{Mark, Run, Stack};
