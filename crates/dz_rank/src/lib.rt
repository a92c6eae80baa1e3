//! Derivation operators, symbols and rankings.
//!
//! A ring of differential polynomials has up to four independents and up to sixteen dependents. A
//! derivative is a dependent with a derivation operator; a symbol is an independent or a
//! derivative. A [`Ranking`] is a total order of the symbols that goes with derivation, given by
//! blocks of dependents. Operators, derivatives and rankings are those of Kolchin's "Differential
//! Algebra and Algebraic Groups"; the five kinds of blocks are this project's own.
#![tactic(auto)]

mod keys;
mod laws;
mod operations;
mod placing;
mod rankings;
mod symbols;
#[cfg(test)]
mod tests;

pub use laws::{order_is_total, raising_grows, raising_keeps_order};
pub use operations::{least_common, quotient, raise};
pub use rankings::{Block, Kind, RankFault, Ranking, Signature};
pub use symbols::{Operator, Symbol};
