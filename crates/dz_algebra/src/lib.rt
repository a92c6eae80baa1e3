//! The definitions of differential algebra, in the sense of Ritt and Kolchin, over symbols of any
//! type, and their laws.
//!
//! There is no data structure here: `specs/` has the definitions, and `laws` states what holds of
//! them. Crates above cite the definitions in their contracts.
#![tactic(auto)]

pub mod laws;

/// What may grow too large.
///
/// The first four are limits of one operation on polynomials, told in this order. The last three
/// are limits of a state of the splitting tree.
#[derive(Clone, Copy, Debug, PartialEq, Eq)]
pub enum Limit {
    /// A derivative's total order is at most 60.
    Order,
    /// An exponent is at most 65,535.
    Exponent,
    /// At most 64 symbols occur in a support.
    Symbols,
    /// A support has at most 4,096 monomials.
    Terms,
    /// At most 256 polynomials stand in a state.
    Polynomials,
    /// At most 65,536 terms stand in a state's polynomials.
    Node,
    /// At most 200 forks lie above a state.
    Splits,
}
