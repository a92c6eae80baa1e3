//! What a run comes to.

use dz_poly::Poly;
use dz_rank::Symbol;
use dz_terms::Limit;

/// A combination: the numbers of the two rows, and the symbol in which they are combined.
#[derive(Clone, Copy, Debug, PartialEq, Eq)]
pub struct Combine {
    pub first: u32,
    pub second: u32,
    pub symbol: Symbol,
}

/// The cofactor times an inequation is the rest and the sum of the parts times the equations.
#[derive(Drop)]
pub struct Row {
    pub rest: Poly,
    pub cofactor: Poly,
    pub parts: Vec<Poly>,
}

/// A run with the row that is in hand at its end.
#[derive(Drop)]
pub struct Regularity {
    pub run: Vec<Combine>,
    pub row: Row,
}

/// Why a run stops before a combination, which is named.
#[derive(Clone, Copy, Debug, PartialEq, Eq)]
pub enum CombineStop {
    Memory,
    /// An operation of it is too wide, and all before are neither wide nor large.
    Wide(Combine),
    /// An operation of it passes this limit, and all before are neither wide nor large.
    Large(Limit, Combine),
    /// It takes the run past the budget.
    Spent(Combine),
}

/// A run that stops before its end.
#[derive(Drop)]
pub struct RegularStop {
    pub run: Vec<Combine>,
    pub stop: CombineStop,
}
