//! Why it is not told whether functions solve a system.

use dz_poly::Limit;

/// A member by its place among the equations or the inequations, from 1.
#[derive(Clone, Copy, Debug, PartialEq, Eq)]
pub enum Place {
    Equation(u16),
    Inequation(u16),
}

/// Why it is not told whether functions solve a system or lie on a chain.
#[derive(Clone, Copy, Debug, PartialEq, Eq)]
pub enum SolveStop {
    Memory,
    /// The substitution of this member does not fit.
    Wide(Place),
    /// The substitution of this member is not small.
    Large(Place, Limit),
}
