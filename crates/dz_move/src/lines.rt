//! The lines of trees.

use dz_poly::Limit;
use dz_rank::Symbol;
use dz_step::{StepList, Which};

/// The operation that an open end names. Places count from 1.
#[derive(Drop)]
pub enum Next {
    Reduce {
        place: u16,
        run: StepList,
    },
    Weed {
        place: u16,
        run: StepList,
    },
    /// A run from the Delta-polynomial of a critical pair.
    Pair {
        first: u16,
        second: u16,
        run: StepList,
    },
    Divide {
        place: u16,
        symbol: Symbol,
    },
    Split {
        place: u16,
        which: Which,
    },
    Factor {
        place: u16,
        symbol: Symbol,
    },
    /// The separant of an equation, which does not fit.
    Separant {
        place: u16,
    },
}

/// A line of a tree. Places count from 1.
#[derive(Drop)]
pub enum Line {
    /// The end of a run on an equation takes its place.
    Reduce {
        place: u16,
        run: StepList,
    },
    /// The end of a run on an inequation takes its place.
    Weed {
        place: u16,
        run: StepList,
    },
    /// The end of a run from the Delta-polynomial of a critical pair becomes an equation.
    Add {
        first: u16,
        second: u16,
        run: StepList,
    },
    /// An equation is divided by the greatest power of a symbol that is an inequation.
    Divide {
        place: u16,
        symbol: Symbol,
    },
    /// The norm of an initial or a separant becomes an inequation, or an equation.
    Split {
        place: u16,
        which: Which,
    },
    /// A derivative that divides an equation becomes an inequation and is divided out, or takes the
    /// place of the equation.
    Factor {
        place: u16,
        symbol: Symbol,
    },
    Closed,
    /// A chain; the lines `Pair` after it are its evidence.
    Chain,
    /// A run of evidence, or one that is named by `SpentPairs`.
    Pair {
        first: u16,
        second: u16,
        run: StepList,
    },
    /// The next operation holds and passes the budget.
    Spent(Next),
    /// The runs of the lines `Pair` after it pass the budget together.
    SpentPairs,
    /// The next operation does not fit.
    Wide(Next),
    /// The next operation, or the state after it, passes this limit.
    Large(Limit, Next),
}
