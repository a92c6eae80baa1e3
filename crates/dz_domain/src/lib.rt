//! Differential domains of characteristic zero, and their points, as contracts speak of them.
//!
//! No code of the program computes with the values of a domain. The trait and its points are there
//! so that a contract can say what a system of differential equations means: what holds in every
//! domain, at every point.
#![tactic(auto)]

mod adjoin;
mod domain;
mod laws;
mod point;
mod whole;

pub use adjoin::{Adjoin, Coefficients};
pub use domain::Domain;
pub use laws::{
    ground_is_nonzero, independent_is_not_constant, value_of_derivative, value_of_product,
    value_of_sum,
};
pub use point::Point;
pub use whole::Whole;
