//! Parametric derivatives and cones: what a chain leaves free, and its description for all orders
//! (Riquier, Janet).
#![tactic(auto)]

mod choosing;
mod dividing;
pub mod laws;
mod leaders;
mod listing;
mod orders;
mod reporting;

pub use choosing::parametric;
pub use listing::{Cone, ConeFault, cones};
pub use orders::derivatives_to;
pub use reporting::{ParametricEnd, write_parametric_report};
