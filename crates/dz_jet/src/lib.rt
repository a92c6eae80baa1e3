//! Jets of chains: the values of a chain's symbols up to an order, as fractions, and the law that
//! every derivative of every equation of the chain has value zero at them.
#![tactic(auto)]

mod derivatives;
mod faults;
mod fixing;
mod folds;
mod given;
mod jets;
pub mod laws;
mod leading;
mod making;
mod points;
mod symbols;
mod tables;

pub use faults::{At, JetFault, Part};
pub use jets::Jet;
pub use leading::is_proper;
pub use making::jet;
