//! The terms of differential polynomials, and what operations make of them.
//!
//! A polynomial is a finite map from monomials to nonzero whole numbers, kept as an [`Entry`]: its
//! terms, the greatest monomial first, with a table of its degrees. An operation adds up what it
//! contributes at each monomial in cells, and is refused exactly where it is too large or its
//! coefficients are too wide, whatever the order in which it adds. No book is known here.
#![tactic(auto)]

mod coefficients;
mod concluding;
mod copies;
mod derivations;
mod dividing;
mod entry;
mod factors;
mod in_place;
mod making;
mod negatives;
mod power_quotients;
mod products;
mod same;
mod sums;

pub use coefficients::{coefficient_entry, part_entry};
pub use copies::copied;
pub use derivations::{derivative, partial_derivative};
pub use dividing::{common_content, into_norm, quotient_by};
pub use dz_algebra::Limit;
pub use dz_monomials::{PolyStop, Sign};
pub use entry::Entry;
pub use factors::factor;
pub use in_place::sum_in_place;
pub use making::{number, power};
pub use negatives::negative;
pub use power_quotients::{divided_entry, divisor_power, is_divided, quotient_entry};
pub use products::product;
pub use same::same_entries;
pub use sums::sum;
