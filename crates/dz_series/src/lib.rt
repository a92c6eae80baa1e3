//! The texts of jets: the lines of their values, a power series for each dependent, and what is
//! printed of a series behind a document.
#![tactic(auto)]

mod coefficients;
mod faults;
pub mod laws;
mod numbers;
mod reporting;
mod sums;
mod writing;

pub use faults::SeriesFault;
pub use reporting::{SeriesEnd, write_series_report};
pub use writing::write_series;
