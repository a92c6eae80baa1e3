//! Reports on questions about chains: what is printed behind a document.
//!
//! [`write_report`] writes the full runs on the questions by the chains, and tells where all of
//! them come to zero, or the preparations of the questions. What a report is is defined in
//! `specs/`, with a law in [`laws`].
#![tactic(auto)]

mod asked;
mod ending;
pub mod laws;
mod lines;
mod preparing;
mod reducing;
mod reports;
mod stops;

pub use asked::{Asked, AskedChains};
pub use ending::ReportEnd;
pub use reports::write_report;
