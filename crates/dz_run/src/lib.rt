//! The whole program over a source and two sinks that are handed in.
#![tactic(auto)]

mod answer;
mod asking;
mod charting;
mod checking;
mod decomposing;
mod ending;
pub mod laws;
mod message;
mod run;
mod sampling;
mod system;
mod told;

pub use ending::Ending;
pub use run::{blad_run, tell};
