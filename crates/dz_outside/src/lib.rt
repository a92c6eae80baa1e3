//! Sources and sinks of bytes that count their failures: the traits, the reading of a whole source and the writing
//! of a whole text over them, a source and a sink in memory for tests, and adapters of std's readers and writers.
//!
//! A count of faults or of stalls has risen where it is greater than before or stands at its last value, `2^64 - 1`.
//! A source or a sink need not tell contracts its bytes, and those of std do not; what is promised of bytes says
//! nothing of such a one.
#![tactic(auto)]

mod failure;
mod memory;
mod sink;
mod source;
mod std_ends;
#[cfg(test)]
mod tests;

pub use failure::Failed;
pub use memory::{MemSink, MemSource};
pub use sink::{Sink, WriteStop, write_all};
pub use source::{ReadStop, Source, read_all};
pub use std_ends::{StdSink, StdSource};
