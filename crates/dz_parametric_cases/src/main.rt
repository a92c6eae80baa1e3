//! Tells the parametric derivatives and the cones of chains of systems that were worked by hand.
//!
//! The input has cases, each of three lines and an empty line after them: a name; a system; and the
//! number of a chain with a total order. A line that begins with `#` is a comment. For each case its
//! name is written, and the report of that chain of the worked tree of the system.
#![tactic(auto)]

mod cases;
mod telling;

use crate::cases::tell_all;
use dz_case::answer_input;
use std::process::ExitCode;

fn main(rt: HostRuntime) -> ExitCode {
    answer_input(&rt, tell_all)
}
