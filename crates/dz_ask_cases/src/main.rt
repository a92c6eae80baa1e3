//! Answers questions that were worked by hand.
//!
//! The input has cases, each of three lines and an empty line after them: a name; a system with
//! questions; and one of the words `normal`, `vanishes` and `prepare` with the budget of a run or a
//! preparation. A line that begins with `#` is a comment. For each case its name is written, and for
//! each question what is answered by the chains of the worked tree of the system. Operators are
//! written by the letters x, y, z and w for the independents in their order.
#![tactic(auto)]

mod answering;
mod asking;
mod cases;
mod texts;

use crate::cases::tell_all;
use dz_case::answer_input;
use std::process::ExitCode;

fn main(rt: HostRuntime) -> ExitCode {
    answer_input(&rt, tell_all)
}
