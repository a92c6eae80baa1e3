//! Judges trees that were worked by hand.
//!
//! The input has cases, each of some lines and an empty line after them: a name, a system, a budget
//! as a number, and the lines of a tree as they stand in a document. The word `worked` behind the budget
//! asks whether it is the worked tree. A line that begins with `#` is
//! a comment. For each case a line is written: its name; what is told of the tree, with the number
//! of its chains; what its first line is told alone, at the root, where that is a move, a fork or a
//! chain; and how it stands to the worked tree, where that is asked for.
#![tactic(auto)]

mod alone;
mod judging;
mod lines;
mod same;
mod telling;
mod working;

use crate::telling::tell_all;
use dz_case::answer_input;
use std::process::ExitCode;

fn main(rt: HostRuntime) -> ExitCode {
    answer_input(&rt, tell_all)
}
