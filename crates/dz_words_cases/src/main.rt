//! Reads words that were worked by hand.
//!
//! Each line of the input is a case: the program's name and its words, each behind one space, so that
//! two spaces together hold an empty word. A line that begins with `#` is a comment, and an empty
//! line is none. For each case a line is written: the case, `: `, and what the words ask for.
#![tactic(auto)]

mod telling;

use crate::telling::tell_all;
use dz_case::answer_input;
use std::process::ExitCode;

fn main(rt: HostRuntime) -> ExitCode {
    answer_input(&rt, tell_all)
}
