//! Runs the program over objects in memory, on cases that were worked by hand.
//!
//! The input has cases, each of lines with an empty line after them: a name; the words, each behind
//! one space, after `words`; settings of the outside; and the bytes of the input. A line that begins
//! with `#` is a comment. The settings are
//!
//! - `gives N`: a read gives at most N bytes (4,096 if left out);
//! - `reads N`: the read with this number fails, counted from 1;
//! - `room N`: the output takes at most N bytes in all (1,048,576 if left out);
//! - `takes N`: a write takes at most N bytes (4,096 if left out);
//! - `writes N`: the write with this number fails, counted from 1;
//! - `messages N`: the write on the error output with this number fails;
//! - `at square`: the run is told a point over polynomials in x, at which the first unknown is the
//!   square of the independent; `at square and constant`: one over polynomials in x and one more
//!   variable, at which that is the square and the variable.
//!
//! Of the bytes, `|TEXT` is a line, `\TEXT` is a text without its end, and `+N TEXT` and `*N TEXT` are
//! the same N times.
//! For each case its name and status are written, then the message behind `!`, and the output in
//! lines of the first two kinds.
#![tactic(auto)]

mod cases;
mod running;
mod telling;

use crate::telling::tell_all;
use dz_case::answer_input;
use std::process::ExitCode;

fn main(rt: HostRuntime) -> ExitCode {
    answer_input(&rt, tell_all)
}
