//! Splits a system of polynomial differential equations into chains.
#![tactic(auto)]

use dz_domain::{Point, Whole};
use dz_outside::{StdSink, StdSource};
use dz_run::{Ending, blad_run, tell};
use std::io::ErrorKind;
use std::process::ExitCode;
use std::{env, io};

/// The words after the program's name.
fn words(rt: &HostRuntime) -> io::Result<Vec<String>> {
    Ok(env::args(rt)?.skip(1).collect(rt.alloc())?)
}

fn main(rt: HostRuntime) -> ExitCode {
    let mut err = StdSink::new(rt.stderr());
    let words = match words(&rt) {
        Ok(words) => words,
        // Words that are not UTF-8 are none of the program's, and so are no words at all.
        Err(error) if error.kind() == ErrorKind::InvalidData => Vec::new(rt.alloc()),
        Err(_) => return ExitCode::from(tell(&mut err, Ending::NoMemory, b"")),
    };
    let mut input = StdSource::new(rt.stdin());
    let mut out = StdSink::new(rt.stdout());
    let at = Point::empty(rt.alloc(), Whole::new());
    ExitCode::from(blad_run(rt.alloc(), &words, &mut input, &mut out, &mut err, &at))
}
