//! What every program of cases does.

use dz_outside::{StdSink, StdSource, read_all, write_all};
use std::alloc::{AllocError, Global};
use std::process::ExitCode;

/// The most bytes of an input.
const MOST_BYTES: usize = 16_777_216;

/// Reads the whole standard input, and writes what is told of it to the standard output.
pub fn answer_input<T>(rt: &HostRuntime, tell: T) -> ExitCode
where
    T: FnOnce(Global, &[u8], &mut Vec<u8>) -> Result<(), AllocError>,
    requires { T.IsAlwaysCallable tell }
{
    let alloc = rt.alloc();
    let mut input = StdSource::new(rt.stdin());
    let mut out = StdSink::new(rt.stdout());
    let Ok(bytes) = read_all(alloc, &mut input, MOST_BYTES) else {
        return ExitCode::from(1);
    };
    let mut told = Vec::new(alloc);
    let Ok(()) = tell(alloc, &bytes, &mut told) else {
        return ExitCode::from(1);
    };
    match write_all(&mut out, &told) {
        Ok(()) => ExitCode::from(0),
        Err(_) => ExitCode::from(1),
    }
}
