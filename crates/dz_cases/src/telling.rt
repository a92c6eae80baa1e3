//! What is told of the runs of cases.

use crate::cases::read_case;
use crate::running::{Ran, run};
use dz_case::{CaseStop, cases_of};
use itoa::Buffer;
use std::alloc::{AllocError, Global};

/// Appends the lines of a text, each behind a mark, and what follows the last line end behind
/// another.
fn write_lines(
    into: &mut Vec<u8>,
    mark: &[u8],
    last_mark: &[u8],
    text: &[u8],
) -> Result<(), AllocError> {
    let mut begin = 0;
    for end in 0..text.len() {
        if text[end] != b'\n' {
            continue;
        }
        into.extend_from_slice(mark)?;
        into.extend_from_slice(text.get(begin..end + 1).unwrap_or(&[]))?;
        begin = end + 1;
    }
    let last = text.get(begin..).unwrap_or(&[]);
    if last.is_empty() {
        return Ok(());
    }
    into.extend_from_slice(last_mark)?;
    into.extend_from_slice(last)?;
    into.extend_from_slice(b"\n")
}

/// Appends what a run came to.
fn write_run(into: &mut Vec<u8>, ran: &Ran) -> Result<(), AllocError> {
    let mut buffer = Buffer::new();
    into.extend_from_slice(b"status ")?;
    into.extend_from_slice(buffer.format(ran.status).as_bytes())?;
    into.extend_from_slice(b"\n")?;
    write_lines(into, b"!", b"!", &ran.message)?;
    write_lines(into, b"|", b"\\", &ran.output)
}

/// Appends what is told of a case; nothing where there is no line of one.
fn tell(alloc: Global, case: &[&[u8]], into: &mut Vec<u8>) -> Result<(), AllocError> {
    let Some((name, rest)) = case.split_first() else {
        return Ok(());
    };
    into.extend_from_slice(name)?;
    into.extend_from_slice(b"\n")?;
    let ran = match read_case(alloc, rest) {
        Ok(case) => run(alloc, case),
        Err(stop) => Err(stop),
    };
    match ran {
        Ok(ran) => write_run(into, &ran)?,
        Err(CaseStop::NoCase) => into.extend_from_slice(b"no case\n")?,
        Err(CaseStop::Memory) => return Err(AllocError),
    }
    into.extend_from_slice(b"\n")
}

/// Appends what is told of all cases of an input.
pub(crate) fn tell_all(alloc: Global, text: &[u8], into: &mut Vec<u8>) -> Result<(), AllocError> {
    for case in cases_of(alloc, text)?.iter() {
        tell(alloc, case, into)?;
    }
    Ok(())
}
