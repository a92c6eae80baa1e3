//! What a case says.

use dz_case::{CaseStop, number, split_at_first};
use std::alloc::{AllocError, Global};

/// The point that a run is told.
#[derive(Clone, Copy, Debug, PartialEq, Eq)]
pub(crate) enum At {
    /// It has neither independents nor unknowns.
    Nothing,
    /// Over polynomials in x: the first unknown is the square of the independent x.
    Square,
    /// Over polynomials in x and one more variable: the first unknown is the square of x and that
    /// variable, which no derivation by x moves.
    SquareAndConstant,
}

/// The words of a run, what its source and its outputs are like, and the point that it is told.
#[derive(Drop)]
pub(crate) struct Case<'a> {
    pub(crate) words: Vec<&'a [u8]>,
    pub(crate) bytes: Vec<u8>,
    pub(crate) gives: u32,
    pub(crate) failing_reads: Vec<u32>,
    pub(crate) room: u32,
    pub(crate) takes: u32,
    pub(crate) failing_writes: Vec<u32>,
    pub(crate) failing_messages: Vec<u32>,
    pub(crate) at: At,
}

impl<'a> Case<'a> {
    /// No words, an empty input, and objects that do not fail.
    fn new(alloc: Global) -> Case<'a> {
        Case {
            words: Vec::new(alloc),
            bytes: Vec::new(alloc),
            gives: 4096,
            failing_reads: Vec::new(alloc),
            room: 1_048_576,
            takes: 4096,
            failing_writes: Vec::new(alloc),
            failing_messages: Vec::new(alloc),
            at: At::Nothing,
        }
    }
}

/// The words behind a space each.
fn read_words<'a>(text: &'a [u8], words: &mut Vec<&'a [u8]>) -> Result<(), AllocError> {
    for word in text.split(|byte| *byte == b' ') {
        words.push(word)?;
    }
    Ok(())
}

/// Appends a text so many times, each with an end behind it.
fn repeat(text: &[u8], end: &[u8], into: &mut Vec<u8>) -> Result<(), CaseStop> {
    let (first, text) = split_at_first(text, b' ');
    let Some(times) = number(first) else {
        return Err(CaseStop::NoCase);
    };
    for _ in 0..times {
        into.extend_from_slice(text)?;
        into.extend_from_slice(end)?;
    }
    Ok(())
}

/// Takes a setting with a number.
fn set(case: &mut Case<'_>, name: &[u8], text: &[u8]) -> Result<(), CaseStop> {
    let Some(value) = number(text) else {
        return Err(CaseStop::NoCase);
    };
    if name == b"gives".as_slice() {
        case.gives = value;
    } else if name == b"reads".as_slice() {
        case.failing_reads.push(value)?;
    } else if name == b"room".as_slice() {
        case.room = value;
    } else if name == b"takes".as_slice() {
        case.takes = value;
    } else if name == b"writes".as_slice() {
        case.failing_writes.push(value)?;
    } else if name == b"messages".as_slice() {
        case.failing_messages.push(value)?;
    } else {
        return Err(CaseStop::NoCase);
    }
    Ok(())
}

/// Takes the name of a point.
fn place(case: &mut Case<'_>, name: &[u8]) -> Result<(), CaseStop> {
    if name == b"square".as_slice() {
        case.at = At::Square;
    } else if name == b"square and constant".as_slice() {
        case.at = At::SquareAndConstant;
    } else {
        return Err(CaseStop::NoCase);
    }
    Ok(())
}

/// Takes a line of a case.
fn take<'a>(case: &mut Case<'a>, line: &'a [u8]) -> Result<(), CaseStop> {
    match line {
        [b'|', text @ ..] => {
            case.bytes.extend_from_slice(text)?;
            case.bytes.push(b'\n')?;
            Ok(())
        }
        [b'\\', text @ ..] => Ok(case.bytes.extend_from_slice(text)?),
        [b'*', text @ ..] => repeat(text, b"", &mut case.bytes),
        [b'+', text @ ..] => repeat(text, b"\n", &mut case.bytes),
        _ => {
            let (name, text) = split_at_first(line, b' ');
            if name == b"words".as_slice() {
                return Ok(read_words(text, &mut case.words)?);
            }
            if name == b"at".as_slice() {
                return place(case, text);
            }
            set(case, name, text)
        }
    }
}

/// The case of the lines after its name.
pub(crate) fn read_case<'a>(alloc: Global, lines: &[&'a [u8]]) -> Result<Case<'a>, CaseStop> {
    let mut case = Case::new(alloc);
    for line in lines {
        take(&mut case, line)?;
    }
    Ok(case)
}
