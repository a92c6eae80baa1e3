//! The cases of an input.

use crate::telling::tell_report;
use dz_case::{CaseStop, cases_of, number, split_at_first};
use std::alloc::{AllocError, Global};

/// Appends the report of a case, by the lines after its name.
fn tell_case(alloc: Global, texts: &[&[u8]], into: &mut Vec<u8>) -> Result<(), CaseStop> {
    if texts.len() != 2 {
        return Err(CaseStop::NoCase);
    }
    let (first, second) = split_at_first(texts[1], b' ');
    let Some(chain) = number(first) else {
        return Err(CaseStop::NoCase);
    };
    let Some(order) = number(second) else {
        return Err(CaseStop::NoCase);
    };
    if order > 20 {
        return Err(CaseStop::NoCase);
    }
    tell_report(alloc, texts[0], chain, order as u8, into)
}

/// Appends the lines of a case; none where there is no line of one.
fn tell(alloc: Global, case: &[&[u8]], into: &mut Vec<u8>) -> Result<(), AllocError> {
    let Some((name, rest)) = case.split_first() else {
        return Ok(());
    };
    into.extend_from_slice(name)?;
    into.extend_from_slice(b"\n")?;
    match tell_case(alloc, rest, into) {
        Ok(()) => {}
        Err(CaseStop::NoCase) => into.extend_from_slice(b"no case\n")?,
        Err(CaseStop::Memory) => return Err(AllocError),
    }
    into.extend_from_slice(b"\n")
}

/// Appends the lines of all cases of an input.
pub(crate) fn tell_all(alloc: Global, text: &[u8], into: &mut Vec<u8>) -> Result<(), AllocError> {
    for case in cases_of(alloc, text)?.iter() {
        tell(alloc, case, into)?;
    }
    Ok(())
}
