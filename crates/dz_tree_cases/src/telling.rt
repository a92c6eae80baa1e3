//! The lines that are written, one for each case.

use crate::alone::Alone;
use crate::judging::{Judgement, judge};
use crate::working::Working;
use dz_case::{CaseStop, cases_of};
use dz_check::Verdict;
use dz_form::limit_word;
use itoa::Buffer;
use std::alloc::{AllocError, Global};

/// Appends a number.
fn write_number(into: &mut Vec<u8>, number: usize) -> Result<(), AllocError> {
    let mut buffer = Buffer::new();
    into.extend_from_slice(buffer.format(number).as_bytes())
}

/// Appends a verdict, with the number of chains.
fn write_verdict(into: &mut Vec<u8>, verdict: Verdict, chains: usize) -> Result<(), AllocError> {
    match verdict {
        Verdict::Accepted => {
            into.extend_from_slice(b"accepted, chains ")?;
            write_number(into, chains)
        }
        Verdict::Partial => {
            into.extend_from_slice(b"partial, chains ")?;
            write_number(into, chains)
        }
        Verdict::Rejected { place, rule } => {
            into.extend_from_slice(b"rejected ")?;
            write_number(into, place)?;
            into.extend_from_slice(b" ")?;
            into.extend_from_slice(rule.name())
        }
    }
}

/// Appends what the first line is told alone, if it is told something.
fn write_alone(into: &mut Vec<u8>, alone: Alone) -> Result<(), AllocError> {
    match alone {
        Alone::Nothing => Ok(()),
        Alone::Holds => into.extend_from_slice(b"; alone holds"),
        Alone::Wide => into.extend_from_slice(b"; alone wide"),
        Alone::Large(limit) => {
            into.extend_from_slice(b"; alone large ")?;
            into.extend_from_slice(limit_word(limit))
        }
        Alone::Broken(rule) => {
            into.extend_from_slice(b"; alone ")?;
            into.extend_from_slice(rule.name())
        }
    }
}

/// Appends what is told of a tree beside the worked one, if that was asked for.
fn write_working(into: &mut Vec<u8>, working: Working) -> Result<(), AllocError> {
    match working {
        Working::Nothing => Ok(()),
        Working::Same => into.extend_from_slice(b"; worked"),
        Working::OtherNext => into.extend_from_slice(b"; not next"),
        Working::Other(line) => {
            into.extend_from_slice(b"; not worked from ")?;
            write_number(into, line)
        }
    }
}

/// Appends the line of a case; none where there is no line of one.
fn tell(alloc: Global, case: &[&[u8]], into: &mut Vec<u8>) -> Result<(), AllocError> {
    let Some((name, rest)) = case.split_first() else {
        return Ok(());
    };
    into.extend_from_slice(name)?;
    into.extend_from_slice(b": ")?;
    match judge(alloc, rest) {
        Ok(Judgement::Checked(told)) => {
            write_verdict(into, told.verdict, told.chains)?;
            write_alone(into, told.alone)?;
            write_working(into, told.working)?;
        }
        Ok(Judgement::NoTree) => into.extend_from_slice(b"no tree")?,
        Err(CaseStop::NoCase) => into.extend_from_slice(b"no case")?,
        Err(CaseStop::Memory) => return Err(AllocError),
    }
    into.extend_from_slice(b"\n")
}

/// Appends the lines of all cases of an input.
pub(crate) fn tell_all(alloc: Global, text: &[u8], into: &mut Vec<u8>) -> Result<(), AllocError> {
    for case in cases_of(alloc, text)?.iter() {
        tell(alloc, case, into)?;
    }
    Ok(())
}
