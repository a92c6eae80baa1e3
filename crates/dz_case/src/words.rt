//! The cases of an input, and the words of a line.

use std::alloc::{AllocError, Global};
use std::mem;

/// The cases of an input, each with its lines: an empty line ends a case, and a line that begins
/// with `#` is none of it.
pub fn cases_of<'a>(alloc: Global, text: &'a [u8]) -> Result<Vec<Vec<&'a [u8]>>, AllocError> {
    let mut cases = Vec::new(alloc);
    let mut case: Vec<&[u8]> = Vec::new(alloc);
    for line in text.split(|byte| *byte == b'\n') {
        if line.starts_with(b"#") {
            continue;
        }
        if line.is_empty() {
            cases.push(mem::replace(&mut case, Vec::new(alloc)))?;
        } else {
            case.push(line)?;
        }
    }
    Ok(cases)
}

/// The text before the first byte of a kind, and the text behind it; all and nothing where there is
/// no such byte.
pub fn split_at_first(text: &[u8], mark: u8) -> (&[u8], &[u8]) {
    for k in 0..text.len() {
        if text[k] == mark {
            return (&text[..k], &text[k + 1..]);
        }
    }
    (text, b"")
}

/// The number that fills a text; `None` where it is none, or above the greatest `u32`.
pub fn number(text: &[u8]) -> Option<u32> {
    if text.is_empty() {
        return None;
    }
    let mut value = 0u32;
    for k in 0..text.len() {
        let digit = text[k].checked_sub(b'0')?;
        if digit > 9 {
            return None;
        }
        value = value.checked_mul(10)?.checked_add(digit as u32)?;
    }
    Some(value)
}

/// The place that fills a text.
pub fn place(text: &[u8]) -> Option<u16> {
    let value = number(text)?;
    if value > 65_535 {
        return None;
    }
    Some(value as u16)
}
