//! The lines that are written, one for each case.

use dz_words::{Request, Verb, WordsFault, read_words};
use itoa::Buffer;
use std::alloc::{AllocError, Global};

/// The name of a verb.
fn verb_name(verb: Verb) -> &'static [u8] {
    match verb {
        Verb::Decompose => b"decompose",
        Verb::Check => b"check",
        Verb::Reduce => b"reduce",
        Verb::Prepare => b"prepare",
        Verb::Series => b"series",
        Verb::Parametric => b"parametric",
        Verb::Sample => b"sample",
    }
}

/// Appends the name of an option and its number.
fn write_option(into: &mut Vec<u8>, name: &[u8], number: u32) -> Result<(), AllocError> {
    let mut buffer = Buffer::new();
    into.extend_from_slice(name)?;
    into.extend_from_slice(buffer.format(number).as_bytes())
}

/// Appends what is asked for.
fn write_request(into: &mut Vec<u8>, request: Request) -> Result<(), AllocError> {
    into.extend_from_slice(verb_name(request.verb))?;
    write_option(into, b" budget ", request.budget)?;
    write_option(into, b" chain ", request.chain)?;
    write_option(into, b" order ", request.order)?;
    write_option(into, b" seed ", request.seed)?;
    write_option(into, b" size ", request.size)
}

/// The words of a case, behind the program's name; `None` where one is not UTF-8.
fn words_of(alloc: Global, line: &[u8]) -> Result<Option<Vec<String>>, AllocError> {
    let mut words = Vec::new(alloc);
    let mut pieces = line.split(|byte| *byte == b' ');
    let _name = pieces.next();
    for piece in pieces {
        let Ok(word) = std::str::from_utf8(piece) else {
            return Ok(None);
        };
        words.push(String::from_str(alloc, word)?)?;
    }
    Ok(Some(words))
}

/// Appends the line of a case.
fn tell(alloc: Global, line: &[u8], into: &mut Vec<u8>) -> Result<(), AllocError> {
    into.extend_from_slice(line)?;
    into.extend_from_slice(b": ")?;
    match words_of(alloc, line)? {
        None => into.extend_from_slice(b"no case")?,
        Some(words) => match read_words(alloc, &words) {
            Ok(request) => write_request(into, request)?,
            Err(WordsFault::NotWritten) => into.extend_from_slice(b"not written")?,
            Err(WordsFault::Memory) => return Err(AllocError),
        },
    }
    into.extend_from_slice(b"\n")
}

/// Appends the lines of all cases of an input.
pub(crate) fn tell_all(alloc: Global, text: &[u8], into: &mut Vec<u8>) -> Result<(), AllocError> {
    for line in text.split(|byte| *byte == b'\n') {
        if !line.is_empty() && !line.starts_with(b"#") {
            tell(alloc, line, into)?;
        }
    }
    Ok(())
}
