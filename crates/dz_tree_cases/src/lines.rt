//! The lines of trees, as they stand in documents.

use dz_case::{place, split_at_first};
use dz_form::{read_operator, read_symbol};
use dz_move::{Line, Next};
use dz_poly::Limit;
use dz_step::{Step, StepList, Which};
use dz_syntax::Names;
use std::alloc::{AllocError, Global};

/// A step, as a place and an operator.
fn step(names: &Names, text: &[u8]) -> Option<Step> {
    let (first, second) = split_at_first(text, b':');
    Some(Step {
        place: place(first)?,
        operator: read_operator(names, second)?,
    })
}

/// The steps that fill a text; `None` where they are none.
fn steps(alloc: Global, names: &Names, text: &[u8]) -> Result<Option<StepList>, AllocError> {
    let mut run = StepList::new(alloc);
    if text.is_empty() {
        return Ok(Some(run));
    }
    for word in text.split(|byte| *byte == b' ') {
        let Some(step) = step(names, word) else {
            return Ok(None);
        };
        run.push(step)?;
    }
    Ok(Some(run))
}

/// The multiplier of a split.
fn which(text: &[u8]) -> Option<Which> {
    match text {
        b"initial" => Some(Which::Initial),
        b"separant" => Some(Which::Separant),
        _ => None,
    }
}

/// The limit with a name.
fn limit(text: &[u8]) -> Option<Limit> {
    match text {
        b"order" => Some(Limit::Order),
        b"exponent" => Some(Limit::Exponent),
        b"symbols" => Some(Limit::Symbols),
        b"terms" => Some(Limit::Terms),
        b"polynomials" => Some(Limit::Polynomials),
        b"node" => Some(Limit::Node),
        b"splits" => Some(Limit::Splits),
        _ => None,
    }
}

/// A run on a member: its place, and its steps.
fn run_at(
    alloc: Global,
    names: &Names,
    text: &[u8],
) -> Result<Option<(u16, StepList)>, AllocError> {
    let (first, rest) = split_at_first(text, b' ');
    let Some(place) = place(first) else {
        return Ok(None);
    };
    match steps(alloc, names, rest)? {
        Some(run) => Ok(Some((place, run))),
        None => Ok(None),
    }
}

/// An operation of which the text behind its first word has a run on a member or of a pair.
fn with_run(
    alloc: Global,
    names: &Names,
    word: &[u8],
    text: &[u8],
) -> Result<Option<Next>, AllocError> {
    match word {
        b"reduce" => match run_at(alloc, names, text)? {
            Some((place, run)) => Ok(Some(Next::Reduce { place, run })),
            None => Ok(None),
        },
        b"weed" => match run_at(alloc, names, text)? {
            Some((place, run)) => Ok(Some(Next::Weed { place, run })),
            None => Ok(None),
        },
        _ => {
            let (first, rest) = split_at_first(text, b' ');
            let Some(first) = place(first) else {
                return Ok(None);
            };
            match run_at(alloc, names, rest)? {
                Some((second, run)) => Ok(Some(Next::Pair { first, second, run })),
                None => Ok(None),
            }
        }
    }
}

/// An operation of which the text behind its first word has a place and one more word, or none.
fn without_run(names: &Names, word: &[u8], text: &[u8]) -> Option<Next> {
    let (first, rest) = split_at_first(text, b' ');
    let place = place(first)?;
    match word {
        b"divide" => Some(Next::Divide {
            place,
            symbol: read_symbol(names, rest)?,
        }),
        b"split" => Some(Next::Split {
            place,
            which: which(rest)?,
        }),
        b"factor" => Some(Next::Factor {
            place,
            symbol: read_symbol(names, rest)?,
        }),
        b"separant" if rest.is_empty() => Some(Next::Separant { place }),
        _ => None,
    }
}

/// The operation that fills a text.
fn operation(alloc: Global, names: &Names, text: &[u8]) -> Result<Option<Next>, AllocError> {
    let (word, rest) = split_at_first(text, b' ');
    match word {
        b"reduce" | b"weed" | b"pair" => with_run(alloc, names, word, rest),
        _ => Ok(without_run(names, word, rest)),
    }
}

/// An open end, by the text behind its first word.
fn open_end(alloc: Global, names: &Names, text: &[u8]) -> Result<Option<Line>, AllocError> {
    if text == b"spent pairs".as_slice() {
        return Ok(Some(Line::SpentPairs));
    }
    let (word, rest) = split_at_first(text, b' ');
    if word == b"large".as_slice() {
        let (name, rest) = split_at_first(rest, b' ');
        let Some(limit) = limit(name) else {
            return Ok(None);
        };
        return Ok(operation(alloc, names, rest)?.map(|next| Line::Large(limit, next)));
    }
    let Some(next) = operation(alloc, names, rest)? else {
        return Ok(None);
    };
    match word {
        b"spent" => Ok(Some(Line::Spent(next))),
        b"wide" => Ok(Some(Line::Wide(next))),
        _ => Ok(None),
    }
}

/// The move, fork or evidence of an operation; `None` for a separant, which stands in open ends
/// alone.
fn line_of(next: Next) -> Option<Line> {
    match next {
        Next::Reduce { place, run } => Some(Line::Reduce { place, run }),
        Next::Weed { place, run } => Some(Line::Weed { place, run }),
        Next::Pair { first, second, run } => Some(Line::Pair { first, second, run }),
        Next::Divide { place, symbol } => Some(Line::Divide { place, symbol }),
        Next::Split { place, which } => Some(Line::Split { place, which }),
        Next::Factor { place, symbol } => Some(Line::Factor { place, symbol }),
        Next::Separant { .. } => None,
    }
}

/// The line that fills a text; `None` where it is none.
fn line(alloc: Global, names: &Names, text: &[u8]) -> Result<Option<Line>, AllocError> {
    let (word, rest) = split_at_first(text, b' ');
    match word {
        b"closed" => Ok(Some(Line::Closed)),
        b"chain" => Ok(Some(Line::Chain)),
        b"open" => open_end(alloc, names, rest),
        b"add" => match with_run(alloc, names, word, rest)? {
            Some(Next::Pair { first, second, run }) => Ok(Some(Line::Add { first, second, run })),
            _ => Ok(None),
        },
        _ => match operation(alloc, names, text)? {
            Some(next) => Ok(line_of(next)),
            None => Ok(None),
        },
    }
}

/// The lines that fill texts; `None` where one of them is none.
pub(crate) fn lines(
    alloc: Global,
    names: &Names,
    texts: &[&[u8]],
) -> Result<Option<Vec<Line>>, AllocError> {
    let mut all = Vec::new(alloc);
    for k in 0..texts.len() {
        let Some(line) = line(alloc, names, texts[k])? else {
            return Ok(None);
        };
        all.push(line)?;
    }
    Ok(Some(all))
}
