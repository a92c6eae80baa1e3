//! Reading one line of a tree, word by word.

ghost use Rattle.std.specs.Prelude.{◌≡◌, map};
ghost use Rattle.dz_cert.specs.Evidence.{evidence_of};
ghost use Rattle.dz_cert.specs.LineReading.{done_by, factor_at, large_at, line_at, line_by};
ghost use Rattle.dz_cert.specs.LineReading.{next_by, open_by, pair_at, run_at, spent_by, split_at};
ghost use Rattle.dz_cert.specs.LineReading.{wide_by};
ghost use Rattle.dz_cert.specs.Stops.{Gives};
ghost use Rattle.dz_move.specs.TreeLines.{action_of, line_of};

use crate::parts::{limit, place, steps, which, words_of};
use crate::stops::LineStop;
use crate::words::{Word, word_of};
use dz_form::read_symbol;
use dz_move::{Line, Next};
use dz_rank::Symbol;
use dz_step::{StepList, Which};
use dz_syntax::Names;
use std::alloc::Global;

/// Two places, and a run from the Delta-polynomial of the equations there.
#[derive(Drop)]
struct Pair {
    first: u16,
    second: u16,
    run: StepList,
}

/// A place, and a run of at least one step.
fn read_run(alloc: Global, names: &Names, words: &[&[u8]]) -> Result<(u16, StepList), LineStop>
    ensures { Gives (λ r. r) result (run_at names.now (map (λ w. w.now) words.now)) }
{
    let [at, run @ ..] = words else {
        return Err(LineStop::Bad);
    };
    if run.is_empty() {
        return Err(LineStop::Bad);
    }
    let place = place(at).ok_or(LineStop::Bad)?;
    let run = steps(alloc, names, run)?;
    Ok((place, run))
}

/// A place and a symbol.
fn read_factor(names: &Names, words: &[&[u8]]) -> Result<(u16, Symbol), LineStop>
    ensures { Gives (λ r. r) result (factor_at names.now (map (λ w. w.now) words.now)) }
{
    let [at, symbol] = words else {
        return Err(LineStop::Bad);
    };
    let place = place(at).ok_or(LineStop::Bad)?;
    let symbol = read_symbol(names, symbol).ok_or(LineStop::Bad)?;
    Ok((place, symbol))
}

/// A place and a multiplier.
fn read_split(words: &[&[u8]]) -> Result<(u16, Which), LineStop>
    ensures { Gives (λ r. r) result (split_at (map (λ w. w.now) words.now)) }
{
    let [at, multiplier] = words else {
        return Err(LineStop::Bad);
    };
    let place = place(at).ok_or(LineStop::Bad)?;
    let which = which(multiplier).ok_or(LineStop::Bad)?;
    Ok((place, which))
}

/// Two places and a run.
fn read_pair(alloc: Global, names: &Names, words: &[&[u8]]) -> Result<Pair, LineStop>
    ensures { Gives evidence_of result (pair_at names.now (map (λ w. w.now) words.now)) }
{
    let [first, second, run @ ..] = words else {
        return Err(LineStop::Bad);
    };
    let first = place(first).ok_or(LineStop::Bad)?;
    let second = place(second).ok_or(LineStop::Bad)?;
    let run = steps(alloc, names, run)?;
    Ok(Pair { first, second, run })
}

/// The operation that an open end names by this word.
fn read_next(
    alloc: Global,
    names: &Names,
    word: Option<Word>,
    words: &[&[u8]],
) -> Result<Next, LineStop>
    ensures { Gives action_of result (next_by names.now word (map (λ w. w.now) words.now)) }
{
    match word {
        Some(Word::Reduce) => {
            let (place, run) = read_run(alloc, names, words)?;
            Ok(Next::Reduce { place, run })
        }
        Some(Word::Weed) => {
            let (place, run) = read_run(alloc, names, words)?;
            Ok(Next::Weed { place, run })
        }
        Some(Word::Pair) => {
            let Pair { first, second, run } = read_pair(alloc, names, words)?;
            Ok(Next::Pair { first, second, run })
        }
        Some(Word::Divide) => {
            let (place, symbol) = read_factor(names, words)?;
            Ok(Next::Divide { place, symbol })
        }
        Some(Word::Split) => {
            let (place, which) = read_split(words)?;
            Ok(Next::Split { place, which })
        }
        Some(Word::Factor) => {
            let (place, symbol) = read_factor(names, words)?;
            Ok(Next::Factor { place, symbol })
        }
        _ => Err(LineStop::Bad),
    }
}

/// An open end that names what passes the budget, by the first word of it.
fn read_spent(
    alloc: Global,
    names: &Names,
    word: Option<Word>,
    words: &[&[u8]],
) -> Result<Line, LineStop>
    ensures { Gives line_of result (spent_by names.now word (map (λ w. w.now) words.now)) }
{
    match word {
        Some(Word::Pairs) if words.is_empty() => Ok(Line::SpentPairs),
        Some(Word::Pair) => Err(LineStop::Bad),
        _ => Ok(Line::Spent(read_next(alloc, names, word, words)?)),
    }
}

/// An open end that names what does not fit, by the first word of it.
fn read_wide(
    alloc: Global,
    names: &Names,
    word: Option<Word>,
    words: &[&[u8]],
) -> Result<Line, LineStop>
    ensures { Gives line_of result (wide_by names.now word (map (λ w. w.now) words.now)) }
{
    match (word, words) {
        (Some(Word::Separant), [at]) => {
            let place = place(at).ok_or(LineStop::Bad)?;
            Ok(Line::Wide(Next::Separant { place }))
        }
        (Some(Word::Divide | Word::Factor), _) => Err(LineStop::Bad),
        _ => Ok(Line::Wide(read_next(alloc, names, word, words)?)),
    }
}

/// An open end that names a limit, and what passes it.
fn read_large(alloc: Global, names: &Names, words: &[&[u8]]) -> Result<Line, LineStop>
    ensures { Gives line_of result (large_at names.now (map (λ w. w.now) words.now)) }
{
    let [passed, word, words @ ..] = words else {
        return Err(LineStop::Bad);
    };
    let limit = limit(passed).ok_or(LineStop::Bad)?;
    Ok(Line::Large(limit, read_next(alloc, names, word_of(word), words)?))
}

/// An open end by its reason, with the words behind it.
fn read_open(
    alloc: Global,
    names: &Names,
    reason: Option<Word>,
    words: &[&[u8]],
) -> Result<Line, LineStop>
    ensures { Gives line_of result (open_by names.now reason (map (λ w. w.now) words.now)) }
{
    match (reason, words) {
        (Some(Word::Spent), [word, words @ ..]) => read_spent(alloc, names, word_of(word), words),
        (Some(Word::Wide), [word, words @ ..]) => read_wide(alloc, names, word_of(word), words),
        (Some(Word::Large), words) => read_large(alloc, names, words),
        _ => Err(LineStop::Bad),
    }
}

/// A move or a fork by its first word, with the words behind it.
fn read_action(
    alloc: Global,
    names: &Names,
    word: Option<Word>,
    words: &[&[u8]],
) -> Result<Line, LineStop>
    ensures { Gives line_of result (done_by names.now word (map (λ w. w.now) words.now)) }
{
    match word {
        Some(Word::Reduce) => {
            let (place, run) = read_run(alloc, names, words)?;
            Ok(Line::Reduce { place, run })
        }
        Some(Word::Weed) => {
            let (place, run) = read_run(alloc, names, words)?;
            Ok(Line::Weed { place, run })
        }
        Some(Word::Add) => {
            let Pair { first, second, run } = read_pair(alloc, names, words)?;
            Ok(Line::Add { first, second, run })
        }
        Some(Word::Divide) => {
            let (place, symbol) = read_factor(names, words)?;
            Ok(Line::Divide { place, symbol })
        }
        Some(Word::Split) => {
            let (place, which) = read_split(words)?;
            Ok(Line::Split { place, which })
        }
        Some(Word::Factor) => {
            let (place, symbol) = read_factor(names, words)?;
            Ok(Line::Factor { place, symbol })
        }
        _ => Err(LineStop::Bad),
    }
}

/// A line by its first word, with the words behind it.
fn read_words(
    alloc: Global,
    names: &Names,
    word: Option<Word>,
    words: &[&[u8]],
) -> Result<Line, LineStop>
    ensures { Gives line_of result (line_by names.now word (map (λ w. w.now) words.now)) }
{
    match (word, words) {
        (Some(Word::Closed), []) => Ok(Line::Closed),
        (Some(Word::Chain), []) => Ok(Line::Chain),
        (Some(Word::Pair), words) => {
            let Pair { first, second, run } = read_pair(alloc, names, words)?;
            Ok(Line::Pair { first, second, run })
        }
        (Some(Word::Open), [reason, words @ ..]) => {
            read_open(alloc, names, word_of(reason), words)
        }
        _ => read_action(alloc, names, word, words),
    }
}

/// The line of a tree with a text.
#[tactic(auto, unfolding(crate::specs::LineReading::line_at))]
pub(crate) fn read_line(alloc: Global, names: &Names, text: &[u8]) -> Result<Line, LineStop>
    ensures { Gives line_of result (line_at names.now text.now) }
{
    let words = words_of(alloc, text)?;
    match words.as_slice() {
        [word, words @ ..] => read_words(alloc, names, word_of(word), words),
        [] => Err(LineStop::Bad),
    }
}
