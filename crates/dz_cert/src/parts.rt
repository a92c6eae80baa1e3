//! Reading the parts of lines: numbers, places, steps, multipliers and limits.

ghost use Rattle.std.specs.Option.{option_map};
ghost use Rattle.std.specs.Prelude.{◌≡◌, ◌<◌, ◌≤◌, ◌==◌, length, map, position, IfOk, IfSome};
ghost use Rattle.dz_cert.specs.LineReading.{limit_at, number_at, place_at, step_at, steps_at};
ghost use Rattle.dz_cert.specs.LineReading.{which_at, words_of};
ghost use Rattle.dz_cert.specs.LineTexts.{which_word};
ghost use Rattle.dz_form.specs.Limits.{limit_word};
ghost use Rattle.dz_cert.specs.Stops.{Gives};
ghost use Rattle.dz_form.specs.Reading.{split_once};

use crate::stops::LineStop;
use dz_form::{limit_word, read_operator};
use dz_poly::Limit;
use dz_step::{Step, StepList, Which};
use dz_syntax::Names;
use itoa::Buffer;
use std::alloc::{AllocError, Global};
use std::str;

/// The words of a text, which blanks keep apart.
pub(crate) fn words_of(alloc: Global, text: &[u8]) -> Result<Vec<&[u8]>, AllocError>
    ensures { IfOk result (λ ws. map (λ w. w.now) ws.items ≡ words_of text.now) }
{
    text.split(|byte| *byte == b' ').collect(alloc)
}

/// The number of which this is the decimal text, up to a bound.
pub(crate) fn number(text: &[u8], most: u32) -> Option<u32>
    ensures value { result ≡ number_at most text.now }
    ensures within { IfSome result (λ n. n ≤ most) }
{
    let Ok(text) = str::from_utf8(text) else {
        return None;
    };
    let Ok(number) = text.parse::<u32>() else {
        return None;
    };
    if number > most {
        return None;
    }
    let mut buffer = Buffer::new();
    if buffer.format(number) != text {
        return None;
    }
    Some(number)
}

/// A place: the places are counted from 1, and the last is 65,535.
#[tactic(auto, unfolding(crate::specs::LineReading::place_at))]
pub(crate) fn place(text: &[u8]) -> Option<u16>
    ensures { result ≡ place_at text.now }
{
    match number(text, 65_535)? {
        0 => None,
        place => Some(place as u16),
    }
}

// The place of the first byte of a kind.
fn place_of(text: &[u8], mark: u8) -> Option<usize>
    ensures place { result ≡ position (λ b. b == mark) text.now }
    ensures within { IfSome result (λ at. at < length text.now) }
{
    text.iter().position(|byte| *byte == mark)
}

/// What stands before and behind the first byte of a kind.
pub(crate) fn split_once(text: &[u8], mark: u8) -> Option<(&[u8], &[u8])>
    ensures parts { option_map (λ p. (p.0.now, p.1.now)) result ≡ split_once mark text.now }
    ensures shorter { IfSome result (λ p. length p.1.now < length text.now) }
{
    let at = place_of(text, mark)?;
    Some((&text[..at], &text[at + 1..]))
}

/// A step: a place and an operator, with a colon between them.
#[tactic(auto, unfolding(crate::specs::LineReading::step_at))]
fn step(names: &Names, text: &[u8]) -> Option<Step>
    ensures { result ≡ step_at names.now text.now }
{
    let (place_text, operator_text) = split_once(text, b':')?;
    let place = place(place_text)?;
    let operator = read_operator(names, operator_text)?;
    Some(Step { place, operator })
}

/// A step from each word.
pub(crate) fn steps(alloc: Global, names: &Names, words: &[&[u8]]) -> Result<StepList, LineStop>
    ensures { Gives (λ run. run) result (steps_at names.now (map (λ w. w.now) words.now)) }
{
    let mut run = StepList::new(alloc);
    'words: for word in words {
        let step = step(names, word).ok_or(LineStop::Bad)?;
        run.push(step)?;
    }
    Ok(run)
}

/// How a multiplier is written.
pub(crate) fn which_word(which: Which) -> &'static [u8]
    ensures { result.now ≡ which_word which }
{
    match which {
        Which::Initial => b"initial",
        Which::Separant => b"separant",
    }
}

const ALL_LIMITS: [Limit; 7] = [
    Limit::Order,
    Limit::Exponent,
    Limit::Symbols,
    Limit::Terms,
    Limit::Polynomials,
    Limit::Node,
    Limit::Splits,
];

/// The multiplier with a word.
#[tactic(auto, unfolding(crate::specs::LineReading::which_at))]
pub(crate) fn which(text: &[u8]) -> Option<Which>
    ensures { result ≡ which_at text.now }
{
    [Which::Initial, Which::Separant]
        .iter()
        .copied()
        .find(|which| which_word(*which) == text)
}

/// The limit with a word.
#[tactic(auto, unfolding(crate::specs::LineReading::limit_at))]
pub(crate) fn limit(text: &[u8]) -> Option<Limit>
    ensures { result ≡ limit_at text.now }
{
    ALL_LIMITS
        .iter()
        .copied()
        .find(|limit| limit_word(*limit) == text)
}
