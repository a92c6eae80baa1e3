//! Writing one line of a tree.

ghost use Rattle.std.specs.Prelude.{◌≡◌, ◌<◌, ◌++◌, [], ◌∷◌, true, codes, decimal, OnOk};
ghost use Rattle.dz_cert.specs.LineTexts.{AreStepsOf, IsActionOf, IsLineOf};
ghost use Rattle.dz_cert.specs.LineTexts.{behind_blanks, line_text, next_words, spaced};
ghost use Rattle.dz_form.specs.Limits.{limit_word};
ghost use Rattle.dz_cert.specs.LineTexts.{step_text, step_words, which_word};
ghost use Rattle.dz_form.specs.Texts.{symbol_text};
ghost use Rattle.dz_rank.specs.Symbols.{BelongsTo, IsOperatorOf};
ghost use Rattle.dz_step.specs.StepOperators.{DeriveAlong};
ghost use Rattle.dz_syntax.specs.Names.{signature_of};
ghost use Rattle.dz_tree.specs.Forms.{is_spelled, is_spelled_action};
ghost use Rattle.dz_move.specs.TreeLines.{action_of, line_of};
ghost use Rattle.dz_move.specs.declared.lines.Line.TheVariants.{Wide};

use crate::parts::which_word;
use dz_form::{limit_word, write_operator, write_symbol};
use dz_move::{Line, Next};
use dz_rank::Symbol;
use dz_step::{Step, StepList, Which};
use dz_syntax::Names;
use itoa::Buffer;
use std::alloc::AllocError;

/// Appends a word behind a blank.
fn push_word(into: &mut Vec<u8>, word: &[u8]) -> Result<(), AllocError>
    ensures { OnOk result (into.new.items ≡ into.old.items ++ behind_blanks (word.now ∷ [])) }
{
    into.extend_from_slice(b" ")?;
    into.extend_from_slice(word)
}

/// Appends a place behind a blank.
fn push_place(into: &mut Vec<u8>, place: u16) -> Result<(), AllocError>
    ensures { OnOk result (into.new.items ≡ into.old.items ++ behind_blanks (decimal place ∷ [])) }
{
    let mut buffer = Buffer::new();
    push_word(into, buffer.format(place).as_bytes())
}

/// Appends a symbol behind a blank.
fn push_symbol(into: &mut Vec<u8>, names: &Names, symbol: Symbol) -> Result<(), AllocError>
    requires { BelongsTo (signature_of names.now) symbol }
    ensures { OnOk result (into.new.items ≡ into.old.items
        ++ behind_blanks (symbol_text names.now symbol ∷ [])) }
{
    into.extend_from_slice(b" ")?;
    write_symbol(symbol, names, into)
}

/// Appends a step behind a blank: the place of its divisor, a colon and its operator.
#[tactic(auto, unfolding(crate::specs::LineTexts::step_text))]
pub fn write_step(step: Step, names: &Names, into: &mut Vec<u8>) -> Result<(), AllocError>
    requires { IsOperatorOf names.now.independents step.operator }
    ensures { OnOk result (into.new.items ≡ into.old.items
        ++ behind_blanks (step_text names.now step ∷ [])) }
{
    push_place(into, step.place)?;
    into.extend_from_slice(b":")?;
    write_operator(step.operator, names, into)
}

/// Appends the steps of a run, each behind a blank; nothing where there is none.
pub fn write_steps(run: &StepList, names: &Names, into: &mut Vec<u8>) -> Result<(), AllocError>
    requires { DeriveAlong names.now.independents run.now }
    ensures { OnOk result (into.new.items ≡ into.old.items
        ++ behind_blanks (step_words names.now run.now)) }
{
    'steps: for k in 0..run.len() {
        write_step(run.get(k), names, into)?;
    }
    Ok(())
}

/// Appends a place and steps, each behind a blank.
#[tactic(auto, using(crate::proofs::WrittenSteps::derive_along))]
fn push_run(into: &mut Vec<u8>, names: &Names, place: u16, run: &StepList) -> Result<(), AllocError>
    requires { AreStepsOf names.now run.now }
    ensures { OnOk result (into.new.items ≡ into.old.items
        ++ behind_blanks (decimal place ∷ step_words names.now run.now)) }
{
    push_place(into, place)?;
    write_steps(run, names, into)
}

/// Appends two places and steps, each behind a blank.
fn push_pair(
    into: &mut Vec<u8>,
    names: &Names,
    first: u16,
    second: u16,
    run: &StepList,
) -> Result<(), AllocError>
    requires { AreStepsOf names.now run.now }
    ensures { OnOk result (into.new.items ≡ into.old.items
        ++ behind_blanks (decimal first ∷ decimal second ∷ step_words names.now run.now)) }
{
    push_place(into, first)?;
    push_run(into, names, second, run)
}

/// Appends a place and a symbol, each behind a blank.
fn push_factor(
    into: &mut Vec<u8>,
    names: &Names,
    place: u16,
    symbol: Symbol,
) -> Result<(), AllocError>
    requires { BelongsTo (signature_of names.now) symbol }
    ensures { OnOk result (into.new.items ≡ into.old.items
        ++ behind_blanks (decimal place ∷ symbol_text names.now symbol ∷ [])) }
{
    push_place(into, place)?;
    push_symbol(into, names, symbol)
}

/// Appends a place and a multiplier, each behind a blank.
fn push_split(into: &mut Vec<u8>, place: u16, which: Which) -> Result<(), AllocError>
    ensures { OnOk result (into.new.items ≡ into.old.items
        ++ behind_blanks (decimal place ∷ which_word which ∷ [])) }
{
    push_place(into, place)?;
    push_word(into, which_word(which))
}

/// Appends the operation that an open end names, each word behind a blank.
fn push_next(into: &mut Vec<u8>, names: &Names, next: &Next) -> Result<(), AllocError>
    requires spelled { is_spelled_action (action_of next.now) ≡ true }
    requires named { IsActionOf names.now (action_of next.now) }
    ensures { OnOk result (into.new.items ≡ into.old.items
        ++ behind_blanks (next_words names.now (action_of next.now))) }
{
    match next {
        Next::Reduce { place, run } => {
            push_word(into, b"reduce")?;
            push_run(into, names, *place, run)
        }
        Next::Weed { place, run } => {
            push_word(into, b"weed")?;
            push_run(into, names, *place, run)
        }
        Next::Pair { first, second, run } => {
            push_word(into, b"pair")?;
            push_pair(into, names, *first, *second, run)
        }
        Next::Divide { place, symbol } => {
            push_word(into, b"divide")?;
            push_factor(into, names, *place, *symbol)
        }
        Next::Split { place, which } => {
            push_word(into, b"split")?;
            push_split(into, *place, *which)
        }
        Next::Factor { place, symbol } => {
            push_word(into, b"factor")?;
            push_factor(into, names, *place, *symbol)
        }
        // A separant has a line of its own.
        Next::Separant { .. } => unreachable!(),
    }
}

/// Appends the text of an open end with a separant that does not fit.
fn push_separant(into: &mut Vec<u8>, place: u16) -> Result<(), AllocError>
    ensures { OnOk result (into.new.items ≡ into.old.items
        ++ spaced (codes "open" ∷ codes "wide" ∷ codes "separant" ∷ decimal place ∷ [])) }
{
    into.extend_from_slice(b"open wide separant")?;
    push_place(into, place)
}

/// Appends the text of an open end with what does not fit.
#[tactic(auto, unfolding(crate::specs::LineTexts::line_text))]
fn push_wide(into: &mut Vec<u8>, names: &Names, next: &Next) -> Result<(), AllocError>
    requires spelled { is_spelled (line_of (Wide next.now)) ≡ true }
    requires named { IsLineOf names.now (line_of (Wide next.now)) }
    ensures { OnOk result (into.new.items ≡ into.old.items
        ++ line_text names.now (line_of (Wide next.now))) }
{
    match next {
        Next::Separant { place } => push_separant(into, *place),
        _ => {
            into.extend_from_slice(b"open wide")?;
            push_next(into, names, next)
        }
    }
}

/// Appends the text of a line.
#[tactic(auto, unfolding(crate::specs::LineTexts::line_text))]
pub(crate) fn push_line(into: &mut Vec<u8>, names: &Names, line: &Line) -> Result<(), AllocError>
    requires spelled { is_spelled (line_of line.now) ≡ true }
    requires named { IsLineOf names.now (line_of line.now) }
    ensures { OnOk result (into.new.items ≡ into.old.items
        ++ line_text names.now (line_of line.now)) }
{
    match line {
        Line::Reduce { place, run } => {
            into.extend_from_slice(b"reduce")?;
            push_run(into, names, *place, run)
        }
        Line::Weed { place, run } => {
            into.extend_from_slice(b"weed")?;
            push_run(into, names, *place, run)
        }
        Line::Add { first, second, run } => {
            into.extend_from_slice(b"add")?;
            push_pair(into, names, *first, *second, run)
        }
        Line::Divide { place, symbol } => {
            into.extend_from_slice(b"divide")?;
            push_factor(into, names, *place, *symbol)
        }
        Line::Split { place, which } => {
            into.extend_from_slice(b"split")?;
            push_split(into, *place, *which)
        }
        Line::Factor { place, symbol } => {
            into.extend_from_slice(b"factor")?;
            push_factor(into, names, *place, *symbol)
        }
        Line::Closed => into.extend_from_slice(b"closed"),
        Line::Chain => into.extend_from_slice(b"chain"),
        Line::Pair { first, second, run } => {
            into.extend_from_slice(b"pair")?;
            push_pair(into, names, *first, *second, run)
        }
        Line::Spent(next) => {
            into.extend_from_slice(b"open spent")?;
            push_next(into, names, next)
        }
        Line::SpentPairs => into.extend_from_slice(b"open spent pairs"),
        Line::Wide(next) => push_wide(into, names, next),
        Line::Large(limit, next) => {
            into.extend_from_slice(b"open large")?;
            push_word(into, limit_word(*limit))?;
            push_next(into, names, next)
        }
    }
}
