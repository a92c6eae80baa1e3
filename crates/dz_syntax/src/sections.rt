//! The lists of equations, inequations and questions.

ghost use Rattle.std.specs.Prelude.{◌≡◌, ◌≤◌, ◌+◌, length, IfOk};
ghost use Rattle.dz_syntax.specs.Faults.{Gives};
ghost use Rattle.dz_syntax.specs.Marks.{separated};
ghost use Rattle.dz_syntax.specs.Sections.{element_of, section_at, sides_at};

use crate::expression::{Op, poly};
use crate::fault::Stop;
use crate::item::{Item, LEVELS};
use crate::marks::{Section, expected, relation, semicolon, word_of};
use crate::names::Names;
use crate::token::{Token, next};
use std::alloc::Global;

// Reads an item: a side, or the difference of two sides.
#[tactic(auto, unfolding(crate::specs::Sections::sides_at))]
fn sides<'a>(
    alloc: Global,
    section: Section,
    names: &Names,
    text: &'a [u8],
) -> Result<(Item, &'a [u8]), Stop>
    ensures read { Gives (λ x. (x.0, x.1.now)) result (sides_at section names.now text.now) }
    ensures shorter { IfOk result (λ x. length x.1.now ≤ length text.now) }
{
    let mut steps = Vec::new(alloc);
    let text = poly(names, LEVELS, &mut steps, text)?;
    if !relation(section, text) {
        return Ok((Item::new(steps), text));
    }
    let (_, after) = next(text);
    let text = poly(names, LEVELS, &mut steps, after)?;
    steps.push(Op::Sub)?;
    Ok((Item::new(steps), text))
}

// Reads at least one item, and the semicolon after the last one.
fn items<'a>(
    alloc: Global,
    section: Section,
    names: &Names,
    into: &mut Vec<Item>,
    text: &'a [u8],
) -> Result<&'a [u8], Stop>
    ensures read { Gives (λ t. (into.new.items, t.now)) result
        (separated (element_of section names.now) (length text.now + 1) into.old.items text.now) }
{
    let mut rest = text;
    'elements: loop {
        let (read, after) = sides(alloc, section, names, rest)?;
        into.push(read)?;
        let (token, behind) = next(after);
        match token {
            Token::Comma => rest = behind,
            _ => return expected(semicolon(after), after),
        }
    }
}

/// Reads a list of items, with the word before it and the semicolon after it.
#[tactic(auto, unfolding(crate::specs::Sections::section_at))]
pub(crate) fn section<'a>(
    alloc: Global,
    section: Section,
    names: &Names,
    text: &'a [u8],
) -> Result<(Vec<Item>, &'a [u8]), Stop>
    ensures read { Gives (λ x. (x.0.items, x.1.now)) result
        (section_at section names.now text.now) }
{
    let mut found = Vec::new(alloc);
    let text = expected(word_of(section, text), text)?;
    if semicolon(text) {
        let (_, after) = next(text);
        return Ok((found, after));
    }
    let text = items(alloc, section, names, &mut found, text)?;
    Ok((found, text))
}
