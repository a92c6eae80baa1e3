//! What follows the inequations in each form.

ghost use Rattle.std.specs.Prelude.{◌≡◌};
ghost use Rattle.dz_syntax.specs.Faults.{Gives};
ghost use Rattle.dz_syntax.specs.Endings.{document_at, end_at, functions_at, rest_at, rest_of};
ghost use Rattle.dz_syntax.specs.Endings.{values_at};

use crate::fault::{Stop, SyntaxKind, fault_at};
use crate::functions::functions;
use crate::item::Item;
use crate::marks::{Section, end_word, expected, nothing, semicolon, values_word};
use crate::names::Names;
use crate::sections::section;
use crate::token::{next, token_of};
use crate::values::values;
use dz_int::Frac;
use dz_rank::Symbol;
use std::alloc::Global;

/// What follows the system in a text.
#[derive(Clone, Copy, Debug, PartialEq, Eq)]
pub enum Form {
    /// `end`.
    Plain,
    /// `questions`, items, `;` and `end`.
    Questions,
    /// `values`, values, `;` and `end`.
    Values,
    /// `end`, a line feed directly after it, and a document.
    Document,
    /// `values`, functions, `;` and `end`.
    Functions,
}

/// What a form has besides the system.
#[derive(Drop)]
pub struct Ending {
    pub questions: Vec<Item>,
    pub values: Vec<(Symbol, Frac)>,
    pub functions: Vec<(u8, Item)>,
    pub document: usize,
}

// Reads `end`, behind which nothing stands.
#[tactic(auto, unfolding(crate::specs::Endings::end_at))]
fn end(text: &[u8]) -> Result<&[u8], Stop>
    ensures read { Gives (λ t. t.now) result (end_at text.now) }
{
    let text = expected(end_word(text), text)?;
    expected(nothing(text), text)
}

// Reads the values, with the word before them and the semicolon after them.
#[tactic(auto, unfolding(crate::specs::Endings::values_at))]
fn value_list<'a>(
    alloc: Global,
    names: &Names,
    text: &'a [u8],
) -> Result<(Vec<(Symbol, Frac)>, &'a [u8]), Stop>
    ensures read { Gives (λ x. (x.0.items, x.1.now)) result (values_at names.now text.now) }
{
    let mut found = Vec::new(alloc);
    let text = expected(values_word(text), text)?;
    if semicolon(text) {
        let (_, after) = next(text);
        return Ok((found, after));
    }
    let text = values(alloc, names, &mut found, text)?;
    Ok((found, text))
}

// Reads the functions, with the word before them and the semicolon after them.
#[tactic(auto, unfolding(crate::specs::Endings::functions_at))]
fn function_list<'a>(
    alloc: Global,
    names: &Names,
    text: &'a [u8],
) -> Result<(Vec<(u8, Item)>, &'a [u8]), Stop>
    ensures read { Gives (λ x. (x.0.items, x.1.now)) result (functions_at names.now text.now) }
{
    let mut found = Vec::new(alloc);
    let text = expected(values_word(text), text)?;
    if semicolon(text) {
        let (_, after) = next(text);
        return Ok((found, after));
    }
    let text = functions(alloc, names, &mut found, text)?;
    Ok((found, text))
}

// Reads `end` and the line feed directly after it: what is left is the document.
#[tactic(auto, unfolding(crate::specs::Endings::document_at))]
fn document(text: &[u8]) -> Result<&[u8], Stop>
    ensures read { Gives (λ t. t.now) result (document_at text.now) }
{
    expected(end_word(text), text)?;
    let (_, size) = token_of(text);
    match &text[size..] {
        [b'\n', document @ ..] => Ok(document),
        other => Err(fault_at(other, SyntaxKind::Unexpected)),
    }
}

/// Reads what follows the inequations in a form, where the whole text has so many bytes.
#[tactic(auto, unfolding(crate::specs::Endings::rest_at))]
pub(crate) fn rest(
    alloc: Global,
    form: Form,
    total: usize,
    names: &Names,
    text: &[u8],
) -> Result<Ending, Stop>
    ensures read { Gives (λ e. rest_of e) result (rest_at form total names.now text.now) }
{
    let mut ending = Ending {
        questions: Vec::new(alloc),
        values: Vec::new(alloc),
        functions: Vec::new(alloc),
        document: 0,
    };
    match form {
        Form::Plain => {
            end(text)?;
        }
        Form::Questions => {
            let (questions, text) = section(alloc, Section::Questions, names, text)?;
            end(text)?;
            ending.questions = questions;
        }
        Form::Values => {
            let (values, text) = value_list(alloc, names, text)?;
            end(text)?;
            ending.values = values;
        }
        Form::Document => {
            let document = document(text)?;
            ending.document = total.saturating_sub(document.len());
        }
        Form::Functions => {
            let (functions, text) = function_list(alloc, names, text)?;
            end(text)?;
            ending.functions = functions;
        }
    }
    Ok(ending)
}
