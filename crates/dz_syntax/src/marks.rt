//! The words and marks that have to stand at a place.

ghost use Rattle.std.specs.Prelude.{◌≡◌, ◌≤◌, length, IfOk};
ghost use Rattle.dz_syntax.specs.Faults.{Gives};
ghost use Rattle.dz_syntax.specs.Tokens.{front};
ghost use Rattle.dz_syntax.specs.Marks.{expected, is_close_bracket, is_derivations, is_end};
ghost use Rattle.dz_syntax.specs.Marks.{is_equals, is_nothing, is_open_bracket, is_ranking};
ghost use Rattle.dz_syntax.specs.Marks.{is_relation, is_semicolon, is_values, is_word_of, kind_of};

use crate::fault::{Stop, unexpected};
use crate::token::{Token, Word, next};
use dz_rank::Kind;

/// A list of items, named by the word with which it begins.
#[derive(Clone, Copy, Debug, PartialEq, Eq)]
pub enum Section {
    Equations,
    Inequations,
    Questions,
}

/// Past the token at the front, if it is the one that has to stand here.
#[tactic(auto, unfolding(crate::specs::Marks::expected))]
pub(crate) fn expected(is: bool, text: &[u8]) -> Result<&[u8], Stop>
    ensures read { Gives (λ t. t.now) result (expected is text.now) }
    ensures shorter { IfOk result (λ t. length t.now ≤ length text.now) }
{
    let (token, after) = next(text);
    if !is {
        return Err(unexpected(text, token));
    }
    Ok(after)
}

pub(crate) fn derivations(text: &[u8]) -> bool
    ensures { result ≡ is_derivations (front text.now) }
{
    matches!(next(text), (Token::Word(Word::Derivations), _))
}

pub(crate) fn ranking(text: &[u8]) -> bool
    ensures { result ≡ is_ranking (front text.now) }
{
    matches!(next(text), (Token::Word(Word::Ranking), _))
}

/// Whether the word of a list of items stands at the front.
pub(crate) fn word_of(section: Section, text: &[u8]) -> bool
    ensures { result ≡ is_word_of section (front text.now) }
{
    let (token, _) = next(text);
    match (section, token) {
        (Section::Equations, Token::Word(Word::Equations)) => true,
        (Section::Inequations, Token::Word(Word::Inequations)) => true,
        (Section::Questions, Token::Word(Word::Questions)) => true,
        _ => false,
    }
}

/// Whether the mark between the sides of an item stands at the front.
pub(crate) fn relation(section: Section, text: &[u8]) -> bool
    ensures { result ≡ is_relation section (front text.now) }
{
    let (token, _) = next(text);
    match (section, token) {
        (Section::Equations, Token::Equals) => true,
        (Section::Inequations, Token::Differs) => true,
        _ => false,
    }
}

pub(crate) fn values_word(text: &[u8]) -> bool
    ensures { result ≡ is_values (front text.now) }
{
    matches!(next(text), (Token::Word(Word::Values), _))
}

pub(crate) fn end_word(text: &[u8]) -> bool
    ensures { result ≡ is_end (front text.now) }
{
    matches!(next(text), (Token::Word(Word::End), _))
}

/// Whether the text is at its end.
pub(crate) fn nothing(text: &[u8]) -> bool
    ensures { result ≡ is_nothing (front text.now) }
{
    matches!(next(text), (Token::Nothing, _))
}

pub(crate) fn semicolon(text: &[u8]) -> bool
    ensures { result ≡ is_semicolon (front text.now) }
{
    matches!(next(text), (Token::Semicolon, _))
}

pub(crate) fn open_bracket(text: &[u8]) -> bool
    ensures { result ≡ is_open_bracket (front text.now) }
{
    matches!(next(text), (Token::OpenBracket, _))
}

pub(crate) fn close_bracket(text: &[u8]) -> bool
    ensures { result ≡ is_close_bracket (front text.now) }
{
    matches!(next(text), (Token::CloseBracket, _))
}

pub(crate) fn equals(text: &[u8]) -> bool
    ensures { result ≡ is_equals (front text.now) }
{
    matches!(next(text), (Token::Equals, _))
}

/// The kind of a block, where its word stands at the front.
pub(crate) fn kind(text: &[u8]) -> Option<Kind>
    ensures { result ≡ kind_of (front text.now) }
{
    match next(text) {
        (Token::Word(Word::Kind(kind)), _) => Some(kind),
        _ => None,
    }
}
