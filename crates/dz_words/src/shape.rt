//! The shape of the words: all of a written form but the ranges.

ghost use Rattle.std.specs.Prelude.{◌≡◌, find, map, string_bytes, Option, None};
ghost use Rattle.std.specs.List.{list_all, list_any};
ghost use Rattle.std.specs.Char.{is_ascii_digit};
ghost use Rattle.dz_words.specs.Shape.{are_settings, is_number, names, sets, verb_of, starts_as_number};
ghost use Rattle.dz_words.specs.Verbs.{options_of};

use crate::options::Key;
use crate::verbs::{Verb, verb_named};

/// Whether the digits may begin a number: a zero stands alone.
fn starts_as_number(digits: &[u8]) -> bool
    ensures { result ≡ starts_as_number digits.now }
{
    match digits {
        [] => false,
        [_] => true,
        [first, ..] => *first != b'0',
    }
}

/// Whether all bytes are digits.
fn are_digits(digits: &[u8]) -> bool
    ensures { result ≡ list_all is_ascii_digit digits.now }
{
    digits.iter().all(u8::is_ascii_digit)
}

/// Whether these are the digits of a number: `0`, or at most ten of which the first is not zero.
fn is_number(digits: &[u8]) -> bool
    ensures { result ≡ is_number digits.now }
{
    starts_as_number(digits) && digits.len() <= 10 && are_digits(digits)
}

/// Whether the word begins as one that sets the option.
fn names(word: &str, key: Key) -> bool
    ensures { result ≡ names word.now key }
{
    word.as_bytes().starts_with(key.prefix())
}

/// Whether the word sets the option to a number.
fn sets(word: &str, key: Key) -> bool
    ensures { result ≡ sets word.now key }
{
    match word.as_bytes().strip_prefix(key.prefix()) {
        Some(digits) => is_number(digits),
        None => false,
    }
}

/// The option of the verb that the word sets, if there is one.
fn set_by(verb: Verb, word: &str) -> Option<Key>
    ensures { result ≡ find (sets word.now) (options_of verb) }
{
    verb.options().iter().copied().find(|key| sets(word, *key))
}

/// Whether one of the words begins as one that sets the option.
fn is_named(words: &[String], key: Key) -> bool
    ensures { result ≡ list_any (λ word. names (string_bytes word) key) words.now }
{
    words.iter().any(|word| names(word, key))
}

/// Whether the words set options of the verb, each at most once.
#[tactic(auto, unfolding(crate::specs::Shape::are_settings))]
fn are_settings(verb: Verb, words: &[String]) -> bool
    ensures { result ≡ are_settings verb (map string_bytes words.now) }
{
    match words {
        [] => true,
        [word, rest @ ..] => match set_by(verb, word) {
            Some(key) => !is_named(rest, key) && are_settings(verb, rest),
            None => false,
        },
    }
}

/// The verb of words that have the shape of a written form. The ranges are not tested.
pub(crate) fn verb_of(words: &[String]) -> Option<Verb>
    ensures { result ≡ verb_of (map string_bytes words.now) }
{
    let [word, rest @ ..] = words else {
        return None;
    };
    verb_named(word).filter(|verb| are_settings(*verb, rest))
}
