//! The words of the command line, and what they ask for.

ghost use Rattle.std.specs.Prelude.{◌≡◌, ◌≢◌, ◌<◌, ◌≤◌, ◌^◌, ℕ, All, IfOk, IsErrOf, List, [], ◌∷◌, Some, None, map, decimal, string_bytes, false, true};
ghost use Rattle.std.specs.Str.Parse.{digits_value};
ghost use Rattle.clap.specs.Words.{app_of, fault_of, found_of, kind_of, matches_of, one_of, rows_of, rule_of};
ghost use Rattle.dz_words.specs.Commands.{blad_app, option_rule, setting_row, verb_row, verb_rule};
ghost use Rattle.dz_words.specs.Options.{default_of, most_of, name_of};
ghost use Rattle.dz_words.specs.Shape.{is_number};
ghost use Rattle.dz_words.specs.Verbs.{name_of as verb_name};
ghost use Rattle.dz_words.specs.Words.{HasShape, IsInRange, IsWritten, Setting, request_of};

use crate::options::Key;
use crate::shape::verb_of;
use crate::verbs::Verb;
use clap::error::ErrorKind;
use clap::{Arg, ArgAction, ArgMatches, Command, Error, value_parser};
use std::alloc::{AllocError, Global};

/// What the words ask for: a verb, and a number for each option. It is the one to which the words
/// set the option, or else its default, also where the verb does not have the option.
#[derive(Clone, Copy, Debug, PartialEq, Eq)]
pub struct Request {
    pub verb: Verb,
    pub budget: u32,
    pub chain: u32,
    pub order: u32,
    pub seed: u32,
    pub size: u32,
}

/// Why words are not read.
#[derive(Clone, Copy, Debug, PartialEq, Eq)]
pub enum WordsFault {
    /// Memory ran out.
    Memory,
    /// The words have no written form.
    NotWritten,
}

/// The positional word.
fn verb_argument<'a>(alloc: Global) -> Arg<'a>
    ensures rule { rule_of result ≡ verb_rule }
    ensures local { result.global ≡ false }
{
    Arg::new(alloc, "verb")
        .required(true)
        .action(ArgAction::Set)
}

/// The argument of an option with this name: a number of its range.
fn option_argument<'a>(alloc: Global, key: Key, name: &'a str) -> Arg<'a>
    requires { name.now ≡ name_of key }
    ensures rule { rule_of result ≡ option_rule key }
    ensures local { result.global ≡ false }
{
    let range = i64::from(key.least())..=i64::from(key.most());
    Arg::new(alloc, name)
        .long(name)
        .action(ArgAction::Set)
        .value_parser(value_parser!(u32).range(range))
}

/// The command: one positional word and five options, and nothing else, as no help.
fn command<'a>(alloc: Global) -> Result<Command<'a>, AllocError>
    ensures { IfOk result (λ made. app_of made ≡ blad_app) }
{
    Command::new(alloc, "blad")
        .no_binary_name(true)
        .disable_help_flag(true)
        .arg(verb_argument(alloc))?
        .arg(option_argument(alloc, Key::Budget, "budget"))?
        .arg(option_argument(alloc, Key::Chain, "chain"))?
        .arg(option_argument(alloc, Key::Order, "order"))?
        .arg(option_argument(alloc, Key::Seed, "seed"))?
        .arg(option_argument(alloc, Key::Size, "size"))
}

/// What `clap` finds in the words.
fn parse<'a>(alloc: Global, words: &'a [String]) -> Result<ArgMatches<'a>, WordsFault>
    ensures read { IfOk result (λ matches.
        (rows_of (found_of matches) ≡ matches_of blad_app (map string_bytes words.entry.now))
        × (fault_of blad_app (map string_bytes words.entry.now) ≡ [])) }
    ensures refused { IsErrOf result WordsFault.NotWritten
        → fault_of blad_app (map string_bytes words.entry.now) ≢ [] }
{
    let Ok(command) = command(alloc) else {
        return Err(WordsFault::Memory);
    };
    match command.try_get_matches_from(words) {
        Ok(matches) => Ok(matches),
        Err(error) => Err(refusal(&error)),
    }
}

/// What an error of `clap` says: memory ran out, or the words are refused.
fn refusal(error: &Error) -> WordsFault
    ensures { result ≡ WordsFault.NotWritten → kind_of error.now ≢ ErrorKind.OutOfMemory }
{
    match error.kind() {
        ErrorKind::OutOfMemory => WordsFault::Memory,
        _ => WordsFault::NotWritten,
    }
}

/// The number of an option: the one that was found, or else its default.
fn number(matches: &ArgMatches<'_>, key: Key) -> u32
    ensures found { (n : ℕ) → n < 2 ^ 32
        → one_of (name_of key) (rows_of (found_of matches.now)) ≡ Some (decimal n) → result ≡ n }
    ensures unset { one_of (name_of key) (rows_of (found_of matches.now)) ≡ None
        → result ≡ default_of key }
{
    matches
        .get_one::<u32>(key.name())
        .unwrap_or(key.default_number())
}

/// What the verb asks for with the numbers that were found.
fn request_of(verb: Verb, matches: &ArgMatches<'_>) -> Request
    ensures { (settings : List Setting) → All (λ s. s.number ≤ most_of s.key) settings
        → rows_of (found_of matches.now) ≡ verb_row (verb_name verb) ∷ map setting_row settings
        → result ≡ request_of verb settings }
{
    Request {
        verb,
        budget: number(matches, Key::Budget),
        chain: number(matches, Key::Chain),
        order: number(matches, Key::Order),
        seed: number(matches, Key::Seed),
        size: number(matches, Key::Size),
    }
}

/// Reads the words after the program's name. Their shape is tested first, and `clap` reads words of
/// the right shape.
pub fn read_words(alloc: Global, words: &[String]) -> Result<Request, WordsFault>
    ensures read { IfOk result (λ request. IsWritten (map string_bytes words.now) request) }
    ensures within { IfOk result (λ request. IsInRange request) }
    ensures refused { IsErrOf result WordsFault.NotWritten
        → (request : Request) → IsWritten (map string_bytes words.now) request → ⊥ }

    // Words of another shape are refused without asking for memory.
    ensures memory { IsErrOf result WordsFault.Memory → HasShape (map string_bytes words.now) }
{
    let Some(verb) = verb_of(words) else {
        return Err(WordsFault::NotWritten);
    };
    let matches = parse(alloc, words)?;
    Ok(request_of(verb, &matches))
}

/// Words of a written form ask for one thing.
pub fn one_request()
    ensures { (words : List (List ℕ)) (first second : Request)
        → IsWritten words first → IsWritten words second → first ≡ second }
{}

/// `0`, or at most ten digits of which the first is not zero, are the decimal digits of a number
/// below 10^10, and these are all such numbers.
pub fn numbers_have_digits()
    ensures number { (text : List ℕ) → is_number text ≡ true
        → (decimal (digits_value 10 text) ≡ text) × (digits_value 10 text < 10 ^ 10) }
    ensures text { (number : ℕ) → number < 10 ^ 10 → is_number (decimal number) ≡ true }
{}
