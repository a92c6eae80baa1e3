//! The functions of dependents, which are polynomials in the independents.

ghost use Rattle.std.specs.Prelude.{◌≡◌, ◌≤◌, ◌+◌, ◌==◌, length, map, IfOk};
ghost use Rattle.std.specs.List.{list_any};
ghost use Rattle.dz_syntax.specs.Faults.{Gives};
ghost use Rattle.dz_syntax.specs.Functions.{dependent_at, element_of, function_at};
ghost use Rattle.dz_syntax.specs.Functions.{independents_alone, new_dependent_at};
ghost use Rattle.dz_syntax.specs.Marks.{separated};

use crate::expression::poly;
use crate::fault::{Stop, SyntaxKind, fault_at, unexpected};
use crate::item::{Item, LEVELS};
use crate::marks::{equals, expected, semicolon};
use crate::names::{Group, Names};
use crate::token::{Token, bytes_of, next};
use dz_rank::Symbol;
use std::alloc::{AllocError, Global};

// The independents alone, so that a dependent is an unknown name.
fn independents_alone(alloc: Global, names: &Names) -> Result<Names, AllocError>
    ensures { IfOk result (λ alone. alone ≡ independents_alone names.now) }
{
    // All names are names, with room for the independents.
    names.opened();
    let independents = names.signature().independents;
    let mut alone = Names::new(alloc);
    for i in 0..independents {
        alone.declare(alloc, Group::Independents, names.independent(i))?;
    }
    Ok(alone)
}

// The dependent named at the front.
#[tactic(auto, unfolding(crate::specs::Functions::dependent_at))]
fn dependent(names: &Names, text: &[u8]) -> Result<u8, Stop>
    ensures { Gives (λ d. d) result (dependent_at names.now text.now) }
{
    match next(text) {
        (Token::Name, _) => match names.find(bytes_of(text)) {
            Some(Symbol::Derivative { dependent, .. }) => Ok(dependent),
            _ => Err(fault_at(text, SyntaxKind::Unknown)),
        },
        (token, _) => Err(unexpected(text, token)),
    }
}

// Whether a dependent has a function.
fn has_function(functions: &[(u8, Item)], dependent: u8) -> bool
    ensures { result ≡ list_any (λ u. dependent == u) (map (λ f. f.0) functions.now) }
{
    for k in 0..functions.len() {
        if dependent == functions[k].0 {
            return true;
        }
    }
    false
}

// The dependent named at the front, which has no function yet.
#[tactic(auto, unfolding(crate::specs::Functions::new_dependent_at))]
fn new_dependent(names: &Names, functions: &[(u8, Item)], text: &[u8]) -> Result<u8, Stop>
    ensures { Gives (λ d. d) result
        (new_dependent_at names.now (map (λ f. f.0) functions.now) text.now) }
{
    let found = dependent(names, text)?;
    if has_function(functions, found) {
        return Err(fault_at(text, SyntaxKind::Twice));
    }
    Ok(found)
}

// A function of a dependent that has none yet, where `alone` are the independents alone.
#[tactic(auto, unfolding(crate::specs::Functions::function_at))]
fn function<'a>(
    alloc: Global,
    names: &Names,
    alone: &Names,
    functions: &[(u8, Item)],
    text: &'a [u8],
) -> Result<(u8, Item, &'a [u8]), Stop>
    requires { alone.now ≡ independents_alone names.now }
    ensures read { Gives (λ x. ((x.0, x.1), x.2.now)) result
        (function_at names.now (map (λ f. f.0) functions.now) text.now) }
    ensures shorter { IfOk result (λ x. length x.2.now ≤ length text.now) }
{
    let dependent = new_dependent(names, functions, text)?;
    let (_, after) = next(text);
    let text = expected(equals(after), after)?;
    let mut steps = Vec::new(alloc);
    let text = poly(alone, LEVELS, &mut steps, text)?;
    Ok((dependent, Item::new(steps), text))
}

/// Reads at least one function, and the semicolon after the last one.
pub(crate) fn functions<'a>(
    alloc: Global,
    names: &Names,
    into: &mut Vec<(u8, Item)>,
    text: &'a [u8],
) -> Result<&'a [u8], Stop>
    ensures read { Gives (λ t. (into.new.items, t.now)) result
        (separated (element_of names.now) (length text.now + 1) into.old.items text.now) }
{
    let alone = independents_alone(alloc, names)?;
    let mut rest = text;
    'elements: loop {
        let (dependent, item, after) = function(alloc, names, &alone, into, rest)?;
        into.push((dependent, item))?;
        let (token, behind) = next(after);
        match token {
            Token::Comma => rest = behind,
            _ => return expected(semicolon(after), after),
        }
    }
}
