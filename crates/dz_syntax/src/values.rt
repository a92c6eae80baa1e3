//! The values of symbols.

ghost use Rattle.std.specs.Prelude.{◌≡◌, ◌≤◌, ◌<◌, ◌<ℤ◌, ◌+◌, ◌++◌, ◌∷◌, [], pos, false, length};
ghost use Rattle.std.specs.Prelude.{map, unsigned_abs, IfOk, OnOk};
ghost use Rattle.std.specs.List.{list_any};
ghost use Rattle.dz_int.specs.Numbers.{greatest};
ghost use Rattle.dz_syntax.specs.Faults.{Gives};
ghost use Rattle.dz_syntax.specs.Marks.{separated};
ghost use Rattle.dz_syntax.specs.Values.{denominator_at, element_of, fraction_at, fraction_of};
ghost use Rattle.dz_syntax.specs.Values.{new_symbol_at, numerator_at, positive_at, same_symbol};
ghost use Rattle.dz_syntax.specs.Values.{value_at};

use crate::atom::{literal, symbol};
use crate::expression::MOST_LITERAL;
use crate::fault::{Stop, SyntaxKind, fault_at};
use crate::marks::{equals, expected, semicolon};
use crate::names::Names;
use crate::token::{Token, next};
use dz_int::Frac;
use dz_rank::Symbol;
use indexmap::IndexSet;
use std::alloc::{AllocError, Global};

/// A value as it is written.
#[derive(Clone, Copy)]
struct Written {
    symbol: Symbol,
    numerator: i128,
    denominator: u128,
}

// A numerator, with its sign.
#[tactic(auto, unfolding(crate::specs::Values::numerator_at))]
fn numerator(text: &[u8]) -> Result<(i128, &[u8]), Stop>
    ensures read { Gives (λ x. (x.0, x.1.now)) result (numerator_at text.now) }
    ensures within { IfOk result (λ x. unsigned_abs x.0 ≤ greatest) }
    ensures shorter { IfOk result (λ x. length x.1.now ≤ length text.now) }
{
    match next(text) {
        (Token::Minus, after) => {
            let (number, rest) = literal(after, MOST_LITERAL, SyntaxKind::Literal)?;
            Ok((-(number as i128), rest))
        }
        _ => {
            let (number, rest) = literal(text, MOST_LITERAL, SyntaxKind::Literal)?;
            Ok((number as i128, rest))
        }
    }
}

// A number that is not 0.
#[tactic(auto, unfolding(crate::specs::Values::positive_at))]
fn positive(text: &[u8]) -> Result<(u128, &[u8]), Stop>
    ensures read { Gives (λ x. (x.0, x.1.now)) result (positive_at text.now) }
    ensures positive { IfOk result (λ x. 0 < x.0) }
    ensures within { IfOk result (λ x. x.0 ≤ greatest) }
    ensures shorter { IfOk result (λ x. length x.1.now ≤ length text.now) }
{
    let (number, after) = literal(text, MOST_LITERAL, SyntaxKind::Literal)?;
    if number == 0 {
        return Err(fault_at(text, SyntaxKind::Denominator));
    }
    Ok((number, after))
}

// The denominator behind a `/`; 1 where no `/` stands.
#[tactic(auto, unfolding(crate::specs::Values::denominator_at))]
fn denominator(text: &[u8]) -> Result<(u128, &[u8]), Stop>
    ensures read { Gives (λ x. (x.0, x.1.now)) result (denominator_at text.now) }
    ensures positive { IfOk result (λ x. 0 < x.0) }
    ensures within { IfOk result (λ x. x.0 ≤ greatest) }
    ensures shorter { IfOk result (λ x. length x.1.now ≤ length text.now) }
{
    match next(text) {
        (Token::Slash, after) => positive(after),
        _ => Ok((1, text)),
    }
}

// The reduced fraction.
#[tactic(auto, using(crate::proofs::Fractions::is_fraction_of))]
fn reduced(numerator: i128, denominator: u128) -> Frac
    requires numerator_in_range { unsigned_abs numerator ≤ greatest }
    requires positive { 0 < denominator }
    requires denominator_in_range { denominator ≤ greatest }
    ensures { result ≡ fraction_of numerator denominator }
{
    Frac::new(numerator, denominator as i128)
}

// A numerator over a denominator.
#[tactic(auto, unfolding(crate::specs::Values::fraction_at))]
fn fraction(text: &[u8]) -> Result<(i128, u128, &[u8]), Stop>
    ensures read { Gives (λ x. (fraction_of x.0 x.1, x.2.now)) result (fraction_at text.now) }
    ensures numerator { IfOk result (λ x. unsigned_abs x.0 ≤ greatest) }
    ensures positive { IfOk result (λ x. 0 < x.1) }
    ensures denominator { IfOk result (λ x. x.1 ≤ greatest) }
    ensures shorter { IfOk result (λ x. length x.2.now ≤ length text.now) }
{
    let (numerator, text) = numerator(text)?;
    let (denominator, text) = denominator(text)?;
    Ok((numerator, denominator, text))
}

// Whether a symbol has a value.
fn has_symbol(valued: &IndexSet<Symbol>, symbol: Symbol) -> bool
    ensures { result ≡ list_any (λ w. same_symbol symbol w) valued.now.keys }
{
    valued.contains(&symbol)
}

// One more symbol that has a value.
fn put_symbol(valued: &mut IndexSet<Symbol>, symbol: Symbol) -> Result<(), AllocError>
    requires { list_any (λ w. same_symbol symbol w) valued.old.keys ≡ false }
    ensures { OnOk result (valued.new.keys ≡ valued.old.keys ++ symbol ∷ []) }
{
    let Ok(_) = valued.insert_full(symbol) else {
        return Err(AllocError);
    };
    Ok(())
}

// A symbol that has no value yet.
#[tactic(auto, unfolding(crate::specs::Values::new_symbol_at))]
fn new_symbol<'a>(
    names: &Names,
    valued: &IndexSet<Symbol>,
    text: &'a [u8],
) -> Result<(Symbol, &'a [u8]), Stop>
    ensures read { Gives (λ x. (x.0, x.1.now)) result
        (new_symbol_at names.now valued.now.keys text.now) }
    ensures new { IfOk result (λ x. list_any (λ w. same_symbol x.0 w) valued.now.keys ≡ false) }
    ensures shorter { IfOk result (λ x. length x.1.now ≤ length text.now) }
{
    let (found, after) = symbol(names, text)?;
    if has_symbol(valued, found) {
        return Err(fault_at(text, SyntaxKind::Twice));
    }
    Ok((found, after))
}

// A value of a symbol that has none yet.
#[tactic(auto, unfolding(crate::specs::Values::value_at))]
fn value<'a>(
    names: &Names,
    valued: &IndexSet<Symbol>,
    text: &'a [u8],
) -> Result<(Written, &'a [u8]), Stop>
    ensures read { Gives (λ x. (
      (x.0.symbol, fraction_of x.0.numerator x.0.denominator),
      x.1.now,
    )) result
        (value_at names.now valued.now.keys text.now) }
    ensures new { IfOk result (λ x.
        list_any (λ w. same_symbol x.0.symbol w) valued.now.keys ≡ false) }
    ensures numerator { IfOk result (λ x. unsigned_abs x.0.numerator ≤ greatest) }
    ensures positive { IfOk result (λ x. 0 < x.0.denominator) }
    ensures denominator { IfOk result (λ x. x.0.denominator ≤ greatest) }
    ensures shorter { IfOk result (λ x. length x.1.now ≤ length text.now) }
{
    let (symbol, text) = new_symbol(names, valued, text)?;
    let text = expected(equals(text), text)?;
    let (numerator, denominator, text) = fraction(text)?;
    Ok((
        Written {
            symbol,
            numerator,
            denominator,
        },
        text,
    ))
}

// One more value.
fn put_value(into: &mut Vec<(Symbol, Frac)>, value: Written) -> Result<(), AllocError>
    requires numerator { unsigned_abs value.numerator ≤ greatest }
    requires positive { 0 < value.denominator }
    requires denominator { value.denominator ≤ greatest }
    ensures { OnOk result (into.new.items
        ≡ into.old.items ++ (value.symbol, fraction_of value.numerator value.denominator) ∷ []) }
{
    let fraction = reduced(value.numerator, value.denominator);
    into.push((value.symbol, fraction))?;
    Ok(())
}

/// Reads at least one value, and the semicolon after the last one.
pub(crate) fn values<'a>(
    alloc: Global,
    names: &Names,
    into: &mut Vec<(Symbol, Frac)>,
    text: &'a [u8],
) -> Result<&'a [u8], Stop>
    requires { into.old.items ≡ [] }
    ensures read { Gives (λ t. (into.new.items, t.now)) result
        (separated (element_of names.now) (length text.now + 1) into.old.items text.now) }
{
    let mut valued = IndexSet::new(alloc);
    let mut rest = text;
    'elements: loop {
        let (read, after) = value(names, &valued, rest)?;
        put_symbol(&mut valued, read.symbol)?;
        put_value(into, read)?;
        let (token, behind) = next(after);
        match token {
            Token::Comma => rest = behind,
            _ => return expected(semicolon(after), after),
        }
    }
}
