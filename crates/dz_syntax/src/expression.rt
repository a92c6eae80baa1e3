//! Expressions in postfix order.

ghost use Rattle.std.specs.Prelude.{◌≡◌, ◌≤◌, ◌<◌, length, OnOk, IfOk, List, ℕ};
ghost use Rattle.dz_syntax.specs.Faults.{Gives};
ghost use Rattle.dz_syntax.specs.Tokens.{front, behind};
ghost use Rattle.dz_syntax.specs.Expressions.{State, inside, poly_with, product_with, power_with};
ghost use Rattle.dz_syntax.specs.Expressions.{atom_with, exponent_at, number_op, symbol_op, sums};
ghost use Rattle.dz_syntax.specs.Expressions.{factors};

use crate::atom::{literal, symbol};
use crate::fault::{Stop, SyntaxKind, fault_at, unexpected};
use crate::names::Names;
use crate::token::{Token, next};
use dz_rank::Symbol;

/// The greatest coefficient, numerator and denominator.
pub(crate) const MOST_LITERAL: u128 = (1 << 127) - 1;

/// The greatest exponent.
const MOST_EXPONENT: u128 = 65_535;

/// One step of an expression in postfix order: it goes by a stack of values.
#[derive(Clone, Copy, Debug, PartialEq, Eq)]
pub enum Op {
    /// A number from 0 to `2^127 - 1` comes on top.
    Number(i128),
    /// A symbol comes on top.
    Symbol(Symbol),
    /// The value on top changes its sign.
    Negate,
    /// The two values on top give place to their sum.
    Add,
    /// The two values on top give place to the lower less the upper.
    Sub,
    /// The two values on top give place to their product.
    Mul,
    /// The value on top gives place to its power.
    Power(u16),
}

// A coefficient.
#[tactic(auto, unfolding(crate::specs::Expressions::number_op))]
fn number_op<'a>(out: &mut Vec<Op>, text: &'a [u8]) -> Result<&'a [u8], Stop>
    ensures read { Gives (λ t. record { out = out.new.items; text = t.now }) result
        (number_op (record { out = out.old.items; text = text.now })) }
    ensures shorter { IfOk result (λ t. length t.now ≤ length text.now) }
{
    let (number, after) = literal(text, MOST_LITERAL, SyntaxKind::Literal)?;
    out.push(Op::Number(number as i128))?;
    Ok(after)
}

// A symbol.
#[tactic(auto, unfolding(crate::specs::Expressions::symbol_op))]
fn symbol_op<'a>(names: &Names, out: &mut Vec<Op>, text: &'a [u8]) -> Result<&'a [u8], Stop>
    ensures read { Gives (λ t. record { out = out.new.items; text = t.now }) result
        (symbol_op names.now (record { out = out.old.items; text = text.now })) }
    ensures shorter { IfOk result (λ t. length t.now ≤ length text.now) }
{
    let (symbol, after) = symbol(names, text)?;
    out.push(Op::Symbol(symbol))?;
    Ok(after)
}

// An exponent, behind its `^`.
#[tactic(auto, unfolding(crate::specs::Expressions::exponent_at))]
fn exponent<'a>(out: &mut Vec<Op>, text: &'a [u8]) -> Result<&'a [u8], Stop>
    ensures read { Gives (λ t. record { out = out.new.items; text = t.now }) result
        (exponent_at (record { out = out.old.items; text = text.now })) }
    ensures shorter { IfOk result (λ t. length t.now ≤ length text.now) }
{
    let (exponent, after) = literal(text, MOST_EXPONENT, SyntaxKind::Exponent)?;
    out.push(Op::Power(exponent as u16))?;
    Ok(after)
}

// An atom, and its exponent if a `^` follows.
#[cycle(poly)]
#[tactic(auto, unfolding(crate::specs::Expressions::power_with))]
fn power<'a>(names: &Names, levels: u8, out: &mut Vec<Op>, text: &'a [u8]) -> Result<&'a [u8], Stop>
    ensures read { Gives (λ t. record { out = out.new.items; text = t.now }) result
        (power_with names.now (inside names.now levels)
        (record { out = out.old.items; text = text.now })) }
    ensures shorter { IfOk result (λ t. length t.now ≤ length text.now) }
{
    let text = atom(names, levels, out, text)?;
    match next(text) {
        (Token::Caret, after) => exponent(out, after),
        _ => Ok(text),
    }
}

// A number, a symbol, or an expression in parentheses.
#[cycle(poly)]
#[tactic(auto, unfolding(crate::specs::Expressions::atom_with))]
fn atom<'a>(names: &Names, levels: u8, out: &mut Vec<Op>, text: &'a [u8]) -> Result<&'a [u8], Stop>
    ensures read { Gives (λ t. record { out = out.new.items; text = t.now }) result
        (atom_with names.now (inside names.now levels)
        (record { out = out.old.items; text = text.now })) }
    ensures shorter { IfOk result (λ t. length t.now ≤ length text.now) }
{
    match next(text) {
        (Token::Number, _) => number_op(out, text),
        (Token::Name, _) => symbol_op(names, out, text),
        (Token::OpenParenthesis, _) => parentheses(names, levels, out, text),
        (token, _) => Err(unexpected(text, token)),
    }
}

// An expression in parentheses, where `levels` may open inside one another.
#[cycle(poly)]
#[tactic(auto, unfolding(crate::specs::Expressions::inside))]
fn parentheses<'a>(
    names: &Names,
    levels: u8,
    out: &mut Vec<Op>,
    text: &'a [u8],
) -> Result<&'a [u8], Stop>
    ensures read { Gives (λ t. record { out = out.new.items; text = t.now }) result
        (inside names.now levels (record { out = out.old.items; text = text.now })) }
    ensures shorter { IfOk result (λ t. length t.now ≤ length text.now) }
{
    if levels == 0 {
        return Err(fault_at(text, SyntaxKind::Deep));
    }
    let (_, after) = next(text);
    let text = poly(names, levels - 1, out, after)?;
    match next(text) {
        (Token::CloseParenthesis, after) => Ok(after),
        (token, _) => Err(unexpected(text, token)),
    }
}

// Powers with `*` between them.
#[cycle(poly)]
#[tactic(auto, unfolding(crate::specs::Expressions::product_with))]
fn product<'a>(
    names: &Names,
    levels: u8,
    out: &mut Vec<Op>,
    text: &'a [u8],
) -> Result<&'a [u8], Stop>
    ensures read { Gives (λ t. record { out = out.new.items; text = t.now }) result
        (product_with names.now (inside names.now levels)
        (record { out = out.old.items; text = text.now })) }
    ensures shorter { IfOk result (λ t. length t.now ≤ length text.now) }
{
    let text = power(names, levels, out, text)?;
    more_factors(names, levels, out, text)
}

// The factors behind the first, each with the `*` before it.
#[cycle(poly)]
fn more_factors<'a>(
    names: &Names,
    levels: u8,
    out: &mut Vec<Op>,
    text: &'a [u8],
) -> Result<&'a [u8], Stop>
    ensures read { Gives (λ t. record { out = out.new.items; text = t.now }) result
        (factors names.now (inside names.now levels) (length text.now)
        (record { out = out.old.items; text = text.now })) }
    ensures shorter { IfOk result (λ t. length t.now ≤ length text.now) }
{
    let mut rest = text;
    'factors: loop {
        let (token, after) = next(rest);
        match token {
            Token::Star => {
                rest = power(names, levels, out, after)?;
                out.push(Op::Mul)?;
            }
            _ => return Ok(rest),
        }
    }
}

/// Reads an expression, where `levels` parentheses may open inside one another: its steps are
/// added to `out`, and what is behind it is answered.
#[cycle(poly)]
#[tactic(auto, unfolding(crate::specs::Expressions::poly_with))]
pub(crate) fn poly<'a>(
    names: &Names,
    levels: u8,
    out: &mut Vec<Op>,
    text: &'a [u8],
) -> Result<&'a [u8], Stop>
    ensures read { Gives (λ t. record { out = out.new.items; text = t.now }) result
        (poly_with names.now (inside names.now levels)
        (record { out = out.old.items; text = text.now })) }
    ensures shorter { IfOk result (λ t. length t.now ≤ length text.now) }
{
    let text = match next(text) {
        (Token::Minus, after) => {
            let text = product(names, levels, out, after)?;
            out.push(Op::Negate)?;
            text
        }
        (Token::Plus, after) => product(names, levels, out, after)?,
        _ => product(names, levels, out, text)?,
    };
    more_terms(names, levels, out, text)
}

// The terms behind the first, each with the sign before it.
#[cycle(poly)]
fn more_terms<'a>(
    names: &Names,
    levels: u8,
    out: &mut Vec<Op>,
    text: &'a [u8],
) -> Result<&'a [u8], Stop>
    ensures read { Gives (λ t. record { out = out.new.items; text = t.now }) result
        (sums names.now (inside names.now levels) (length text.now)
        (record { out = out.old.items; text = text.now })) }
    ensures shorter { IfOk result (λ t. length t.now ≤ length text.now) }
{
    let mut rest = text;
    'terms: loop {
        let (token, after) = next(rest);
        match token {
            Token::Plus => {
                rest = product(names, levels, out, after)?;
                out.push(Op::Add)?;
            }
            Token::Minus => {
                rest = product(names, levels, out, after)?;
                out.push(Op::Sub)?;
            }
            _ => return Ok(rest),
        }
    }
}
