//! Literals and symbols.

ghost use Rattle.std.specs.Prelude.{◌≡◌, ◌≤◌, ◌<◌, ◌+◌, ◌^◌, ℕ, length, IfOk, slice_index};
ghost use Rattle.dz_syntax.specs.Faults.{Gives};
ghost use Rattle.dz_syntax.specs.Atoms.{independent_at, literal_at, names_in, symbol_at};
ghost use Rattle.dz_syntax.specs.Names.{FitsSymbol};

use crate::fault::{Stop, SyntaxKind, fault_at, unexpected};
use crate::names::Names;
use crate::number::number_of;
use crate::token::{Token, bytes_of, next};
use dz_rank::{Operator, Symbol};

/// A number up to a bound, past which it is a fault of this kind.
#[tactic(auto, unfolding(crate::specs::Atoms::literal_at))]
pub(crate) fn literal(text: &[u8], most: u128, kind: SyntaxKind) -> Result<(u128, &[u8]), Stop>
    requires { most < 2 ^ 127 }
    ensures read { Gives (λ x. (x.0, x.1.now)) result (literal_at most kind text.now) }
    ensures within { IfOk result (λ x. x.0 ≤ most) }
    ensures shorter { IfOk result (λ x. length x.1.now ≤ length text.now) }
{
    match next(text) {
        (Token::Number, after) => match number_of(bytes_of(text), most) {
            Some(number) => Ok((number, after)),
            None => Err(fault_at(text, kind)),
        },
        (token, _) => Err(unexpected(text, token)),
    }
}

// The independent named at the front.
#[tactic(auto, unfolding(crate::specs::Atoms::independent_at))]
fn independent(names: &Names, text: &[u8]) -> Result<u8, Stop>
    ensures read { Gives (λ i. i) result (independent_at names.now text.now) }
    ensures fits { IfOk result (λ i. i < 4) }
{
    match next(text) {
        (Token::Name, _) => match names.find(bytes_of(text)) {
            Some(Symbol::Independent(i)) => Ok(i),
            _ => Err(fault_at(text, SyntaxKind::Unknown)),
        },
        (token, _) => Err(unexpected(text, token)),
    }
}

// The names in a pair of brackets, and what is behind them. `left` more names may come.
#[tactic(auto, unfolding(crate::specs::Atoms::names_in))]
fn names_in<'a>(
    names: &Names,
    left: u8,
    mut operator: Operator,
    text: &'a [u8],
) -> Result<(Operator, &'a [u8]), Stop>
    requires { (k : ℕ) → slice_index operator.counts k + left ≤ 60 }
    ensures read { Gives (λ x. (x.0, x.1.now)) result (names_in left names.now operator text.now) }
    ensures shorter { IfOk result (λ x. length x.1.now ≤ length text.now) }
{
    let i = independent(names, text)?;
    if left == 0 {
        return Err(fault_at(text, SyntaxKind::Order));
    }
    let (_, after) = next(text);
    operator.counts[usize::from(i)] += 1;
    match next(after) {
        (Token::Comma, rest) => names_in(names, left - 1, operator, rest),
        (Token::CloseBracket, rest) => Ok((operator, rest)),
        (token, _) => Err(unexpected(after, token)),
    }
}

// A symbol with a name at the front.
#[tactic(auto, unfolding(crate::specs::Atoms::symbol_at))]
pub(crate) fn symbol<'a>(names: &Names, text: &'a [u8]) -> Result<(Symbol, &'a [u8]), Stop>
    ensures read { Gives (λ x. (x.0, x.1.now)) result (symbol_at names.now text.now) }
    ensures shorter { IfOk result (λ x. length x.1.now ≤ length text.now) }
{
    let (Token::Name, after) = next(text) else {
        let (token, _) = next(text);
        return Err(unexpected(text, token));
    };
    let Some(symbol) = names.find(bytes_of(text)) else {
        return Err(fault_at(text, SyntaxKind::Unknown));
    };
    let (Token::OpenBracket, inner) = next(after) else {
        return Ok((symbol, after));
    };
    match symbol {
        Symbol::Independent(_) => Err(fault_at(text, SyntaxKind::Unknown)),
        Symbol::Derivative { dependent, .. } => {
            let none = Operator { counts: [0; 4] };
            let (operator, rest) = names_in(names, 60, none, inner)?;
            Ok((
                Symbol::Derivative {
                    dependent,
                    operator,
                },
                rest,
            ))
        }
    }
}
