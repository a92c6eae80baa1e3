//! The derivatives of equations, each made once and derived further.

ghost use Rattle.std.specs.Prelude.{◌≡◌, ◌<◌, All, IfSome, List, ℕ, length, slice_index_or, true};
ghost use Rattle.dz_poly.specs.Books.{BookValue, Lives, Makes, polynomial};
ghost use Rattle.dz_rank.specs.Symbols.{IsOperatorOf};
ghost use Rattle.dz_diff.specs.Operations.{operator_answer, setting_of};
ghost use Rattle.dz_diff.specs.Operators.{is_proper};
ghost use Rattle.dz_diff.specs.States.{LiveAll};
ghost use Rattle.dz_jet.specs.Making.{IsLast, IsMade, lowered};

use crate::leading::Fixing;
use dz_diff::{apply, differentiate};
use dz_poly::{Book, Poly, PolyStop};
use dz_rank::{Operator, Ranking, Symbol};

/// A derivative that was made: what it fixes, the index of its equation, the operator, and its
/// name.
#[derive(Clone, Copy)]
pub(crate) struct Made {
    pub(crate) symbol: Symbol,
    pub(crate) index: usize,
    pub(crate) operator: Operator,
    pub(crate) derivative: Poly,
}

/// The last independent by which a proper operator derives.
fn last_derivation(operator: Operator) -> u8
    requires { is_proper operator ≡ true }
    ensures { IsLast operator result }
{
    let [_, j, k, l] = operator.counts;
    if l != 0 {
        3
    } else if k != 0 {
        2
    } else if j != 0 {
        1
    } else {
        0
    }
}

/// An operator with one derivation less by an independent.
fn lowered(operator: Operator, i: u8) -> Operator
    requires inside { i < 4 }
    requires takes { 0 < slice_index_or operator.counts i 0 }
    ensures { result ≡ lowered i operator }
{
    let mut counts = operator.counts;
    counts[i as usize] -= 1;
    Operator { counts }
}

/// What a derivative of an equation fixes before it is derived further by an independent.
fn fixed_before(w: Symbol, i: u8) -> Symbol
    requires { i < 4 }
{
    match w {
        Symbol::Derivative {
            dependent,
            operator,
        } if operator.counts[i as usize] > 0 => Symbol::Derivative {
            dependent,
            operator: lowered(operator, i),
        },
        other => other,
    }
}

/// The derivative of an equation by an operator that fixes a symbol, where it was made.
fn find_made(
    ranking: &Ranking,
    made: &[Made],
    symbol: Symbol,
    index: usize,
    operator: Operator,
) -> Option<Poly>
    ensures { (book : BookValue) (equations : List ℕ) → All (IsMade book equations) made.now
        → IfSome result (λ p. IsMade book equations (record {
          symbol = symbol;
          index = index;
          operator = operator;
          derivative = p;
        })) }
{
    let Ok(k) = made.binary_search_by(|m| ranking.compare(m.symbol, symbol)) else {
        return None;
    };
    let found = made[k];
    if found.index == index && found.operator == operator {
        Some(found.derivative)
    } else {
        None
    }
}

/// The derivative of an equation that fixes a symbol: that which was made for the symbol before,
/// derived once more; and where there is none, all derivations of the equation.
pub(crate) fn derivative(
    book: &mut Book,
    equations: &[Poly],
    made: &[Made],
    w: Symbol,
    fixing: Fixing,
) -> Result<Poly, PolyStop>
    requires live { LiveAll book.old equations.now }
    requires inside { fixing.index < length equations.now }
    requires operator { IsOperatorOf book.old.ranking.signature.independents fixing.operator }
    requires proper { is_proper fixing.operator ≡ true }
    requires made { All (IsMade book.old equations.now) made.now }
    ensures { Makes book.old book.new result (operator_answer (setting_of book.old.ranking)
        fixing.operator (polynomial book.old (slice_index_or equations.now fixing.index 0))) }
{
    let i = last_derivation(fixing.operator);
    let operator = lowered(fixing.operator, i);
    let before = fixed_before(w, i);
    match find_made(book.ranking(), made, before, fixing.index, operator) {
        Some(p) => differentiate(book, p, i),
        None => apply(book, equations[fixing.index], fixing.operator),
    }
}
