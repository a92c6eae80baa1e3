//! What operators do to derivatives.

ghost use Rattle.std.specs.Prelude.{◌≡◌, ◌<◌, ◌≤◌, ◌+◌, ◌⊎◌, MatchOption, IfSome, IsTrue, ℕ, List, false, sum};
ghost use Rattle.dz_rank.specs.Symbols.{is_derivative, total_order, exponent_sums, exponent_maxima};
ghost use Rattle.dz_rank.specs.Symbols.{derivative_by, IsDerivativeBy, have_one_dependent};
ghost use Rattle.dz_rank.specs.Symbols.{least_common_derivative, IsLeastCommon};
ghost use Rattle.dz_rank.specs.declared.symbols.Operator.{Operator};

use crate::symbols::{Operator, Symbol};

/// The greatest total order of a derivative that is answered.
const GREATEST_ORDER: u16 = 60;

/// The total order of an operator, the sum of its exponents.
pub(crate) fn order(operator: Operator) -> u16
    ensures total { result ≡ sum operator.counts }
    ensures bounded { result ≤ 1020 }
{
    let [i, j, k, l] = operator.counts;
    u16::from(i) + u16::from(j) + u16::from(k) + u16::from(l)
}

/// The product of two operators, where its total order is at most 60.
#[tactic(auto, using(crate::proofs::Exponents::sum_of_exponent_sums))]
fn product(first: Operator, second: Operator) -> Option<Operator>
    ensures { MatchOption result
        (60 < sum (exponent_sums first.counts second.counts))
        (λ product. (product.counts ≡ exponent_sums first.counts second.counts)
        × (sum product.counts ≤ 60)) }
{
    if GREATEST_ORDER < order(first) + order(second) {
        return None;
    }
    let [i, j, k, l] = first.counts;
    let [m, n, o, p] = second.counts;
    Some(Operator {
        counts: [i + m, j + n, k + o, l + p],
    })
}

/// The derivative of a derivative by an operator; `None` above total order 60.
pub fn raise(symbol: Symbol, operator: Operator) -> Option<Symbol>
    requires { IsTrue (is_derivative symbol) }
    ensures { MatchOption result
        (60 < total_order (derivative_by operator symbol))
        (λ raised. (raised ≡ derivative_by operator symbol) × (total_order raised ≤ 60)) }
{
    let Symbol::Derivative {
        dependent,
        operator: first,
    } = symbol
    else {
        unreachable!()
    };
    Some(Symbol::Derivative {
        dependent,
        operator: product(first, operator)?,
    })
}

/// How often each derivation is taken from `divisor` to `multiple`; `None` where one is taken less.
fn difference(multiple: Operator, divisor: Operator) -> Option<Operator>
    ensures { MatchOption result
        ((t : List ℕ) → multiple.counts ≡ exponent_sums divisor.counts t → ⊥)
        (λ t. multiple.counts ≡ exponent_sums divisor.counts t.counts) }
{
    let [i, j, k, l] = multiple.counts;
    let [m, n, o, p] = divisor.counts;
    Some(Operator {
        counts: [
            i.checked_sub(m)?,
            j.checked_sub(n)?,
            k.checked_sub(o)?,
            l.checked_sub(p)?,
        ],
    })
}

/// The operator that takes `b` to `a`; `None` where there is none, as for an independent.
pub fn quotient(a: Symbol, b: Symbol) -> Option<Operator>
    ensures { MatchOption result
        ((t : Operator) → IsDerivativeBy t b a → ⊥)
        (λ t. IsDerivativeBy t b a) }
{
    match (a, b) {
        (
            Symbol::Derivative {
                dependent: u,
                operator: s,
            },
            Symbol::Derivative {
                dependent: v,
                operator: t,
            },
        ) if u == v => difference(s, t),
        _ => None,
    }
}

/// The greater of each two exponents.
fn least_multiple(first: Operator, second: Operator) -> Operator
    ensures { result.counts ≡ exponent_maxima first.counts second.counts }
{
    let [i, j, k, l] = first.counts;
    let [m, n, o, p] = second.counts;
    Operator {
        counts: [i.max(m), j.max(n), k.max(o), l.max(p)],
    }
}

/// The least common derivative of two derivatives; `None` where the dependents differ or its total
/// order is above 60.
pub fn least_common(a: Symbol, b: Symbol) -> Option<Symbol>
    requires first { IsTrue (is_derivative a) }
    requires second { IsTrue (is_derivative b) }
    ensures value { MatchOption result
        ((have_one_dependent a b ≡ false) ⊎ (60 < total_order (least_common_derivative a b)))
        (λ w. (w ≡ least_common_derivative a b) × (total_order w ≤ 60)) }
    ensures least { IfSome result (λ w. IsLeastCommon a b w) }
{
    match (a, b) {
        (
            Symbol::Derivative {
                dependent: u,
                operator: s,
            },
            Symbol::Derivative {
                dependent: v,
                operator: t,
            },
        ) if u == v => {
            let operator = least_multiple(s, t);
            if GREATEST_ORDER < order(operator) {
                return None;
            }
            Some(Symbol::Derivative {
                dependent: u,
                operator,
            })
        }
        _ => None,
    }
}
