//! Parametric derivatives.

ghost use Rattle.std.specs.Prelude.{◌≡◌, ◌≤◌, ◌-◌, ◌++◌, All, IfOk, MatchBool, OnOk, drop, take};
ghost use Rattle.std.specs.List.{Contains, filter};
ghost use Rattle.dz_rank.specs.Rankings.{ranking_cmp};
ghost use Rattle.dz_rank.specs.Symbols.{HasFourExponents, IsDerivativeOf};
ghost use Rattle.dz_rank.specs.declared.symbols.Symbol.{Symbol as SymbolValue};
ghost use Rattle.dz_diff.specs.States.{StandsIn, state_in};
ghost use Rattle.dz_parametric.specs.Choosing.{is_unled, parametric_to};
ghost use Rattle.dz_parametric.specs.Orders.{IsRising, derivatives_from, derivatives_to};
ghost use Rattle.dz_parametric.specs.Parametric.{IsLed, IsParametricTo, leaders_in};

use crate::leaders::leaders;
use dz_diff::State;
use dz_poly::Book;
use dz_rank::{Operator, Ranking, Symbol, quotient};
use std::alloc::{AllocError, Global};

/// Whether a symbol is a derivative of another.
fn derives(w: Symbol, lead: Symbol) -> bool
    ensures { MatchBool result (IsDerivativeOf lead w) (IsDerivativeOf lead w → ⊥) }
{
    match quotient(w, lead) {
        Some(_) => true,
        None => false,
    }
}

/// Whether a symbol is one of the leaders or a derivative of one.
fn is_led(leaders: &[Symbol], w: Symbol) -> bool
    ensures { MatchBool result (IsLed leaders.now w) (IsLed leaders.now w → ⊥) }
{
    for lead in leaders {
        if derives(w, *lead) {
            return true;
        }
    }
    false
}

/// Adds the derivatives of a dependent that no leader leads to, by the operators that have these
/// exponents before a position, and from there on ones with a sum of at most `most`. Where a leader
/// leads to the first of them, it leads to all, and none is made.
fn add_unled(
    into: &mut Vec<Symbol>,
    leaders: &[Symbol],
    independents: u8,
    dependent: u8,
    operator: Operator,
    i: u8,
    most: u8,
) -> Result<(), AllocError>
    requires leaders { All HasFourExponents leaders.now }
    requires within { i ≤ independents }
    requires few { independents ≤ 4 }
    requires zeros { All (λ k. k ≡ 0) (drop i operator.counts) }
    ensures { OnOk result (into.new.items ≡ into.old.items ++ filter (is_unled leaders.now)
        (derivatives_from independents dependent (take i operator.counts) (independents - i) most)) }
{
    let first = Symbol::Derivative {
        dependent,
        operator,
    };
    if is_led(leaders, first) {
        return Ok(());
    }
    if i == independents {
        into.push(first)?;
        return Ok(());
    }
    for k in 0..=most {
        let mut counts = operator.counts;
        counts[i as usize] = k;
        add_unled(
            into,
            leaders,
            independents,
            dependent,
            Operator { counts },
            i + 1,
            most - k,
        )?;
    }
    Ok(())
}

/// The derivatives up to a total order that no leader leads to, in increasing order.
pub(crate) fn unled_to(
    alloc: Global,
    ranking: &Ranking,
    leaders: &[Symbol],
    order: u8,
) -> Result<Vec<Symbol>, AllocError>
    requires { All HasFourExponents leaders.now }
    ensures { IfOk result (λ ws. ws.items
        ≡ filter (is_unled leaders.now) (derivatives_to ranking.now order)) }
{
    let signature = ranking.signature();
    let mut found = Vec::new(alloc);
    for u in 0..signature.dependents {
        let identity = Operator { counts: [0; 4] };
        add_unled(
            &mut found,
            leaders,
            signature.independents,
            u,
            identity,
            0,
            order,
        )?;
    }
    found.sort_unstable_by(|a, b| ranking.compare(*a, *b));
    Ok(found)
}

/// The parametric derivatives of a chain up to a total order, each once, in increasing order. No
/// more of them is kept on the way than is answered.
pub fn parametric(
    alloc: Global,
    book: &Book,
    chain: &State,
    order: u8,
) -> Result<Vec<Symbol>, AllocError>
    requires stands { StandsIn book.now chain.now }
    requires low { order ≤ 60 }
    ensures rising { IfOk result (λ ws. IsRising (ranking_cmp book.now.ranking) ws.items) }
    ensures only { IfOk result (λ ws. All (IsParametricTo book.now.ranking
        (leaders_in book.now.ranking (state_in book.now chain.now)) order) ws.items) }
    ensures listed { IfOk result (λ ws. ws.items
        ≡ parametric_to book.now.ranking (state_in book.now chain.now) order) }
    ensures all { IfOk result (λ ws. (w : SymbolValue) → IsParametricTo book.now.ranking
        (leaders_in book.now.ranking (state_in book.now chain.now)) order w
        → Contains ws.items w) }
{
    // What is true of every ranking and every book.
    let _ = book.ranking().signature();
    book.opened();
    let leaders = leaders(alloc, book, chain)?;
    unled_to(alloc, book.ranking(), leaders.as_slice(), order)
}
