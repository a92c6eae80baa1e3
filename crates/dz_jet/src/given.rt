//! The values that are given.

ghost use Rattle.std.specs.Prelude.{◌≡◌, ◌++◌, All, IfErr, IfOk, OnOk, None, Ok, map};
ghost use Rattle.std.specs.List.{filter};
ghost use Rattle.std.specs.List.Sorted.{IsPermutation};
ghost use Rattle.dz_rank.specs.Symbols.{BelongsTo, HasFourExponents};
ghost use Rattle.dz_rank.specs.declared.symbols.Symbol.{Symbol as SymbolValue};
ghost use Rattle.dz_monomials.specs.Ranked.{symbols_under};
ghost use Rattle.dz_diff.specs.States.{StandsIn, state_in};
ghost use Rattle.dz_jet.specs.declared.faults.JetFault.TheVariants as faults;
ghost use Rattle.dz_syntax.specs.Systems.{AreDistinct};
ghost use Rattle.dz_jet.specs.Jets.{independents_of, is_needed};
ghost use Rattle.dz_parametric.specs.Orders.{derivatives_to};
ghost use Rattle.dz_jet.specs.Jets.{test_given, unless, value_in};
ghost use Rattle.dz_jet.specs.Stops.{IsFault};
ghost use Rattle.dz_jet.specs.Tables.{AreSorted, HaveOneValue, IsTable, first_missing, first_not_free};

use crate::faults::JetFault;
use crate::leading::leading_to;
use crate::symbols::total_order;
use crate::tables::find_value;
use dz_diff::State;
use dz_int::Frac;
use dz_poly::Book;
use dz_rank::{Ranking, Symbol};
use std::alloc::{AllocError, Global};

/// A copy of values that is sorted by their symbols.
fn sorted(
    alloc: Global,
    ranking: &Ranking,
    values: &[(Symbol, Frac)],
) -> Result<Vec<(Symbol, Frac)>, AllocError>
    ensures sorted { IfOk result (λ xs. AreSorted ranking.now xs.items) }
    ensures permutation { IfOk result (λ xs. IsPermutation values.now xs.items) }
{
    let mut copy = Vec::from_slice(alloc, values)?;
    copy.sort_unstable_by(|a, b| ranking.compare(a.0, b.0));
    Ok(copy)
}

/// Whether a value of a symbol is needed: it is no proper derivative of a leader.
fn is_needed(book: &Book, chain: &State, s: Symbol) -> bool
    requires stands { StandsIn book.now chain.now }
    requires four { HasFourExponents s }
    ensures { result ≡ is_needed (symbols_under book.now.ranking) (state_in book.now chain.now) s }
{
    leading_to(book, chain.equations(), s).is_none()
}

/// The needed values of symbols, in their order, among those that are given and sorted.
fn needed_values(
    alloc: Global,
    book: &Book,
    chain: &State,
    sorted: &[(Symbol, Frac)],
    symbols: &[Symbol],
) -> Result<Vec<(Symbol, Frac)>, JetFault>
    requires stands { StandsIn book.now chain.now }
    requires sorted { AreSorted book.now.ranking sorted.now }
    requires single { HaveOneValue sorted.now }
    requires four { All HasFourExponents symbols.now }
    ensures values { IfOk result (λ xs. xs.items ≡ map
        (λ s. (s, value_in (symbols_under book.now.ranking) sorted.now s))
        (filter (is_needed (symbols_under book.now.ranking) (state_in book.now chain.now))
        symbols.now)) }
    ensures all { OnOk result (first_missing book.now.ranking (state_in book.now chain.now)
        sorted.now symbols.now ≡ None) }
    ensures fault { IfErr result (λ e. IsFault e (unless faults.Missing
        (first_missing book.now.ranking (state_in book.now chain.now)
        sorted.now symbols.now))) }
{
    let mut needed = Vec::new(alloc);
    for i in 0..symbols.len() {
        let s = symbols[i];
        if !is_needed(book, chain, s) {
            continue;
        }
        let Some(value) = find_value(book.ranking(), sorted, s) else {
            return Err(JetFault::Missing(s));
        };
        needed.push((s, value))?;
    }
    Ok(needed)
}

/// The first symbol of values that is no symbol of a jet of this order, or whose value is not
/// needed.
fn find_not_free(book: &Book, chain: &State, values: &[(Symbol, Frac)], order: u8) -> Option<Symbol>
    requires stands { StandsIn book.now chain.now }
    requires belong { All (λ p. BelongsTo book.now.ranking.signature p.0) values.now }
    ensures { result ≡ first_not_free book.now.ranking (state_in book.now chain.now) values.now
        (independents_of book.now.ranking.signature ++ derivatives_to book.now.ranking order) }
{
    // A ranking has at most four independents.
    let _ = book.ranking().signature();
    for i in 0..values.len() {
        let s = values[i].0;
        if total_order(s) > u16::from(order) || !is_needed(book, chain, s) {
            return Some(s);
        }
    }
    None
}

/// The table of the needed values, where all of them are given and no other.
pub(crate) fn given_table(
    alloc: Global,
    book: &Book,
    chain: &State,
    values: &[(Symbol, Frac)],
    symbols: &[Symbol],
    order: u8,
) -> Result<Vec<(Symbol, Frac)>, JetFault>
    requires stands { StandsIn book.now chain.now }
    requires belong { All (λ p. BelongsTo book.now.ranking.signature p.0) values.now }
    requires distinct { AreDistinct values.now }
    requires symbols { symbols.now ≡ independents_of book.now.ranking.signature
        ++ derivatives_to book.now.ranking order }
    ensures table { IfOk result (λ xs. IsTable book.now.ranking xs.items) }
    ensures same { IfOk result (λ xs. (s : SymbolValue)
        → value_in (symbols_under book.now.ranking) xs.items s
        ≡ value_in (symbols_under book.now.ranking) values.now s) }
    ensures given { OnOk result (test_given (symbols_under book.now.ranking) values.now
        (filter (is_needed (symbols_under book.now.ranking) (state_in book.now chain.now))
        symbols.now) ≡ Ok tt) }
    ensures fault { IfErr result (λ e. IsFault e (test_given (symbols_under book.now.ranking)
        values.now (filter (is_needed (symbols_under book.now.ranking)
        (state_in book.now chain.now)) symbols.now))) }
{
    // A ranking has at most four independents.
    let _ = book.ranking().signature();
    let sorted = sorted(alloc, book.ranking(), values)?;
    let needed = needed_values(alloc, book, chain, sorted.as_slice(), symbols)?;
    match find_not_free(book, chain, values, order) {
        Some(s) => Err(JetFault::NotFree(s)),
        None => Ok(needed),
    }
}
