//! Where a derivative can be factored out of an equation.

ghost use Rattle.std.specs.Prelude.{◌≡◌, ◌&&◌, not, IfOk};
ghost use Rattle.dz_algebra.specs.Polynomial.{symbol_polynomial};
ghost use Rattle.dz_rank.specs.Rankings.{ranking_cmp};
ghost use Rattle.dz_terms.specs.Entries.{IsEntry};
ghost use Rattle.dz_monomials.specs.Ranked.{symbols_under};
ghost use Rattle.dz_diff.specs.States.{StandsIn, state_in};
ghost use Rattle.dz_diff.specs.Tests.{is_member, same};
ghost use Rattle.dz_monomials.specs.PowerDivision.{is_divided};
ghost use Rattle.dz_engine.specs.Facts.{AreFactsOf, AreKnown, names_of};
ghost use Rattle.dz_engine.specs.Finding.{factor_of, factorable};

use crate::dividing::is_inequation;
use crate::facts::Facts;
use dz_poly::Book;
use dz_rank::Symbol;
use dz_step::State;
use dz_terms::{Entry, is_divided, power, same_entries};
use std::alloc::AllocError;

/// Whether an entry is a symbol.
fn is_symbol(book: &Book, entry: &Entry, v: Symbol) -> Result<bool, AllocError>
    ensures { IfOk result (λ b. b ≡ same (symbols_under book.now.ranking) entry.now.terms
        (symbol_polynomial v)) }
{
    let symbol = power(book.allocator(), 1, v, 1)?;
    Ok(same_entries(book.ranking(), entry, &symbol))
}

/// Whether a symbol divides an entry, is not the entry and is no inequation.
fn is_factor(book: &Book, state: &State, entry: &Entry, v: Symbol) -> Result<bool, AllocError>
    requires stands { StandsIn book.now state.now }
    requires entry { IsEntry book.now.ranking entry.now }
    ensures { IfOk result (λ b. b ≡ (is_divided (ranking_cmp book.now.ranking) v
        entry.now.terms && not (same (symbols_under book.now.ranking)
        entry.now.terms (symbol_polynomial v))
        && not (is_member (symbols_under book.now.ranking) (symbol_polynomial v)
        (state_in book.now state.now).inequations))) }
{
    if !is_divided(book.ranking(), entry, v) {
        return Ok(false);
    }
    if is_symbol(book, entry, v)? {
        return Ok(false);
    }
    let there = is_inequation(book, state, v)?;
    Ok(!there)
}

/// The greatest derivative that can be factored out of an entry.
fn factor_of(
    book: &Book,
    state: &State,
    entry: &Entry,
    facts: &Facts,
) -> Result<Option<Symbol>, AllocError>
    requires stands { StandsIn book.now state.now }
    requires entry { IsEntry book.now.ranking entry.now }
    requires facts { AreFactsOf book.now.ranking entry.now.terms facts.now }
    ensures { IfOk result (λ o. o ≡ factor_of (symbols_under book.now.ranking)
        (state_in book.now state.now) entry.now.terms) }
{
    if facts.is_undivided {
        return Ok(None);
    }
    let table = entry.symbol_degrees();
    'symbols: for k in 0..table.len() {
        let v = table[k].0;
        if let Symbol::Independent(_) = v {
            return Ok(None);
        }
        if is_factor(book, state, entry, v)? {
            return Ok(Some(v));
        }
    }
    Ok(None)
}

/// The first equation with such a factor, with the greatest one.
pub(crate) fn factorable(
    book: &Book,
    state: &State,
    facts: &[Facts],
) -> Result<Option<(u16, Symbol)>, AllocError>
    requires stands { StandsIn book.now state.now }
    requires known { AreKnown book.now facts.now }
    requires names { names_of facts.now ≡ state.now.equations }
    ensures { IfOk result (λ o. o ≡ factorable (symbols_under book.now.ranking)
        (state_in book.now state.now)) }
{
    let polys = state.equations();
    'places: for k in 0..polys.len() {
        if let Some(v) = factor_of(book, state, book.entry(polys[k]), &facts[k])? {
            return Ok(Some(((k + 1) as u16, v)));
        }
    }
    Ok(None)
}
