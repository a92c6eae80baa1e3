//! Where an inequation that is a symbol divides an equation.

ghost use Rattle.std.specs.Prelude.{◌≡◌, ◌&&◌, IfOk};
ghost use Rattle.dz_algebra.specs.Polynomial.{symbol_polynomial};
ghost use Rattle.dz_rank.specs.Rankings.{ranking_cmp};
ghost use Rattle.dz_terms.specs.Entries.{IsEntry};
ghost use Rattle.dz_monomials.specs.Ranked.{symbols_under};
ghost use Rattle.dz_diff.specs.States.{StandsIn, state_in};
ghost use Rattle.dz_diff.specs.Tests.{is_member};
ghost use Rattle.dz_monomials.specs.PowerDivision.{is_divided};
ghost use Rattle.dz_engine.specs.Facts.{AreFactsOf, AreKnown, names_of};
ghost use Rattle.dz_engine.specs.Finding.{divisible, inequation_dividing};

use crate::facts::Facts;
use dz_diff::is_among;
use dz_poly::Book;
use dz_rank::Symbol;
use dz_step::State;
use dz_terms::{Entry, is_divided, power};
use std::alloc::AllocError;

/// Whether a symbol is an inequation.
#[tactic(auto, using(dz_diff::proofs::MemberTests::none_left_out))]
pub(crate) fn is_inequation(book: &Book, state: &State, v: Symbol) -> Result<bool, AllocError>
    requires { StandsIn book.now state.now }
    ensures { IfOk result (λ b. b ≡ is_member (symbols_under book.now.ranking)
        (symbol_polynomial v) (state_in book.now state.now).inequations) }
{
    let symbol = power(book.allocator(), 1, v, 1)?;
    Ok(is_among(book, state.inequations(), 0, &symbol))
}

/// Whether a symbol is an inequation and divides an entry.
fn divides_as_inequation(
    book: &Book,
    state: &State,
    entry: &Entry,
    v: Symbol,
) -> Result<bool, AllocError>
    requires stands { StandsIn book.now state.now }
    requires entry { IsEntry book.now.ranking entry.now }
    ensures { IfOk result (λ b. b ≡ (is_member (symbols_under book.now.ranking)
        (symbol_polynomial v) (state_in book.now state.now).inequations
        && is_divided (ranking_cmp book.now.ranking) v entry.now.terms)) }
{
    if !is_divided(book.ranking(), entry, v) {
        return Ok(false);
    }
    is_inequation(book, state, v)
}

/// The greatest symbol that is an inequation and divides an entry.
fn inequation_dividing(
    book: &Book,
    state: &State,
    entry: &Entry,
    facts: &Facts,
) -> Result<Option<Symbol>, AllocError>
    requires stands { StandsIn book.now state.now }
    requires entry { IsEntry book.now.ranking entry.now }
    requires facts { AreFactsOf book.now.ranking entry.now.terms facts.now }
    ensures { IfOk result (λ o. o ≡ inequation_dividing (symbols_under book.now.ranking)
        (state_in book.now state.now) entry.now.terms) }
{
    if facts.is_undivided {
        return Ok(None);
    }
    let table = entry.symbol_degrees();
    'symbols: for k in 0..table.len() {
        let v = table[k].0;
        if divides_as_inequation(book, state, entry, v)? {
            return Ok(Some(v));
        }
    }
    Ok(None)
}

/// The first equation that an inequation divides, with the greatest such symbol.
pub(crate) fn divisible(
    book: &Book,
    state: &State,
    facts: &[Facts],
) -> Result<Option<(u16, Symbol)>, AllocError>
    requires stands { StandsIn book.now state.now }
    requires known { AreKnown book.now facts.now }
    requires names { names_of facts.now ≡ state.now.equations }
    ensures { IfOk result (λ o. o ≡ divisible (symbols_under book.now.ranking)
        (state_in book.now state.now)) }
{
    let polys = state.equations();
    'places: for k in 0..polys.len() {
        if let Some(v) = inequation_dividing(book, state, book.entry(polys[k]), &facts[k])? {
            return Ok(Some(((k + 1) as u16, v)));
        }
    }
    Ok(None)
}
