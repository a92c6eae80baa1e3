//! Polynomials of at most one term.

ghost use Rattle.std.specs.Prelude.{◌≡◌, ◌≢◌, ◌≤◌, ◌<◌, pos, unsigned_abs, IfOk};
ghost use Rattle.dz_algebra.specs.Amount.{greatest};
ghost use Rattle.dz_terms.specs.Entries.{IsEntry};
ghost use Rattle.dz_monomials.specs.Terms.{constant_polynomial, power_term};
ghost use Rattle.dz_rank.specs.Rankings.{RankingValue};
ghost use Rattle.dz_rank.specs.Symbols.{BelongsTo, total_order};

use crate::entry::Entry;
use dz_monomials::Term;
use dz_rank::Symbol;
use smallvec::SmallVec;
use std::alloc::{AllocError, Global};

#[tactic(auto, using(dz_monomials::proofs::OneTerm::number_entry, dz_monomials::proofs::OneTerm::no_entry, dz_monomials::proofs::OneTerm::number_is, dz_monomials::proofs::OneTerm::no_number,))]
/// A number as a polynomial.
pub fn number(alloc: Global, value: i128) -> Result<Entry, AllocError>
    requires in_range { unsigned_abs value ≤ greatest }
    ensures terms { IfOk result (λ entry. entry.terms ≡ constant_polynomial value) }
    ensures entry { IfOk result (λ entry. (r : RankingValue)
        → IsEntry r entry) }
{
    let mut terms = Vec::new(alloc);
    let degrees = SmallVec::new(alloc);
    if value != 0 {
        terms.push(Term::new(SmallVec::new(alloc), value))?;
    }
    Ok(Entry { terms, degrees })
}

#[tactic(auto, using(dz_monomials::proofs::OneTerm::power_entry, dz_monomials::proofs::OneTerm::power_is))]
/// A number times a power of a symbol.
pub fn power(
    alloc: Global,
    coefficient: i128,
    symbol: Symbol,
    exponent: u16,
) -> Result<Entry, AllocError>
    requires nonzero { coefficient ≢ pos 0 }
    requires in_range { unsigned_abs coefficient ≤ greatest }
    requires positive { 0 < exponent }
    ensures terms { IfOk result (λ entry.
        entry.terms ≡ power_term coefficient symbol exponent) }
    ensures entry { IfOk result (λ entry. (r : RankingValue) → BelongsTo r.signature symbol
        → total_order symbol ≤ 60 → IsEntry r entry) }
{
    let mut powers = SmallVec::new(alloc);
    powers.push((symbol, exponent))?;
    let mut degrees = SmallVec::new(alloc);
    degrees.push((symbol, exponent))?;
    let mut terms = Vec::new(alloc);
    terms.push(Term::new(powers, coefficient))?;
    Ok(Entry { terms, degrees })
}
