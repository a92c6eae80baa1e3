//! Coefficients of powers of a symbol.

ghost use Rattle.std.specs.Prelude.{◌≡◌, ◌≤◌, ◌++◌, [], ◌∷◌, IfOk, OnOk};
ghost use Rattle.std.specs.Option.{option_to_list};
ghost use Rattle.dz_algebra.specs.Monomial.{IsMonomial};
ghost use Rattle.dz_algebra.specs.Parts.{coefficient_of as coefficient};
ghost use Rattle.dz_algebra.specs.Polynomial.{IsPolynomial};
ghost use Rattle.dz_terms.specs.Entries.{IsEntry};
ghost use Rattle.dz_monomials.specs.Terms.{times_power};
ghost use Rattle.dz_rank.specs.Rankings.{ranking_cmp};

use crate::entry::Entry;
use dz_monomials::{Term, degrees_of, exponent_of, with_exponent};
use dz_rank::{Ranking, Symbol};
use std::alloc::{AllocError, Global};

#[tactic(auto, using(dz_monomials::proofs::PowerCoefficients::power_left, dz_monomials::proofs::PowerCoefficients::no_power))]
/// The term with `left` as its exponent of a symbol, where that exponent is this one.
fn term_part(
    alloc: Global,
    ranking: &Ranking,
    term: &Term,
    symbol: Symbol,
    exponent: u16,
    left: u16,
) -> Result<Option<Term>, AllocError>
    requires canonical { IsMonomial (ranking_cmp ranking.now) term.now.0 }
    requires less { left ≤ exponent }
    ensures { IfOk result (λ found. option_to_list found
        ≡ times_power (ranking_cmp ranking.now) symbol left
        (coefficient (ranking_cmp ranking.now) symbol exponent (term.now ∷ []))) }
{
    if exponent_of(ranking, term.powers(), symbol) != exponent {
        return Ok(None);
    }
    let powers = with_exponent(alloc, ranking, term.powers(), symbol, left)?;
    Ok(Some(Term::new(powers, term.coefficient())))
}

/// Appends a term where there is one.
fn push_found(all: &mut Vec<Term>, found: Option<Term>) -> Result<(), AllocError>
    ensures { OnOk result (all.new.items ≡ all.old.items ++ option_to_list found) }
{
    if let Some(term) = found {
        all.push(term)?;
    }
    Ok(())
}

/// The terms with a power of a symbol, each with `left` as the exponent of it.
fn part_terms(
    alloc: Global,
    ranking: &Ranking,
    terms: &[Term],
    symbol: Symbol,
    exponent: u16,
    left: u16,
) -> Result<Vec<Term>, AllocError>
    requires canonical { IsPolynomial (ranking_cmp ranking.now) terms.now }
    requires less { left ≤ exponent }
    ensures { IfOk result (λ all. all.items
        ≡ times_power (ranking_cmp ranking.now) symbol left
        (coefficient (ranking_cmp ranking.now) symbol exponent terms.now)) }
{
    let mut all = Vec::new(alloc);
    for term in terms {
        let found = term_part(alloc, ranking, term, symbol, exponent, left)?;
        push_found(&mut all, found)?;
    }
    Ok(all)
}

/// The coefficient of a power of a symbol times a lower power of it.
pub fn part_entry(
    alloc: Global,
    ranking: &Ranking,
    entry: &Entry,
    symbol: Symbol,
    exponent: u16,
    left: u16,
) -> Result<Entry, AllocError>
    requires entry { IsEntry ranking.now entry.now }
    requires less { left ≤ exponent }
    ensures terms { IfOk result (λ all. all.terms
        ≡ times_power (ranking_cmp ranking.now) symbol left
        (coefficient (ranking_cmp ranking.now) symbol exponent entry.now.terms)) }
    ensures entry { IfOk result (λ all. IsEntry ranking.now all) }
{
    let terms = part_terms(alloc, ranking, entry.terms(), symbol, exponent, left)?;
    let degrees = degrees_of(alloc, ranking, terms.as_slice())?;
    Ok(Entry { terms, degrees })
}

/// The coefficient of a power of a symbol.
pub fn coefficient_entry(
    alloc: Global,
    ranking: &Ranking,
    entry: &Entry,
    symbol: Symbol,
    exponent: u16,
) -> Result<Entry, AllocError>
    requires { IsEntry ranking.now entry.now }
    ensures terms { IfOk result (λ all. all.terms
        ≡ coefficient (ranking_cmp ranking.now) symbol exponent entry.now.terms) }
    ensures entry { IfOk result (λ all. IsEntry ranking.now all) }
{
    part_entry(alloc, ranking, entry, symbol, exponent, 0)
}
