//! Products.

ghost use Rattle.std.specs.Prelude.{◌≡◌, ◌≢◌, ◌⊎◌, ◌<◌, ◌*ℤ◌, false, true, [], length, Ok, IfOk, IfErr};
ghost use Rattle.dz_algebra.specs.Amount.{amount, amounts, gathered};
ghost use Rattle.dz_algebra.specs.Monomial.{IsMonomial};
ghost use Rattle.dz_algebra.specs.Polynomial.{IsPolynomial, pairs, term_times};
ghost use Rattle.dz_algebra.specs.Size.{operation};
ghost use Rattle.dz_algebra.specs.declared.Limit.TheVariants.{Exponent, Terms};
ghost use Rattle.dz_terms.specs.Answers.{Answers};
ghost use Rattle.dz_monomials.specs.Stops.{IsStop};
ghost use Rattle.dz_monomials.specs.Cells.{capped, caps};
ghost use Rattle.dz_monomials.specs.Degrees.{degrees, has_high_exponent};
ghost use Rattle.dz_terms.specs.Entries.{IsEntry};
ghost use Rattle.dz_monomials.specs.Ranked.{symbols_under};
ghost use Rattle.dz_monomials.specs.Supports.{IsSupportOf};
ghost use Rattle.dz_monomials.specs.declared.PolyStop.TheVariants.{Memory, Large};
ghost use Rattle.dz_rank.specs.Rankings.{ranking_cmp};

use crate::concluding::conclude;
use crate::entry::Entry;
use dz_algebra::Limit;
use dz_monomials::{
    Cell, MOST_SYMBOLS, MOST_TERMS, PolyStop, Powers, Support, Term, absorb, multiply,
};
use dz_rank::Ranking;
use std::alloc::Global;
use std::collections::VecDeque;

/// A cell with the product of two terms' coefficients.
fn product_cell(powers: Powers, a: &Term, b: &Term) -> Cell
    ensures { result ≡ (powers.items, capped (amount (a.now.1 *ℤ b.now.1))) }
{
    Cell::of_product(powers, a.coefficient(), b.coefficient())
}

/// A cell for each product of a term with the terms of a polynomial.
fn row_cells(
    alloc: Global,
    ranking: &Ranking,
    term: &Term,
    q: &[Term],
) -> Result<VecDeque<Cell>, PolyStop>
    requires term { IsMonomial (ranking_cmp ranking.now) term.now.0 }
    requires canonical { IsPolynomial (ranking_cmp ranking.now) q.now }
    requires low_term { has_high_exponent term.now.0 ≡ false }
    requires low { has_high_exponent (degrees (ranking_cmp ranking.now) q.now) ≡ false }
    ensures ok { IfOk result (λ cells. cells.items
        ≡ caps (amounts (term_times (ranking_cmp ranking.now) term.now.0 term.now.1 q.now))) }
    ensures refused { IfErr result (λ e. (e ≡ Memory) ⊎ ((e ≡ Large Exponent)
        × (has_high_exponent (degrees (ranking_cmp ranking.now)
        (term_times (ranking_cmp ranking.now) term.now.0 term.now.1 q.now)) ≡ true))) }
{
    let mut cells = VecDeque::with_capacity(alloc, q.len())?;
    for other in q {
        let powers = multiply(alloc, ranking, term.powers(), other.powers())?;
        cells.push_back(product_cell(powers, term, other))?;
    }
    Ok(cells)
}

/// What the products of all pairs make at each monomial, where their exponents are in range. The
/// halves of `p` are taken apart and merged, so that each contribution takes part in as many merges
/// as `p` can be halved; after the first monomial too many no further product is made.
fn product_cells(
    alloc: Global,
    ranking: &Ranking,
    p: &[Term],
    q: &[Term],
) -> Result<VecDeque<Cell>, PolyStop>
    requires nonzero { 0 < length p.now }
    requires first { IsPolynomial (ranking_cmp ranking.now) p.now }
    requires second { IsPolynomial (ranking_cmp ranking.now) q.now }
    requires low_first { has_high_exponent (degrees (ranking_cmp ranking.now) p.now) ≡ false }
    requires low_second { has_high_exponent (degrees (ranking_cmp ranking.now) q.now) ≡ false }
    requires low { has_high_exponent (degrees (ranking_cmp ranking.now)
        (pairs (ranking_cmp ranking.now) p.now q.now)) ≡ false }
    ensures ok { IfOk result (λ cells. cells.items ≡ caps (gathered (ranking_cmp ranking.now)
        (pairs (ranking_cmp ranking.now) p.now q.now))) }
    ensures refused { IfErr result (λ e. (e ≡ Memory) ⊎ ((e ≡ Large Terms)
        × (4096 < length (gathered (ranking_cmp ranking.now)
        (pairs (ranking_cmp ranking.now) p.now q.now))))) }
{
    if p.len() == 1 {
        let row = row_cells(alloc, ranking, &p[0], q)?;
        return Ok(row);
    }
    let (front, back) = p.split_at(p.len() / 2);
    let row = product_cells(alloc, ranking, front, q)?;
    let rest = product_cells(alloc, ranking, back, q)?;
    let cells = absorb(alloc, ranking, rest, row)?;
    if cells.len() > MOST_TERMS {
        return Err(PolyStop::Large(Limit::Terms));
    }
    Ok(cells)
}

/// The support of a product of two polynomials that are not zero.
fn product_support(
    alloc: Global,
    ranking: &Ranking,
    p: &Entry,
    q: &Entry,
) -> Result<Support, PolyStop>
    requires first { IsEntry ranking.now p.now }
    requires second { IsEntry ranking.now q.now }
    requires first_nonzero { p.now.terms ≢ [] }
    requires second_nonzero { q.now.terms ≢ [] }
    ensures ok { IfOk result (λ support. IsSupportOf ranking.now
        (pairs (ranking_cmp ranking.now) p.now.terms q.now.terms)
        support.degrees.items support.cells.items) }
    ensures refused { IfErr result (λ e. IsStop e (operation (symbols_under ranking.now)
        (pairs (ranking_cmp ranking.now) p.now.terms q.now.terms))) }
{
    let degrees = multiply(alloc, ranking, p.symbol_degrees(), q.symbol_degrees())?;
    if degrees.len() > MOST_SYMBOLS {
        return Err(PolyStop::Large(Limit::Symbols));
    }
    let cells = product_cells(alloc, ranking, p.terms(), q.terms())?;
    Ok(Support { degrees, cells })
}

#[tactic(auto, using(crate::proofs::Answered::answered, crate::proofs::Answered::stopped, dz_monomials::proofs::Multiplying::left_zero, dz_monomials::proofs::Multiplying::right_zero, dz_monomials::proofs::Multiplying::zero_entry, dz_monomials::proofs::Multiplying::not_zero,))]
/// The product of two polynomials, of which the first is taken apart.
fn product_by_halves(
    alloc: Global,
    ranking: &Ranking,
    p: &Entry,
    q: &Entry,
) -> Result<Entry, PolyStop>
    requires first { IsEntry ranking.now p.now }
    requires second { IsEntry ranking.now q.now }
    ensures { Answers ranking.now result
        (operation (symbols_under ranking.now) (pairs (ranking_cmp ranking.now) p.now.terms
        q.now.terms)) }
{
    if p.is_zero() {
        return Ok(Entry::zero(alloc));
    }
    if q.is_zero() {
        return Ok(Entry::zero(alloc));
    }
    let support = product_support(alloc, ranking, p, q)?;
    conclude(alloc, ranking, support)
}

#[tactic(auto, using(crate::proofs::Answered::answered, crate::proofs::Answered::stopped, dz_monomials::proofs::Halves::factors_swapped))]
/// The product of two polynomials; the one with fewer terms is taken apart.
pub fn product(alloc: Global, ranking: &Ranking, p: &Entry, q: &Entry) -> Result<Entry, PolyStop>
    requires first { IsEntry ranking.now p.now }
    requires second { IsEntry ranking.now q.now }
    ensures { Answers ranking.now result
        (operation (symbols_under ranking.now) (pairs (ranking_cmp ranking.now) p.now.terms
        q.now.terms)) }
{
    if q.term_count() < p.term_count() {
        let product = product_by_halves(alloc, ranking, q, p)?;
        return Ok(product);
    }
    let product = product_by_halves(alloc, ranking, p, q)?;
    Ok(product)
}
