//! Sums and differences.

ghost use Rattle.std.specs.Prelude.{◌≡◌, ◌++◌, Ok, IfOk, OnOk};
ghost use Rattle.dz_algebra.specs.Amount.{amount, amounts, gathered};
ghost use Rattle.dz_algebra.specs.Gather.{merge};
ghost use Rattle.dz_algebra.specs.Monomial.{monomial_cmp};
ghost use Rattle.dz_algebra.specs.Polynomial.{IsPolynomial};
ghost use Rattle.dz_algebra.specs.Size.{operation};
ghost use Rattle.dz_terms.specs.Answers.{Answers};
ghost use Rattle.dz_monomials.specs.Cells.{add_capped, capped, caps};
ghost use Rattle.dz_terms.specs.Entries.{IsEntry};
ghost use Rattle.dz_monomials.specs.Ranked.{symbols_under};
ghost use Rattle.dz_monomials.specs.Signs.{signed, with_sign};
ghost use Rattle.dz_monomials.specs.Supports.{IsSupportOf};
ghost use Rattle.dz_monomials.specs.declared.sign.Sign.TheVariants.{Plus};
ghost use Rattle.dz_rank.specs.Rankings.{ranking_cmp};

use crate::concluding::conclude;
use crate::entry::Entry;
use dz_monomials::{Cell, PolyStop, Sign, Support, Term, common_multiple, compare_monomials};
use dz_rank::Ranking;
use smallvec::SmallVec;
use std::alloc::{AllocError, Global};
use std::cmp::Ordering;
use std::collections::VecDeque;

/// The cell of a term that is taken with a sign.
fn cell_of(alloc: Global, sign: Sign, term: &Term) -> Result<Cell, AllocError>
    ensures { IfOk result (λ cell. cell ≡ (term.now.0, capped (amount (signed sign term.now.1)))) }
{
    let powers = SmallVec::from_slice(alloc, term.powers())?;
    let coefficient = match sign {
        Sign::Plus => term.coefficient(),
        Sign::Minus => -term.coefficient(),
    };
    Ok(Cell::new(powers, coefficient))
}

/// The cell of two terms at one monomial, the second taken with a sign.
fn cell_of_both(alloc: Global, term: &Term, sign: Sign, other: &Term) -> Result<Cell, AllocError>
    ensures { IfOk result (λ cell. cell ≡ (
      other.now.0,
      add_capped (capped (amount term.now.1)) (capped (amount (signed sign other.now.1))),
    )) }
{
    Ok(cell_of(alloc, sign, other)?.plus(term.coefficient()))
}

/// Appends a cell for each term, taken with a sign.
fn push_cells(
    alloc: Global,
    cells: &mut VecDeque<Cell>,
    sign: Sign,
    terms: &[Term],
) -> Result<(), AllocError>
    ensures { OnOk result (cells.new.items
        ≡ cells.old.items ++ caps (amounts (with_sign sign terms.now))) }
{
    for term in terms {
        cells.push_back(cell_of(alloc, sign, term)?)?;
    }
    Ok(())
}

#[tactic(auto, using(dz_monomials::proofs::Summing::terms_ended))]
/// One pass over the terms of both sides, the second taken with a sign.
fn merged_cells(
    alloc: Global,
    ranking: &Ranking,
    a: &[Term],
    sign: Sign,
    b: &[Term],
) -> Result<VecDeque<Cell>, AllocError>
    ensures { IfOk result (λ cells. cells.items
        ≡ merge (monomial_cmp (ranking_cmp ranking.now)) add_capped
        (caps (amounts (with_sign sign b.now))) (caps (amounts (with_sign Plus a.now)))) }
{
    let mut cells = VecDeque::with_capacity(alloc, a.len().max(b.len()))?;
    let mut a = a;
    let mut b = b;
    'terms: loop {
        match (b, a) {
            ([], _) => {
                push_cells(alloc, &mut cells, Sign::Plus, a)?;
                return Ok(cells);
            }
            (_, []) => {
                push_cells(alloc, &mut cells, sign, b)?;
                return Ok(cells);
            }
            ([q, qs @ ..], [p, ps @ ..]) => {
                let cell = match compare_monomials(ranking, p.powers(), q.powers()) {
                    Ordering::Less => {
                        b = qs;
                        cell_of(alloc, sign, q)?
                    }
                    Ordering::Greater => {
                        a = ps;
                        cell_of(alloc, Sign::Plus, p)?
                    }
                    Ordering::Equal => {
                        b = qs;
                        a = ps;
                        cell_of_both(alloc, p, sign, q)?
                    }
                };
                cells.push_back(cell)?;
            }
        }
    }
}

/// What the terms of both sides make at each monomial.
fn sum_cells(
    alloc: Global,
    ranking: &Ranking,
    a: &[Term],
    sign: Sign,
    b: &[Term],
) -> Result<VecDeque<Cell>, AllocError>
    requires first { IsPolynomial (ranking_cmp ranking.now) a.now }
    requires second { IsPolynomial (ranking_cmp ranking.now) b.now }
    ensures { IfOk result (λ cells. cells.items
        ≡ caps (gathered (ranking_cmp ranking.now) (a.now ++ with_sign sign b.now))) }
{
    let cells = merged_cells(alloc, ranking, a, sign, b)?;
    Ok(cells)
}

#[tactic(auto, using(dz_monomials::proofs::Summing::sum_support))]
/// The support of a sum.
fn sum_support(
    alloc: Global,
    ranking: &Ranking,
    a: &Entry,
    sign: Sign,
    b: &Entry,
) -> Result<Support, AllocError>
    requires first { IsEntry ranking.now a.now }
    requires second { IsEntry ranking.now b.now }
    ensures { IfOk result (λ support. IsSupportOf ranking.now
        (a.now.terms ++ with_sign sign b.now.terms)
        support.degrees.items support.cells.items) }
{
    let degrees = common_multiple(alloc, ranking, a.symbol_degrees(), b.symbol_degrees())?;
    let cells = sum_cells(alloc, ranking, a.terms(), sign, b.terms())?;
    Ok(Support { degrees, cells })
}

#[tactic(auto, using(crate::proofs::Answered::answered, crate::proofs::Answered::stopped))]
/// The sum of two polynomials, the second taken with a sign.
pub fn sum(
    alloc: Global,
    ranking: &Ranking,
    a: &Entry,
    sign: Sign,
    b: &Entry,
) -> Result<Entry, PolyStop>
    requires first { IsEntry ranking.now a.now }
    requires second { IsEntry ranking.now b.now }
    ensures { Answers ranking.now result
        (operation (symbols_under ranking.now) (a.now.terms ++ with_sign sign b.now.terms)) }
{
    let support = sum_support(alloc, ranking, a, sign, b)?;
    conclude(alloc, ranking, support)
}
