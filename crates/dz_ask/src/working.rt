//! Terms of a preparation while it goes on.

ghost use Rattle.std.specs.Prelude.{◌≡◌, ◌≤◌, ◌+◌, ◌++◌, [], ◌∷◌, Ok, IfOk, IfErr, IfSome, IfNone};
ghost use Rattle.dz_algebra.specs.Size.{product_answer, sum_answer};
ghost use Rattle.dz_rank.specs.Rankings.{RankingValue};
ghost use Rattle.dz_terms.specs.Answers.{Answers};
ghost use Rattle.dz_terms.specs.Entries.{IsEntry};
ghost use Rattle.dz_monomials.specs.Ranked.{symbols_under};
ghost use Rattle.dz_monomials.specs.Stops.{IsStop};
ghost use Rattle.dz_ask.specs.Turns.{added, coefficient_terms, multiplied, nonzero_terms};
ghost use Rattle.dz_ask.specs.Working.{AreEntries, terms_in};

use crate::products::compare_products;
use dz_poly::PolyStop;
use dz_rank::Ranking;
use dz_step::Step;
use dz_terms::{Entry, Sign, number, product, sum};
use std::alloc::{AllocError, Global};
use std::cmp::Ordering;

/// A product of powers of derivatives, each named by a step, with its coefficient.
#[derive(Drop)]
pub(crate) struct WorkingTerm {
    pub(crate) product: Vec<(Step, u16)>,
    pub(crate) coefficient: Entry,
}

/// A copy of a product.
pub(crate) fn copied_product(
    alloc: Global,
    product: &[(Step, u16)],
) -> Result<Vec<(Step, u16)>, AllocError>
    ensures { IfOk result (λ all. all.items ≡ product.now) }
{
    let mut all = Vec::with_capacity(alloc, product.len())?;
    all.extend_from_slice(product)?;
    Ok(all)
}

/// A term with its coefficient multiplied by a polynomial.
fn multiplied_term(
    alloc: Global,
    ranking: &Ranking,
    by: &Entry,
    term: &WorkingTerm,
) -> Result<WorkingTerm, PolyStop>
    requires by { IsEntry ranking.now by.now }
    requires coefficient { IsEntry ranking.now term.now.coefficient }
    ensures product { IfOk result (λ x. x.product.items ≡ term.now.product.items) }
    ensures ok { IfOk result (λ x. product_answer (symbols_under ranking.now) by.now.terms
        term.now.coefficient.terms ≡ Ok x.coefficient.terms) }
    ensures entry { IfOk result (λ x.
        IsEntry ranking.now x.coefficient) }
    ensures refused { IfErr result (λ stop. IsStop stop (product_answer (symbols_under ranking.now)
        by.now.terms term.now.coefficient.terms)) }
{
    let coefficient = product(alloc, ranking, by, &term.coefficient)?;
    let product = copied_product(alloc, term.product.as_slice())?;
    Ok(WorkingTerm {
        product,
        coefficient,
    })
}

/// The terms with their coefficients multiplied by a polynomial.
pub(crate) fn multiplied(
    alloc: Global,
    ranking: &Ranking,
    by: &Entry,
    terms: &[WorkingTerm],
) -> Result<Vec<WorkingTerm>, PolyStop>
    requires by { IsEntry ranking.now by.now }
    requires terms { AreEntries ranking.now terms.now }
    ensures ok { IfOk result (λ all. multiplied (symbols_under ranking.now) by.now.terms
        (terms_in terms.now) ≡ Ok (terms_in all.items)) }
    ensures entries { IfOk result (λ all. AreEntries ranking.now all.items) }
    ensures refused { IfErr result (λ stop. IsStop stop (multiplied (symbols_under ranking.now)
        by.now.terms (terms_in terms.now))) }
{
    let mut all = Vec::with_capacity(alloc, terms.len())?;
    for term in terms {
        let term = multiplied_term(alloc, ranking, by, term)?;
        all.push(term)?;
    }
    Ok(all)
}

#[tactic(auto, using(dz_terms::proofs::Answered::answered, dz_terms::proofs::Answered::stopped))]
/// The sum of a coefficient and a shift.
fn shifted(
    alloc: Global,
    ranking: &Ranking,
    coefficient: &Entry,
    shift: &Entry,
) -> Result<Entry, PolyStop>
    requires coefficient { IsEntry ranking.now coefficient.now }
    requires shift { IsEntry ranking.now shift.now }
    ensures { Answers ranking.now result
        (sum_answer (symbols_under ranking.now) coefficient.now.terms shift.now.terms) }
{
    let sum = sum(alloc, ranking, coefficient, Sign::Plus, shift)?;
    Ok(sum)
}

/// A new term whose coefficient is a shift, as a sum with zero.
fn new_term(
    alloc: Global,
    ranking: &Ranking,
    product: Vec<(Step, u16)>,
    shift: &Entry,
) -> Result<WorkingTerm, PolyStop>
    requires { IsEntry ranking.now shift.now }
    ensures product { IfOk result (λ x. x.product.items ≡ product.items) }
    ensures ok { IfOk result (λ x. sum_answer (symbols_under ranking.now) []
        shift.now.terms ≡ Ok x.coefficient.terms) }
    ensures entry { IfOk result (λ x.
        IsEntry ranking.now x.coefficient) }
    ensures refused { IfErr result (λ stop. IsStop stop (sum_answer (symbols_under ranking.now) []
        shift.now.terms)) }
{
    let coefficient = shifted(alloc, ranking, &number(alloc, 0)?, shift)?;
    Ok(WorkingTerm {
        product,
        coefficient,
    })
}

/// The terms with a polynomial added at a product.
pub(crate) fn added(
    alloc: Global,
    ranking: &Ranking,
    terms: Vec<WorkingTerm>,
    product: Vec<(Step, u16)>,
    shift: &Entry,
) -> Result<Vec<WorkingTerm>, PolyStop>
    requires shift { IsEntry ranking.now shift.now }
    requires terms { AreEntries ranking.now terms.items }
    ensures ok { IfOk result (λ all. added (symbols_under ranking.now) product.items
        shift.now.terms (terms_in terms.items) ≡ Ok (terms_in all.items)) }
    ensures entries { IfOk result (λ all. AreEntries ranking.now all.items) }
    ensures refused { IfErr result (λ stop. IsStop stop (added (symbols_under ranking.now)
        product.items shift.now.terms (terms_in terms.items))) }
{
    let mut terms = terms;
    for i in 0..terms.len() {
        match compare_products(product.as_slice(), terms[i].product.as_slice()) {
            Ordering::Less => {
                let first = new_term(alloc, ranking, product, shift)?;
                terms.insert(i, first)?;
                return Ok(terms);
            }
            Ordering::Equal => {
                let here = shifted(alloc, ranking, &terms[i].coefficient, shift)?;
                terms[i].coefficient = here;
                return Ok(terms);
            }
            Ordering::Greater => {}
        }
    }
    let last = new_term(alloc, ranking, product, shift)?;
    terms.push(last)?;
    Ok(terms)
}

/// The terms before a term, it, and those behind it.
pub(crate) fn joined(
    before: Vec<WorkingTerm>,
    here: WorkingTerm,
    behind: Vec<WorkingTerm>,
) -> Result<Vec<WorkingTerm>, AllocError>
    ensures { IfOk result (λ all. all.items ≡ before.items ++ here ∷ behind.items) }
{
    let mut all = before;
    let mut behind = behind;
    all.push(here)?;
    all.append(&mut behind)?;
    Ok(all)
}

/// Leaves out the terms whose coefficients are zero.
pub(crate) fn leave_out_zeros(terms: &mut Vec<WorkingTerm>)
    ensures terms { terms_in terms.new.items ≡ nonzero_terms (terms_in terms.old.items) }
    ensures entries { (r : RankingValue) → AreEntries r terms.old.items
        → AreEntries r terms.new.items }
{
    terms.retain(|term| !term.coefficient.is_zero());
}

/// What is left of a budget after one and the terms of all coefficients; `None` where that passes
/// it.
pub(crate) fn left_after(terms: &[WorkingTerm], left: u32) -> Option<u32>
    ensures within { IfSome result (λ rest.
        rest + 1 + coefficient_terms (terms_in terms.now) ≡ left) }
    ensures passed { IfNone result (left ≤ coefficient_terms (terms_in terms.now)) }
{
    if left == 0 {
        return None;
    }
    let mut left = left;
    for term in terms {
        let count = term.coefficient.term_count();
        if count >= left as usize {
            return None;
        }
        left -= count as u32;
    }
    Some(left - 1)
}
