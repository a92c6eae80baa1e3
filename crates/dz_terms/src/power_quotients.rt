//! Division by the greatest power of a symbol.

ghost use Rattle.std.specs.Prelude.{◌≡◌, IfOk, IfSome, is_some};
ghost use Rattle.dz_algebra.specs.Polynomial.{IsPolynomial};
ghost use Rattle.dz_rank.specs.Rankings.{ranking_cmp};
ghost use Rattle.dz_terms.specs.Entries.{IsEntry};
ghost use Rattle.dz_monomials.specs.PowerDivision.{divided_by, divisor_power, is_divided, quotient_by};

use crate::entry::Entry;
use dz_monomials::{Term, degrees_of, exponent_of, with_exponent};
use dz_rank::{Ranking, Symbol};
use std::alloc::{AllocError, Global};

/// The greatest k such that the k-th power of a symbol divides an entry; 0 for zero.
pub fn divisor_power(ranking: &Ranking, entry: &Entry, v: Symbol) -> u16
    requires { IsEntry ranking.now entry.now }
    ensures { result ≡ divisor_power (ranking_cmp ranking.now) v entry.now.terms }
{
    let mut least = entry.degree(ranking, v);
    for term in entry.terms() {
        if least == 0 {
            return 0;
        }
        least = least.min(exponent_of(ranking, term.powers(), v));
    }
    least
}

/// Whether a symbol divides an entry; no, where the entry is zero.
pub fn is_divided(ranking: &Ranking, entry: &Entry, v: Symbol) -> bool
    requires { IsEntry ranking.now entry.now }
    ensures { result ≡ is_divided (ranking_cmp ranking.now) v entry.now.terms }
{
    divisor_power(ranking, entry, v) != 0
}

/// The terms with a power of a symbol that divides them taken away.
fn divided_terms(
    alloc: Global,
    ranking: &Ranking,
    terms: &[Term],
    v: Symbol,
    k: u16,
) -> Result<Vec<Term>, AllocError>
    requires canonical { IsPolynomial (ranking_cmp ranking.now) terms.now }
    requires divides { k ≡ divisor_power (ranking_cmp ranking.now) v terms.now }
    ensures { IfOk result (λ all.
        all.items ≡ divided_by (ranking_cmp ranking.now) v k terms.now) }
{
    let mut all = Vec::new(alloc);
    for term in terms {
        let left = exponent_of(ranking, term.powers(), v) - k;
        let powers = with_exponent(alloc, ranking, term.powers(), v, left)?;
        all.push(Term::new(powers, term.coefficient()))?;
    }
    Ok(all)
}

/// The quotient of an entry by the greatest power of a symbol that divides it, the `k`-th.
pub fn quotient_entry(
    alloc: Global,
    ranking: &Ranking,
    entry: &Entry,
    v: Symbol,
    k: u16,
) -> Result<Entry, AllocError>
    requires entry { IsEntry ranking.now entry.now }
    requires divides { k ≡ divisor_power (ranking_cmp ranking.now) v entry.now.terms }
    ensures terms { IfOk result (λ all.
        all.terms ≡ quotient_by (ranking_cmp ranking.now) v entry.now.terms) }
    ensures entry { IfOk result (λ all. IsEntry ranking.now all) }
{
    let terms = divided_terms(alloc, ranking, entry.terms(), v, k)?;
    let degrees = degrees_of(alloc, ranking, terms.as_slice())?;
    Ok(Entry { terms, degrees })
}

/// The quotient of an entry by the greatest power of a symbol that divides it; `None` where the
/// symbol does not divide it.
pub fn divided_entry(
    alloc: Global,
    ranking: &Ranking,
    entry: &Entry,
    v: Symbol,
) -> Result<Option<Entry>, AllocError>
    requires { IsEntry ranking.now entry.now }
    ensures divided { IfOk result (λ all.
        is_some all ≡ is_divided (ranking_cmp ranking.now) v entry.now.terms) }
    ensures terms { IfOk result (λ all. IfSome all (λ all.
        all.terms ≡ quotient_by (ranking_cmp ranking.now) v entry.now.terms)) }
    ensures entry { IfOk result (λ all. IfSome all (λ all. IsEntry ranking.now all)) }
{
    let k = divisor_power(ranking, entry, v);
    if k == 0 {
        return Ok(None);
    }
    Ok(Some(quotient_entry(alloc, ranking, entry, v, k)?))
}
