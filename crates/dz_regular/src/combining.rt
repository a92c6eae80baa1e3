//! Combining two rows.

ghost use Rattle.std.specs.Prelude.{◌≡◌, ◌≤◌, ◌<◌, ◌+◌, All, length, Ok, IfOk, IfErr, IfSome, IfNone};
ghost use Rattle.dz_algebra.specs.Parts.{degree};
ghost use Rattle.dz_rank.specs.Rankings.{RankingValue, ranking_cmp};
ghost use Rattle.dz_terms.specs.Answers.{Answers};
ghost use Rattle.dz_monomials.specs.Divisions.{DividesAll};
ghost use Rattle.dz_terms.specs.Entries.{EntryValue, IsEntry, IsSomeEntry};
ghost use Rattle.dz_monomials.specs.Ranked.{symbols_under};
ghost use Rattle.dz_monomials.specs.Stops.{IsStop};
ghost use Rattle.dz_regular.specs.Combining.{combined, crossed, crossed_all, divided_all};
ghost use Rattle.dz_regular.specs.Combining.{multipliers_of, primitive_row, row_divisor, terms_in_all};
ghost use Rattle.dz_regular.specs.Rows.{rest_of};
ghost use Rattle.dz_regular.specs.Working.{AreEntries, AreMultipliers, multipliers_in, polynomials_of};

use dz_int::common_divisor;
use dz_rank::{Ranking, Symbol};
use dz_terms::{
    Entry, PolyStop, Sign, coefficient_entry, common_content, copied, part_entry, product,
    quotient_by, sum,
};
use std::alloc::{AllocError, Global};

/// What the components of the first row and of the second are multiplied by.
#[derive(Drop)]
pub(crate) struct RowMultipliers {
    pub(crate) first: Entry,
    pub(crate) second: Entry,
}

/// The multipliers for two rests, the first of which has at least the degree of the second.
fn multipliers(
    alloc: Global,
    ranking: &Ranking,
    f: &Entry,
    q: &Entry,
    v: Symbol,
) -> Result<RowMultipliers, AllocError>
    requires f { IsEntry ranking.now f.now }
    requires q { IsEntry ranking.now q.now }
    requires occurs { 0 < degree (ranking_cmp ranking.now) v f.now.terms }
    requires enough { degree (ranking_cmp ranking.now) v q.now.terms
        ≤ degree (ranking_cmp ranking.now) v f.now.terms }
    ensures multipliers { IfOk result (λ m. multipliers_in m
        ≡ multipliers_of (symbols_under ranking.now) v f.now.terms q.now.terms) }
    ensures entries { IfOk result (λ m. AreMultipliers ranking.now m) }
{
    let d = f.degree(ranking, v);
    let e = q.degree(ranking, v);
    let top = part_entry(alloc, ranking, f, v, d, d - e)?;
    let initial = coefficient_entry(alloc, ranking, q, v, e)?;
    let k = common_content(&initial, &top);
    Ok(RowMultipliers {
        first: quotient_by(initial, k),
        second: quotient_by(top, k),
    })
}

#[tactic(auto, using(dz_terms::proofs::Answered::answered, dz_terms::proofs::Answered::stopped))]
/// One component of a combination: the first product, the second, and their difference.
fn crossed(
    alloc: Global,
    ranking: &Ranking,
    m: &RowMultipliers,
    x: &Entry,
    y: &Entry,
) -> Result<Entry, PolyStop>
    requires multipliers { AreMultipliers ranking.now m.now }
    requires x { IsEntry ranking.now x.now }
    requires y { IsEntry ranking.now y.now }
    ensures { Answers ranking.now result (crossed (symbols_under ranking.now)
        (multipliers_in m.now) x.now.terms y.now.terms) }
{
    let left = product(alloc, ranking, &m.first, x)?;
    let right = product(alloc, ranking, &m.second, y)?;
    let difference = sum(alloc, ranking, &left, Sign::Minus, &right)?;
    Ok(difference)
}

/// All components of a combination, one after the other.
fn crossed_all(
    alloc: Global,
    ranking: &Ranking,
    m: &RowMultipliers,
    xs: &[Entry],
    ys: &[Entry],
) -> Result<Vec<Entry>, PolyStop>
    requires multipliers { AreMultipliers ranking.now m.now }
    requires xs { AreEntries ranking.now xs.now }
    requires ys { AreEntries ranking.now ys.now }
    requires width { length xs.now ≡ length ys.now }
    ensures ok { IfOk result (λ zs. crossed_all (symbols_under ranking.now) (multipliers_in m.now)
        (polynomials_of xs.now) (polynomials_of ys.now) ≡ Ok (polynomials_of zs.items)) }
    ensures entries { IfOk result (λ zs. AreEntries ranking.now zs.items) }
    ensures width { IfOk result (λ zs. length zs.items ≡ length xs.now) }
    ensures refused { IfErr result (λ stop. IsStop stop (crossed_all (symbols_under ranking.now)
        (multipliers_in m.now) (polynomials_of xs.now) (polynomials_of ys.now))) }
{
    let mut all = Vec::with_capacity(alloc, xs.len())?;
    for i in 0..xs.len() {
        let z = crossed(alloc, ranking, m, &xs[i], &ys[i])?;
        all.push(z)?;
    }
    Ok(all)
}

/// The greatest common divisor of all coefficients of entries; 1 where there is none.
fn row_divisor(entries: &[Entry]) -> u128
    ensures { result ≡ row_divisor (polynomials_of entries.now) }
{
    let mut all = 0;
    for i in 0..entries.len() {
        let entry = &entries[entries.len() - 1 - i];
        let content = common_content(entry, entry);
        all = common_divisor(content, all);
    }
    all.max(1)
}

/// Entries with their coefficients divided by a number, which divides all of them.
fn divided_all(alloc: Global, entries: &[Entry], k: u128) -> Result<Vec<Entry>, AllocError>
    requires entries { All IsSomeEntry entries.now }
    requires positive { 1 ≤ k }
    requires divides { All (λ (e : EntryValue). DividesAll k e.terms) entries.now }
    ensures divided { IfOk result (λ all.
        polynomials_of all.items ≡ divided_all k (polynomials_of entries.now)) }
    ensures entries { IfOk result (λ all. (r : RankingValue) → AreEntries r entries.now
        → AreEntries r all.items) }
    ensures width { IfOk result (λ all. length all.items ≡ length entries.now) }
{
    let mut all = Vec::with_capacity(alloc, entries.len())?;
    for entry in entries {
        let copy = copied(alloc, entry)?;
        all.push(quotient_by(copy, k))?;
    }
    Ok(all)
}

/// Entries divided by the greatest common divisor of all their coefficients.
fn primitive_row(alloc: Global, entries: Vec<Entry>) -> Result<Vec<Entry>, AllocError>
    requires { All IsSomeEntry entries.items }
    ensures divided { IfOk result (λ all.
        polynomials_of all.items ≡ primitive_row (polynomials_of entries.items)) }
    ensures entries { IfOk result (λ all. (r : RankingValue) → AreEntries r entries.items
        → AreEntries r all.items) }
    ensures width { IfOk result (λ all. length all.items ≡ length entries.items) }
{
    let k = row_divisor(&entries);
    divided_all(alloc, &entries, k)
}

/// The combination of two rows in a symbol that occurs in both rests, in the first to a degree that
/// is not less.
pub(crate) fn combined(
    alloc: Global,
    ranking: &Ranking,
    v: Symbol,
    xs: &[Entry],
    ys: &[Entry],
) -> Result<Vec<Entry>, PolyStop>
    requires xs { AreEntries ranking.now xs.now }
    requires ys { AreEntries ranking.now ys.now }
    requires width { length xs.now ≡ length ys.now }
    requires some { 0 < length xs.now }
    requires occurs { 0 < degree (ranking_cmp ranking.now) v (rest_of (polynomials_of xs.now)) }
    requires ordered { degree (ranking_cmp ranking.now) v (rest_of (polynomials_of ys.now))
        ≤ degree (ranking_cmp ranking.now) v (rest_of (polynomials_of xs.now)) }
    ensures ok { IfOk result (λ zs. combined (symbols_under ranking.now) v
        (polynomials_of xs.now) (polynomials_of ys.now) ≡ Ok (polynomials_of zs.items)) }
    ensures entries { IfOk result (λ zs. AreEntries ranking.now zs.items) }
    ensures width { IfOk result (λ zs. length zs.items ≡ length xs.now) }
    ensures refused { IfErr result (λ stop. IsStop stop (combined (symbols_under ranking.now) v
        (polynomials_of xs.now) (polynomials_of ys.now))) }
{
    let m = multipliers(alloc, ranking, &xs[0], &ys[0], v)?;
    let zs = crossed_all(alloc, ranking, &m, xs, ys)?;
    let row = primitive_row(alloc, zs)?;
    Ok(row)
}

/// What is left of a budget after one and the terms of all components; `None` where that passes it.
pub(crate) fn left_after(entries: &[Entry], left: u32) -> Option<u32>
    ensures within { IfSome result (λ rest.
        rest + 1 + terms_in_all (polynomials_of entries.now) ≡ left) }
    ensures passed { IfNone result (left ≤ terms_in_all (polynomials_of entries.now)) }
{
    if left == 0 {
        return None;
    }
    let mut left = left;
    for entry in entries {
        let count = entry.term_count();
        if count >= left as usize {
            return None;
        }
        left -= count as u32;
    }
    Some(left - 1)
}
