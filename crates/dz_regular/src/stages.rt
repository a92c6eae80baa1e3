//! Which rows are at work.

ghost use Rattle.std.specs.Prelude.{◌≡◌, ◌≤◌, ◌<◌, ℕ, length, IfOk};
ghost use Rattle.dz_algebra.specs.Parts.{degree, leader};
ghost use Rattle.dz_rank.specs.Rankings.{ranking_cmp};
ghost use Rattle.dz_terms.specs.Entries.{IsEntry};
ghost use Rattle.dz_monomials.specs.Ranked.{symbols_under};
ghost use Rattle.dz_diff.specs.States.{LiveAll, polynomials};
ghost use Rattle.dz_regular.specs.Rows.{Numbered, rest_of};
ghost use Rattle.dz_regular.specs.Runs.{after, greatest_leader, in_hand, paired, with_member};
ghost use Rattle.dz_regular.specs.Working.{IsPair, IsRow, IsStage, pair_in, row_in, stage_in};

use crate::rows::{WorkingRow, equation_row};
use dz_diff::leader_of;
use dz_poly::{Book, Poly};
use dz_rank::{Ranking, Symbol};
use dz_terms::Entry;
use std::alloc::{AllocError, Global};
use std::cmp::Ordering;

/// The rows at work, in the order in which they are combined next, and the symbol.
#[derive(Drop)]
pub(crate) struct WorkingPair {
    pub(crate) symbol: Symbol,
    pub(crate) first: WorkingRow,
    pub(crate) second: WorkingRow,
}

/// Where a run is: at its end, with the row in hand, or at two rows at work.
#[derive(Drop)]
pub(crate) enum WorkingStage {
    Ended(WorkingRow),
    AtWork(WorkingPair),
}

/// The greatest leader found, and the index of its member, with one more member looked at.
fn with_member(
    ranking: &Ranking,
    f: &Entry,
    i: usize,
    member: &Entry,
    best: Option<(usize, Symbol)>,
) -> Option<(usize, Symbol)>
    requires f { IsEntry ranking.now f.now }
    requires member { IsEntry ranking.now member.now }
    ensures { result ≡ with_member (symbols_under ranking.now) f.now.terms i
        (leader (symbols_under ranking.now) member.now.terms) best }
{
    let Some(v) = leader_of(member) else {
        return best;
    };
    if f.degree(ranking, v) == 0 {
        return best;
    }
    let Some((_, greatest)) = best else {
        return Some((i, v));
    };
    match ranking.compare(v, greatest) {
        Ordering::Greater => Some((i, v)),
        _ => best,
    }
}

/// The greatest leader of an equation that occurs in `f`, and the index of the equation.
fn greatest_leader(book: &Book, equations: &[Poly], f: &Entry) -> Option<(usize, Symbol)>
    requires live { LiveAll book.now equations.now }
    requires f { IsEntry book.now.ranking f.now }
    ensures { result ≡ greatest_leader (symbols_under book.now.ranking)
        (polynomials book.now equations.now) f.now.terms }
{
    let mut best = None;
    for i in 0..equations.len() {
        best = with_member(book.ranking(), f, i, book.entry(equations[i]), best);
    }
    best
}

/// Two rows in the order in which they are combined.
fn paired(ranking: &Ranking, symbol: Symbol, a: WorkingRow, b: WorkingRow) -> WorkingPair
    requires a { (n : ℕ) × IsRow ranking.now n a }
    requires b { (n : ℕ) × IsRow ranking.now n b }
    ensures pair { pair_in result
        ≡ paired (symbols_under ranking.now) symbol (row_in a) (row_in b) }
    ensures rows { (n : ℕ) → IsRow ranking.now n a → IsRow ranking.now n b
        → 0 < degree (ranking_cmp ranking.now) symbol (rest_of (row_in a).components)
        → 0 < degree (ranking_cmp ranking.now) symbol (rest_of (row_in b).components)
        → IsPair ranking.now n result }
{
    let d = a.components[0].degree(ranking, symbol);
    let e = b.components[0].degree(ranking, symbol);
    if e < d || (d == e && b.number < a.number) {
        return WorkingPair {
            symbol,
            first: a,
            second: b,
        };
    }
    WorkingPair {
        symbol,
        first: b,
        second: a,
    }
}

/// The stage with a row in hand.
pub(crate) fn in_hand(
    alloc: Global,
    book: &Book,
    equations: &[Poly],
    row: WorkingRow,
) -> Result<WorkingStage, AllocError>
    requires live { LiveAll book.now equations.now }
    requires few { length equations.now ≤ 65535 }
    requires row { IsRow book.now.ranking (length equations.now) row }
    ensures stage { IfOk result (λ stage. stage_in stage
        ≡ in_hand (symbols_under book.now.ranking) (polynomials book.now equations.now)
        (row_in row)) }
    ensures rows { IfOk result (λ stage.
        IsStage book.now.ranking (length equations.now) stage) }
{
    // The facts of all books are known of this one: its polynomials are over the ranking.
    book.opened();
    let Some((i, v)) = greatest_leader(book, equations, &row.components[0]) else {
        return Ok(WorkingStage::Ended(row));
    };
    let other = equation_row(alloc, book, equations, i)?;
    Ok(WorkingStage::AtWork(paired(book.ranking(), v, other, row)))
}

/// The stage after a combination in a symbol made a row, where `second` is the other row at work.
pub(crate) fn after(
    alloc: Global,
    book: &Book,
    equations: &[Poly],
    symbol: Symbol,
    row: WorkingRow,
    second: WorkingRow,
) -> Result<WorkingStage, AllocError>
    requires live { LiveAll book.now equations.now }
    requires few { length equations.now ≤ 65535 }
    requires row { IsRow book.now.ranking (length equations.now) row }
    requires second { IsRow book.now.ranking (length equations.now) second }
    requires occurs { 0 < degree (ranking_cmp book.now.ranking) symbol
        (rest_of (row_in second).components) }
    ensures stage { IfOk result (λ stage. (first : Numbered) → stage_in stage
        ≡ after (symbols_under book.now.ranking) (polynomials book.now equations.now)
        (record { symbol = symbol; first = first; second = row_in second }) (row_in row)) }
    ensures rows { IfOk result (λ stage.
        IsStage book.now.ranking (length equations.now) stage) }
{
    if row.components[0].degree(book.ranking(), symbol) == 0 {
        return in_hand(alloc, book, equations, row);
    }
    Ok(WorkingStage::AtWork(paired(book.ranking(), symbol, row, second)))
}
