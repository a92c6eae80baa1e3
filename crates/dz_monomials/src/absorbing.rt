//! One pass over two falling lists of cells.

ghost use Rattle.std.specs.Prelude.{◌≡◌, ◌++◌, ◌<◌, ◌+◌, [], length, IfOk, OnSome, IfNone};
ghost use Rattle.std.specs.Option.{option_to_list};
ghost use Rattle.dz_algebra.specs.Gather.{merge};
ghost use Rattle.dz_algebra.specs.Monomial.{monomial_cmp};
ghost use Rattle.dz_monomials.specs.Cells.{add_capped};
ghost use Rattle.dz_monomials.specs.Merging.{TakesBoth};
ghost use Rattle.dz_rank.specs.Rankings.{ranking_cmp};

use crate::cell::Cell;
use crate::powers::compare_monomials;
use dz_rank::Ranking;
use std::alloc::{AllocError, Global};
use std::cmp::Ordering;
use std::collections::VecDeque;

/// Takes the first cells of both lists, which are at one monomial.
fn take_both(cells: &mut VecDeque<Cell>, row: &mut VecDeque<Cell>) -> Option<Cell>
    requires cells_first { 0 < length cells.old.items }
    requires row_first { 0 < length row.old.items }
    ensures { TakesBoth add_capped cells.old.items row.old.items result
        cells.new.items row.new.items }
{
    match (cells.pop_front(), row.pop_front()) {
        (Some(cell), Some(other)) => Some(cell.join(other)),
        _ => unreachable!(),
    }
}

#[tactic(auto, using(crate::proofs::Merging::take_less, crate::proofs::Merging::take_greater, crate::proofs::Merging::take_equal, crate::proofs::Merging::take_row, crate::proofs::Merging::take_cells,))]
/// Takes the greatest cell, with the amounts of both lists where both have its monomial.
fn take_greatest(
    ranking: &Ranking,
    cells: &mut VecDeque<Cell>,
    row: &mut VecDeque<Cell>,
) -> Option<Cell>
    ensures first { merge (monomial_cmp (ranking_cmp ranking.now)) add_capped cells.old.items row.old.items
        ≡ option_to_list result
        ++ merge (monomial_cmp (ranking_cmp ranking.now)) add_capped
        cells.new.items row.new.items }
    ensures fewer { OnSome result (length cells.new.items + length row.new.items
        < length cells.old.items + length row.old.items) }
    ensures none { IfNone result ((cells.old.items ≡ []) × (row.old.items ≡ [])) }
{
    if cells.is_empty() {
        return row.pop_front();
    }
    if row.is_empty() {
        return cells.pop_front();
    }
    match compare_monomials(ranking, row[0].powers(), cells[0].powers()) {
        Ordering::Less => cells.pop_front(),
        Ordering::Greater => row.pop_front(),
        Ordering::Equal => take_both(cells, row),
    }
}

/// The cells of both lists, with both amounts at each monomial that both have.
pub fn absorb(
    alloc: Global,
    ranking: &Ranking,
    cells: VecDeque<Cell>,
    row: VecDeque<Cell>,
) -> Result<VecDeque<Cell>, AllocError>
    ensures { IfOk result (λ all. all.items
        ≡ merge (monomial_cmp (ranking_cmp ranking.now)) add_capped cells.items row.items) }
{
    let mut cells = cells;
    let mut row = row;
    let mut all = VecDeque::with_capacity(alloc, cells.len().saturating_add(row.len()))?;
    while let Some(cell) = take_greatest(ranking, &mut cells, &mut row) {
        all.push_back(cell)?;
    }
    Ok(all)
}
