//! What the cells of an operation answer.

ghost use Rattle.std.specs.Prelude.{◌≡◌, length, Ok, IfOk, IfErr};
ghost use Rattle.dz_monomials.specs.Stops.{IsStop};
ghost use Rattle.dz_monomials.specs.Cells.{concluded, finished};
ghost use Rattle.dz_monomials.specs.Degrees.{degrees, limit_by};
ghost use Rattle.dz_monomials.specs.Supports.{IsSupport};
ghost use Rattle.dz_rank.specs.Rankings.{ranking_cmp};
ghost use Rattle.dz_rank.specs.Symbols.{total_order};

use crate::entry::Entry;
use dz_monomials::{PolyStop, Support, degrees_left, finished_terms, limit_of_size};
use dz_rank::Ranking;
use std::alloc::Global;

#[tactic(auto, using(dz_monomials::proofs::Finishing::nothing_cancelled, dz_monomials::proofs::Finishing::limit_known))]
/// What an operation with this support answers.
pub fn conclude(alloc: Global, ranking: &Ranking, support: Support) -> Result<Entry, PolyStop>
    requires { IsSupport (ranking_cmp ranking.now) support.degrees.items support.cells.items }
    ensures ok { IfOk result (λ entry.
        concluded (limit_by total_order support.degrees.items (length support.cells.items))
        (finished support.cells.items) ≡ Ok entry.terms) }
    ensures degrees { IfOk result (λ entry.
        entry.degrees ≡ degrees (ranking_cmp ranking.now) entry.terms) }
    ensures refused { IfErr result (λ e. IsStop e
        (concluded (limit_by total_order support.degrees.items (length support.cells.items))
        (finished support.cells.items))) }
{
    let Support { degrees, cells } = support;
    if let Some(limit) = limit_of_size(degrees.len(), cells.len()) {
        return Err(PolyStop::Large(limit));
    }
    let count = cells.len();
    let terms = finished_terms(alloc, cells)?;
    let degrees = degrees_left(alloc, ranking, degrees, count, terms.as_slice())?;
    Ok(Entry { terms, degrees })
}
