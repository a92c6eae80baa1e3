//! The derivatives up to a total order.

ghost use Rattle.std.specs.Prelude.{◌≡◌, IfOk};
ghost use Rattle.dz_parametric.specs.Orders.{derivatives_to};

use crate::choosing::unled_to;
use dz_rank::{Ranking, Symbol};
use std::alloc::{AllocError, Global};

/// The derivatives up to a total order, in increasing order.
pub fn derivatives_to(
    alloc: Global,
    ranking: &Ranking,
    order: u8,
) -> Result<Vec<Symbol>, AllocError>
    ensures { IfOk result (λ xs. xs.items ≡ derivatives_to ranking.now order) }
{
    // What is true of every ranking.
    let _ = ranking.signature();
    unled_to(alloc, ranking, &[], order)
}
