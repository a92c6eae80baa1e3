//! What the cells of an operation make.

ghost use Rattle.std.specs.Prelude.{◌≡◌, ◌⊎◌, length, Some, None, IfOk, IfErr};
ghost use Rattle.dz_monomials.specs.Cells.{finished};
ghost use Rattle.dz_monomials.specs.Degrees.{degrees, limit_of_counts};
ghost use Rattle.dz_monomials.specs.declared.PolyStop.TheVariants.{Memory, Wide};
ghost use Rattle.dz_rank.specs.Rankings.{ranking_cmp};

use crate::PolyStop;
use crate::cell::Cell;
use crate::degrees::degrees_of;
use crate::powers::Powers;
use crate::term::Term;
use dz_algebra::Limit;
use dz_rank::Ranking;
use std::alloc::{AllocError, Global};
use std::collections::VecDeque;

/// What an operation adds up: a cell for each monomial at which something lands, the greatest
/// monomial first, and the greatest exponent of each symbol in them.
#[derive(Drop)]
pub struct Support {
    pub degrees: Powers,
    pub cells: VecDeque<Cell>,
}

/// The most symbols that occur in a polynomial.
pub const MOST_SYMBOLS: usize = 64;

/// The most terms of a polynomial.
pub const MOST_TERMS: usize = 4096;

/// The limit that so many symbols and so many terms pass.
pub fn limit_of_size(symbols: usize, terms: usize) -> Option<Limit>
    ensures { result ≡ limit_of_counts symbols terms }
{
    if symbols > MOST_SYMBOLS {
        Some(Limit::Symbols)
    } else if terms > MOST_TERMS {
        Some(Limit::Terms)
    } else {
        None
    }
}

/// The terms of the cells whose sum is not zero.
pub fn finished_terms(alloc: Global, cells: VecDeque<Cell>) -> Result<Vec<Term>, PolyStop>
    ensures ok { IfOk result (λ terms. finished cells.items ≡ Some terms.items) }
    ensures refused { IfErr result (λ e. (e ≡ Memory)
        ⊎ ((e ≡ Wide) × (finished cells.items ≡ None))) }
{
    let mut cells = cells;
    let mut terms = Vec::with_capacity(alloc, cells.len())?;
    while let Some(cell) = cells.pop_front() {
        let Some(term) = cell.into_term() else {
            return Err(PolyStop::Wide);
        };
        if term.coefficient() != 0 {
            terms.push(term)?;
        }
    }
    Ok(terms)
}

/// The degrees of terms that so many cells made; `table` has the degrees of the cells.
pub fn degrees_left(
    alloc: Global,
    ranking: &Ranking,
    table: Powers,
    cells: usize,
    terms: &[Term],
) -> Result<Powers, AllocError>
    requires { cells ≡ length terms.now
        → table.items ≡ degrees (ranking_cmp ranking.now) terms.now }
    ensures { IfOk result (λ all. all.items ≡ degrees (ranking_cmp ranking.now) terms.now) }
{
    if terms.len() == cells {
        return Ok(table);
    }
    degrees_of(alloc, ranking, terms)
}
