//! The critical pairs of a state.

ghost use Rattle.std.specs.Prelude.{◌≡◌, ◌<◌, ◌≤◌, ◌+◌, ◌++◌, map, drop, length, IfOk, OnOk};
ghost use Rattle.dz_algebra.specs.Parts.{leader};
ghost use Rattle.dz_monomials.specs.Ranked.{symbols_under};
ghost use Rattle.dz_diff.specs.States.{StandsIn, state_in};
ghost use Rattle.dz_pair.specs.Crossings.{crossings_from};
ghost use Rattle.dz_pair.specs.Pair.{critical_pairs};

use crate::crossing::leaders_cross;
use dz_diff::{State, leader_of};
use dz_poly::Book;
use dz_rank::Symbol;
use std::alloc::{AllocError, Global};

/// The leaders of the equations of a state, `None` for a ground equation.
fn leaders(alloc: Global, book: &Book, state: &State) -> Result<Vec<Option<Symbol>>, AllocError>
    requires { StandsIn book.now state.now }
    ensures leaders { IfOk result (λ table. table.items
        ≡ map (λ p. leader (symbols_under book.now.ranking) p)
        (state_in book.now state.now).equations) }
    ensures few { IfOk result (λ table. length table.items ≤ 256) }
{
    let mut table = Vec::new(alloc);
    for p in state.equations() {
        table.push(leader_of(book.entry(*p)))?;
    }
    Ok(table)
}

/// Appends the pairs of the leader at an index with those behind it. Places count from 1.
fn push_pairs(
    found: &mut Vec<(u16, u16)>,
    leaders: &[Option<Symbol>],
    i: usize,
) -> Result<(), AllocError>
    requires inside { i < length leaders.now }
    requires few { length leaders.now ≤ 256 }
    ensures { OnOk result (
        found.new.items ++ crossings_from (i + 2) (drop (i + 1) leaders.now)
        ≡ found.old.items ++ crossings_from (i + 1) (drop i leaders.now)) }
{
    for j in i + 1..leaders.len() {
        if leaders_cross(leaders[i], leaders[j]) {
            found.push(((i + 1) as u16, (j + 1) as u16))?;
        }
    }
    Ok(())
}

/// The critical pairs of the equations of a state, by their places, which count from 1: in each the
/// lesser place comes first, and they stand in lexicographic order.
pub fn pairs(alloc: Global, book: &Book, state: &State) -> Result<Vec<(u16, u16)>, AllocError>
    requires { StandsIn book.now state.now }
    ensures { IfOk result (λ found. found.items
        ≡ critical_pairs (symbols_under book.now.ranking) (state_in book.now state.now)) }
{
    let leaders = leaders(alloc, book, state)?;
    let mut found = Vec::new(alloc);
    for i in 0..leaders.len() {
        push_pairs(&mut found, leaders.as_slice(), i)?;
    }
    Ok(found)
}
