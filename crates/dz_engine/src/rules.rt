//! What the rules of the order of work find at a state, the first rule first.

ghost use Rattle.std.specs.Prelude.{◌≡◌, ℕ, false, IfOk};
ghost use Rattle.dz_diff.specs.Operations.{Setting, setting_of};
ghost use Rattle.dz_diff.specs.State.{State as DefinedState};
ghost use Rattle.dz_diff.specs.States.{StandsIn, state_in};
ghost use Rattle.dz_monomials.specs.Ranked.{symbols_under};
ghost use Rattle.dz_step.specs.Divisors.{AreDivisors};
ghost use Rattle.dz_step.specs.declared.Role.TheVariants.{Free};
ghost use Rattle.dz_move.specs.Root.{is_closed};
ghost use Rattle.dz_engine.specs.Facts.{AreKnown, names_of};
ghost use Rattle.dz_engine.specs.Naming.{IsFound, split_entry};
ghost use Rattle.dz_engine.specs.Order.{next_entry};

use crate::admitting::{Members, reducible, weedable};
use crate::dividing::divisible;
use crate::factoring::factorable;
use crate::facts::Facts;
use crate::splitting::splittable;
use dz_move::Next;
use dz_poly::Book;
use dz_step::{Divisor, State, Which};
use std::alloc::AllocError;

/// What the first rule that finds something finds.
#[derive(Drop)]
pub(crate) enum Found {
    /// An action without a run.
    Act(Next),
    /// A full run on the member at a place.
    Run(Members, u16),
    /// A separant that does not fit.
    Separant(u16),
    /// The critical pairs are left.
    Pairs,
}

/// A split that is found.
fn split_of(place: u16, which: Option<Which>) -> Found
    ensures { (g : Setting) (budget w : ℕ) (s : DefinedState)
        → IsFound g budget w s result (split_entry g budget w s place which) }
{
    match which {
        Some(which) => Found::Act(Next::Split { place, which }),
        None => Found::Separant(place),
    }
}

/// What the first rule that finds something finds, at a state that is not closed.
pub(crate) fn first_found(
    book: &Book,
    state: &State,
    facts: &[Facts],
    table: &mut Vec<Option<Divisor>>,
) -> Result<Found, AllocError>
    requires stands { StandsIn book.now state.now }
    requires known { AreKnown book.now facts.now }
    requires names { names_of facts.now ≡ state.now.equations }
    requires table { AreDivisors book.now.ranking (state_in book.now state.now) Free table.old.items }
    requires unclosed { is_closed (symbols_under book.now.ranking) (state_in book.now state.now)
        ≡ false }
    ensures table { AreDivisors book.now.ranking (state_in book.now state.now) Free table.new.items }
    ensures found { IfOk result (λ x. (budget w : ℕ) → IsFound (setting_of book.now.ranking) budget
        w (state_in book.now state.now) x
        (next_entry (setting_of book.now.ranking) budget w (state_in book.now state.now))) }
{
    if let Some((place, symbol)) = divisible(book, state, facts)? {
        return Ok(Found::Act(Next::Divide { place, symbol }));
    }
    if let Some(place) = reducible(book, state, table)? {
        return Ok(Found::Run(Members::Equations, place));
    }
    if let Some((place, symbol)) = factorable(book, state, facts)? {
        return Ok(Found::Act(Next::Factor { place, symbol }));
    }
    if let Some((place, which)) = splittable(book, state, facts) {
        return Ok(split_of(place, which));
    }
    if let Some(place) = weedable(book, state, table)? {
        return Ok(Found::Run(Members::Inequations, place));
    }
    Ok(Found::Pairs)
}
