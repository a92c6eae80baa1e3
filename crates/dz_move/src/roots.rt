//! Roots of systems.

ghost use Rattle.std.specs.Prelude.{◌≡◌, [], ◌∷◌, IfOk, OnOk, OnErr};
ghost use Rattle.dz_poly.specs.Books.{IsKept, Lives, polynomial};
ghost use Rattle.dz_rank.specs.Rankings.{RankingValue};
ghost use Rattle.dz_terms.specs.Entries.{IsEntry};
ghost use Rattle.dz_monomials.specs.Ranked.{symbols_under};
ghost use Rattle.dz_move.specs.Root.{kept_norms, root_of};
ghost use Rattle.dz_diff.specs.States.{IsStateOf, LiveAll, MeanAll, StandsIn, polynomials, state_in};
ghost use Rattle.dz_move.specs.Members.{is_left_out};
ghost use Rattle.dz_move.specs.Systems.{IsSystemIn, system_in};

use crate::system::System;
use dz_diff::{State, is_among, is_unit, norm_entry};
use dz_poly::{Book, Poly};
use dz_terms::Entry;
use std::alloc::{AllocError, Global};

/// One of the two lists of a state.
#[derive(Clone, Copy, Debug, PartialEq, Eq)]
pub(crate) enum Members {
    Equations,
    Inequations,
}

/// Whether a norm says nothing in this list: as an equation zero, as an inequation what is ground
/// and not zero.
pub(crate) fn is_left_out(members: Members, norm: &Entry) -> bool
    ensures { (r : RankingValue) → IsEntry r norm.now
        → result ≡ is_left_out (symbols_under r) members norm.now.terms }
{
    match members {
        Members::Equations => norm.is_zero(),
        Members::Inequations => is_unit(norm),
    }
}

/// Puts the norm of a polynomial behind those that are kept, unless it is left out or stands there.
fn keep_norm(
    book: &mut Book,
    members: Members,
    p: Poly,
    kept: &mut Vec<Poly>,
) -> Result<(), AllocError>
    requires lives { Lives book.old p }
    requires all { LiveAll book.old kept.old.items }
    ensures value { OnOk result (MeanAll book.new kept.new.items
        (kept_norms (symbols_under book.old.ranking)
        (is_left_out (symbols_under book.old.ranking) members)
        (polynomials book.old kept.old.items) (polynomial book.old p ∷ []))) }
    ensures kept { IsKept book.old book.new }
{
    let norm = norm_entry(book, p)?;
    if is_left_out(members, &norm) || is_among(book, kept, 0, &norm) {
        return Ok(());
    }
    let norm = book.keep(norm)?;
    kept.push(norm)?;
    Ok(())
}

/// The norms of polynomials in their order, without those that are left out and without repeats.
fn kept_norms(
    alloc: Global,
    book: &mut Book,
    members: Members,
    polys: &[Poly],
) -> Result<Vec<Poly>, AllocError>
    requires { LiveAll book.old polys.now }
    ensures value { IfOk result (λ kept. MeanAll book.new kept.items
        (kept_norms (symbols_under book.old.ranking)
        (is_left_out (symbols_under book.old.ranking) members) []
        (polynomials book.old polys.now))) }
    ensures kept { IsKept book.old book.new }
{
    let mut kept = Vec::new(alloc);
    'polys: for p in polys {
        keep_norm(book, members, *p, &mut kept)?;
    }
    Ok(kept)
}

/// The root, where the polynomials that are made on the way stay in the book on a refusal.
fn root_state(alloc: Global, book: &mut Book, system: &System) -> Result<State, AllocError>
    requires { IsSystemIn book.old system.now }
    ensures stands { IfOk result (λ s. StandsIn book.new s) }
    ensures root { IfOk result (λ s. state_in book.new s
        ≡ root_of (symbols_under book.old.ranking) (system_in book.old system.now)) }
    ensures facts { IfOk result (λ s. IsStateOf (symbols_under book.new.ranking)
        (state_in book.new s)) }
    ensures kept { IsKept book.old book.new }
{
    // The facts of all books are known of this one.
    book.opened();
    let equations = kept_norms(alloc, book, Members::Equations, system.equations())?;
    let inequations = kept_norms(alloc, book, Members::Inequations, system.inequations())?;
    Ok(State::new(book, equations, inequations, 0))
}

/// The root of a system: the norms of its equations without zero, and the norms of its inequations
/// without those that are ground and not zero. The first of equal members stays, and the order too.
pub fn root(alloc: Global, book: &mut Book, system: &System) -> Result<State, AllocError>
    requires { IsSystemIn book.old system.now }
    ensures stands { IfOk result (λ s. StandsIn book.new s) }
    ensures root { IfOk result (λ s. state_in book.new s
        ≡ root_of (symbols_under book.old.ranking) (system_in book.old system.now)) }
    ensures facts { IfOk result (λ s. IsStateOf (symbols_under book.new.ranking)
        (state_in book.new s)) }
    ensures kept { OnOk result (IsKept book.old book.new) }
    ensures refused { OnErr result (book.new ≡ book.old) }
{
    let mark = book.mark();
    match root_state(alloc, book, system) {
        Ok(root) => Ok(root),
        Err(error) => {
            book.restore(mark);
            Err(error)
        }
    }
}
