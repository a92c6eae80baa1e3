//! Which multipliers a state permits.

ghost use Rattle.std.specs.Prelude.{◌≡◌, Some, Ok, IfOk};
ghost use Rattle.dz_algebra.specs.Parts.{leader};
ghost use Rattle.dz_terms.specs.Answers.{Answers};
ghost use Rattle.dz_terms.specs.Entries.{IsEntry};
ghost use Rattle.dz_monomials.specs.Ranked.{symbols_under};
ghost use Rattle.dz_diff.specs.Operations.{setting_of};
ghost use Rattle.dz_diff.specs.State.{at_place, without_place};
ghost use Rattle.dz_diff.specs.States.{StandsIn, state_in};
ghost use Rattle.dz_diff.specs.Tests.{Polynomials};
ghost use Rattle.dz_step.specs.Permission.{is_permitted_at};
ghost use Rattle.dz_step.specs.Step.{is_allowed, multiplier_answer, multiplier_of, permitted_if, usable};

use crate::stepping::takes_derivation;
use crate::{Role, Which};
use dz_diff::{State, initial_of, is_among, is_unit, leader_of};
use dz_poly::{Book, Poly};
use dz_rank::{Operator, Ranking, Symbol};
use dz_terms::{Entry, PolyStop, into_norm, partial_derivative};
use std::alloc::{AllocError, Global};

/// The initial or the separant of an entry by a symbol.
#[tactic(auto, using(dz_terms::proofs::Answered::answered, dz_terms::proofs::Answered::stopped, crate::proofs::Permissions::initial_answered))]
pub fn multiplier(
    alloc: Global,
    ranking: &Ranking,
    q: &Entry,
    lead: Symbol,
    which: Which,
) -> Result<Entry, PolyStop>
    requires { IsEntry ranking.now q.now }
    ensures { Answers ranking.now result
        (multiplier_answer (symbols_under ranking.now) which lead q.now.terms) }
{
    match which {
        Which::Initial => Ok(initial_of(alloc, ranking, q, lead)?),
        Which::Separant => partial_derivative(alloc, ranking, q, lead),
    }
}

/// The place of the inequation that permits nothing in a role, 0 for none.
#[tactic(auto, using(dz_diff::proofs::MemberTests::none_left_out))]
fn left_out(role: Role) -> usize
    ensures { (hs : Polynomials) → usable role hs ≡ without_place result hs }
{
    match role {
        Role::Inequation(place) => place as usize,
        _ => 0,
    }
}

/// Whether a multiplier is ground and not zero, or its norm is an inequation that counts in a role.
pub fn may_multiply(book: &Book, state: &State, role: Role, multiplier: Entry) -> bool
    requires stands { StandsIn book.now state.now }
    requires multiplier { IsEntry book.now.ranking multiplier }
    ensures { result ≡ is_allowed (symbols_under book.now.ranking)
        (usable role (state_in book.now state.now).inequations) multiplier.terms }
{
    if is_unit(&multiplier) {
        return true;
    }
    let norm = into_norm(multiplier);
    is_among(book, state.inequations(), left_out(role), &norm)
}

/// Whether a multiplier of an equation with this leader fits and is permitted in a role.
#[tactic(auto, using(crate::proofs::Permissions::refused_not_permitted))]
pub fn is_granted(
    book: &Book,
    state: &State,
    role: Role,
    q: &Entry,
    lead: Symbol,
    which: Which,
) -> Result<bool, AllocError>
    requires stands { StandsIn book.now state.now }
    requires q { IsEntry book.now.ranking q.now }
    requires leads { leader (symbols_under book.now.ranking) q.now.terms ≡ Some lead }
    ensures { IfOk result (λ b. b ≡ permitted_if (symbols_under book.now.ranking)
        (usable role (state_in book.now state.now).inequations)
        (multiplier_answer (symbols_under book.now.ranking) which lead q.now.terms)) }
{
    match multiplier(book.allocator(), book.ranking(), q, lead, which) {
        Ok(multiplier) => Ok(may_multiply(book, state, role, multiplier)),
        Err(PolyStop::Memory) => Err(AllocError),
        Err(_) => Ok(false),
    }
}

/// The initial of an operator's derivative: the separant for a proper operator.
pub(crate) fn which_of(operator: Operator) -> Which
    ensures { result ≡ multiplier_of operator }
{
    if takes_derivation(operator) {
        Which::Separant
    } else {
        Which::Initial
    }
}

/// What stands at a place of a list, counted from 1.
#[tactic(auto, using(crate::proofs::BookPlaces::no_place, crate::proofs::BookPlaces::past_all, crate::proofs::BookPlaces::place_is))]
pub fn member_at(polys: &[Poly], place: u16) -> Option<Poly>
    ensures { result ≡ at_place place polys.now }
{
    let place = place as usize;
    if place == 0 {
        return None;
    }
    if place > polys.len() {
        return None;
    }
    Some(polys[place - 1])
}

/// The equation at a place, counted from 1.
pub(crate) fn equation_at(state: &State, place: u16) -> Option<Poly>
    ensures { result ≡ at_place place state.now.equations }
{
    member_at(state.equations(), place)
}

/// Whether the multiplier of a step by the equation at a place, counted from 1, is permitted in a
/// role; no, where there is no such place or its equation is ground.
///
/// The multiplier is the separant of the equation where the operator takes a derivation, and else
/// its initial.
pub fn permitted(
    book: &Book,
    state: &State,
    role: Role,
    j: u16,
    operator: Operator,
) -> Result<bool, AllocError>
    requires { StandsIn book.now state.now }
    ensures { IfOk result (λ b. b ≡ is_permitted_at (setting_of book.now.ranking)
        (state_in book.now state.now) role j operator) }
{
    let Some(p) = equation_at(state, j) else {
        return Ok(false);
    };
    let q = book.entry(p);
    let Some(lead) = leader_of(q) else {
        return Ok(false);
    };
    is_granted(book, state, role, q, lead, which_of(operator))
}
