//! Chains: the initials and separants of their equations.

ghost use Rattle.std.specs.Prelude.{◌≡◌, true, Some, IfOk};
ghost use Rattle.dz_algebra.specs.Parts.{leader};
ghost use Rattle.dz_algebra.specs.Size.{separant_answer};
ghost use Rattle.dz_terms.specs.Entries.{IsEntry};
ghost use Rattle.dz_monomials.specs.Ranked.{symbols_under};
ghost use Rattle.dz_diff.specs.States.{StandsIn, state_in};
ghost use Rattle.dz_tree.specs.ChainParts.{allowed_if, multiplier_rule, multipliers};

use dz_diff::{State, leader_of};
use dz_move::Rule;
use dz_poly::{Book, PolyStop};
use dz_rank::Symbol;
use dz_step::{Role, Which, is_granted, may_multiply, multiplier};
use dz_terms::Entry;
use std::alloc::AllocError;

/// Whether the separant of an equation with this leader is permitted; `None` where it does not fit.
fn separant_permitted(
    book: &Book,
    state: &State,
    q: &Entry,
    lead: Symbol,
) -> Result<Option<bool>, AllocError>
    requires stands { StandsIn book.now state.now }
    requires q { IsEntry book.now.ranking q.now }
    ensures { IfOk result (λ o. o ≡ allowed_if (symbols_under book.now.ranking)
        (state_in book.now state.now)
        (separant_answer (symbols_under book.now.ranking) lead q.now.terms)) }
{
    match multiplier(book.allocator(), book.ranking(), q, lead, Which::Separant) {
        Ok(separant) => Ok(Some(may_multiply(book, state, Role::Free, separant))),
        Err(PolyStop::Memory) => Err(AllocError),
        Err(_) => Ok(None),
    }
}

/// Whether the initial and the separant of an equation are permitted; `None` where there is no
/// separant that fits.
fn multipliers(book: &Book, state: &State, q: &Entry) -> Result<Option<bool>, AllocError>
    requires stands { StandsIn book.now state.now }
    requires q { IsEntry book.now.ranking q.now }
    ensures { IfOk result (λ o. o ≡ multipliers (symbols_under book.now.ranking)
        (state_in book.now state.now) q.now.terms) }
{
    let Some(lead) = leader_of(q) else {
        return Ok(None);
    };
    let Some(separant) = separant_permitted(book, state, q, lead)? else {
        return Ok(None);
    };
    let initial = is_granted(book, state, Role::Free, q, lead, Which::Initial)?;
    Ok(Some(initial && separant))
}

/// The rule of multipliers that fails at a state: a separant does not fit, or else an initial or a
/// separant is not permitted.
pub(crate) fn multiplier_rule(book: &Book, state: &State) -> Result<Option<Rule>, AllocError>
    requires { StandsIn book.now state.now }
    ensures { IfOk result (λ o. o ≡ multiplier_rule (symbols_under book.now.ranking)
        (state_in book.now state.now) true (state_in book.now state.now).equations) }
{
    let mut before = true;
    'equations: for p in state.equations() {
        let Some(permitted) = multipliers(book, state, book.entry(*p))? else {
            return Ok(Some(Rule::Wide));
        };
        if !permitted {
            before = false;
        }
    }
    if before {
        return Ok(None);
    }
    Ok(Some(Rule::Multiplier))
}
