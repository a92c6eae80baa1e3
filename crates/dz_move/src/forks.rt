//! Forks: the drafts after them.

ghost use Rattle.std.specs.Prelude.{◌≡◌, ◌≤◌, IfOk, IfErr, length};
ghost use Rattle.dz_poly.specs.Books.{IsKept, Lives, polynomial};
ghost use Rattle.dz_terms.specs.Entries.{IsEntry};
ghost use Rattle.dz_monomials.specs.Ranked.{symbols_under};
ghost use Rattle.dz_diff.specs.Operations.{setting_of};
ghost use Rattle.dz_diff.specs.States.{StandsIn, state_in};
ghost use Rattle.dz_move.specs.Actions.{AreDrafts, IsActionStop, IsDrafted};
ghost use Rattle.dz_move.specs.Moves.{factored, split_at};
ghost use Rattle.dz_move.specs.Parts.{factor_states, is_new, may_be_factor};

use crate::Rule;
use crate::drafts::{Draft, Drafted, Drafts};
use crate::fault::{ActionStop, broken};
use crate::lists::{appended, has_symbol, names, put};
use crate::roots::Members;
use dz_diff::{State, is_among, leader_of};
use dz_poly::{Book, Poly};
use dz_rank::Symbol;
use dz_step::{Which, member_at, multiplier};
use dz_terms::{Entry, divided_entry, into_norm, power, same_entries};
use std::alloc::AllocError;

/// Whether a norm may be split on: it is not ground, and neither equation nor inequation.
#[tactic(auto, using(dz_diff::proofs::MemberTests::none_left_out))]
fn is_new(book: &Book, state: &State, norm: &Entry) -> bool
    requires stands { StandsIn book.now state.now }
    requires norm { IsEntry book.now.ranking norm.now }
    ensures { result ≡ is_new (symbols_under book.now.ranking) (state_in book.now state.now)
        norm.now.terms }
{
    let Some(_) = leader_of(norm) else {
        return false;
    };
    if is_among(book, state.equations(), 0, norm) {
        return false;
    }
    !is_among(book, state.inequations(), 0, norm)
}

/// The norm of an initial or separant becomes an inequation, or an equation.
pub(crate) fn split(
    book: &mut Book,
    state: &State,
    place: u16,
    which: Which,
) -> Result<Drafted, ActionStop>
    requires stands { StandsIn book.old state.now }
    requires splits { state.now.splits ≤ 200 }
    ensures ok { IfOk result (λ x. IsDrafted book.new x (split_at (setting_of book.old.ranking)
        (state_in book.old state.now) place which)) }
    ensures refused { IfErr result (λ stop. IsActionStop stop (split_at
        (setting_of book.old.ranking) (state_in book.old state.now) place which)) }
    ensures kept { IsKept book.old book.new }
{
    let Some(p) = member_at(state.equations(), place) else {
        return Err(broken(0, Rule::Place));
    };
    let Some(lead) = leader_of(book.entry(p)) else {
        return Err(broken(0, Rule::Fork));
    };
    let multiplier = multiplier(book.allocator(), book.ranking(), book.entry(p), lead, which)?;
    let norm = into_norm(multiplier);
    if !is_new(book, state, &norm) {
        return Err(broken(0, Rule::Fork));
    }
    let weight = norm.term_count().saturating_add(1);
    let norm = book.keep(norm)?;
    let first = Draft {
        equations: names(book.allocator(), state.equations())?,
        inequations: appended(book.allocator(), state.inequations(), norm)?,
        splits: state.splits() + 1,
    };
    let second = Draft {
        equations: appended(book.allocator(), state.equations(), norm)?,
        inequations: names(book.allocator(), state.inequations())?,
        splits: state.splits() + 1,
    };
    Ok(Drafted {
        after: Drafts::Two(first, second),
        steps: 0,
        weight,
    })
}

/// Whether a symbol is a derivative that is neither an equation itself nor an inequation.
fn may_be_factor(book: &Book, state: &State, p: Poly, v: Symbol) -> Result<bool, AllocError>
    requires stands { StandsIn book.now state.now }
    requires lives { Lives book.now p }
    ensures { IfOk result (λ b. b ≡ may_be_factor (symbols_under book.now.ranking)
        (state_in book.now state.now) (polynomial book.now p) v) }
{
    let Symbol::Derivative { .. } = v else {
        return Ok(false);
    };
    let symbol = power(book.allocator(), 1, v, 1)?;
    if same_entries(book.ranking(), book.entry(p), &symbol) {
        return Ok(false);
    }
    let stands = has_symbol(book, state.inequations(), v)?;
    Ok(!stands)
}

/// The drafts with a quotient at a place and a further inequation, and with a factor there.
fn factor_drafts(
    book: &mut Book,
    state: &State,
    place: u16,
    quotient: Entry,
    symbol: Entry,
    factor: Entry,
) -> Result<Drafts, AllocError>
    requires stands { StandsIn book.old state.now }
    requires splits { state.now.splits ≤ 200 }
    requires counts { 1 ≤ place }
    requires inside { place ≤ length state.now.equations }
    requires quotient { IsEntry book.old.ranking quotient }
    requires symbol { IsEntry book.old.ranking symbol }
    requires factor { IsEntry book.old.ranking factor }
    ensures drafts { IfOk result (λ x. AreDrafts book.new x (factor_states
        (symbols_under book.old.ranking) (state_in book.old state.now) place
        quotient.terms symbol.terms factor.terms)) }
    ensures kept { IsKept book.old book.new }
{
    let first = put(book, Members::Equations, state.equations(), place, quotient)?;
    let second = put(book, Members::Equations, state.equations(), place, factor)?;
    let name = book.keep(symbol)?;
    let first = Draft {
        equations: first,
        inequations: appended(book.allocator(), state.inequations(), name)?,
        splits: state.splits() + 1,
    };
    let second = Draft {
        equations: second,
        inequations: names(book.allocator(), state.inequations())?,
        splits: state.splits() + 1,
    };
    Ok(Drafts::Two(first, second))
}

/// A derivative that divides an equation becomes an inequation and is divided out, or takes the
/// place of the equation.
pub(crate) fn factored(
    book: &mut Book,
    state: &State,
    place: u16,
    v: Symbol,
) -> Result<Drafted, ActionStop>
    requires stands { StandsIn book.old state.now }
    requires splits { state.now.splits ≤ 200 }
    ensures ok { IfOk result (λ x. IsDrafted book.new x (factored (setting_of book.old.ranking)
        (state_in book.old state.now) place v)) }
    ensures refused { IfErr result (λ stop. IsActionStop stop (factored
        (setting_of book.old.ranking) (state_in book.old state.now) place v)) }
    ensures kept { IsKept book.old book.new }
{
    let Some(p) = member_at(state.equations(), place) else {
        return Err(broken(0, Rule::Place));
    };
    if !may_be_factor(book, state, p, v)? {
        return Err(broken(0, Rule::Symbol));
    }
    let divided = divided_entry(book.allocator(), book.ranking(), book.entry(p), v)?;
    let Some(quotient) = divided else {
        return Err(broken(0, Rule::Symbol));
    };
    let weight = quotient.term_count().saturating_add(1);
    // A ranking has at most four independents.
    let _ = book.ranking().signature();
    let symbol = power(book.allocator(), 1, v, 1)?;
    let factor = power(book.allocator(), 1, v, 1)?;
    Ok(Drafted {
        after: factor_drafts(book, state, place, quotient, symbol, factor)?,
        steps: 0,
        weight,
    })
}
