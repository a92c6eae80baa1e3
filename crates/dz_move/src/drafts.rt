//! The states that an action leads to, before and after their limits are looked at.

ghost use Rattle.std.specs.Prelude.{◌≡◌, ◌≤◌, ◌<◌, ℕ, None, Ok, IfOk, IfErr, nat_lt};
ghost use Rattle.dz_poly.specs.Books.{BookValue};
ghost use Rattle.dz_monomials.specs.Ranked.{symbols_under};
ghost use Rattle.dz_monomials.specs.Lists.{AllOf};
ghost use Rattle.dz_diff.specs.State.{limit_passed, member_count, term_count};
ghost use Rattle.dz_diff.specs.States.{IsStateOf, LiveAll, StandsIn, polynomials};
ghost use Rattle.dz_move.specs.Actions.{IsActionStop, IsPerformed, IsWeight};
ghost use Rattle.dz_move.specs.Actions.{DraftsStand, ReachedStand, draft_in, draft_value, drafts_in, reached_in};
ghost use Rattle.dz_move.specs.Moves.{settled};

use crate::fault::{ActionStop, MoveFault};
use crate::system::terms_of;
use dz_diff::State;
use dz_poly::{Book, Limit, Poly};

/// The lists of a state, and the number of forks above it.
#[derive(Drop)]
pub(crate) struct Draft {
    pub(crate) equations: Vec<Poly>,
    pub(crate) inequations: Vec<Poly>,
    pub(crate) splits: u16,
}

/// The draft after a move, or the two after a fork.
#[derive(Drop)]
pub(crate) enum Drafts {
    One(Draft),
    Two(Draft, Draft),
}

/// The drafts after an action, the number of steps that were taken, and the weight, up to the
/// greatest number that a `usize` has.
#[derive(Drop)]
pub(crate) struct Drafted {
    pub(crate) after: Drafts,
    pub(crate) steps: usize,
    pub(crate) weight: usize,
}

/// The state after a move, or the two after a fork.
#[derive(Drop)]
pub enum Reached {
    One(State),
    Two(State, State),
}

/// The states after an action, and the weight, up to the greatest number that a `usize` has.
#[derive(Drop)]
pub struct Performed {
    pub after: Reached,
    pub weight: usize,
}

/// Whether a draft has more than 256 polynomials.
fn has_many_members(draft: &Draft) -> bool
    ensures { (book : BookValue) → result ≡ nat_lt 256 (member_count (draft_in book draft.now)) }
{
    draft.equations.len() > 256 || draft.inequations.len() > 256 - draft.equations.len()
}

/// Whether the polynomials of a draft have more than 65,536 terms together.
fn has_many_terms(book: &Book, draft: &Draft) -> bool
    requires { StandsIn book.now (draft_value draft.now) }
    ensures { result ≡ nat_lt 65536 (term_count (draft_in book.now draft.now)) }
{
    terms_of(book, &draft.equations).saturating_add(terms_of(book, &draft.inequations)) > 65_536
}

/// Whether more than 200 forks are above a draft.
fn has_many_splits(draft: &Draft) -> bool
    ensures { result ≡ nat_lt 200 draft.now.splits }
{
    draft.splits > 200
}

/// The first limit that one of the drafts passes.
fn limit_passed(book: &Book, drafts: &Drafts) -> Option<Limit>
    requires { DraftsStand book.now drafts.now }
    ensures { result ≡ limit_passed (drafts_in book.now drafts.now) }
{
    let (members, terms, splits) = match drafts {
        Drafts::One(d) => (
            has_many_members(d),
            has_many_terms(book, d),
            has_many_splits(d),
        ),
        Drafts::Two(d, e) => (
            has_many_members(d) || has_many_members(e),
            has_many_terms(book, d) || has_many_terms(book, e),
            has_many_splits(d) || has_many_splits(e),
        ),
    };
    if members {
        return Some(Limit::Polynomials);
    }
    if terms {
        return Some(Limit::Node);
    }
    if splits {
        return Some(Limit::Splits);
    }
    None
}

/// The state of a draft, which has the facts of a state.
fn state_of(book: &Book, draft: Draft) -> State
    requires stands { StandsIn book.now (draft_value draft) }
    requires facts { IsStateOf (symbols_under book.now.ranking) (draft_in book.now draft) }
    ensures { result ≡ draft_value draft }
{
    State::new(book, draft.equations, draft.inequations, draft.splits)
}

/// The states of drafts, which have the facts of states.
fn states_of(book: &Book, drafts: Drafts) -> Reached
    requires stand { DraftsStand book.now drafts }
    requires facts { AllOf (IsStateOf (symbols_under book.now.ranking)) (drafts_in book.now drafts) }
    ensures states { reached_in book.now result ≡ drafts_in book.now drafts }
    ensures facts { AllOf (IsStateOf (symbols_under book.now.ranking)) (reached_in book.now result) }
    ensures stand { ReachedStand book.now result }
{
    match drafts {
        Drafts::One(d) => Reached::One(state_of(book, d)),
        Drafts::Two(d, e) => Reached::Two(state_of(book, d), state_of(book, e)),
    }
}

/// The states of drafts within the limits, or the limit that they pass.
pub(crate) fn settled(book: &Book, drafted: Drafted) -> Result<Performed, ActionStop>
    requires stand { DraftsStand book.now drafted.after }
    requires facts { limit_passed (drafts_in book.now drafted.after) ≡ None
        → AllOf (IsStateOf (symbols_under book.now.ranking)) (drafts_in book.now drafted.after) }
    ensures stand { IfOk result (λ x. ReachedStand book.now x.after) }
    ensures facts { IfOk result (λ x. AllOf (IsStateOf (symbols_under book.now.ranking))
        (reached_in book.now x.after)) }
    ensures ok { IfOk result (λ x. (n : ℕ) → IsWeight drafted.weight n → IsPerformed book.now x
        (settled drafted.steps (drafts_in book.now drafted.after) n)) }
    ensures refused { IfErr result (λ stop. (n : ℕ) → IsActionStop stop
        (settled drafted.steps (drafts_in book.now drafted.after) n)) }
{
    let Drafted {
        after,
        steps,
        weight,
    } = drafted;
    match limit_passed(book, &after) {
        Some(limit) => Err(ActionStop {
            steps,
            fault: MoveFault::Large(limit),
        }),
        None => Ok(Performed {
            after: states_of(book, after),
            weight,
        }),
    }
}
