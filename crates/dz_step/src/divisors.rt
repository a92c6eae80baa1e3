//! What a full run keeps of the divisors of a state, so that each is looked at once.

ghost use Rattle.std.specs.Prelude.{◌≡◌, ℕ, Some, IfOk};
ghost use Rattle.dz_algebra.specs.Polynomial.{Polynomial};
ghost use Rattle.dz_rank.specs.Rankings.{RankingValue};
ghost use Rattle.dz_rank.specs.declared.symbols.Symbol.{Symbol};
ghost use Rattle.dz_terms.specs.Entries.{IsEntry};
ghost use Rattle.dz_diff.specs.States.{StandsIn, state_in};
ghost use Rattle.dz_diff.specs.Tests.{Polynomials};
ghost use Rattle.dz_step.specs.Divisors.{AreAnswersOf, AreDivisors, IsDivisorOf, IsKeptOf, is_multiplier};
ghost use Rattle.dz_step.specs.declared.Role.TheVariants.{Free};
ghost use Rattle.dz_step.specs.Step.{is_divisor, usable};

use crate::permission::is_granted;
use crate::{Role, Which};
use dz_diff::{State, leader_of};
use dz_poly::Book;
use dz_rank::{Ranking, Symbol};
use dz_terms::Entry;
use std::alloc::AllocError;

/// Whether a multiplier is permitted, where that was asked.
#[derive(Clone, Copy, Debug, PartialEq, Eq)]
pub(crate) enum Answer {
    NotAsked,
    Granted,
    Refused,
}

/// What is kept of an equation that divides: its leader, its degree in it, and whether its initial
/// and its separant are permitted.
#[derive(Clone, Copy, Debug, PartialEq, Eq)]
pub struct Divisor {
    pub(crate) lead: Symbol,
    pub(crate) degree: u16,
    initial: Answer,
    separant: Answer,
}

/// Whether a role lets the equation at a place divide.
pub(crate) fn lets_divide(role: Role, place: u16) -> bool
    ensures { result ≡ is_divisor role place }
{
    match role {
        Role::Equation(i) => i != place,
        _ => true,
    }
}

#[tactic(auto, using(crate::proofs::Regularity::leader_has_four))]
/// What is kept of the equation at a place before anything is asked.
fn unasked(ranking: &Ranking, role: Role, place: u16, q: &Entry) -> Option<Divisor>
    requires { IsEntry ranking.now q.now }
    ensures { (hs : Polynomials) → IsKeptOf ranking.now hs role place q.now.terms result }
{
    if !lets_divide(role, place) {
        return None;
    }
    let lead = leader_of(q)?;
    Some(Divisor {
        lead,
        degree: q.degree(ranking, lead),
        initial: Answer::NotAsked,
        separant: Answer::NotAsked,
    })
}

/// What is kept of the equations of a state before anything is asked.
pub fn divisors_of(
    book: &Book,
    state: &State,
    role: Role,
) -> Result<Vec<Option<Divisor>>, AllocError>
    requires stands { StandsIn book.now state.now }
    ensures { IfOk result (λ table.
        AreDivisors book.now.ranking (state_in book.now state.now) role table.items) }
{
    let mut table = Vec::new(book.allocator());
    let mut place = 0;
    for p in state.equations() {
        place += 1;
        table.push(unasked(book.ranking(), role, place, book.entry(*p)))?;
    }
    Ok(table)
}

/// A divisor with an answer for one of its multipliers.
fn with_answer(divisor: Divisor, which: Which, granted: bool) -> Divisor
    ensures { (r : RankingValue) (hs : Polynomials) (q : Polynomial Symbol)
        → IsDivisorOf r hs q divisor → granted ≡ is_multiplier r hs which divisor.lead q
        → IsDivisorOf r hs q result }
{
    let answer = if granted {
        Answer::Granted
    } else {
        Answer::Refused
    };
    match which {
        Which::Initial => Divisor {
            initial: answer,
            ..divisor
        },
        Which::Separant => Divisor {
            separant: answer,
            ..divisor
        },
    }
}

/// What is kept of an equation without a role where both its multipliers were asked for.
pub fn asked_divisor(ranking: &Ranking, q: &Entry, initial: bool, separant: bool) -> Option<Divisor>
    requires { IsEntry ranking.now q.now }
    ensures { (hs : Polynomials) (place : ℕ)
        → AreAnswersOf ranking.now hs q.now.terms initial separant
        → IsKeptOf ranking.now hs Free place q.now.terms result }
{
    let Some(divisor) = unasked(ranking, Role::Free, 1, q) else {
        return None;
    };
    let with_initial = with_answer(divisor, Which::Initial, initial);
    Some(with_answer(with_initial, Which::Separant, separant))
}

/// Whether a multiplier of a divisor is permitted, and the divisor with this answer: only where it
/// was not asked is it asked now.
pub(crate) fn answered(
    book: &Book,
    state: &State,
    role: Role,
    q: &Entry,
    divisor: Divisor,
    which: Which,
) -> Result<(bool, Divisor), AllocError>
    requires stands { StandsIn book.now state.now }
    requires q { IsEntry book.now.ranking q.now }
    requires divisor { IsDivisorOf book.now.ranking
        (usable role (state_in book.now state.now).inequations) q.now.terms divisor }
    ensures answer { IfOk result (λ x. x.0 ≡ is_multiplier book.now.ranking
        (usable role (state_in book.now state.now).inequations) which divisor.lead
        q.now.terms) }
    ensures divisor { IfOk result (λ x. IsDivisorOf book.now.ranking
        (usable role (state_in book.now state.now).inequations) q.now.terms x.1) }
{
    let answer = match which {
        Which::Initial => divisor.initial,
        Which::Separant => divisor.separant,
    };
    match answer {
        Answer::Granted => Ok((true, divisor)),
        Answer::Refused => Ok((false, divisor)),
        Answer::NotAsked => {
            let granted = is_granted(book, state, role, q, divisor.lead, which)?;
            Ok((granted, with_answer(divisor, which, granted)))
        }
    }
}
