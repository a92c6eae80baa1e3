//! Steps of Ritt's reduction.

ghost use Rattle.std.specs.Prelude.{◌≡◌, ◌↔◌, IsTrue, true, false, Some, Ok, IfOk, IfErr, OnOk, OnErr};
ghost use Rattle.dz_algebra.specs.Parts.{leader};
ghost use Rattle.dz_poly.specs.Books.{IsAdded, IsKept, Lives, polynomial};
ghost use Rattle.dz_rank.specs.Symbols.{derivative_by};
ghost use Rattle.dz_terms.specs.Entries.{IsEntry};
ghost use Rattle.dz_monomials.specs.Ranked.{symbols_under};
ghost use Rattle.dz_diff.specs.Operations.{setting_of};
ghost use Rattle.dz_diff.specs.Operators.{is_proper};
ghost use Rattle.dz_diff.specs.States.{StandsIn, state_in};
ghost use Rattle.dz_step.specs.Reductions.{IsReductionEntry, reduction_in};
ghost use Rattle.dz_step.specs.Step.{reduction_answer, reduction_at, step_answer};
ghost use Rattle.dz_step.specs.StepStops.{GivesStep, IsStepStop};

use crate::Step;
use crate::permission::equation_at;
use crate::reducing::{Reduction, reduced};
use dz_diff::{State, applied, initial_of, leader_of};
use dz_poly::{Book, Limit, Poly, PolyStop};
use dz_rank::{Operator, Ranking, Symbol, raise};
use dz_terms::{Entry, into_norm, partial_derivative};
use std::alloc::{AllocError, Global};
use thiserror::Error;

/// Why a step has no result.
#[derive(Clone, Copy, Debug, PartialEq, Eq, Error)]
pub enum StepStop {
    #[error("out of memory")]
    Memory,
    /// An operation of the step is too wide, and all before it are neither wide nor large.
    #[error("a coefficient is too wide")]
    Wide,
    /// An operation of the step passes this limit, and all before it are neither wide nor large.
    #[error("the limit {0:?} is passed")]
    Large(Limit),
    /// The degree in the derivative of the leader is too low, or there is no leader.
    #[error("this is no step")]
    NotStep,
}

impl From<PolyStop> for StepStop {
    ghost use Rattle.std.specs.Prelude.{◌≡◌};
    ghost use Rattle.dz_step.specs.StepStops.{step_stop};

    ghost from_gives = { λ stop e. e ≡ step_stop stop };

    fn from(stop: PolyStop) -> StepStop {
        match stop {
            PolyStop::Memory => StepStop::Memory,
            PolyStop::Wide => StepStop::Wide,
            PolyStop::Large(limit) => StepStop::Large(limit),
        }
    }
}

impl From<AllocError> for StepStop {
    ghost use Rattle.std.specs.Prelude.{◌≡◌};
    ghost use Rattle.dz_step.specs.declared.stepping.StepStop.TheVariants.{Memory};

    ghost from_gives = { λ _ e. e ≡ Memory };

    fn from(_error: AllocError) -> StepStop {
        StepStop::Memory
    }
}

/// Whether an operator takes a derivation.
pub(crate) fn takes_derivation(operator: Operator) -> bool
    ensures { result ≡ is_proper operator }
{
    let [i, j, k, l] = operator.counts;
    i != 0 || j != 0 || k != 0 || l != 0
}

/// The reduction of `f` by a proper operator's derivative of `q`, whose leader is `v`.
fn reduction_by_derivative(
    alloc: Global,
    ranking: &Ranking,
    f: &Entry,
    q: &Entry,
    operator: Operator,
    lead: Symbol,
    v: Symbol,
) -> Result<Reduction, StepStop>
    requires f { IsEntry ranking.now f.now }
    requires q { IsEntry ranking.now q.now }
    requires leads { leader (symbols_under ranking.now) q.now.terms ≡ Some lead }
    requires proper { is_proper operator ≡ true }
    requires derivative { v ≡ derivative_by operator lead }
    ensures ok { IfOk result (λ x. reduction_answer (setting_of ranking.now) f.now.terms
        q.now.terms operator ≡ Ok (reduction_in x)) }
    ensures entries { IfOk result (λ x. IsReductionEntry ranking.now x) }
    ensures refused { IfErr result (λ stop. IsStepStop stop (reduction_answer (setting_of ranking.now)
        f.now.terms q.now.terms operator)) }
{
    if f.degree(ranking, v) == 0 {
        return Err(StepStop::NotStep);
    }
    let derivative = applied(alloc, ranking, q, operator)?;
    let separant = partial_derivative(alloc, ranking, q, lead)?;
    let rest = reduced(alloc, ranking, f, &derivative, separant, v, 1)?;
    Ok(rest)
}

/// The reduction of `f` by `q` itself, whose leader is `v`.
fn reduction_by_itself(
    alloc: Global,
    ranking: &Ranking,
    f: &Entry,
    q: &Entry,
    operator: Operator,
    lead: Symbol,
    v: Symbol,
) -> Result<Reduction, StepStop>
    requires f { IsEntry ranking.now f.now }
    requires q { IsEntry ranking.now q.now }
    requires leads { leader (symbols_under ranking.now) q.now.terms ≡ Some lead }
    requires improper { is_proper operator ≡ false }
    requires derivative { v ≡ derivative_by operator lead }
    ensures ok { IfOk result (λ x. reduction_answer (setting_of ranking.now) f.now.terms
        q.now.terms operator ≡ Ok (reduction_in x)) }
    ensures entries { IfOk result (λ x. IsReductionEntry ranking.now x) }
    ensures refused { IfErr result (λ stop. IsStepStop stop (reduction_answer (setting_of ranking.now)
        f.now.terms q.now.terms operator)) }
{
    let e = q.degree(ranking, lead);
    if f.degree(ranking, v) < e {
        return Err(StepStop::NotStep);
    }
    let initial = initial_of(alloc, ranking, q, lead)?;
    let rest = reduced(alloc, ranking, f, q, initial, v, e)?;
    Ok(rest)
}

/// The reduction of `f` by an operator's derivative of `q`, without the test of permission.
pub(crate) fn reduction_entry(
    alloc: Global,
    ranking: &Ranking,
    f: &Entry,
    q: &Entry,
    operator: Operator,
) -> Result<Reduction, StepStop>
    requires f { IsEntry ranking.now f.now }
    requires q { IsEntry ranking.now q.now }
    ensures ok { IfOk result (λ x. reduction_answer (setting_of ranking.now) f.now.terms
        q.now.terms operator ≡ Ok (reduction_in x)) }
    ensures entries { IfOk result (λ x. IsReductionEntry ranking.now x) }
    ensures refused { IfErr result (λ stop. IsStepStop stop (reduction_answer (setting_of ranking.now)
        f.now.terms q.now.terms operator)) }
{
    let Some(lead) = leader_of(q) else {
        return Err(StepStop::NotStep);
    };
    let Some(v) = raise(lead, operator) else {
        return Err(StepStop::NotStep);
    };
    if takes_derivation(operator) {
        return reduction_by_derivative(alloc, ranking, f, q, operator, lead, v);
    }
    reduction_by_itself(alloc, ranking, f, q, operator, lead, v)
}

/// The reduction of `f` by the equation and the operator of a step, without the test of permission.
pub fn reduction_at(
    book: &Book,
    state: &State,
    f: &Entry,
    step: Step,
) -> Result<Reduction, StepStop>
    requires stands { StandsIn book.now state.now }
    requires f { IsEntry book.now.ranking f.now }
    ensures ok { IfOk result (λ x. reduction_at (setting_of book.now.ranking)
        (state_in book.now state.now) f.now.terms step ≡ Ok (reduction_in x)) }
    ensures entries { IfOk result (λ x. IsReductionEntry book.now.ranking x) }
    ensures refused { IfErr result (λ stop. IsStepStop stop (reduction_at
        (setting_of book.now.ranking) (state_in book.now state.now) f.now.terms step)) }
{
    let Some(p) = equation_at(state, step.place) else {
        return Err(StepStop::NotStep);
    };
    reduction_entry(
        book.allocator(),
        book.ranking(),
        f,
        book.entry(p),
        step.operator,
    )
}

/// The step on `f` by an operator's derivative of `q`, without the test of permission.
pub(crate) fn step_entry(
    alloc: Global,
    ranking: &Ranking,
    f: &Entry,
    q: &Entry,
    operator: Operator,
) -> Result<Entry, StepStop>
    requires f { IsEntry ranking.now f.now }
    requires q { IsEntry ranking.now q.now }
    ensures ok { IfOk result (λ x. step_answer (setting_of ranking.now) f.now.terms
        q.now.terms operator ≡ Ok x.terms) }
    ensures entry { IfOk result (λ x. IsEntry ranking.now x) }
    ensures refused { IfErr result (λ stop. IsStepStop stop (step_answer (setting_of ranking.now)
        f.now.terms q.now.terms operator)) }
{
    let reduction = reduction_entry(alloc, ranking, f, q, operator)?;
    Ok(into_norm(reduction.rest))
}

/// The step on `f` by an operator's derivative of `q`, without the test of permission.
///
/// It is the norm of `(m/k)*f - (c/k)*v^(d-e)*p`, where p is the derivative of `q`, v its leader, e
/// its degree in v and m its initial, d the degree of `f` in v, c the coefficient of `v^d` in `f`,
/// and k the greatest common divisor of all coefficients of m and c. It is no step where d is below
/// e, and where `q` is ground. The operations come in this order: the derivations of the operator,
/// the separant where m is one, the two products and the difference.
pub fn step(book: &mut Book, f: Poly, q: Poly, operator: Operator) -> Result<Poly, StepStop>
    requires f { Lives book.old f }
    requires q { Lives book.old q }
    ensures step { GivesStep book.new result (step_answer (setting_of book.old.ranking)
        (polynomial book.old f) (polynomial book.old q) operator) }
    ensures kept { OnOk result (IsKept book.old book.new) }
    ensures added { IfOk result (λ p. IsAdded book.old book.new p) }
    ensures refused { OnErr result (book.new ≡ book.old) }
{
    let rest = step_entry(
        book.allocator(),
        book.ranking(),
        book.entry(f),
        book.entry(q),
        operator,
    )?;
    Ok(book.keep(rest)?)
}
