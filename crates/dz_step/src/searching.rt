//! The next step of a full run, on entries.

ghost use Rattle.std.specs.Prelude.{◌≡◌, ◌<◌, suc, IfOk, length, slice_index_or, []};
ghost use Rattle.dz_algebra.specs.Parts.{degree, leader};
ghost use Rattle.dz_algebra.specs.Polynomial.{Polynomial};
ghost use Rattle.dz_rank.specs.Rankings.{RankingValue, ranking_cmp};
ghost use Rattle.dz_rank.specs.Symbols.{HasFourExponents};
ghost use Rattle.dz_rank.specs.declared.symbols.Symbol.{Symbol};
ghost use Rattle.dz_terms.specs.Entries.{IsEntry};
ghost use Rattle.dz_monomials.specs.Ranked.{symbols_under};
ghost use Rattle.dz_diff.specs.Operations.{setting_of};
ghost use Rattle.dz_diff.specs.States.{StandsIn, state_in};
ghost use Rattle.dz_diff.specs.Tests.{Polynomials};
ghost use Rattle.dz_step.specs.Divisors.{AreDivisors, IsDivisorOf};
ghost use Rattle.dz_step.specs.FullRun.{admits, next_step, step_at, step_with};
ghost use Rattle.dz_step.specs.Step.{step_degree};

use crate::divisors::{Divisor, answered, divisors_of};
use crate::permission::which_of;
use crate::stepping::takes_derivation;
use crate::{Role, Step};
use dz_diff::State;
use dz_poly::Book;
use dz_rank::{Operator, Symbol, quotient};
use dz_terms::Entry;
use std::alloc::AllocError;

/// The degree of an operator's derivative of a divisor in its leader.
fn least_degree(operator: Operator, divisor: Divisor) -> u16
    ensures { (r : RankingValue) (hs : Polynomials) (q : Polynomial Symbol)
        → IsDivisorOf r hs q divisor
        → result ≡ step_degree (symbols_under r) operator divisor.lead q }
{
    if takes_derivation(operator) {
        1
    } else {
        divisor.degree
    }
}

/// The step by the equation at one place, counted from 0, on what has the degree `d` in `v`.
fn step_with(
    book: &Book,
    state: &State,
    role: Role,
    table: &mut Vec<Option<Divisor>>,
    i: usize,
    v: Symbol,
    d: u16,
) -> Result<Option<Step>, AllocError>
    requires stands { StandsIn book.now state.now }
    requires table { AreDivisors book.now.ranking (state_in book.now state.now) role table.old.items }
    requires inside { i < length table.old.items }
    requires four { HasFourExponents v }
    ensures table { AreDivisors book.now.ranking (state_in book.now state.now) role table.new.items }
    ensures step { IfOk result (λ o. (f : Polynomial Symbol)
        → d ≡ degree (ranking_cmp book.now.ranking) v f
        → o ≡ step_with (setting_of book.now.ranking) (state_in book.now state.now) role f v (suc i)
        (slice_index_or (state_in book.now state.now).equations i [])
        (leader (symbols_under book.now.ranking)
        (slice_index_or (state_in book.now state.now).equations i []))) }
{
    let Some(divisor) = table[i] else {
        return Ok(None);
    };
    let Some(operator) = quotient(v, divisor.lead) else {
        return Ok(None);
    };
    if d < least_degree(operator, divisor) {
        return Ok(None);
    }
    let which = which_of(operator);
    let q = book.entry(state.equations()[i]);
    let (granted, divisor) = answered(book, state, role, q, divisor, which)?;
    table[i] = Some(divisor);
    if !granted {
        return Ok(None);
    }
    Ok(Some(Step {
        place: (i + 1) as u16,
        operator,
    }))
}

/// The step at `v`, in which `f` has the degree `d`, with the least place.
fn step_at(
    book: &Book,
    state: &State,
    role: Role,
    table: &mut Vec<Option<Divisor>>,
    v: Symbol,
    d: u16,
) -> Result<Option<Step>, AllocError>
    requires stands { StandsIn book.now state.now }
    requires table { AreDivisors book.now.ranking (state_in book.now state.now) role table.old.items }
    requires four { HasFourExponents v }
    ensures table { AreDivisors book.now.ranking (state_in book.now state.now) role table.new.items }
    ensures step { IfOk result (λ o. (f : Polynomial Symbol)
        → d ≡ degree (ranking_cmp book.now.ranking) v f
        → o ≡ step_at (setting_of book.now.ranking) (state_in book.now state.now) role f v 1
        (state_in book.now state.now).equations) }
{
    for i in 0..state.equations().len() {
        let found = step_with(book, state, role, table, i, v, d)?;
        if found.is_some() {
            return Ok(found);
        }
    }
    Ok(None)
}

/// The step that a full run takes next on `f`: at the greatest derivative at which there is one,
/// with the least place; `None` where there is none.
pub fn next_step_entry(
    book: &Book,
    state: &State,
    role: Role,
    table: &mut Vec<Option<Divisor>>,
    f: &Entry,
) -> Result<Option<Step>, AllocError>
    requires stands { StandsIn book.now state.now }
    requires table { AreDivisors book.now.ranking (state_in book.now state.now) role table.old.items }
    requires f { IsEntry book.now.ranking f.now }
    ensures table { AreDivisors book.now.ranking (state_in book.now state.now) role table.new.items }
    ensures step { IfOk result (λ o. o ≡ next_step (setting_of book.now.ranking)
        (state_in book.now state.now) role f.now.terms) }
{
    for power in f.symbol_degrees() {
        let (v, d) = *power;
        if let Symbol::Independent(_) = v {
            return Ok(None);
        }
        let found = step_at(book, state, role, table, v, d)?;
        if found.is_some() {
            return Ok(found);
        }
    }
    Ok(None)
}

/// Whether an entry admits a step at a state in a role.
pub fn admits(book: &Book, state: &State, role: Role, f: &Entry) -> Result<bool, AllocError>
    requires stands { StandsIn book.now state.now }
    requires f { IsEntry book.now.ranking f.now }
    ensures { IfOk result (λ b. b ≡ admits (setting_of book.now.ranking)
        (state_in book.now state.now) role f.now.terms) }
{
    let mut table = divisors_of(book, state, role)?;
    let next = next_step_entry(book, state, role, &mut table, f)?;
    Ok(next.is_some())
}
