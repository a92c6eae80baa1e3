//! Turns of a preparation.

ghost use Rattle.std.specs.Prelude.{◌≡◌, ◌<◌, Ok, IfOk, IfErr, length, slice_index_or};
ghost use Rattle.dz_terms.specs.Entries.{IsEntry};
ghost use Rattle.dz_diff.specs.Operations.{setting_of};
ghost use Rattle.dz_diff.specs.States.{StandsIn, state_in};
ghost use Rattle.dz_step.specs.Divisors.{AreDivisors};
ghost use Rattle.dz_step.specs.StepStops.{IsStepStop};
ghost use Rattle.dz_step.specs.declared.Role.TheVariants.{Free};
ghost use Rattle.dz_ask.specs.Turns.{turned_terms};
ghost use Rattle.dz_ask.specs.Working.{AreEntries, IsNextTurn, terms_in, turn_by};
ghost use Rattle.dz_ask.specs.declared.working.WorkingTerm.{WorkingTerm};

use crate::products::raised;
use crate::working::{WorkingTerm, added, copied_product, joined, leave_out_zeros, multiplied};
use dz_poly::Book;
use dz_step::{Divisor, Reduction, Role, State, Step, StepStop, next_step_entry, reduction_at};
use dz_terms::Entry;
use std::alloc::{AllocError, Global};

/// What a turn makes: the factor by which it multiplies, and the terms after it.
#[derive(Drop)]
pub(crate) struct AfterTurn {
    pub(crate) factor: Entry,
    pub(crate) terms: Vec<WorkingTerm>,
}

/// The index of the first term whose coefficient admits a step, and the step.
pub(crate) fn next_turn(
    book: &Book,
    chain: &State,
    table: &mut Vec<Option<Divisor>>,
    terms: &[WorkingTerm],
) -> Result<Option<(usize, Step)>, AllocError>
    requires stands { StandsIn book.now chain.now }
    requires table { AreDivisors book.now.ranking (state_in book.now chain.now) Free
        table.old.items }
    requires terms { AreEntries book.now.ranking terms.now }
    ensures table { AreDivisors book.now.ranking (state_in book.now chain.now) Free
        table.new.items }
    ensures turn { IfOk result (λ o. IsNextTurn (setting_of book.now.ranking)
        (state_in book.now chain.now) terms.now o) }
{
    let mut index = 0;
    for term in terms {
        let found = next_step_entry(book, chain, Role::Free, table, &term.coefficient)?;
        if let Some(step) = found {
            return Ok(Some((index, step)));
        }
        index += 1;
    }
    Ok(None)
}

/// The turn at the term with an index, by a step on its coefficient.
pub(crate) fn turned(
    alloc: Global,
    book: &Book,
    chain: &State,
    terms: &[WorkingTerm],
    i: usize,
    step: Step,
) -> Result<AfterTurn, StepStop>
    requires stands { StandsIn book.now chain.now }
    requires terms { AreEntries book.now.ranking terms.now }
    requires inside { i < length terms.now }
    ensures ok { IfOk result (λ x. (t : WorkingTerm) → t ≡ slice_index_or terms.now i t
        → turned_terms (setting_of book.now.ranking) (state_in book.now chain.now)
        (turn_by terms.now i t step) ≡ Ok (x.factor.terms, terms_in x.terms.items)) }
    ensures factor { IfOk result (λ x.
        IsEntry book.now.ranking x.factor) }
    ensures entries { IfOk result (λ x. AreEntries book.now.ranking x.terms.items) }
    ensures refused { IfErr result (λ stop. (t : WorkingTerm) → t ≡ slice_index_or terms.now i t
        → IsStepStop stop (turned_terms (setting_of book.now.ranking) (state_in book.now chain.now)
        (turn_by terms.now i t step))) }
{
    let here = &terms[i];
    let Reduction {
        factor,
        shift,
        rest,
    } = reduction_at(book, chain, &here.coefficient, step)?;
    let before = multiplied(alloc, book.ranking(), &factor, &terms[..i])?;
    let behind = multiplied(alloc, book.ranking(), &factor, &terms[i + 1..])?;
    let product = raised(alloc, here.product.as_slice(), step)?;
    let same = WorkingTerm {
        product: copied_product(alloc, here.product.as_slice())?,
        coefficient: rest,
    };
    let all = joined(before, same, behind)?;
    let mut terms = added(alloc, book.ranking(), all, product, &shift)?;
    leave_out_zeros(&mut terms);
    Ok(AfterTurn { factor, terms })
}
