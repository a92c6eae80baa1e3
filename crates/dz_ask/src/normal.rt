//! Normal forms.

ghost use Rattle.std.specs.Prelude.{◌≡◌, Some, IfOk, IfErr, OnOk, OnErr};
ghost use Rattle.dz_poly.specs.Books.{IsAdded, IsKept, Lives, polynomial};
ghost use Rattle.dz_diff.specs.Operations.{setting_of};
ghost use Rattle.dz_diff.specs.States.{StandsIn, state_in};
ghost use Rattle.dz_step.specs.Attempts.{IsAttemptOf, ended};
ghost use Rattle.dz_step.specs.FullRun.{full_run};
ghost use Rattle.dz_step.specs.StepOperators.{AttemptDerivesAlong, DeriveAlong};
ghost use Rattle.dz_step.specs.declared.Role.TheVariants.{Free};
ghost use Rattle.dz_ask.specs.NormalForms.{IsNormalForm};

use dz_poly::{Book, Poly};
use dz_step::{Attempt, Role, State, StepList, reduce_fully};
use std::alloc::Global;

/// The full free run on a polynomial by a chain, and its end, which admits no step.
#[derive(Drop)]
pub struct Normal {
    pub run: StepList,
    pub remainder: Poly,
}

/// The full free run on `f` by a chain, with its end; or the run up to the step at which it stops.
pub fn normal_form(
    alloc: Global,
    book: &mut Book,
    f: Poly,
    chain: &State,
    budget: u32,
) -> Result<Normal, Attempt>
    requires stands { StandsIn book.old chain.now }
    requires f { Lives book.old f }
    ensures ended { IfOk result (λ x.
        ended (full_run (setting_of book.old.ranking) (state_in book.old chain.now) Free budget
        (polynomial book.old f)) ≡ Some (x.run, polynomial book.new x.remainder)) }
    ensures normal { IfOk result (λ x. IsNormalForm (setting_of book.old.ranking)
        (state_in book.old chain.now) (polynomial book.old f) x.run
        (polynomial book.new x.remainder)) }
    ensures stopped { IfErr result (λ a. IsAttemptOf (full_run (setting_of book.old.ranking)
        (state_in book.old chain.now) Free budget (polynomial book.old f)) a.run a.stop) }
    ensures derives { IfOk result (λ x.
        DeriveAlong book.old.ranking.signature.independents x.run) }
    ensures attempt { IfErr result (λ a.
        AttemptDerivesAlong book.old.ranking.signature.independents a) }
    ensures kept { OnOk result (IsKept book.old book.new) }
    ensures added { IfOk result (λ x. IsAdded book.old book.new x.remainder) }
    ensures refused { OnErr result (book.new ≡ book.old) }
{
    // The facts of all books are known of this one: its polynomials are over the ranking.
    book.opened();
    let _ = book.ranking().signature();
    let (run, remainder) = reduce_fully(alloc, book, f, chain, Role::Free, budget)?;
    Ok(Normal { run, remainder })
}
