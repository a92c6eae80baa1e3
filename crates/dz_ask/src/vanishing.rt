//! Whether a polynomial vanishes wherever one of some chains does.

ghost use Rattle.std.specs.Prelude.{◌≡◌, All, MatchBool, map, IfOk, IfErr};
ghost use Rattle.dz_poly.specs.Books.{Lives, polynomial};
ghost use Rattle.dz_diff.specs.Operations.{setting_of};
ghost use Rattle.dz_diff.specs.States.{StandsIn, state_in};
ghost use Rattle.dz_step.specs.Attempts.{IsAttemptOf};
ghost use Rattle.dz_step.specs.FullRun.{full_run};
ghost use Rattle.dz_step.specs.StepOperators.{AttemptDerivesAlong};
ghost use Rattle.dz_step.specs.declared.Role.TheVariants.{Free};
ghost use Rattle.dz_ask.specs.Vanishing.{IsVanishStop, IsVanishing, LeavesRemainder, RunsToZero};

use crate::normal::normal_form;
use dz_poly::{Book, Poly, term_count};
use dz_step::{Attempt, State};
use std::alloc::Global;

/// A run that stops before its end, and the number of its chain, counted from 1.
#[derive(Drop)]
pub struct VanishStop {
    pub chain: usize,
    pub attempt: Attempt,
}

/// Whether the full free run on `f` by a chain ends at zero; the remainder is given up.
fn runs_to_zero(
    alloc: Global,
    book: &mut Book,
    f: Poly,
    chain: &State,
    budget: u32,
) -> Result<bool, Attempt>
    requires stands { StandsIn book.old chain.now }
    requires f { Lives book.old f }
    ensures answer { IfOk result (λ zero. MatchBool zero
        (RunsToZero (setting_of book.old.ranking) budget (polynomial book.old f)
        (state_in book.old chain.now))
        (LeavesRemainder (setting_of book.old.ranking) budget (polynomial book.old f)
        (state_in book.old chain.now))) }
    ensures stopped { IfErr result (λ a. IsAttemptOf (full_run (setting_of book.old.ranking)
        (state_in book.old chain.now) Free budget (polynomial book.old f)) a.run a.stop) }
    ensures attempt { IfErr result (λ a.
        AttemptDerivesAlong book.old.ranking.signature.independents a) }
    ensures book { book.new ≡ book.old }
{
    let mark = book.mark();
    let normal = normal_form(alloc, book, f, chain, budget)?;
    let zero = term_count(book, normal.remainder) == 0;
    book.restore(mark);
    Ok(zero)
}

/// Whether `f` has a run to zero by every chain, so that it vanishes wherever one of them does.
///
/// The chains are taken in order, up to the first whose full free run leaves a remainder that is
/// not zero; the budget counts for each run by itself. Where a run stops, `f` has a run to zero by
/// every chain before.
pub fn vanishes(
    alloc: Global,
    book: &mut Book,
    f: Poly,
    chains: &[State],
    budget: u32,
) -> Result<bool, VanishStop>
    requires stand { All (λ s. StandsIn book.old s) chains.now }
    requires f { Lives book.old f }
    ensures answer { IfOk result (λ b. IsVanishing (setting_of book.old.ranking) budget
        (polynomial book.old f) (map (λ s. state_in book.old s) chains.now) b) }
    ensures stopped { IfErr result (λ stop. IsVanishStop (setting_of book.old.ranking) budget
        (polynomial book.old f) (map (λ s. state_in book.old s) chains.now) stop) }
    ensures attempt { IfErr result (λ stop.
        AttemptDerivesAlong book.old.ranking.signature.independents stop.attempt) }
    ensures book { book.new ≡ book.old }
{
    for i in 0..chains.len() {
        match runs_to_zero(alloc, book, f, &chains[i], budget) {
            Ok(true) => {}
            Ok(false) => return Ok(false),
            Err(attempt) => {
                return Err(VanishStop {
                    chain: i + 1,
                    attempt,
                });
            }
        }
    }
    Ok(true)
}
