//! Runs from Delta-polynomials.

ghost use Rattle.std.specs.Prelude.{◌≡◌, false, true, IfOk, IfErr};
ghost use Rattle.dz_poly.specs.Books.{Lives, polynomial};
ghost use Rattle.dz_terms.specs.Entries.{IsEntry};
ghost use Rattle.dz_monomials.specs.Ranked.{symbols_under};
ghost use Rattle.dz_diff.specs.Operations.{setting_of};
ghost use Rattle.dz_diff.specs.States.{StandsIn, state_in};
ghost use Rattle.dz_pair.specs.Pair.{is_pair};
ghost use Rattle.dz_step.specs.FullRun.{admits};
ghost use Rattle.dz_step.specs.declared.Role.TheVariants.{Free};
ghost use Rattle.dz_move.specs.Actions.{IsActionStop};
ghost use Rattle.dz_move.specs.Parts.{IsOpenWeight, IsPairRun, delta_run, may_be_added, placed_pair_run};
ghost use Rattle.dz_move.specs.PairRuns.{open_weight};

use crate::Rule;
use crate::fault::{ActionStop, MoveFault, broken};
use dz_diff::{State, is_among};
use dz_pair::{delta_entry, is_pair};
use dz_poly::{Book, Poly};
use dz_step::{Role, RunEnd, StepList, member_at, run_entry};
use dz_terms::{Entry, into_norm};
use std::alloc::AllocError;

/// The end of the run that an action names, with its count. The run of a pair starts from a
/// Delta-polynomial of so many terms; they are 0 where it starts from a member.
#[derive(Drop)]
pub struct ActionEnd {
    pub terms: usize,
    pub run: RunEnd,
}

/// The free run from the Delta-polynomial of a critical pair.
pub fn pair_run(
    book: &Book,
    state: &State,
    p: Poly,
    q: Poly,
    run: &StepList,
) -> Result<ActionEnd, ActionStop>
    requires stands { StandsIn book.now state.now }
    requires first { Lives book.now p }
    requires second { Lives book.now q }
    requires pair { is_pair (symbols_under book.now.ranking) (polynomial book.now p)
        (polynomial book.now q) ≡ true }
    ensures ok { IfOk result (λ x. IsPairRun x (delta_run (setting_of book.now.ranking)
        (state_in book.now state.now) (polynomial book.now p) (polynomial book.now q) run.now)) }
    ensures entry { IfOk result (λ x.
        IsEntry book.now.ranking x.run.end) }
    ensures refused { IfErr result (λ stop. IsActionStop stop (delta_run
        (setting_of book.now.ranking) (state_in book.now state.now) (polynomial book.now p)
        (polynomial book.now q) run.now)) }
{
    let delta = delta_entry(
        book.allocator(),
        book.ranking(),
        book.entry(p),
        book.entry(q),
    )?;
    let terms = delta.term_count();
    let run = run_entry(book, into_norm(delta), run, state, Role::Free)?;
    Ok(ActionEnd { terms, run })
}

/// The free run from the Delta-polynomial of the critical pair at two places.
pub(crate) fn placed_pair_run(
    book: &Book,
    state: &State,
    first: u16,
    second: u16,
    run: &StepList,
) -> Result<ActionEnd, ActionStop>
    requires { StandsIn book.now state.now }
    ensures ok { IfOk result (λ x. IsPairRun x (placed_pair_run (setting_of book.now.ranking)
        (state_in book.now state.now) first second run.now)) }
    ensures entry { IfOk result (λ x.
        IsEntry book.now.ranking x.run.end) }
    ensures refused { IfErr result (λ stop. IsActionStop stop (placed_pair_run
        (setting_of book.now.ranking) (state_in book.now state.now) first second run.now)) }
{
    if first >= second {
        return Err(broken(0, Rule::Place));
    }
    let Some(p) = member_at(state.equations(), first) else {
        return Err(broken(0, Rule::Place));
    };
    let Some(q) = member_at(state.equations(), second) else {
        return Err(broken(0, Rule::Place));
    };
    if !is_pair(book, p, q) {
        return Err(broken(0, Rule::Pair));
    }
    pair_run(book, state, p, q, run)
}

/// Whether the end of a run that admits no free step may be added: it is not zero, and no equation.
#[tactic(auto, using(dz_diff::proofs::MemberTests::none_left_out, dz_diff::proofs::MemberTests::zero_by_length))]
pub(crate) fn may_be_added(book: &Book, state: &State, end: &Entry) -> bool
    requires stands { StandsIn book.now state.now }
    requires end { IsEntry book.now.ranking end.now }
    requires rests { admits (setting_of book.now.ranking) (state_in book.now state.now) Free
        end.now.terms ≡ false }
    ensures { result ≡ may_be_added (setting_of book.now.ranking) (state_in book.now state.now)
        end.now.terms }
{
    !end.is_zero() && !is_among(book, state.equations(), 0, end)
}

/// The weight of a run from the Delta-polynomial of the critical pair at two places, up to the
/// greatest number that a `usize` has; `None` where it is none, or an operation is refused.
pub fn open_weight(
    book: &Book,
    state: &State,
    first: u16,
    second: u16,
    run: &StepList,
) -> Result<Option<usize>, AllocError>
    requires { StandsIn book.now state.now }
    ensures { IfOk result (λ o. IsOpenWeight o (open_weight (setting_of book.now.ranking)
        (state_in book.now state.now)
        (record { first = first; second = second; steps = run.now }))) }
{
    if first >= second {
        return Ok(None);
    }
    let Some(p) = member_at(state.equations(), first) else {
        return Ok(None);
    };
    let Some(q) = member_at(state.equations(), second) else {
        return Ok(None);
    };
    if !is_pair(book, p, q) {
        return Ok(None);
    }
    match pair_run(book, state, p, q, run) {
        Ok(ActionEnd { terms, run }) => {
            Ok(Some(run.count.saturating_add(1).saturating_add(terms)))
        }
        Err(stop) => match stop.fault {
            MoveFault::Memory => Err(AllocError),
            _ => Ok(None),
        },
    }
}
