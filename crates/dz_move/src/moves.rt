//! Moves: the drafts after them.

ghost use Rattle.std.specs.Prelude.{◌≡◌, ◌≤◌, ◌+◌, ℕ, false, IfOk, IfErr, length};
ghost use Rattle.dz_poly.specs.Books.{IsKept, Lives, polynomial};
ghost use Rattle.dz_terms.specs.Entries.{IsEntry};
ghost use Rattle.dz_monomials.specs.Ranked.{symbols_under};
ghost use Rattle.dz_diff.specs.Operations.{setting_of};
ghost use Rattle.dz_diff.specs.States.{LiveAll, StandsIn, polynomials, state_in};
ghost use Rattle.dz_diff.specs.Tests.{same, same_all};
ghost use Rattle.dz_step.specs.FullRun.{admits};
ghost use Rattle.dz_step.specs.Replays.{IsRunEnd};
ghost use Rattle.dz_step.specs.declared.Role.TheVariants.{Equation, Free, Inequation};
ghost use Rattle.dz_move.specs.Actions.{IsActionStop, IsDrafted, IsWeight, draft_in, draft_value};
ghost use Rattle.dz_move.specs.Moves.{divided_at, grown, moved, reduced, weeded};
ghost use Rattle.dz_move.specs.Parts.{IsPairRun, placed_pair_run, placed_run};

use crate::Rule;
use crate::drafts::{Draft, Drafted, Drafts};
use crate::fault::{ActionStop, broken};
use crate::lists::{appended, has_symbol, names, put};
use crate::pair_runs::{ActionEnd, may_be_added, placed_pair_run};
use crate::roots::Members;
use dz_diff::{State, norm_entry};
use dz_poly::{Book, Poly, same};
use dz_rank::Symbol;
use dz_step::{Role, RunEnd, StepList, admits, member_at, run_entry};
use dz_terms::divided_entry;

/// The run in a role on the member at a place of a list.
fn placed_run(
    book: &Book,
    state: &State,
    polys: &[Poly],
    place: u16,
    run: &StepList,
    role: Role,
) -> Result<RunEnd, ActionStop>
    requires stands { StandsIn book.now state.now }
    requires live { LiveAll book.now polys.now }
    ensures ok { IfOk result (λ x. IsRunEnd x (placed_run (setting_of book.now.ranking)
        (state_in book.now state.now) role place (polynomials book.now polys.now) run.now)) }
    ensures entry { IfOk result (λ x.
        IsEntry book.now.ranking x.end) }
    ensures counts { IfOk result (λ x. 1 ≤ place) }
    ensures inside { IfOk result (λ x. place ≤ length polys.now) }
    ensures refused { IfErr result (λ stop. IsActionStop stop (placed_run
        (setting_of book.now.ranking) (state_in book.now state.now) role place
        (polynomials book.now polys.now) run.now)) }
{
    let Some(p) = member_at(polys, place) else {
        return Err(broken(0, Rule::Place));
    };
    let norm = norm_entry(book, p)?;
    Ok(run_entry(book, norm, run, state, role)?)
}

/// Whether two polynomials are equal.
fn is_same(book: &Book, p: Poly, q: Poly) -> bool
    requires first { Lives book.now p }
    requires second { Lives book.now q }
    ensures { result ≡ same (symbols_under book.now.ranking) (polynomial book.now p)
        (polynomial book.now q) }
{
    if p == q {
        return true;
    }
    same(book, p, q)
}

/// Whether two lists have the same polynomials, in one order.
fn are_same(book: &Book, polys: &[Poly], others: &[Poly]) -> bool
    requires first { LiveAll book.now polys.now }
    requires second { LiveAll book.now others.now }
    ensures { result ≡ same_all (symbols_under book.now.ranking)
        (polynomials book.now polys.now) (polynomials book.now others.now) }
{
    if polys.len() != others.len() {
        return false;
    }
    'places: for k in 0..polys.len() {
        if !is_same(book, polys[k], others[k]) {
            return false;
        }
    }
    true
}

/// A move after so many steps, where it changes the state.
fn moved(
    book: &Book,
    state: &State,
    after: Draft,
    steps: usize,
    count: usize,
) -> Result<Drafted, ActionStop>
    requires state { StandsIn book.now state.now }
    requires after { StandsIn book.now (draft_value after) }
    ensures ok { IfOk result (λ x. (n : ℕ) → IsWeight count n → IsDrafted book.now x
        (moved (setting_of book.now.ranking) (state_in book.now state.now) steps
        (draft_in book.now after) (1 + n))) }
    ensures refused { IfErr result (λ stop. (n : ℕ) → IsActionStop stop
        (moved (setting_of book.now.ranking) (state_in book.now state.now) steps
        (draft_in book.now after) (1 + n))) }
{
    if are_same(book, state.equations(), &after.equations)
        && are_same(book, state.inequations(), &after.inequations)
    {
        return Err(broken(steps, Rule::Same));
    }
    Ok(Drafted {
        after: Drafts::One(after),
        steps,
        weight: count.saturating_add(1),
    })
}

/// The end of a run on an equation is put at its place.
pub(crate) fn reduced(
    book: &mut Book,
    state: &State,
    place: u16,
    run: &StepList,
) -> Result<Drafted, ActionStop>
    requires { StandsIn book.old state.now }
    ensures ok { IfOk result (λ x. IsDrafted book.new x (reduced (setting_of book.old.ranking)
        (state_in book.old state.now) place run.now)) }
    ensures refused { IfErr result (λ stop. IsActionStop stop (reduced
        (setting_of book.old.ranking) (state_in book.old state.now) place run.now)) }
    ensures kept { IsKept book.old book.new }
{
    let ran = placed_run(
        book,
        state,
        state.equations(),
        place,
        run,
        Role::Equation(place),
    )?;
    reduced_to(book, state, place, run, ran)
}

/// The end of a run on an equation is put at its place, where the end is known.
pub(crate) fn reduced_to(
    book: &mut Book,
    state: &State,
    place: u16,
    run: &StepList,
    ran: RunEnd,
) -> Result<Drafted, ActionStop>
    requires stands { StandsIn book.old state.now }
    requires ran { IsRunEnd ran (placed_run (setting_of book.old.ranking)
        (state_in book.old state.now) (Equation place) place
        (polynomials book.old state.now.equations) run.now) }
    requires entry { IsEntry book.old.ranking ran.end }
    ensures ok { IfOk result (λ x. IsDrafted book.new x (reduced (setting_of book.old.ranking)
        (state_in book.old state.now) place run.now)) }
    ensures refused { IfErr result (λ stop. IsActionStop stop (reduced
        (setting_of book.old.ranking) (state_in book.old state.now) place run.now)) }
    ensures kept { IsKept book.old book.new }
{
    let RunEnd { end, count } = ran;
    let equations = put(book, Members::Equations, state.equations(), place, end)?;
    let inequations = names(book.allocator(), state.inequations())?;
    let after = Draft {
        equations,
        inequations,
        splits: state.splits(),
    };
    moved(book, state, after, run.len(), count)
}

/// The end of a run on an inequation is put at its place.
pub(crate) fn weeded(
    book: &mut Book,
    state: &State,
    place: u16,
    run: &StepList,
) -> Result<Drafted, ActionStop>
    requires { StandsIn book.old state.now }
    ensures ok { IfOk result (λ x. IsDrafted book.new x (weeded (setting_of book.old.ranking)
        (state_in book.old state.now) place run.now)) }
    ensures refused { IfErr result (λ stop. IsActionStop stop (weeded
        (setting_of book.old.ranking) (state_in book.old state.now) place run.now)) }
    ensures kept { IsKept book.old book.new }
{
    let ran = placed_run(
        book,
        state,
        state.inequations(),
        place,
        run,
        Role::Inequation(place),
    )?;
    weeded_to(book, state, place, run, ran)
}

/// The end of a run on an inequation is put at its place, where the end is known.
pub(crate) fn weeded_to(
    book: &mut Book,
    state: &State,
    place: u16,
    run: &StepList,
    ran: RunEnd,
) -> Result<Drafted, ActionStop>
    requires stands { StandsIn book.old state.now }
    requires ran { IsRunEnd ran (placed_run (setting_of book.old.ranking)
        (state_in book.old state.now) (Inequation place) place
        (polynomials book.old state.now.inequations) run.now) }
    requires entry { IsEntry book.old.ranking ran.end }
    ensures ok { IfOk result (λ x. IsDrafted book.new x (weeded (setting_of book.old.ranking)
        (state_in book.old state.now) place run.now)) }
    ensures refused { IfErr result (λ stop. IsActionStop stop (weeded
        (setting_of book.old.ranking) (state_in book.old state.now) place run.now)) }
    ensures kept { IsKept book.old book.new }
{
    let RunEnd { end, count } = ran;
    let inequations = put(book, Members::Inequations, state.inequations(), place, end)?;
    let equations = names(book.allocator(), state.equations())?;
    let after = Draft {
        equations,
        inequations,
        splits: state.splits(),
    };
    moved(book, state, after, run.len(), count)
}

/// The end of a run from the Delta-polynomial of a critical pair is appended to the equations.
pub(crate) fn grown(
    book: &mut Book,
    state: &State,
    first: u16,
    second: u16,
    run: &StepList,
) -> Result<Drafted, ActionStop>
    requires { StandsIn book.old state.now }
    ensures ok { IfOk result (λ x. IsDrafted book.new x (grown (setting_of book.old.ranking)
        (state_in book.old state.now) first second run.now)) }
    ensures refused { IfErr result (λ stop. IsActionStop stop (grown
        (setting_of book.old.ranking) (state_in book.old state.now) first second run.now)) }
    ensures kept { IsKept book.old book.new }
{
    let ran = placed_pair_run(book, state, first, second, run)?;
    if admits(book, state, Role::Free, &ran.run.end)? {
        return Err(broken(run.len(), Rule::End));
    }
    grown_to(book, state, first, second, run, ran)
}

/// The end of a run from the Delta-polynomial of a critical pair is appended to the equations, where
/// the end is known and admits no free step.
pub(crate) fn grown_to(
    book: &mut Book,
    state: &State,
    first: u16,
    second: u16,
    run: &StepList,
    ran: ActionEnd,
) -> Result<Drafted, ActionStop>
    requires stands { StandsIn book.old state.now }
    requires ran { IsPairRun ran (placed_pair_run (setting_of book.old.ranking)
        (state_in book.old state.now) first second run.now) }
    requires rests { admits (setting_of book.old.ranking) (state_in book.old state.now) Free
        ran.run.end.terms ≡ false }
    requires entry { IsEntry book.old.ranking ran.run.end }
    ensures ok { IfOk result (λ x. IsDrafted book.new x (grown (setting_of book.old.ranking)
        (state_in book.old state.now) first second run.now)) }
    ensures refused { IfErr result (λ stop. IsActionStop stop (grown
        (setting_of book.old.ranking) (state_in book.old state.now) first second run.now)) }
    ensures kept { IsKept book.old book.new }
{
    // The places are for the contract alone.
    let _ = (first, second);
    let ActionEnd { terms, run: ran } = ran;
    let RunEnd { end, count } = ran;
    if !may_be_added(book, state, &end) {
        return Err(broken(run.len(), Rule::End));
    }
    let end = book.keep(end)?;
    let after = Draft {
        equations: appended(book.allocator(), state.equations(), end)?,
        inequations: names(book.allocator(), state.inequations())?,
        splits: state.splits(),
    };
    Ok(Drafted {
        after: Drafts::One(after),
        steps: run.len(),
        weight: count.saturating_add(1).saturating_add(terms),
    })
}

/// An equation is divided by the greatest power of a symbol that is an inequation.
pub(crate) fn divided(
    book: &mut Book,
    state: &State,
    place: u16,
    v: Symbol,
) -> Result<Drafted, ActionStop>
    requires { StandsIn book.old state.now }
    ensures ok { IfOk result (λ x. IsDrafted book.new x (divided_at (setting_of book.old.ranking)
        (state_in book.old state.now) place v)) }
    ensures refused { IfErr result (λ stop. IsActionStop stop (divided_at
        (setting_of book.old.ranking) (state_in book.old state.now) place v)) }
    ensures kept { IsKept book.old book.new }
{
    let Some(p) = member_at(state.equations(), place) else {
        return Err(broken(0, Rule::Place));
    };
    if !has_symbol(book, state.inequations(), v)? {
        return Err(broken(0, Rule::Symbol));
    }
    let divided = divided_entry(book.allocator(), book.ranking(), book.entry(p), v)?;
    let Some(quotient) = divided else {
        return Err(broken(0, Rule::Symbol));
    };
    let weight = quotient.term_count().saturating_add(1);
    let after = Draft {
        equations: put(book, Members::Equations, state.equations(), place, quotient)?,
        inequations: names(book.allocator(), state.inequations())?,
        splits: state.splits(),
    };
    Ok(Drafted {
        after: Drafts::One(after),
        steps: 0,
        weight,
    })
}
