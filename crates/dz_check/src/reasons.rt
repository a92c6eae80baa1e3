//! Reasons of open ends.

ghost use Rattle.std.specs.Prelude.{◌≡◌, ◌&&◌, not, length, map, IfOk};
ghost use Rattle.dz_monomials.specs.Ranked.{symbols_under};
ghost use Rattle.dz_diff.specs.Operations.{setting_of};
ghost use Rattle.dz_diff.specs.State.{at_place};
ghost use Rattle.dz_diff.specs.States.{IsStateOf, StandsIn, state_in};
ghost use Rattle.dz_move.specs.Actions.{stop_in};
ghost use Rattle.dz_tree.specs.Chain.{passes};
ghost use Rattle.dz_move.specs.Moves.{perform, steps_of};
ghost use Rattle.dz_tree.specs.EvidenceLines.{evidence_of};
ghost use Rattle.dz_check.specs.SpentPairs.{follows, last_after, places_of, weight_of};
ghost use Rattle.dz_move.specs.Parts.{IsOpenWeight};
ghost use Rattle.dz_tree.specs.Forms.{is_empty};
ghost use Rattle.dz_check.specs.Reasons.{costs_more, is_before, is_increasing, is_large_by, is_wide};
ghost use Rattle.dz_check.specs.Reasons.{open_weights, reason_holds, refused_after, separant_refused};
ghost use Rattle.dz_check.specs.Reasons.{weighs_more};
ghost use Rattle.dz_move.specs.TreeLines.{action_of, line_of};

use dz_diff::{State, leader_of};
use dz_move::{ActionStop, Line, MoveFault, Next, open_weight, performed_next};
use dz_poly::{Book, Limit, PolyStop};
use dz_step::{Which, member_at, multiplier};
use std::alloc::AllocError;

/// The number of steps of the action that an open end names.
fn step_count(next: &Next) -> usize
    ensures { result ≡ length (steps_of (action_of next.now)) }
{
    match next {
        Next::Reduce { place: _, run } | Next::Weed { place: _, run } => run.len(),
        Next::Pair { run, .. } => run.len(),
        _ => 0,
    }
}

/// Whether an action holds, and its weight added to that of the lines before passes the budget.
/// The polynomials that are made on the way are given up.
pub(crate) fn costs_more(
    book: &mut Book,
    state: &State,
    next: &Next,
    weight: u32,
    budget: u32,
) -> Result<bool, AllocError>
    requires stands { StandsIn book.old state.now }
    requires facts { IsStateOf (symbols_under book.old.ranking) (state_in book.old state.now) }
    ensures value { IfOk result (λ b. b ≡ costs_more budget weight (perform
        (setting_of book.old.ranking) (state_in book.old state.now) (action_of next.now))) }
    ensures book { book.new ≡ book.old }
{
    let mark = book.mark();
    match performed_next(book, state, next) {
        Ok(performed) => {
            book.restore(mark);
            Ok((weight as usize).saturating_add(performed.weight) > budget as usize)
        }
        Err(stop) => {
            book.restore(mark);
            match stop.fault {
                MoveFault::Memory => Err(AllocError),
                _ => Ok(false),
            }
        }
    }
}

/// Why an action does not hold; `None` where it does. The polynomials that are made on the way are
/// given up.
fn stop_of(book: &mut Book, state: &State, next: &Next) -> Result<Option<ActionStop>, AllocError>
    requires stands { StandsIn book.old state.now }
    requires facts { IsStateOf (symbols_under book.old.ranking) (state_in book.old state.now) }
    ensures value { IfOk result (λ o. stop_in (perform (setting_of book.old.ranking)
        (state_in book.old state.now) (action_of next.now)) ≡ o) }
    ensures book { book.new ≡ book.old }
{
    let mark = book.mark();
    match performed_next(book, state, next) {
        Ok(_) => {
            book.restore(mark);
            Ok(None)
        }
        Err(stop) => {
            book.restore(mark);
            match stop.fault {
                MoveFault::Memory => Err(AllocError),
                _ => Ok(Some(stop)),
            }
        }
    }
}

/// Whether an action is refused at its end by an operation that does not fit.
pub(crate) fn is_wide(book: &mut Book, state: &State, next: &Next) -> Result<bool, AllocError>
    requires stands { StandsIn book.old state.now }
    requires facts { IsStateOf (symbols_under book.old.ranking) (state_in book.old state.now) }
    ensures value { IfOk result (λ b. b ≡ refused_after (length (steps_of (action_of next.now)))
        is_wide (perform (setting_of book.old.ranking) (state_in book.old state.now)
        (action_of next.now))) }
    ensures book { book.new ≡ book.old }
{
    let stop = stop_of(book, state, next)?;
    match stop {
        Some(stop) => Ok(stop.fault == MoveFault::Wide && stop.steps == step_count(next)),
        None => Ok(false),
    }
}

/// Whether an action is refused at its end by a limit.
pub(crate) fn is_large(
    book: &mut Book,
    state: &State,
    limit: Limit,
    next: &Next,
) -> Result<bool, AllocError>
    requires stands { StandsIn book.old state.now }
    requires facts { IsStateOf (symbols_under book.old.ranking) (state_in book.old state.now) }
    ensures value { IfOk result (λ b. b ≡ refused_after (length (steps_of (action_of next.now)))
        (is_large_by limit) (perform (setting_of book.old.ranking) (state_in book.old state.now)
        (action_of next.now))) }
    ensures book { book.new ≡ book.old }
{
    let stop = stop_of(book, state, next)?;
    match stop {
        Some(stop) => Ok(stop.fault == MoveFault::Large(limit) && stop.steps == step_count(next)),
        None => Ok(false),
    }
}

/// Whether the equation at a place has a separant that does not fit.
pub(crate) fn is_wide_separant(book: &Book, state: &State, place: u16) -> Result<bool, AllocError>
    requires stands { StandsIn book.now state.now }
    ensures { IfOk result (λ b. b ≡ passes (separant_refused (symbols_under book.now.ranking))
        (at_place place (state_in book.now state.now).equations)) }
{
    let Some(p) = member_at(state.equations(), place) else {
        return Ok(false);
    };
    let Some(lead) = leader_of(book.entry(p)) else {
        return Ok(false);
    };
    match multiplier(
        book.allocator(),
        book.ranking(),
        book.entry(p),
        lead,
        Which::Separant,
    ) {
        Ok(_) => Ok(false),
        Err(PolyStop::Memory) => Err(AllocError),
        Err(PolyStop::Wide) => Ok(true),
        Err(PolyStop::Large(_)) => Ok(false),
    }
}

/// The places of a pair.
#[derive(Clone, Copy, Debug, PartialEq, Eq)]
pub(crate) struct Places {
    first: u16,
    second: u16,
}

/// Whether places stand lexicographically before others.
fn is_before(places: Places, others: Places) -> bool
    ensures { result ≡ is_before (places_of places) (places_of others) }
{
    places.first < others.first || (places.first == others.first && places.second < others.second)
}

/// The weight of a line of evidence whose run may stop anywhere, up to the greatest number that a
/// `usize` has; `None` where it is none, and 0 for another line.
fn line_weight(book: &Book, state: &State, line: &Line) -> Result<Option<usize>, AllocError>
    requires { StandsIn book.now state.now }
    ensures { IfOk result (λ o. IsOpenWeight o (weight_of (setting_of book.now.ranking)
        (state_in book.now state.now) (line_of line.now))) }
{
    match line {
        Line::Pair { first, second, run } => open_weight(book, state, *first, *second, run),
        _ => Ok(Some(0)),
    }
}

/// The weight of all lines of evidence.
fn open_weights(book: &Book, state: &State, evidence: &[Line]) -> Result<Option<usize>, AllocError>
    requires { StandsIn book.now state.now }
    ensures { IfOk result (λ o. IsOpenWeight o (open_weights (setting_of book.now.ranking)
        (state_in book.now state.now) (evidence_of (map line_of evidence.now)))) }
{
    let mut total = 0usize;
    'lines: for line in evidence {
        let Some(weight) = line_weight(book, state, line)? else {
            return Ok(None);
        };
        total = total.saturating_add(weight);
    }
    Ok(Some(total))
}

/// Whether there is evidence in some lines, and its places grow.
fn are_growing(evidence: &[Line]) -> bool
    ensures { result ≡ (not (is_empty (evidence_of (map line_of evidence.now)))
        && is_increasing (evidence_of (map line_of evidence.now))) }
{
    let mut last: Option<Places> = None;
    'lines: for line in evidence {
        if !follows(last, line) {
            return false;
        }
        last = last_after(last, line);
    }
    last.is_some()
}

/// Whether a line of evidence may stand behind the last places.
fn follows(last: Option<Places>, line: &Line) -> bool
    ensures { result ≡ follows last (line_of line.now) }
{
    match line {
        Line::Pair { first, second, .. } => match last {
            Some(last) => is_before(
                last,
                Places {
                    first: *first,
                    second: *second,
                },
            ),
            None => true,
        },
        _ => true,
    }
}

/// The last places after a line.
fn last_after(last: Option<Places>, line: &Line) -> Option<Places>
    ensures { result ≡ last_after last (line_of line.now) }
{
    match line {
        Line::Pair { first, second, .. } => Some(Places {
            first: *first,
            second: *second,
        }),
        _ => last,
    }
}

/// Whether runs of critical pairs, which may stop anywhere, pass the budget together.
fn spent_pairs(
    book: &Book,
    state: &State,
    evidence: &[Line],
    weight: u32,
    budget: u32,
) -> Result<bool, AllocError>
    requires { StandsIn book.now state.now }
    ensures { IfOk result (λ b. b ≡ (not (is_empty (evidence_of (map line_of evidence.now)))
        && is_increasing (evidence_of (map line_of evidence.now))
        && weighs_more budget weight (open_weights (setting_of book.now.ranking)
        (state_in book.now state.now) (evidence_of (map line_of evidence.now))))) }
{
    if !are_growing(evidence) {
        return Ok(false);
    }
    let total = open_weights(book, state, evidence)?;
    match total {
        Some(total) => Ok((weight as usize).saturating_add(total) > budget as usize),
        None => Ok(false),
    }
}

/// Whether the reason of an open end holds, at a state and the weight of the lines before; no,
/// for another line. The polynomials that are made on the way are given up.
#[tactic(auto, unfolding(crate::specs::Reasons::reason_holds))]
pub(crate) fn holds(
    book: &mut Book,
    state: &State,
    line: &Line,
    evidence: &[Line],
    weight: u32,
    budget: u32,
) -> Result<bool, AllocError>
    requires stands { StandsIn book.old state.now }
    requires facts { IsStateOf (symbols_under book.old.ranking) (state_in book.old state.now) }
    ensures value { IfOk result (λ b. b ≡ reason_holds (setting_of book.old.ranking) budget weight
        (state_in book.old state.now) (line_of line.now) (evidence_of (map line_of evidence.now))) }
    ensures book { book.new ≡ book.old }
{
    match line {
        Line::Spent(next) => costs_more(book, state, next, weight, budget),
        Line::SpentPairs => spent_pairs(book, state, evidence, weight, budget),
        Line::Wide(Next::Separant { place }) => is_wide_separant(book, state, *place),
        Line::Wide(next) => is_wide(book, state, next),
        Line::Large(limit, next) => is_large(book, state, *limit, next),
        _ => Ok(false),
    }
}
