//! A walk over the lines of a tree: the states that are still to come, and what each line makes of
//! them.

ghost use Rattle.std.specs.Prelude.{◌≡◌, ◌≤◌, ◌+◌, ◌∷◌, ◌++◌, ◌||◌, true, false, map, length, ℕ};
ghost use Rattle.std.specs.Prelude.{reverse, Bool, List, IfOk, IfErr, OnOk};
ghost use Rattle.std.specs.List.{list_all};
ghost use Rattle.dz_poly.specs.Books.{BookValue, IsKept};
ghost use Rattle.dz_monomials.specs.Ranked.{symbols_under};
ghost use Rattle.dz_diff.specs.Operations.{setting_of};
ghost use Rattle.dz_diff.specs.State.{State as StateRecord};
ghost use Rattle.dz_diff.specs.States.{IsStateOf, StandsIn, StateValue, state_in};
ghost use Rattle.dz_tree.specs.Entering.{IsEntryFault};
ghost use Rattle.dz_tree.specs.EvidenceLines.{evidence_of, is_pair_line};
ghost use Rattle.dz_check.specs.Collecting.{Collects, CollectsOn};
ghost use Rattle.dz_check.specs.Leaving.{Leaves};
ghost use Rattle.dz_tree.specs.LineOperators.{HaveOperatorsOf};
ghost use Rattle.dz_move.specs.Lines.{grouped};
ghost use Rattle.dz_check.specs.Pending.{StackedIn, cut};
ghost use Rattle.dz_move.specs.TreeLines.{line_of};
ghost use Rattle.dz_check.specs.Walk.{entered};
ghost use Rattle.dz_check.specs.Walking.{IsRejection, IsWalking, line_in, pending_left, verdict_from};

use crate::entering::{Left, Outcome, entered, leaves_open};
use crate::taking::chain_at;
use dz_diff::State;
use dz_move::{Line, Reached};
use dz_poly::{Book, BookMark};
use dz_tree::EntryFault;
use std::alloc::AllocError;
use std::marker::Model;

/// A state that a walk has still to come to, and the mark up to which its polynomials stand.
#[derive(Drop)]
pub(crate) struct Pending {
    pub(crate) state: State,
    pub(crate) mark: BookMark,
}

impl Model for Pending {
    ghost use Rattle.dz_check.specs.Pending.{PendingValue};

    ghost Value = { PendingValue };

    ghost view = { λ p. record {
      state = p.state;
      mark = p.mark;
    } };
}

/// The running weight after an entry, whether it left an open end, and the state that it left as a
/// chain, if it did.
#[derive(Drop)]
pub(crate) struct Turned {
    pub(crate) weight: u32,
    pub(crate) is_open: bool,
    pub(crate) chain: Option<State>,
}

/// Whether a line is evidence.
pub(crate) fn is_pair(line: &Line) -> bool
    ensures { result ≡ is_pair_line (line_of line.now) }
{
    matches!(line, Line::Pair { .. })
}

/// The number of lines of evidence before the first other line.
fn pair_count(lines: &[Line]) -> usize
    ensures count { result ≡ length (grouped (map line_of lines.now)).0 }
    ensures inside { result ≤ length lines.now }
{
    'lines: for k in 0..lines.len() {
        if !is_pair(&lines[k]) {
            return k;
        }
    }
    lines.len()
}

/// The lines of evidence before the first other line.
fn leading_pairs(lines: &[Line]) -> &[Line]
    ensures pairs { list_all is_pair_line (map line_of result.now) ≡ true }
    ensures evidence { evidence_of (map line_of result.now) ≡ (grouped (map line_of lines.now)).0 }
    ensures operators { (n : ℕ) → HaveOperatorsOf n (map line_of lines.now)
        → HaveOperatorsOf n (map line_of result.now) }
    ensures inside { length result.now ≤ length lines.now }
{
    let count = pair_count(lines);
    &lines[..count]
}

/// Puts a state on a stack.
pub(crate) fn push_state(
    stack: &mut Vec<Pending>,
    state: State,
    mark: BookMark,
) -> Result<(), AllocError>
    ensures { OnOk result (reverse stack.new.items
        ≡ record { state = state; mark = mark } ∷ reverse stack.old.items) }
{
    stack.push(Pending { state, mark })?;
    Ok(())
}

/// Puts the states that an entry left on a stack, the first of them on top.
pub(crate) fn push_left(book: &Book, stack: &mut Vec<Pending>, left: Left) -> Result<(), AllocError>
    ensures { OnOk result (reverse stack.new.items
        ≡ pending_left (length book.now.polynomials) left ++ reverse stack.old.items) }
{
    let mark = book.mark();
    match left {
        Left::States(Reached::One(state)) => push_state(stack, state, mark),
        Left::States(Reached::Two(first, second)) => {
            push_state(stack, second, mark)?;
            push_state(stack, first, mark)
        }
        _ => Ok(()),
    }
}

/// Takes up a pending state: the polynomials after its mark are given up, and its entry is entered.
fn take_up(
    book: &mut Book,
    top: &Pending,
    line: &Line,
    evidence: &[Line],
    weight: u32,
    budget: u32,
) -> Result<Outcome, EntryFault>
    requires mark { top.now.mark ≤ length book.old.polynomials }
    requires stands { StandsIn (cut top.now.mark book.old) top.now.state }
    requires facts { IsStateOf (symbols_under book.old.ranking)
        (state_in (cut top.now.mark book.old) top.now.state) }
    requires pairs { list_all is_pair_line (map line_of evidence.now) ≡ true }
    requires operators { HaveOperatorsOf book.old.ranking.signature.independents
        (map line_of evidence.now) }
    requires within { weight ≤ budget }
    ensures ok { IfOk result (λ x. Leaves book.new (line_of line.now)
        (state_in (cut top.now.mark book.old) top.now.state) x
        (entered (setting_of book.old.ranking) budget weight
        (state_in (cut top.now.mark book.old) top.now.state) (line_of line.now)
        (evidence_of (map line_of evidence.now)))) }
    ensures refused { IfErr result (λ fault. IsEntryFault fault (entered
        (setting_of book.old.ranking) budget weight
        (state_in (cut top.now.mark book.old) top.now.state) (line_of line.now)
        (evidence_of (map line_of evidence.now)))) }
    ensures kept { IsKept (cut top.now.mark book.old) book.new }
{
    book.restore(top.mark);
    entered(book, &top.state, line, evidence, weight, budget)
}

/// One line with its evidence: the pending state on top is taken up, and the states that are left
/// come in its place. A chain is handed on, and its polynomials stand until the next turn.
pub(crate) fn turn(
    book: &mut Book,
    stack: &mut Vec<Pending>,
    line: &Line,
    after: &[Line],
    weight: u32,
    budget: u32,
) -> Result<Turned, EntryFault>
    requires walks { (base : BookValue) × IsWalking base book.old budget weight
        (reverse stack.old.items) (line_of line.now ∷ map line_of after.now) }
    requires no_pair { is_pair_line (line_of line.now) ≡ false }
    requires operators { HaveOperatorsOf book.old.ranking.signature.independents
        (map line_of after.now) }
    ensures ok { IfOk result (λ t. (place : ℕ) (opens : Bool)
        → verdict_from (setting_of book.old.ranking) budget weight opens place book.old
        (reverse stack.old.items) (line_of line.now ∷ map line_of after.now)
        ≡ verdict_from (setting_of book.old.ranking) budget t.weight (opens || t.is_open) (place + 1)
        book.new (reverse stack.new.items) (map line_of after.now)) }
    ensures walks { IfOk result (λ t. (base : BookValue) → IsWalking base book.old budget weight
        (reverse stack.old.items) (line_of line.now ∷ map line_of after.now)
        → IsWalking base book.new budget t.weight (reverse stack.new.items)
        (map line_of after.now)) }
    ensures chains { IfOk result (λ t. (base : BookValue) (whole : List StateRecord)
        (taken : List StateValue) → Collects base (setting_of book.old.ranking) whole book.old
        (reverse stack.old.items) taken (line_of line.now ∷ map line_of after.now)
        → CollectsOn base (setting_of book.old.ranking) whole book.new (reverse stack.new.items)
        taken t.chain (map line_of after.now)) }
    ensures refused { IfErr result (λ fault. (place : ℕ) (opens : Bool) → IsRejection place fault
        (verdict_from (setting_of book.old.ranking) budget weight opens place book.old
        (reverse stack.old.items) (line_of line.now ∷ map line_of after.now))) }
    ensures inside { IfErr result (λ fault. line_in fault ≤ length after.now) }
    ensures kept { (base : BookValue) → StackedIn base book.old (reverse stack.old.items)
        → IsKept base book.new }
{
    let Some(top) = stack.pop() else {
        unreachable!();
    };
    let evidence = leading_pairs(after);
    let Outcome { left, weight: more } = take_up(book, &top, line, evidence, weight, budget)?;
    let is_open = leaves_open(line, &left);
    push_left(book, stack, left)?;
    let Pending { state, mark: _ } = top;
    let chain = chain_at(line, state);
    Ok(Turned {
        weight: weight + more,
        is_open,
        chain,
    })
}
