//! Entries: what one leaves below its state.

ghost use Rattle.std.specs.Prelude.{◌≡◌, ◌≤◌, true, not, map, List, ℕ, IfOk, IfErr};
ghost use Rattle.std.specs.List.{list_all};
ghost use Rattle.dz_poly.specs.Books.{IsKept};
ghost use Rattle.dz_monomials.specs.Ranked.{symbols_under};
ghost use Rattle.dz_diff.specs.Operations.{setting_of};
ghost use Rattle.dz_diff.specs.State.{State as StateValue};
ghost use Rattle.dz_diff.specs.States.{IsStateOf, StandsIn, state_in};
ghost use Rattle.dz_tree.specs.Entering.{IsEntryFault};
ghost use Rattle.dz_tree.specs.EvidenceLines.{evidence_of, is_pair_line};
ghost use Rattle.dz_check.specs.Leaving.{Leaves, ends_left, is_open_line};
ghost use Rattle.dz_tree.specs.LineOperators.{HaveOperatorsOf};
ghost use Rattle.dz_move.specs.Lines.{Evidence, chain, closed};
ghost use Rattle.dz_move.specs.Parts.{is_act};
ghost use Rattle.dz_move.specs.TreeLines.{line_of};
ghost use Rattle.dz_check.specs.Walk.{all_chains, entered};

use crate::reasons::holds;
use dz_diff::State;
use dz_move::{Line, Performed, Reached, Rule, is_closed, performed};
use dz_poly::Book;
use dz_tree::{EntryFault, chain_weight, fault_at};

/// What an entry leaves below its state.
#[derive(Drop)]
pub(crate) enum Left {
    /// Nothing: the state is closed.
    Nothing,
    /// The state itself, as a chain or an open end.
    End,
    /// The states after a move or a fork.
    States(Reached),
}

/// What an entry leaves below its state, and its weight.
#[derive(Drop)]
pub(crate) struct Outcome {
    pub(crate) left: Left,
    pub(crate) weight: u32,
}

/// Whether an open end is left by a line.
pub(crate) fn leaves_open(line: &Line, left: &Left) -> bool
    ensures { (s : StateValue) → result ≡ not (all_chains (ends_left (line_of line.now) s left.now)) }
{
    match left {
        Left::End => !matches!(line, Line::Chain),
        _ => false,
    }
}

/// A rule that fails at the line of an entry itself.
fn at_line(rule: Rule) -> EntryFault
    ensures { result ≡ EntryFault.Rule 0 rule }
{
    EntryFault::Rule { line: 0, rule }
}

/// What a move or a fork leaves.
fn acted(
    book: &mut Book,
    state: &State,
    line: &Line,
    weight: u32,
    budget: u32,
) -> Result<Outcome, EntryFault>
    requires stands { StandsIn book.old state.now }
    requires facts { IsStateOf (symbols_under book.old.ranking) (state_in book.old state.now) }
    requires act { is_act (line_of line.now) ≡ true }
    ensures ok { IfOk result (λ x. (es : List Evidence) → Leaves book.new (line_of line.now)
        (state_in book.old state.now) x (entered (setting_of book.old.ranking) budget weight
        (state_in book.old state.now) (line_of line.now) es)) }
    ensures refused { IfErr result (λ fault. (es : List Evidence) → IsEntryFault fault
        (entered (setting_of book.old.ranking) budget weight (state_in book.old state.now)
        (line_of line.now) es)) }
    ensures kept { IsKept book.old book.new }
{
    let performed = match performed(book, state, line) {
        Ok(performed) => performed,
        Err(stop) => return Err(fault_at(0, stop)),
    };
    let Performed {
        after,
        weight: cost,
    } = performed;
    if (weight as usize).saturating_add(cost) > budget as usize {
        return Err(at_line(Rule::Weight));
    }
    Ok(Outcome {
        left: Left::States(after),
        weight: cost as u32,
    })
}

/// What a closed end leaves.
fn closed_end(book: &Book, state: &State) -> Result<Outcome, EntryFault>
    requires { StandsIn book.now state.now }
    ensures ok { IfOk result (λ x. (budget weight : ℕ) (es : List Evidence) → Leaves book.now closed
        (state_in book.now state.now) x (entered (setting_of book.now.ranking) budget weight
        (state_in book.now state.now) closed es)) }
    ensures refused { IfErr result (λ fault. (budget weight : ℕ) (es : List Evidence)
        → IsEntryFault fault (entered (setting_of book.now.ranking) budget weight
        (state_in book.now state.now) closed es)) }
{
    if !is_closed(book, state) {
        return Err(at_line(Rule::Closed));
    }
    Ok(Outcome {
        left: Left::Nothing,
        weight: 0,
    })
}

/// What a chain leaves.
fn chain_end(
    book: &Book,
    state: &State,
    evidence: &[Line],
    weight: u32,
    budget: u32,
) -> Result<Outcome, EntryFault>
    requires stands { StandsIn book.now state.now }
    requires facts { IsStateOf (symbols_under book.now.ranking) (state_in book.now state.now) }
    requires pairs { list_all is_pair_line (map line_of evidence.now) ≡ true }
    requires operators { HaveOperatorsOf book.now.ranking.signature.independents
        (map line_of evidence.now) }
    requires within { weight ≤ budget }
    ensures ok { IfOk result (λ x. Leaves book.now chain (state_in book.now state.now) x
        (entered (setting_of book.now.ranking) budget weight (state_in book.now state.now) chain
        (evidence_of (map line_of evidence.now)))) }
    ensures refused { IfErr result (λ fault. IsEntryFault fault (entered
        (setting_of book.now.ranking) budget weight (state_in book.now state.now) chain
        (evidence_of (map line_of evidence.now)))) }
{
    let weight = chain_weight(book, state, evidence, weight, budget)?;
    Ok(Outcome {
        left: Left::End,
        weight,
    })
}

/// What an open end leaves.
fn open_end(
    book: &mut Book,
    state: &State,
    line: &Line,
    evidence: &[Line],
    weight: u32,
    budget: u32,
) -> Result<Outcome, EntryFault>
    requires stands { StandsIn book.old state.now }
    requires facts { IsStateOf (symbols_under book.old.ranking) (state_in book.old state.now) }
    requires ended { is_open_line (line_of line.now) ≡ true }
    ensures ok { IfOk result (λ x. Leaves book.new (line_of line.now) (state_in book.old state.now) x
        (entered (setting_of book.old.ranking) budget weight (state_in book.old state.now)
        (line_of line.now) (evidence_of (map line_of evidence.now)))) }
    ensures refused { IfErr result (λ fault. IsEntryFault fault (entered
        (setting_of book.old.ranking) budget weight (state_in book.old state.now)
        (line_of line.now) (evidence_of (map line_of evidence.now)))) }
    ensures book { book.new ≡ book.old }
{
    if !holds(book, state, line, evidence, weight, budget)? {
        return Err(at_line(Rule::Reason));
    }
    Ok(Outcome {
        left: Left::End,
        weight: 0,
    })
}

/// What an entry leaves below a state, at the weight of the lines before it; or the first rule that
/// fails.
#[tactic(auto, unfolding(crate::specs::Walk::entered))]
pub(crate) fn entered(
    book: &mut Book,
    state: &State,
    line: &Line,
    evidence: &[Line],
    weight: u32,
    budget: u32,
) -> Result<Outcome, EntryFault>
    requires stands { StandsIn book.old state.now }
    requires facts { IsStateOf (symbols_under book.old.ranking) (state_in book.old state.now) }
    requires pairs { list_all is_pair_line (map line_of evidence.now) ≡ true }
    requires operators { HaveOperatorsOf book.old.ranking.signature.independents
        (map line_of evidence.now) }
    requires within { weight ≤ budget }
    ensures ok { IfOk result (λ x. Leaves book.new (line_of line.now) (state_in book.old state.now) x
        (entered (setting_of book.old.ranking) budget weight (state_in book.old state.now)
        (line_of line.now) (evidence_of (map line_of evidence.now)))) }
    ensures refused { IfErr result (λ fault. IsEntryFault fault (entered
        (setting_of book.old.ranking) budget weight (state_in book.old state.now)
        (line_of line.now) (evidence_of (map line_of evidence.now)))) }
    ensures kept { IsKept book.old book.new }
{
    match line {
        Line::Closed => closed_end(book, state),
        Line::Chain => chain_end(book, state, evidence, weight, budget),
        Line::Pair { .. } => Err(at_line(Rule::Pairs)),
        Line::Spent(_) | Line::SpentPairs | Line::Wide(_) | Line::Large(_, _) => {
            open_end(book, state, line, evidence, weight, budget)
        }
        _ => acted(book, state, line, weight, budget),
    }
}
