//! The weight of a chain's evidence.

ghost use Rattle.std.specs.Prelude.{◌≡◌, ◌≤◌, ◌+◌, nat_le, true, map, Ok, IfOk, IfErr};
ghost use Rattle.std.specs.List.{list_all};
ghost use Rattle.dz_monomials.specs.Ranked.{symbols_under};
ghost use Rattle.dz_monomials.specs.Lists.{AllOf};
ghost use Rattle.dz_diff.specs.Operations.{setting_of};
ghost use Rattle.dz_algebra.specs.Outcome.{numbered};
ghost use Rattle.dz_diff.specs.States.{StandsIn, state_in};
ghost use Rattle.dz_tree.specs.Chain.{chain_weight, evidence_from, evidence_weight};
ghost use Rattle.dz_tree.specs.ChainParts.{IsForPair, IsRunWeight, is_within};
ghost use Rattle.dz_tree.specs.Entering.{IsEntryFault, entry_fault};
ghost use Rattle.dz_tree.specs.EvidenceLines.{evidence_of, is_pair_line};
ghost use Rattle.dz_step.specs.StepOperators.{DeriveAlong};
ghost use Rattle.dz_tree.specs.LineOperators.{HaveOperatorsOf, steps_in};
ghost use Rattle.dz_move.specs.Lines.{Evidence, pair};
ghost use Rattle.dz_move.specs.TreeLines.{line_of};

use crate::chain_conditions::chain_conditions;
use crate::entry_fault::EntryFault;
use dz_diff::State;
use dz_move::{ActionEnd, ActionStop, Line, MoveFault, Rule, pair_run};
use dz_poly::Book;
use dz_step::{StepList, member_at};

/// The stop of a run as the fault of a line.
pub fn fault_at(line: usize, stop: ActionStop) -> EntryFault
    ensures { result ≡ entry_fault line stop.fault }
{
    match stop.fault {
        MoveFault::Memory => EntryFault::Memory,
        MoveFault::Wide => EntryFault::Rule {
            line,
            rule: Rule::Wide,
        },
        MoveFault::Large(_) => EntryFault::Rule {
            line,
            rule: Rule::Large,
        },
        MoveFault::NotPermitted(rule) => EntryFault::Rule { line, rule },
    }
}

/// The weight of a run of evidence for the critical pair at two places, up to the greatest number
/// that a `usize` has.
fn run_weight(
    book: &Book,
    state: &State,
    line: usize,
    first: u16,
    second: u16,
    run: &StepList,
) -> Result<usize, EntryFault>
    requires stands { StandsIn book.now state.now }
    requires pair { IsForPair (symbols_under book.now.ranking) (state_in book.now state.now).equations
        (record { first = first; second = second; steps = run.now }) }
    requires operators { DeriveAlong book.now.ranking.signature.independents run.now }
    ensures ok { IfOk result (λ w. IsRunWeight w (evidence_weight (setting_of book.now.ranking)
        (state_in book.now state.now)
        (record { first = first; second = second; steps = run.now }))) }
    ensures refused { IfErr result (λ fault. IsEntryFault fault (numbered line (evidence_weight
        (setting_of book.now.ranking) (state_in book.now state.now)
        (record { first = first; second = second; steps = run.now })))) }
{
    // The facts of all books are known of this one: a ranking has at most four independents.
    book.opened();
    let _ = book.ranking().signature();
    let Some(p) = member_at(state.equations(), first) else {
        unreachable!()
    };
    let Some(q) = member_at(state.equations(), second) else {
        unreachable!()
    };
    match pair_run(book, state, p, q, run) {
        Ok(ActionEnd { terms, run }) => {
            if !run.end.is_zero() {
                return Err(EntryFault::Rule {
                    line,
                    rule: Rule::Coherence,
                });
            }
            Ok(run.count.saturating_add(1).saturating_add(terms))
        }
        Err(stop) => Err(fault_at(line, stop)),
    }
}

/// The weight of a line of evidence for a critical pair.
fn line_weight(book: &Book, state: &State, number: usize, line: &Line) -> Result<usize, EntryFault>
    requires stands { StandsIn book.now state.now }
    requires pair { is_pair_line (line_of line.now) ≡ true }
    requires places { (e : Evidence) → line_of line.now ≡ pair e
        → IsForPair (symbols_under book.now.ranking) (state_in book.now state.now).equations e }
    requires operators { DeriveAlong book.now.ranking.signature.independents
        (steps_in (line_of line.now)) }
    ensures ok { IfOk result (λ w. (e : Evidence) → line_of line.now ≡ pair e → IsRunWeight w
        (evidence_weight (setting_of book.now.ranking) (state_in book.now state.now) e)) }
    ensures refused { IfErr result (λ fault. (e : Evidence) → line_of line.now ≡ pair e
        → IsEntryFault fault (numbered number (evidence_weight (setting_of book.now.ranking)
        (state_in book.now state.now) e))) }
{
    match line {
        Line::Pair { first, second, run } => run_weight(book, state, number, *first, *second, run),
        _ => unreachable!(),
    }
}

/// The weight of all lines of evidence for critical pairs, each sum so far within what is left.
fn runs_weight(
    book: &Book,
    state: &State,
    evidence: &[Line],
    left: usize,
) -> Result<usize, EntryFault>
    requires stands { StandsIn book.now state.now }
    requires pairs { list_all is_pair_line (map line_of evidence.now) ≡ true }
    requires places { AllOf (IsForPair (symbols_under book.now.ranking)
        (state_in book.now state.now).equations) (evidence_of (map line_of evidence.now)) }
    requires operators { HaveOperatorsOf book.now.ranking.signature.independents
        (map line_of evidence.now) }
    ensures ok { IfOk result (λ w. IsRunWeight w (evidence_from (setting_of book.now.ranking)
        (state_in book.now state.now) (is_within left) 1 0
        (evidence_of (map line_of evidence.now)))) }
    ensures within { IfOk result (λ w. w ≤ left) }
    ensures refused { IfErr result (λ fault. IsEntryFault fault (evidence_from
        (setting_of book.now.ranking) (state_in book.now state.now) (is_within left) 1 0
        (evidence_of (map line_of evidence.now)))) }
{
    let mut total = 0usize;
    'lines: for k in 0..evidence.len() {
        let weight = line_weight(book, state, k + 1, &evidence[k])?;
        total = total.saturating_add(weight);
        if total > left {
            return Err(EntryFault::Rule {
                line: k + 1,
                rule: Rule::Weight,
            });
        }
    }
    Ok(total)
}

/// The weight of a chain's evidence, each sum so far within what is left.
pub(crate) fn weight_within(
    book: &Book,
    state: &State,
    evidence: &[Line],
    left: usize,
) -> Result<usize, EntryFault>
    requires stands { StandsIn book.now state.now }
    requires pairs { list_all is_pair_line (map line_of evidence.now) ≡ true }
    requires operators { HaveOperatorsOf book.now.ranking.signature.independents
        (map line_of evidence.now) }
    ensures ok { IfOk result (λ w. IsRunWeight w (chain_weight (setting_of book.now.ranking)
        (state_in book.now state.now) (is_within left) (evidence_of (map line_of evidence.now)))) }
    ensures within { IfOk result (λ w. w ≤ left) }
    ensures refused { IfErr result (λ fault. IsEntryFault fault (chain_weight
        (setting_of book.now.ranking) (state_in book.now state.now) (is_within left)
        (evidence_of (map line_of evidence.now)))) }
{
    let failed = chain_conditions(book, state, evidence)?;
    if let Some(rule) = failed {
        return Err(EntryFault::Rule { line: 0, rule });
    }
    runs_weight(book, state, evidence, left)
}

/// The weight of a chain's evidence, where with that of the lines before it is within the budget.
pub fn chain_weight(
    book: &Book,
    state: &State,
    evidence: &[Line],
    weight: u32,
    budget: u32,
) -> Result<u32, EntryFault>
    requires stands { StandsIn book.now state.now }
    requires pairs { list_all is_pair_line (map line_of evidence.now) ≡ true }
    requires operators { HaveOperatorsOf book.now.ranking.signature.independents
        (map line_of evidence.now) }
    requires within { weight ≤ budget }
    ensures ok { IfOk result (λ n. chain_weight (setting_of book.now.ranking)
        (state_in book.now state.now) (λ k. nat_le (weight + k) budget)
        (evidence_of (map line_of evidence.now)) ≡ Ok n) }
    ensures refused { IfErr result (λ fault. IsEntryFault fault (chain_weight
        (setting_of book.now.ranking) (state_in book.now state.now)
        (λ k. nat_le (weight + k) budget) (evidence_of (map line_of evidence.now)))) }
{
    match weight_within(book, state, evidence, (budget - weight) as usize) {
        Ok(weight) => Ok(weight as u32),
        Err(fault) => Err(fault),
    }
}
