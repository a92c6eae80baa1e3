//! Chains: their conditions, but for the runs of their evidence.

ghost use Rattle.std.specs.Prelude.{◌≡◌, ◌==◌, ◌&&◌, true, map, IfOk};
ghost use Rattle.std.specs.List.{list_all};
ghost use Rattle.dz_diff.specs.Operations.{setting_of};
ghost use Rattle.dz_diff.specs.States.{StandsIn, state_in};
ghost use Rattle.dz_tree.specs.Chain.{chain_rule, same_pairs};
ghost use Rattle.dz_tree.specs.ChainParts.{failed};
ghost use Rattle.dz_tree.specs.EvidenceLines.{evidence_of, is_pair_line};
ghost use Rattle.dz_move.specs.Lines.{Evidence, pair};
ghost use Rattle.dz_move.specs.TreeLines.{line_of};

use crate::autoreduced::is_autoreduced;
use crate::chain_multipliers::multiplier_rule;
use crate::inequations::are_reduced;
use crate::leaders::has_leaders;
use dz_diff::State;
use dz_move::{Line, Rule};
use dz_pair::pairs;
use dz_poly::Book;
use std::alloc::AllocError;

/// Whether a line is evidence for the pair of these places.
fn is_for(line: &Line, first: u16, second: u16) -> bool
    requires { is_pair_line (line_of line.now) ≡ true }
    ensures { (e : Evidence) → line_of line.now ≡ pair e
        → result ≡ ((e.first == first) && (e.second == second)) }
{
    match line {
        Line::Pair {
            first: i,
            second: j,
            ..
        } => *i == first && *j == second,
        _ => unreachable!(),
    }
}

/// Whether lines of evidence are for these pairs, in their order.
fn same_pairs(evidence: &[Line], pairs: &[(u16, u16)]) -> bool
    requires { list_all is_pair_line (map line_of evidence.now) ≡ true }
    ensures { result ≡ same_pairs (evidence_of (map line_of evidence.now)) pairs.now }
{
    if evidence.len() != pairs.len() {
        return false;
    }
    'lines: for k in 0..evidence.len() {
        let (first, second) = pairs[k];
        if !is_for(&evidence[k], first, second) {
            return false;
        }
    }
    true
}

/// The first condition on a chain that fails, but for the runs of its evidence.
pub(crate) fn chain_conditions(
    book: &Book,
    state: &State,
    evidence: &[Line],
) -> Result<Option<Rule>, AllocError>
    requires stands { StandsIn book.now state.now }
    requires pairs { list_all is_pair_line (map line_of evidence.now) ≡ true }
    ensures { IfOk result (λ o. o ≡ failed (chain_rule (setting_of book.now.ranking)
        (state_in book.now state.now) (evidence_of (map line_of evidence.now)))) }
{
    if !has_leaders(book, state.equations()) {
        return Ok(Some(Rule::Leader));
    }
    if !is_autoreduced(book, state.equations()) {
        return Ok(Some(Rule::Autoreduced));
    }
    if let Some(rule) = multiplier_rule(book, state)? {
        return Ok(Some(rule));
    }
    if !are_reduced(book, state) {
        return Ok(Some(Rule::Inequation));
    }
    let pairs = pairs(book.allocator(), book, state)?;
    if !same_pairs(evidence, pairs.as_slice()) {
        return Ok(Some(Rule::Pairs));
    }
    Ok(None)
}
