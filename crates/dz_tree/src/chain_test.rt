//! Chains with evidence.

ghost use Rattle.std.specs.Prelude.{◌≡◌, true, map, IfOk};
ghost use Rattle.std.specs.List.{list_all};
ghost use Rattle.dz_diff.specs.Operations.{setting_of};
ghost use Rattle.dz_diff.specs.States.{StandsIn, state_in};
ghost use Rattle.dz_tree.specs.Chain.{chain_weight};
ghost use Rattle.dz_tree.specs.Entering.{broken_rule};
ghost use Rattle.dz_tree.specs.EvidenceLines.{evidence_of, is_pair_line};
ghost use Rattle.dz_tree.specs.LineOperators.{HaveOperatorsOf};
ghost use Rattle.dz_move.specs.TreeLines.{line_of};

use crate::entry_fault::EntryFault;
use crate::evidence::weight_within;
use dz_diff::State;
use dz_move::{Line, Rule};
use dz_poly::Book;
use std::alloc::{AllocError, Global};

/// The first condition on a chain with this evidence that fails, `None` exactly where it is one;
/// the budget is not looked at.
pub fn is_chain(
    alloc: Global,
    book: &mut Book,
    state: &State,
    evidence: &[Line],
) -> Result<Option<Rule>, AllocError>
    requires stands { StandsIn book.old state.now }
    requires pairs { list_all is_pair_line (map line_of evidence.now) ≡ true }
    requires operators { HaveOperatorsOf book.old.ranking.signature.independents
        (map line_of evidence.now) }
    ensures rule { IfOk result (λ o. o ≡ broken_rule (chain_weight (setting_of book.old.ranking)
        (state_in book.old state.now) (λ k. true) (evidence_of (map line_of evidence.now)))) }
    ensures book { book.new ≡ book.old }
{
    // The book has an allocator of its own.
    let _ = alloc;
    match weight_within(book, state, evidence, usize::MAX) {
        Ok(_) => Ok(None),
        Err(EntryFault::Rule { line: _, rule }) => Ok(Some(rule)),
        Err(EntryFault::Memory) => Err(AllocError),
    }
}
