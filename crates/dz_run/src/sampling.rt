// The answer of `sample`.
ghost use Rattle.std.specs.List.{AllByRecursion};
ghost use Rattle.std.specs.Prelude.{◌≡◌, ◌≤◌, IfOk, map};
ghost use Rattle.dz_diff.specs.States.{state_in};
ghost use Rattle.dz_poly.specs.Books.{BookValue};
ghost use Rattle.dz_tree.specs.Belonging.{IsLineOf};
ghost use Rattle.dz_move.specs.Systems.{IsSystemIn, system_in};
ghost use Rattle.dz_check.specs.Verdicts.{verdict_as};
ghost use Rattle.dz_run.specs.Answer.{answer_of};
ghost use Rattle.dz_run.specs.Sampled.{is_accepted, member_count, sampled, summary_of};

use crate::decomposing::lines_ending;
use crate::told::Told;
use dz_check::{Verdict, check_with_chains};
use dz_diff::State;
use dz_engine::decompose;
use dz_move::System;
use dz_poly::Book;
use dz_sample::{Summary, sample_ranking, sample_system, write_summary};
use dz_tree::Tree;
use std::alloc::{AllocError, Global};

/// The budget with which the system is decomposed.
const SAMPLE_BUDGET: u32 = 1_000_000;

/// How many equations some chains have together.
fn member_count(chains: &[State]) -> u128
    ensures { (book : BookValue) → result ≡ member_count (map (λ s. state_in book s) chains.now) }
{
    let mut count = 0;
    'chains: for chain in chains {
        count += chain.equations().len() as u128;
    }
    count
}

/// Whether a verdict is that a tree has no open end.
fn is_accepted(verdict: Verdict) -> bool
    ensures { result ≡ is_accepted (verdict_as verdict) }
{
    matches!(verdict, Verdict::Accepted)
}

/// What is told of a system and its tree.
fn summary_of(
    alloc: Global,
    book: &mut Book,
    seed: u32,
    size: u32,
    system: &System,
    tree: &Tree,
) -> Result<Summary, AllocError>
    requires system { IsSystemIn book.old system.now }
    requires belong { AllByRecursion (λ line. IsLineOf book.old.ranking.signature line)
        tree.now.lines }
    ensures { IfOk result (λ summary. summary
        ≡ summary_of book.old.ranking seed size (system_in book.old system.now) tree.now) }
{
    let checked = check_with_chains(alloc, book, system, tree)?;
    Ok(Summary {
        seed,
        size,
        equations: system.equations().len(),
        chains: checked.chains.len(),
        members: member_count(&checked.chains),
        is_complete: is_accepted(checked.verdict),
    })
}

/// The answer of `sample`.
#[tactic(auto, unfolding(crate::specs::Sampled::sampled))]
pub(crate) fn sampled(alloc: Global, seed: u32, size: u32) -> Result<Told, AllocError>
    requires size { size ≤ 200 }
    ensures { IfOk result (λ told. answer_of told ≡ sampled seed size) }
{
    let mut book = Book::new(alloc, sample_ranking(alloc)?);
    let system = sample_system(alloc, &mut book, seed, size)?;
    // The facts of all books are known of this one: a ranking has few independents and dependents.
    book.opened();
    let _ = book.ranking().signature();
    let tree = decompose(alloc, &mut book, &system, SAMPLE_BUDGET)?;
    let summary = summary_of(alloc, &mut book, seed, size, &system, &tree)?;
    let text = write_summary(alloc, summary)?;
    Ok(Told::printed(alloc, text, lines_ending(tree.lines())))
}
