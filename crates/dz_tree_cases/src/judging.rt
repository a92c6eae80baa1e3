//! What is told of the tree of a case.

ghost use Rattle.std.specs.Prelude.{◌≡◌};
ghost use Rattle.dz_rank.specs.Rankings.{IsRanking};
ghost use Rattle.dz_diff.specs.Operations.{setting_of};
ghost use Rattle.dz_syntax.specs.Systems.{HasExpressions, tree_of};
ghost use Rattle.dz_move.specs.Systems.{IsSystemIn, system_in};
ghost use Rattle.dz_check.specs.Verdicts.{verdict_as};
ghost use Rattle.dz_check.specs.Walk.{verdict_of};

use crate::alone::{Alone, told_alone};
use crate::lines::lines;
use crate::working::{Working, told_working};
use dz_case::{CaseStop, book_for, number, read_case, split_at_first, system_of};
use dz_check::laws::trees_are_judged_by_line;
use dz_check::{Verdict, chains, check};
use dz_move::System;
use dz_poly::Book;
use dz_syntax::{Form, SystemTree};
use dz_tree::{Tree, have_operators_of};
use std::alloc::{AllocError, Global};

/// What is told of a case.
#[derive(Clone, Copy, Debug, PartialEq, Eq)]
pub(crate) enum Judgement {
    /// The lines form no tree, or the budget is too great.
    NoTree,
    Checked(Told),
}

/// What is told of a tree.
#[derive(Clone, Copy, Debug, PartialEq, Eq)]
pub(crate) struct Told {
    pub(crate) verdict: Verdict,
    pub(crate) chains: usize,
    /// What its first line is told at the root.
    pub(crate) alone: Alone,
    /// How it stands to the worked tree.
    pub(crate) working: Working,
}

/// The number of chains of a tree with this verdict; none where it is rejected.
fn chain_count(
    alloc: Global,
    book: &mut Book,
    system: &System,
    tree: &Tree,
    verdict: Verdict,
) -> Result<usize, AllocError>
    requires system { IsSystemIn book.old system.now }
    requires verdict { verdict_as verdict ≡ verdict_of (setting_of book.old.ranking)
        (system_in book.old system.now) tree.now }
{
    tree.opened();
    trees_are_judged_by_line();
    match verdict {
        Verdict::Rejected { .. } => Ok(0),
        Verdict::Accepted => Ok(chains(alloc, book, system, tree)?.len()),
        Verdict::Partial => Ok(chains(alloc, book, system, tree)?.len()),
    }
}

/// What is told of the tree with a budget and some lines.
fn tree_told(
    alloc: Global,
    case: &SystemTree,
    budget: u32,
    is_worked: bool,
    texts: &[&[u8]],
) -> Result<Judgement, CaseStop>
    requires ranking { IsRanking
        (record { signature = (tree_of case.now).signature; blocks = (tree_of case.now).blocks }) }
    requires expressions { HasExpressions (tree_of case.now) }
{
    let mut book = book_for(alloc, case)?;
    let system = system_of(alloc, &mut book, case)?;
    let Some(lines) = lines(alloc, &case.names, texts)? else {
        return Err(CaseStop::NoCase);
    };
    let Some(tree) = Tree::new(budget, lines) else {
        return Ok(Judgement::NoTree);
    };
    if !have_operators_of(case.signature.independents, tree.lines()) {
        return Err(CaseStop::NoCase);
    }
    let alone = told_alone(alloc, &mut book, &system, &tree)?;
    let working = told_working(alloc, &mut book, &system, &tree, is_worked)?;
    let verdict = check(alloc, &mut book, &system, &tree)?;
    let chains = chain_count(alloc, &mut book, &system, &tree, verdict)?;
    Ok(Judgement::Checked(Told {
        verdict,
        chains,
        alone,
        working,
    }))
}

/// What is told of a case, by the lines after its name.
pub(crate) fn judge(alloc: Global, texts: &[&[u8]]) -> Result<Judgement, CaseStop> {
    if texts.len() < 2 {
        return Err(CaseStop::NoCase);
    }
    let case = read_case(alloc, texts[0], Form::Plain)?;
    let (first, second) = split_at_first(texts[1], b' ');
    let Some(budget) = number(first) else {
        return Err(CaseStop::NoCase);
    };
    tree_told(
        alloc,
        &case,
        budget,
        second == b"worked".as_slice(),
        &texts[2..],
    )
}
