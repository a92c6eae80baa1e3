//! The systems of cases, their chains and their questions.

ghost use Rattle.std.specs.Prelude.{◌≡◌, All, IfOk, OnOk};
ghost use Rattle.dz_poly.specs.Books.{IsKept, Lives};
ghost use Rattle.dz_diff.specs.States.{LiveAll, StandsIn};
ghost use Rattle.dz_syntax.specs.Names.{signature_of};
ghost use Rattle.dz_move.specs.Systems.{IsSystemIn};

use crate::answering::{ByChain, tell_by_chains, tell_vanishing};
use crate::texts::write_number;
use dz_case::{CaseStop, book_for, read_case, system_of, values};
use dz_check::chains;
use dz_engine::decompose;
use dz_engine::laws::worked_trees_are_certified;
use dz_move::System;
use dz_poly::{Book, Poly};
use dz_step::State;
use dz_syntax::{Form, Names};
use std::alloc::{AllocError, Global};

/// The budget of every tree.
const TREE_BUDGET: u32 = 1_000_000;

/// What is asked of each question.
#[derive(Clone, Copy, Debug, PartialEq, Eq)]
pub(crate) enum Verb {
    Normal,
    Vanishes,
    Prepare,
}

/// The chains of the worked tree of a system.
fn chains_of(alloc: Global, book: &mut Book, system: &System) -> Result<Vec<State>, AllocError>
    requires { IsSystemIn book.old system.now }
    ensures stand { IfOk result (λ states. All (λ s. StandsIn book.new s) states.items) }
    ensures kept { OnOk result (IsKept book.old book.new) }
{
    let tree = decompose(alloc, book, system, TREE_BUDGET)?;
    worked_trees_are_certified();
    chains(alloc, book, system, &tree)
}

/// Appends what is answered to one question; the book is as before.
fn answer(
    alloc: Global,
    book: &mut Book,
    names: &Names,
    verb: Verb,
    f: Poly,
    chains: &[State],
    budget: u32,
    into: &mut Vec<u8>,
) -> Result<(), AllocError>
    requires f { Lives book.old f }
    requires chains { All (λ s. StandsIn book.old s) chains.now }
    requires signature { signature_of names.now ≡ book.old.ranking.signature }
    ensures { book.new ≡ book.old }
{
    match verb {
        Verb::Vanishes => tell_vanishing(alloc, book, f, chains, budget, into),
        Verb::Normal => {
            tell_by_chains(alloc, book, names, ByChain::Normal, f, chains, budget, into)
        }
        Verb::Prepare => {
            tell_by_chains(
                alloc,
                book,
                names,
                ByChain::Preparation,
                f,
                chains,
                budget,
                into,
            )
        }
    }
}

/// Appends what is answered to each question.
fn answer_all(
    alloc: Global,
    book: &mut Book,
    names: &Names,
    verb: Verb,
    questions: &[Poly],
    chains: &[State],
    budget: u32,
    into: &mut Vec<u8>,
) -> Result<(), AllocError>
    requires questions { LiveAll book.old questions.now }
    requires chains { All (λ s. StandsIn book.old s) chains.now }
    requires signature { signature_of names.now ≡ book.old.ranking.signature }
{
    'questions: for k in 0..questions.len() {
        into.extend_from_slice(b"question ")?;
        write_number(into, k + 1)?;
        into.extend_from_slice(b"\n")?;
        answer(alloc, book, names, verb, questions[k], chains, budget, into)?;
    }
    Ok(())
}

/// Appends the answers to the questions of a system.
pub(crate) fn ask(
    alloc: Global,
    text: &[u8],
    verb: Verb,
    budget: u32,
    into: &mut Vec<u8>,
) -> Result<(), CaseStop> {
    let case = read_case(alloc, text, Form::Questions)?;
    let mut book = book_for(alloc, &case)?;
    let questions = values(alloc, &mut book, &case.questions)?;
    let system = system_of(alloc, &mut book, &case)?;
    let chains = chains_of(alloc, &mut book, &system)?;
    answer_all(
        alloc,
        &mut book,
        &case.names,
        verb,
        &questions,
        &chains,
        budget,
        into,
    )?;
    Ok(())
}
