//! The systems of cases, and the reports of their chains.

ghost use Rattle.std.specs.Prelude.{◌≡◌, ◌≤◌, All, IfOk, OnOk};
ghost use Rattle.dz_poly.specs.Books.{IsKept};
ghost use Rattle.dz_diff.specs.States.{StandsIn};
ghost use Rattle.dz_syntax.specs.Names.{signature_of};
ghost use Rattle.dz_move.specs.Systems.{IsSystemIn};

use dz_case::{CaseStop, book_for, read_case, system_of};
use dz_check::chains;
use dz_engine::decompose;
use dz_engine::laws::worked_trees_are_certified;
use dz_move::System;
use dz_parametric::write_parametric_report;
use dz_poly::Book;
use dz_step::State;
use dz_syntax::{Form, Names};
use std::alloc::{AllocError, Global};

/// The budget of every tree.
const TREE_BUDGET: u32 = 1_000_000;

/// The chains of the worked tree of a system.
fn chains_of(alloc: Global, book: &mut Book, system: &System) -> Result<Vec<State>, AllocError>
    requires { IsSystemIn book.old system.now }
    ensures stand { IfOk result (λ states. All (λ s. StandsIn book.new s) states.items) }
    ensures kept { OnOk result (IsKept book.old book.new) }
{
    let tree = decompose(alloc, book, system, TREE_BUDGET)?;
    worked_trees_are_certified();
    chains(alloc, book, system, &tree)
}

/// Appends the report of the chain with a number, or that there is none.
fn tell_chain(
    alloc: Global,
    book: &Book,
    names: &Names,
    chains: &[State],
    number: u32,
    order: u8,
    into: &mut Vec<u8>,
) -> Result<(), AllocError>
    requires chains { All (λ s. StandsIn book.now s) chains.now }
    requires signature { signature_of names.now ≡ book.now.ranking.signature }
    requires low { order ≤ 60 }
{
    let place = number as usize;
    if place == 0 || chains.len() < place {
        return into.extend_from_slice(b"there is no such chain\n");
    }
    let chain = &chains[place - 1];
    write_parametric_report(alloc, book, names, number, chain, order, into)?;
    Ok(())
}

/// Appends the report of the chain with a number of the worked tree of a system.
pub(crate) fn tell_report(
    alloc: Global,
    text: &[u8],
    number: u32,
    order: u8,
    into: &mut Vec<u8>,
) -> Result<(), CaseStop>
    requires { order ≤ 60 }
{
    let case = read_case(alloc, text, Form::Plain)?;
    let mut book = book_for(alloc, &case)?;
    let system = system_of(alloc, &mut book, &case)?;
    let chains = chains_of(alloc, &mut book, &system)?;
    tell_chain(
        alloc,
        &book,
        &case.names,
        chains.as_slice(),
        number,
        order,
        into,
    )?;
    Ok(())
}
