//! What is printed of parametric derivatives and cones behind a document.

ghost use Rattle.std.specs.Prelude.{◌≡◌, ◌<◌, ◌≤◌, ◌++◌, [], All, IfOk, OnErr, OnOk, codes, cond, decimal};
ghost use Rattle.std.specs.List.{flat_map};
ghost use Rattle.dz_rank.specs.Symbols.{BelongsTo};
ghost use Rattle.dz_syntax.specs.Names.{signature_of};
ghost use Rattle.dz_form.specs.Texts.{name_numbered};
ghost use Rattle.dz_diff.specs.States.{StandsIn, state_in};
ghost use Rattle.dz_parametric.specs.Reports.{IsConeOver, cone_line, cone_lines, free_line, free_names, head_line};
ghost use Rattle.dz_parametric.specs.Reports.{has_many_cones, names_text, parametric_report};
ghost use Rattle.dz_parametric.specs.Ends.{is_large};

use crate::choosing::parametric;
use crate::listing::{Cone, ConeFault, cones};
use dz_diff::State;
use dz_form::push_symbol;
use dz_poly::Book;
use dz_rank::Symbol;
use dz_syntax::Names;
use itoa::Buffer;
use std::alloc::{AllocError, Global};

/// How a report ends.
#[derive(Clone, Copy, Debug, PartialEq, Eq)]
pub enum ParametricEnd {
    /// All lines are printed.
    Done,
    /// There are too many cones.
    Large,
}

/// Appends a number.
fn push_number(into: &mut Vec<u8>, number: u32) -> Result<(), AllocError>
    ensures { OnOk result (into.new.items ≡ into.old.items ++ decimal number) }
{
    let mut buffer = Buffer::new();
    into.extend_from_slice(buffer.format(number).as_bytes())
}

/// Appends the name of an independent, behind a comma where a name stands before.
fn push_name(into: &mut Vec<u8>, names: &Names, i: u8, some: bool) -> Result<(), AllocError>
    requires { i < names.now.independents }
    ensures { OnOk result (into.new.items ≡ into.old.items
        ++ (cond some (codes ",") [] ++ name_numbered names.now i)) }
{
    if some {
        into.extend_from_slice(b",")?;
    }
    into.extend_from_slice(names.independent(i))
}

/// What stands for names where there is none.
fn no_names(some: bool) -> &'static [u8]
    ensures { result.now ≡ cond some [] (codes "-") }
{
    if some { b"" } else { b"-" }
}

/// Appends the names of the free directions of a cone.
fn push_free_names(into: &mut Vec<u8>, names: &Names, cone: Cone) -> Result<(), AllocError>
    requires { IsConeOver (signature_of names.now) cone }
    ensures { OnOk result (into.new.items ≡ into.old.items
        ++ names_text (free_names names.now 0 cone.free)) }
{
    let mut some = false;
    for i in 0..4 {
        if cone.free[i as usize] {
            push_name(into, names, i, some)?;
            some = true;
        }
    }
    into.extend_from_slice(no_names(some))
}

/// Appends the line of a cone.
fn push_cone_line(into: &mut Vec<u8>, names: &Names, cone: Cone) -> Result<(), AllocError>
    requires { IsConeOver (signature_of names.now) cone }
    ensures { OnOk result (into.new.items ≡ into.old.items ++ cone_line names.now cone) }
{
    let derivative = Symbol::Derivative {
        dependent: cone.dependent,
        operator: cone.operator,
    };
    into.extend_from_slice(b"cone ")?;
    push_symbol(into, names, derivative)?;
    into.extend_from_slice(b" free ")?;
    push_free_names(into, names, cone)?;
    into.extend_from_slice(b"\n")
}

/// Appends the lines of cones.
fn push_cone_lines(into: &mut Vec<u8>, names: &Names, cones: &[Cone]) -> Result<(), AllocError>
    requires { All (IsConeOver (signature_of names.now)) cones.now }
    ensures { OnOk result (into.new.items ≡ into.old.items
        ++ flat_map (cone_line names.now) cones.now) }
{
    'cones: for k in 0..cones.len() {
        push_cone_line(into, names, cones[k])?;
    }
    Ok(())
}

/// Appends the line of a parametric derivative.
fn push_free_line(into: &mut Vec<u8>, names: &Names, symbol: Symbol) -> Result<(), AllocError>
    requires { BelongsTo (signature_of names.now) symbol }
    ensures { OnOk result (into.new.items ≡ into.old.items ++ free_line names.now symbol) }
{
    into.extend_from_slice(b"free ")?;
    push_symbol(into, names, symbol)?;
    into.extend_from_slice(b"\n")
}

/// Appends the lines of parametric derivatives.
fn push_free_lines(into: &mut Vec<u8>, names: &Names, symbols: &[Symbol]) -> Result<(), AllocError>
    requires { All (BelongsTo (signature_of names.now)) symbols.now }
    ensures { OnOk result (into.new.items ≡ into.old.items
        ++ flat_map (free_line names.now) symbols.now) }
{
    'symbols: for k in 0..symbols.len() {
        push_free_line(into, names, symbols[k])?;
    }
    Ok(())
}

/// Appends the first line of a report.
fn push_head(into: &mut Vec<u8>, number: u32, order: u8) -> Result<(), AllocError>
    ensures { OnOk result (into.new.items ≡ into.old.items ++ head_line number order) }
{
    into.extend_from_slice(b"parametric chain ")?;
    push_number(into, number)?;
    into.extend_from_slice(b" order ")?;
    push_number(into, u32::from(order))?;
    into.extend_from_slice(b"\n")
}

/// Appends the lines of the cones of a chain, or the line that stands in their place.
fn push_cones(
    alloc: Global,
    book: &Book,
    names: &Names,
    chain: &State,
    into: &mut Vec<u8>,
) -> Result<ParametricEnd, AllocError>
    requires stands { StandsIn book.now chain.now }
    requires signature { signature_of names.now ≡ book.now.ranking.signature }
    ensures printed { OnOk result (into.new.items ≡ into.old.items
        ++ cone_lines book.now.ranking names.now (state_in book.now chain.now)) }
    ensures ending { IfOk result (λ end. is_large end
        ≡ has_many_cones book.now.ranking (state_in book.now chain.now)) }
{
    // What is true of every ranking and every book.
    let _ = book.ranking().signature();
    book.opened();
    match cones(alloc, book, chain) {
        Ok(cones) => {
            push_cone_lines(into, names, cones.as_slice())?;
            Ok(ParametricEnd::Done)
        }
        Err(ConeFault::TooMany) => {
            into.extend_from_slice(b"stopped large cones\n")?;
            Ok(ParametricEnd::Large)
        }
        Err(ConeFault::Memory) => Err(AllocError),
    }
}

/// Appends what is printed of a chain's parametric derivatives up to a total order, and of its
/// cones, behind a document. On a refusal of memory `into` is as before.
pub fn write_parametric_report(
    alloc: Global,
    book: &Book,
    names: &Names,
    number: u32,
    chain: &State,
    order: u8,
    into: &mut Vec<u8>,
) -> Result<ParametricEnd, AllocError>
    requires stands { StandsIn book.now chain.now }
    requires signature { signature_of names.now ≡ book.now.ranking.signature }
    requires low { order ≤ 60 }
    ensures printed { OnOk result (into.new.items ≡ into.old.items ++ parametric_report
        book.now.ranking names.now number (state_in book.now chain.now) order) }
    ensures ending { IfOk result (λ end. is_large end
        ≡ has_many_cones book.now.ranking (state_in book.now chain.now)) }
    ensures refused { OnErr result (into.new.items ≡ into.old.items) }
{
    let members = parametric(alloc, book, chain, order)?;
    let mut text = Vec::new(alloc);
    push_head(&mut text, number, order)?;
    push_free_lines(&mut text, names, members.as_slice())?;
    let end = push_cones(alloc, book, names, chain, &mut text)?;
    text.extend_from_slice(b"end\n")?;
    into.extend_from_slice(&text)?;
    Ok(end)
}
