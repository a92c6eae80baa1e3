// The polynomials of a system: its items are expanded in order.
ghost use Rattle.std.specs.Prelude.{◌≡◌, ◌++◌, All, IfOk, OnOk, decimal};
ghost use Rattle.dz_form.specs.Values.{item_answer};
ghost use Rattle.dz_poly.specs.Books.{IsKept};
ghost use Rattle.dz_monomials.specs.Ranked.{symbols_under};
ghost use Rattle.dz_syntax.specs.Postfix.{IsExpression};
ghost use Rattle.dz_syntax.specs.Systems.{HasExpressions, tree_of};
ghost use Rattle.dz_run.specs.System.{GivesAll, GivesNumbered, GivesSystem};
ghost use Rattle.dz_run.specs.System.{group_name, items_answer, numbered, questions_answer, ranking_of};
ghost use Rattle.dz_run.specs.System.{refused_line, system_answer};

use dz_form::{expand, limit_word};
use dz_move::System;
use dz_poly::{Book, Limit, Poly, PolyStop};
use dz_syntax::{Item, SystemTree};
use itoa::Buffer;
use std::alloc::{AllocError, AllocFailed, Global};

/// The lists of a system.
#[derive(Clone, Copy, Debug, PartialEq, Eq)]
pub(crate) enum Group {
    Equation,
    Inequation,
    Question,
}

/// Why a text that was read gives no system. Items are numbered in their group, from 1.
#[derive(Clone, Copy, Debug, PartialEq, Eq)]
pub(crate) enum Refused {
    /// The first refused operation of the first refused item is wide.
    Wide(Group, usize),
    /// It passes this limit.
    Large(Group, usize, Limit),
    /// The system passes this limit.
    TooMany(Limit),
}

/// Why there is no system.
#[derive(Debug, Drop)]
pub(crate) enum Stop {
    Memory,
    Refused(Refused),
}

impl From<AllocError> for Stop {
    ghost use Rattle.std.specs.Prelude.{◌≡◌};
    ghost use Rattle.dz_run.specs.declared.system.Stop.TheVariants.{Memory};

    ghost from_gives = { λ _ e. e ≡ Memory };

    fn from(_error: AllocError) -> Stop {
        Stop::Memory
    }
}

impl<T: Drop> From<AllocFailed<T>> for Stop {
    ghost use Rattle.std.specs.Prelude.{◌≡◌};
    ghost use Rattle.dz_run.specs.declared.system.Stop.TheVariants.{Memory};

    ghost from_gives = { λ _ e. e ≡ Memory };

    fn from(_error: AllocFailed<T>) -> Stop {
        Stop::Memory
    }
}

/// The value of the item with this number in its group.
fn expand_numbered(
    alloc: Global,
    book: &mut Book,
    group: Group,
    number: usize,
    item: &Item,
) -> Result<Poly, Stop>
    requires { IsExpression book.old.ranking.signature item.now }
    ensures value { GivesNumbered book.new result (numbered group number (item_answer (symbols_under book.old.ranking) item.now)) }
    ensures kept { OnOk result (IsKept book.old book.new) }
{
    match expand(alloc, book, item) {
        Ok(p) => Ok(p),
        Err(PolyStop::Memory) => Err(Stop::Memory),
        Err(PolyStop::Wide) => Err(Stop::Refused(Refused::Wide(group, number))),
        Err(PolyStop::Large(limit)) => Err(Stop::Refused(Refused::Large(group, number, limit))),
    }
}

/// The values of the items of a group.
fn expand_items(
    alloc: Global,
    book: &mut Book,
    group: Group,
    items: &[Item],
) -> Result<Vec<Poly>, Stop>
    requires { All (λ item. IsExpression book.old.ranking.signature item) items.now }
    ensures values { GivesAll (λ ps. ps.items) book.new result (items_answer (symbols_under book.old.ranking) group 0 items.now) }
    ensures kept { OnOk result (IsKept book.old book.new) }
{
    let mut polys = Vec::new(alloc);
    'items: for index in 0..items.len() {
        let p = expand_numbered(alloc, book, group, index + 1, &items[index])?;
        polys.push(p)?;
    }
    Ok(polys)
}

/// The system of a text: the equations are expanded first, and the items of each group in order.
#[tactic(auto, unfolding(crate::specs::System::system_answer))]
pub(crate) fn system_of(alloc: Global, book: &mut Book, tree: &SystemTree) -> Result<System, Stop>
    requires ranking { book.old.ranking ≡ ranking_of (tree_of tree.now) }
    requires expressions { HasExpressions (tree_of tree.now) }
    ensures system { GivesSystem book.new result (system_answer (tree_of tree.now)) }
    ensures kept { OnOk result (IsKept book.old book.new) }
{
    let equations = expand_items(alloc, book, Group::Equation, &tree.equations)?;
    let inequations = expand_items(alloc, book, Group::Inequation, &tree.inequations)?;
    match System::new(book, equations, inequations) {
        Ok(system) => Ok(system),
        Err(limit) => Err(Stop::Refused(Refused::TooMany(limit))),
    }
}

/// The questions of a text, which are expanded in order.
#[tactic(auto, unfolding(crate::specs::System::questions_answer))]
pub(crate) fn questions_of(
    alloc: Global,
    book: &mut Book,
    tree: &SystemTree,
) -> Result<Vec<Poly>, Stop>
    requires ranking { book.old.ranking ≡ ranking_of (tree_of tree.now) }
    requires expressions { HasExpressions (tree_of tree.now) }
    ensures questions { GivesAll (λ ps. ps.items) book.new result (questions_answer (tree_of tree.now)) }
    ensures kept { OnOk result (IsKept book.old book.new) }
{
    expand_items(alloc, book, Group::Question, &tree.questions)
}

/// The word for a group.
fn group_name(group: Group) -> &'static [u8]
    ensures { result.now ≡ group_name group }
{
    match group {
        Group::Equation => b"equation ",
        Group::Inequation => b"inequation ",
        Group::Question => b"question ",
    }
}

/// Appends the word for a group, and a number.
fn write_item(into: &mut Vec<u8>, group: Group, number: usize) -> Result<(), AllocError>
    ensures { OnOk result (into.new.items ≡ into.old.items ++ group_name group ++ decimal number) }
{
    let mut buffer = Buffer::new();
    into.extend_from_slice(group_name(group))?;
    into.extend_from_slice(buffer.format(number).as_bytes())
}

/// The line that names what is refused.
pub(crate) fn refused_line(alloc: Global, refused: Refused) -> Result<Vec<u8>, AllocError>
    ensures { IfOk result (λ text. text.items ≡ refused_line refused) }
{
    let mut text = Vec::new(alloc);
    match refused {
        Refused::Wide(group, number) => {
            write_item(&mut text, group, number)?;
            text.extend_from_slice(b" wide")?;
        }
        Refused::Large(group, number, limit) => {
            write_item(&mut text, group, number)?;
            text.extend_from_slice(b" large ")?;
            text.extend_from_slice(limit_word(limit))?;
        }
        Refused::TooMany(limit) => {
            text.extend_from_slice(b"system large ")?;
            text.extend_from_slice(limit_word(limit))?;
        }
    }
    text.extend_from_slice(b"\n")?;
    Ok(text)
}
