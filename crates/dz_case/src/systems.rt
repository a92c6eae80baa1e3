//! The systems of cases, and their books.

ghost use Rattle.std.specs.Prelude.{◌≡◌, All, IfOk, OnOk};
ghost use Rattle.dz_rank.specs.Rankings.{IsRanking};
ghost use Rattle.dz_poly.specs.Books.{IsKept};
ghost use Rattle.dz_diff.specs.States.{LiveAll};
ghost use Rattle.dz_syntax.specs.Names.{signature_of};
ghost use Rattle.dz_syntax.specs.Postfix.{IsExpression};
ghost use Rattle.dz_syntax.specs.Systems.{HasExpressions, tree_of};
ghost use Rattle.dz_move.specs.Systems.{IsSystemIn};

use crate::CaseStop;
use dz_form::expand;
use dz_move::System;
use dz_poly::{Book, Poly, PolyStop};
use dz_rank::Ranking;
use dz_syntax::{Form, Item, SyntaxKind, SystemTree, read_system};
use std::alloc::Global;

/// The system of a case, as it is written: in the form of plain systems, or of systems with questions.
pub fn read_case(alloc: Global, text: &[u8], form: Form) -> Result<SystemTree, CaseStop>
    ensures ranking { IfOk result (λ t. IsRanking
        (record { signature = (tree_of t).signature; blocks = (tree_of t).blocks })) }
    ensures expressions { IfOk result (λ t. HasExpressions (tree_of t)) }
    ensures signature { IfOk result (λ t. t.signature ≡ signature_of t.names) }
{
    match read_system(alloc, text, form) {
        Ok(tree) => Ok(tree),
        Err(fault) => match fault.kind {
            SyntaxKind::Memory => Err(CaseStop::Memory),
            _ => Err(CaseStop::NoCase),
        },
    }
}

/// A book under the ranking of a case.
pub fn book_for(alloc: Global, case: &SystemTree) -> Result<Book, CaseStop>
    requires { IsRanking
        (record { signature = (tree_of case.now).signature; blocks = (tree_of case.now).blocks }) }
    ensures { IfOk result (λ book. book.ranking.signature ≡ (tree_of case.now).signature) }
{
    let Ok(ranking) = Ranking::new(alloc, case.signature, &case.blocks) else {
        return Err(CaseStop::Memory);
    };
    Ok(Book::new(alloc, ranking))
}

/// The values of items.
pub fn values(alloc: Global, book: &mut Book, items: &[Item]) -> Result<Vec<Poly>, PolyStop>
    requires { All (λ item. IsExpression book.old.ranking.signature item) items.now }
    ensures live { IfOk result (λ ps. LiveAll book.new ps.items) }
    ensures kept { OnOk result (IsKept book.old book.new) }
{
    let mut polys = Vec::new(alloc);
    'items: for index in 0..items.len() {
        let p = expand(alloc, book, &items[index])?;
        polys.push(p)?;
    }
    Ok(polys)
}

/// The system of a case that was read.
pub fn system_of(alloc: Global, book: &mut Book, tree: &SystemTree) -> Result<System, CaseStop>
    requires ranking { book.old.ranking.signature ≡ (tree_of tree.now).signature }
    requires expressions { HasExpressions (tree_of tree.now) }
    ensures system { IfOk result (λ s. IsSystemIn book.new s) }
    ensures kept { OnOk result (IsKept book.old book.new) }
{
    let equations = values(alloc, book, &tree.equations)?;
    let inequations = values(alloc, book, &tree.inequations)?;
    match System::new(book, equations, inequations) {
        Ok(system) => Ok(system),
        Err(_) => Err(CaseStop::NoCase),
    }
}
