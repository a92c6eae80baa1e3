// States of systems that are read from texts.
ghost use Rattle.std.specs.Prelude.{◌≡◌, All, IfSome};
ghost use Rattle.dz_poly.specs.Books.{IsKept};
ghost use Rattle.dz_rank.specs.Rankings.{IsRanking};
ghost use Rattle.dz_syntax.specs.Postfix.{IsExpression};
ghost use Rattle.dz_syntax.specs.Systems.{HasExpressions, tree_of};
ghost use Rattle.dz_diff.specs.States.{LiveAll, StandsIn};

use dz_form::expand;
use dz_move::{System, root};
use dz_poly::{Book, Poly};
use dz_rank::Ranking;
use dz_step::State;
use dz_syntax::{Item, SystemTree};
use std::alloc::Global;

/// A book without polynomials under the ranking of a system.
pub(crate) fn book_of(alloc: Global, tree: &SystemTree) -> Option<Book>
    requires { IsRanking (record {
      signature = (tree_of tree.now).signature;
      blocks = (tree_of tree.now).blocks;
    }) }
    ensures { IfSome result (λ book. book.ranking.signature ≡ tree.now.signature) }
{
    let ranking = Ranking::new(alloc, tree.signature, &tree.blocks).ok()?;
    Some(Book::new(alloc, ranking))
}

/// The values of expressions.
fn values(alloc: Global, book: &mut Book, items: &[Item]) -> Option<Vec<Poly>>
    requires { All (λ item. IsExpression book.old.ranking.signature item) items.now }
    ensures live { IfSome result (λ values. LiveAll book.new values.items) }
    ensures kept { IfSome result (λ values. IsKept book.old book.new) }
{
    let mut values = Vec::new(alloc);
    'items: for index in 0..items.len() {
        let value = expand(alloc, book, &items[index]).ok()?;
        values.push(value).ok()?;
    }
    Some(values)
}

/// The root of a system.
pub(crate) fn root_of(alloc: Global, book: &mut Book, tree: &SystemTree) -> Option<State>
    requires signature { book.old.ranking.signature ≡ (tree_of tree.now).signature }
    requires expressions { HasExpressions (tree_of tree.now) }
    ensures stands { IfSome result (λ state. StandsIn book.new state) }
    ensures kept { IfSome result (λ state. IsKept book.old book.new) }
{
    let equations = values(alloc, book, &tree.equations)?;
    let inequations = values(alloc, book, &tree.inequations)?;
    let system = System::new(book, equations, inequations).ok()?;
    root(alloc, book, &system).ok()
}
