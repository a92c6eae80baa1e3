//! The laws of cones, for contracts alone: no call here does anything when it runs.

ghost use Rattle.std.specs.Prelude.{IsTrue};
ghost use Rattle.dz_rank.specs.Symbols.{BelongsTo, is_derivative};
ghost use Rattle.dz_rank.specs.declared.symbols.Symbol.{Symbol};
ghost use Rattle.dz_diff.specs.States.{StandsIn, state_in};
ghost use Rattle.dz_parametric.specs.Examples.{ConeExamples};
ghost use Rattle.dz_parametric.specs.Laws.{IsCovered};

use dz_diff::State;
use dz_poly::Book;

/// A derivative of any total order is parametric exactly where it lies in exactly one of the cones
/// of a chain, and one that is not parametric lies in none.
#[tactic(auto, using(crate::proofs::ConeLaws::covered))]
pub fn cones_cover_parametric(book: &Book, chain: &State)
    requires { StandsIn book.now chain.now }
    ensures { (w : Symbol) → IsTrue (is_derivative w) → BelongsTo book.now.ranking.signature w
        → IsCovered book.now.ranking (state_in book.now chain.now) w }
{
    // What is true of every ranking and every book.
    let _ = book.ranking().signature();
    book.opened();
}

/// Cones of worked examples are as they were found by hand.
#[tactic(auto, using(crate::proofs::ExampleProofs::cone_examples))]
pub fn worked_cones()
    ensures { ConeExamples }
{}
