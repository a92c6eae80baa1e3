//! The laws of rankings, for contracts alone: no call here does anything when it runs.

ghost use Rattle.std.specs.Prelude.{◌≡◌, ◌<◌, IsTrue, sum};
ghost use Rattle.std.specs.Ordering.{ordering_reverse};
ghost use Rattle.std.specs.declared.cmp.Ordering.TheVariants.{Less, Equal};
ghost use Rattle.dz_rank.specs.Symbols.{is_derivative, derivative_by};
ghost use Rattle.dz_rank.specs.Rankings.{ranking_cmp};

use crate::rankings::Ranking;
use crate::symbols::{Operator, Symbol};

/// The order of a ranking is a total order of all symbols, in which only equal symbols tie.
pub fn order_is_total(ranking: &Ranking, a: Symbol, b: Symbol, c: Symbol)
    ensures reflexive { ranking_cmp ranking.now a a ≡ Equal }
    ensures antisymmetric { ranking_cmp ranking.now a b ≡ Equal → a ≡ b }
    ensures total { ranking_cmp ranking.now b a ≡ ordering_reverse (ranking_cmp ranking.now a b) }
    ensures transitive { ranking_cmp ranking.now a b ≡ Less → ranking_cmp ranking.now b c ≡ Less
        → ranking_cmp ranking.now a c ≡ Less }
{}

/// A proper operator takes a derivative to a greater one.
pub fn raising_grows(ranking: &Ranking, a: Symbol, operator: Operator)
    requires derivative { IsTrue (is_derivative a) }
    requires proper { 0 < sum operator.counts }
    ensures { ranking_cmp ranking.now a (derivative_by operator a) ≡ Less }
{}

/// An operator keeps the order of two derivatives.
#[tactic(auto, using(crate::proofs::Raising::keeps_order_of_symbols))]
pub fn raising_keeps_order(ranking: &Ranking, a: Symbol, b: Symbol, operator: Operator)
    requires first { IsTrue (is_derivative a) }
    requires second { IsTrue (is_derivative b) }
    ensures { ranking_cmp ranking.now (derivative_by operator a) (derivative_by operator b)
        ≡ ranking_cmp ranking.now a b }
{}
