//! The laws of jets.
//!
//! Each function has an empty body: it does nothing, and its clause is the law.

ghost use Rattle.std.specs.Prelude.{◌≤◌, ◌↔◌, IsTrue, List};
ghost use Rattle.dz_algebra.specs.Domain.{Operations, DomainLaws};
ghost use Rattle.dz_rank.specs.Rankings.{RankingValue, IsOrderly};
ghost use Rattle.dz_rank.specs.declared.symbols.Symbol.{Symbol};
ghost use Rattle.dz_diff.specs.State.{State as StateOf};
ghost use Rattle.dz_move.specs.Lines.{Evidence};
ghost use Rattle.dz_jet.specs.Clashes.{AreAdmissible, IsChain};
ghost use Rattle.dz_diff.specs.States.{StandsIn, state_in};
ghost use Rattle.dz_monomials.specs.Ranked.{symbols_under};
ghost use Rattle.dz_jet.specs.Initial.{AreEnough, AreInitialData};
ghost use Rattle.dz_jet.specs.Jets.{Values, jet_order};
ghost use Rattle.dz_jet.specs.Laws.{ClashLaws, JetLaws};
ghost use Rattle.dz_jet.specs.Fractions.{fraction_operations};
ghost use Rattle.dz_jet.specs.Examples.{JetExamples, PairExamples};
ghost use Rattle.dz_jet.specs.Orderliness.{is_orderly};

use dz_diff::State;
use dz_poly::Book;

/// Jets never clash: for a chain with evidence, and values in a domain at which its equations
/// vanish and its initials and separants do not, it is enough that each proper derivative of a
/// leader is fixed by one member. Then every derivative of every member has value zero.
pub fn jets_never_clash<E>()
    ensures { (r : RankingValue) (s : StateOf) (evidence : List Evidence) → IsChain r s evidence
        → (o : Operations E) → DomainLaws o → (at : Symbol → E) → AreAdmissible r s o at
        → ClashLaws r s o at }
{}

/// The parametric derivatives are enough: a jet of a chain that is given values for exactly the
/// independents, the members of [`parametric`](dz_parametric::parametric) at its own order, and the
/// leaders, misses none and refuses none. The leaders are needed, since their values must meet the
/// equations.
#[tactic(auto, using(crate::proofs::InitialData::initial_data_enough))]
pub fn parametric_is_enough(book: &Book, chain: &State, order: u8)
    requires stands { StandsIn book.now chain.now }
    requires orderly { IsOrderly book.now.ranking }
    requires low { order ≤ 20 }
    ensures { (evidence : List Evidence)
        → IsChain book.now.ranking (state_in book.now chain.now) evidence → (known : Values)
        → AreInitialData book.now.ranking (state_in book.now chain.now)
        (jet_order (symbols_under book.now.ranking) (state_in book.now chain.now) order) known
        → AreEnough book.now.ranking (state_in book.now chain.now) known order }
{}

/// The reduced fractions are a domain.
#[tactic(auto, using(crate::proofs::FractionLaws::fraction_laws))]
pub fn fractions_are_a_domain()
    ensures { DomainLaws fraction_operations }
{}

/// At no derivative do two equations of a chain clash: where a jet is made, every derivative of
/// every equation that leads to a symbol within its order has value zero.
pub fn jets_agree_with_chains()
    ensures { (r : RankingValue) (s : StateOf) (evidence : List Evidence) → IsChain r s evidence
        → IsOrderly r → JetLaws r s }
{}

/// Jets of worked examples are as they were computed by hand.
#[tactic(auto, using(crate::proofs::ExampleProofs::jet_examples))]
pub fn worked_jets()
    ensures { JetExamples }
{}

/// So are those of examples with two independents, in which two equations lead to one derivative.
#[tactic(auto, using(crate::proofs::ExampleProofs::pair_examples))]
pub fn worked_pairs()
    ensures { PairExamples }
{}

/// The test of orderly rankings is exact.
#[tactic(auto, using(crate::proofs::OrderlyTests::orderly_tested))]
pub fn orderly_is_tested()
    ensures { (r : RankingValue) → IsTrue (is_orderly r) ↔ IsOrderly r }
{}
