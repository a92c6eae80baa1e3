//! The laws of worked trees, and worked examples of the definitions.
//!
//! Each function has an empty body: it does nothing, and its clause is the law, or what was
//! computed by hand.

ghost use Rattle.std.specs.Prelude.{◌≤◌, ℕ};
ghost use Rattle.dz_rank.specs.Rankings.{RankingValue};
ghost use Rattle.dz_diff.specs.Operations.{Setting};
ghost use Rattle.dz_engine.specs.Laws.{OrderLaws, WorkedLaws};
ghost use Rattle.dz_engine.specs.Examples.{
  RunExamples,
  ConicExamples,
  MoveExamples,
  PlaceExamples,
  PairExamples,
  ModelExamples,
  MixedExamples,
};

/// The order of work leads to at most one tree, and this tree is certified.
#[tactic(auto, using(crate::proofs::WorkedTrees::worked_laws))]
pub fn worked_trees_are_certified()
    ensures { (g : Setting) → WorkedLaws g }
{}

/// The order of work never stands without an answer: for every system within its limits and every
/// budget of a tree there is a worked tree, and at each of its states the line that is named holds. The line
/// at a closed state is `closed`, and at a state at rest `chain`; at the root it is the whole tree.
#[tactic(auto, using(crate::proofs::OrderLaws::order_laws))]
pub fn order_of_work_goes_on()
    ensures { (r : RankingValue) → r.signature.independents ≤ 4 → r.signature.dependents ≤ 16
        → (budget : ℕ) → budget ≤ 20000000 → OrderLaws r budget }
{}

/// Steps need permission, runs may end at zero, and a full run is cut at its budget.
#[tactic(auto, using(crate::proofs::ExampleProofs::run_examples))]
pub fn worked_runs()
    ensures { RunExamples }
{}

/// One equation of the second degree: its tree, its chains, and what is wrong with other trees.
#[tactic(auto, using(crate::proofs::ExampleProofs::conic_examples))]
pub fn worked_conic()
    ensures { ConicExamples }
{}

/// Divisions, factors, weeding, and an operation that does not fit.
#[tactic(auto, using(crate::proofs::ExampleProofs::move_examples))]
pub fn worked_moves()
    ensures { MoveExamples }
{}

/// The root has no repeats, and neither has a state after a move.
#[tactic(auto, using(crate::proofs::ExampleProofs::place_examples))]
pub fn worked_places()
    ensures { PlaceExamples }
{}

/// Critical pairs, their Delta-polynomials, and the trees with them.
#[tactic(auto, using(crate::proofs::ExampleProofs::pair_examples))]
pub fn worked_pairs()
    ensures { PairExamples }
{}

/// A model of two species, observed through one of them.
#[tactic(auto, using(crate::proofs::ExampleProofs::model_examples))]
pub fn worked_model()
    ensures { ModelExamples }
{}

/// The first lines of a tree over two independents.
#[tactic(auto, using(crate::proofs::ExampleProofs::mixed_examples))]
pub fn worked_mixture()
    ensures { MixedExamples }
{}
