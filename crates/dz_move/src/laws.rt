//! The laws of the states of trees.
//!
//! The function has an empty body: it does nothing, and its clause is the law.

ghost use Rattle.std.specs.Prelude.{◌≤◌};
ghost use Rattle.dz_rank.specs.Rankings.{RankingValue};
ghost use Rattle.dz_move.specs.Laws.{StateLaws};

/// The root of a system within its limits has the facts of a state, and moves and forks keep them;
/// and so it is with what may stand in a book.
#[tactic(auto, using(crate::proofs::StateFacts::state_laws))]
pub fn states_keep_their_facts()
    ensures { (r : RankingValue) → r.signature.independents ≤ 4 → StateLaws r }
{}
