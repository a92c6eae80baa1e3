//! Laws for contracts alone: the calls do nothing when they run.

ghost use Rattle.std.specs.Prelude.{◌≡◌, ◌≤◌, ℕ, List, Ok};
ghost use Rattle.dz_rank.specs.Rankings.{IsOrderly};
ghost use Rattle.dz_monomials.specs.Ranked.{symbols_under};
ghost use Rattle.dz_diff.specs.States.{StandsIn, state_in};
ghost use Rattle.dz_move.specs.Lines.{Evidence};
ghost use Rattle.dz_jet.specs.Clashes.{IsChain};
ghost use Rattle.dz_jet.specs.Initial.{AreEnough, AreInitialData};
ghost use Rattle.dz_jet.specs.Jets.{Values, jet_order};
ghost use Rattle.dz_syntax.specs.SystemGrammar.{IsSystem};
ghost use Rattle.dz_syntax.specs.Systems.{Tree as Text};
ghost use Rattle.dz_syntax.specs.declared.endings.Form.TheVariants.{Plain};
ghost use Rattle.dz_move.specs.Root.{System};
ghost use Rattle.dz_words.specs.declared.verbs.Verb.TheVariants.{Check, Decompose};
ghost use Rattle.dz_words.specs.declared.words.Request.{Request};
ghost use Rattle.dz_run.specs.Accepted.{IsAccepted};
ghost use Rattle.dz_run.specs.System.{system_answer};

use dz_diff::State;
use dz_poly::Book;

/// The parametric derivatives are enough: a jet of a chain that is given values for exactly the
/// independents, the parametric derivatives up to its own order, and the leaders, misses none and
/// refuses none.
pub fn parametric_is_enough(book: &Book, chain: &State, order: u8)
    requires stands { StandsIn book.now chain.now }
    requires orderly { IsOrderly book.now.ranking }
    requires low { order ≤ 20 }
    ensures { (evidence : List Evidence)
        → IsChain book.now.ranking (state_in book.now chain.now) evidence → (known : Values)
        → AreInitialData book.now.ranking (state_in book.now chain.now)
        (jet_order (symbols_under book.now.ranking) (state_in book.now chain.now) order) known
        → AreEnough book.now.ranking (state_in book.now chain.now) known order }
{
    dz_jet::laws::parametric_is_enough(book, chain, order)
}

/// What `decompose` prints for a system whose items expand, within its limits, is accepted by `check`,
/// and partial where a case is open. The input of `check` is the bytes of the system up to its `end`, a
/// line feed, and what was printed.
pub fn documents_are_accepted()
    ensures { (q c : Request) (bytes : List ℕ) (text : Text) (system : System)
        → q.verb ≡ Decompose → q.budget ≤ 20000000 → c.verb ≡ Check
        → IsSystem Plain bytes text → system_answer text ≡ Ok system → IsAccepted q c bytes }
{}
