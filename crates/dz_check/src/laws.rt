//! The laws of trees.
//!
//! Each function has an empty body: it does nothing, and its clause is the law.

ghost use Rattle.dz_monomials.specs.Lists.{AllOf};
ghost use Rattle.dz_diff.specs.Operations.{Setting};
ghost use Rattle.dz_check.specs.Certified.{IsCertified};
ghost use Rattle.dz_tree.specs.Chains.{IsChain};
ghost use Rattle.dz_check.specs.Laws.{TreeLaws};
ghost use Rattle.dz_move.specs.Root.{System};
ghost use Rattle.dz_tree.specs.Trees.{Tree};
ghost use Rattle.dz_check.specs.Walk.{chains_of, ends_in, ends_of};

/// A move leads to one state and a fork to two; and a tree is accepted exactly where each line
/// holds at its state and its running weight and no end is open.
#[tactic(auto, using(crate::proofs::LawProofs::tree_laws))]
pub fn trees_are_judged_by_line()
    ensures { (g : Setting) → TreeLaws g }
{}

/// The state at each line `chain` of a certified tree is a chain: autoreduced and coherent.
#[tactic(auto, using(crate::proofs::CertifiedChains::chains_are))]
pub fn chains_are_coherent()
    ensures { (g : Setting) (system : System) (tree : Tree) → IsCertified g system tree
        → AllOf (IsChain g) (chains_of (ends_in (ends_of g system tree))) }
{}
