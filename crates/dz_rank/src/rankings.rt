//! Rankings.

ghost use Rattle.std.specs.Prelude.{◌≡◌};

use crate::keys::compare_in_block;
use crate::placing::{check_names, copy_blocks, find_standings};
use crate::symbols::Symbol;
use std::alloc::Global;
use std::cmp::Ordering;
use std::marker::Model;
use thiserror::Error;

/// How the derivatives of a block are compared: by the listed keys in turn.
#[derive(Clone, Copy, Debug, PartialEq, Eq)]
pub enum Kind {
    /// Total order, lex of exponents, place.
    GrlexA,
    /// Total order, place, lex of exponents.
    GrlexB,
    /// Total order, reverse lex of exponents, place.
    DegrevA,
    /// Total order, place, reverse lex of exponents.
    DegrevB,
    /// Lex of exponents, place.
    LexA,
}

/// Dependents whose derivatives are compared by one kind; an earlier dependent has the greater
/// place.
#[derive(Debug, Drop)]
pub struct Block {
    pub kind: Kind,
    pub dependents: Vec<u8>,
}

/// The numbers of independents, at most 4, and of dependents, at most 16.
#[derive(Clone, Copy, Debug, PartialEq, Eq)]
pub struct Signature {
    pub independents: u8,
    pub dependents: u8,
}

/// Why blocks are no ranking of a signature.
#[derive(Debug, Drop, PartialEq, Eq, Error)]
pub enum RankFault {
    #[error("out of memory")]
    Memory,
    /// The first dependent in the order of the blocks that stands before already.
    #[error("dependent {0} stands twice")]
    Twice(u8),
    /// The least dependent of the signature that stands nowhere, where none stands twice.
    #[error("dependent {0} is missing")]
    Missing(u8),
}

/// Where a dependent stands: the number of its block, its kind, and the place in the block.
#[derive(Clone, Copy)]
pub(crate) struct Standing {
    pub(crate) block: usize,
    pub(crate) kind: Kind,
    pub(crate) place: usize,
}

/// A total order of the symbols of a signature that goes with derivation.
#[derive(Drop)]
pub struct Ranking {
    signature: Signature,
    blocks: Vec<Block>,
    /// Where each dependent stands, so that no comparison searches the blocks.
    standings: Vec<Standing>,
}

impl Model for Ranking {
    ghost use Rattle.dz_rank.specs.Rankings.{RankingValue, ranking_value};
    ghost use Rattle.dz_rank.specs.Standings.{IsTabled};

    ghost Value = { RankingValue };

    ghost view = { λ r. ranking_value r.signature r.blocks.items };

    ghost invariant = { λ r. IsTabled (ranking_value r.signature r.blocks.items) r.standings.items };
}

impl Ranking {
    ghost use Rattle.std.specs.Prelude.{◌≡◌, ◌≢◌, ◌≤◌, ◌<◌, ◌↔◌, ℕ, IsTrue, MatchBool, IfOk, OnOk, IfErr, All};
    ghost use Rattle.dz_rank.specs.Rankings.{block_values, dependents_of, ranking_value};
    ghost use Rattle.dz_rank.specs.Rankings.{IsRanking, IsFaultOf, IsOrderly, block_number, ranking_cmp};
    ghost use Rattle.dz_rank.specs.Standings.{HaveOneBlock, standing_of};

    /// The ranking of a signature by its blocks, the greatest first.
    #[tactic(auto, using(crate::proofs::Tables::tabled_copy))]
    pub fn new(alloc: Global, signature: Signature, blocks: &[Block]) -> Result<Ranking, RankFault>
        requires few_independents { signature.independents ≤ 4 }
        requires few_dependents { signature.dependents ≤ 16 }
        requires below { All (λ u. u < signature.dependents)
            (dependents_of (block_values blocks.now)) }
        ensures value { IfOk result (λ ranking. ranking ≡ ranking_value signature blocks.now) }
        ensures made { OnOk result (IsRanking (ranking_value signature blocks.now)) }
        ensures fault { IfErr result (λ e. IsFaultOf (ranking_value signature blocks.now) e) }
    {
        check_names(alloc, signature, blocks)?;
        let standings = find_standings(alloc, blocks, signature.dependents).map_err(
            |_| RankFault::Memory,
        )?;
        let blocks = copy_blocks(alloc, blocks).map_err(|_| RankFault::Memory)?;
        Ok(Ranking {
            signature,
            blocks,
            standings,
        })
    }

    /// The signature that was handed to `new`.
    pub fn signature(&self) -> Signature
        ensures value { result ≡ self.now.signature }
        ensures ranking { IsRanking self.now }
    {
        self.signature
    }

    /// Where a dependent stands.
    fn standing(&self, dependent: u8) -> Standing
        ensures { result ≡ standing_of self.now.blocks dependent }
    {
        match self.standings.get(dependent as usize) {
            Some(standing) => *standing,
            None => Standing {
                block: self.blocks.len(),
                kind: Kind::LexA,
                place: dependent as usize,
            },
        }
    }

    /// Whether all dependents stand in the block of the first.
    #[tactic(auto, using(crate::proofs::Orderly::none_in_block, crate::proofs::Orderly::one_more_in_block, crate::proofs::Orderly::all_in_block))]
    fn has_one_block(&self) -> bool
        ensures { MatchBool result
            (HaveOneBlock self.now.signature.dependents self.now.blocks)
            ((u : ℕ) × (u < self.now.signature.dependents)
            × (block_number self.now.blocks u ≢ block_number self.now.blocks 0)) }
    {
        for u in 0..self.signature.dependents {
            if self.standing(u).block != self.standing(0).block {
                return false;
            }
        }
        true
    }

    /// Whether a greater total order always makes a greater derivative.
    #[tactic(auto, using(crate::proofs::Orderly::orderly_without_independents, crate::proofs::Orderly::orderly_without_dependents, crate::proofs::Orderly::orderly_of_one_block, crate::proofs::Orderly::not_orderly_of_two_blocks, crate::proofs::Orderly::not_orderly_of_lex))]
    pub fn is_orderly(&self) -> bool
        ensures { IsTrue result ↔ IsOrderly self.now }
    {
        let independents = self.signature.independents;
        if independents == 0 || self.signature.dependents == 0 {
            return true;
        }
        self.has_one_block() && (independents == 1 || self.standing(0).kind != Kind::LexA)
    }

    /// Compares two symbols in constant time.
    pub fn compare(&self, a: Symbol, b: Symbol) -> Ordering
        ensures { result ≡ ranking_cmp self.now a b }
    {
        match (a, b) {
            (Symbol::Independent(i), Symbol::Independent(j)) => j.cmp(&i),
            (Symbol::Independent(_), Symbol::Derivative { .. }) => Ordering::Less,
            (Symbol::Derivative { .. }, Symbol::Independent(_)) => Ordering::Greater,
            (
                Symbol::Derivative {
                    dependent: u,
                    operator: s,
                },
                Symbol::Derivative {
                    dependent: v,
                    operator: t,
                },
            ) => {
                let first = self.standing(u);
                let second = self.standing(v);
                match second.block.cmp(&first.block) {
                    Ordering::Equal => compare_in_block(
                        first.kind,
                        s,
                        t,
                        second.place.cmp(&first.place),
                    ),
                    order => order,
                }
            }
        }
    }
}
