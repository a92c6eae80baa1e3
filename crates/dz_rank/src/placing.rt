//! How blocks become the table of a ranking.

ghost use Rattle.std.specs.Prelude.{◌≡◌, ◌<◌, ◌≤◌, true, false, IfOk, OnOk, IfErr, MatchOption, All, map};
ghost use Rattle.std.specs.List.{range_with_len};
ghost use Rattle.dz_rank.specs.Rankings.{block_values, dependents_of, IsFirstRepeat, IsLeastMissing};
ghost use Rattle.dz_rank.specs.Rankings.{ranking_value, IsRepeatFree, HasAllBelow, IsRanking, IsFaultOf};
ghost use Rattle.dz_rank.specs.Rankings.{stands_in, place_of};
ghost use Rattle.dz_rank.specs.Standings.{standing_of};

use crate::rankings::{Block, Kind, RankFault, Signature, Standing};
use std::alloc::{AllocError, Global};

/// All dependents in the order in which the blocks name them.
pub(crate) fn named_dependents(alloc: Global, blocks: &[Block]) -> Result<Vec<u8>, AllocError>
    ensures { IfOk result (λ named. named.items ≡ dependents_of (block_values blocks.now)) }
{
    let mut named = Vec::new(alloc);
    for i in 0..blocks.len() {
        named.extend_from_slice(&blocks[i].dependents)?;
    }
    Ok(named)
}

/// The first dependent that stands before already. Numbers are below 16, so that at most 16 stand
/// before it, and each search is short.
#[tactic(auto, using(crate::proofs::BlockLists::none_apart, crate::proofs::BlockLists::apart_more, crate::proofs::BlockLists::all_apart, crate::proofs::BlockLists::first_repeat))]
pub(crate) fn first_repeat(dependents: &[u8]) -> Option<u8>
    ensures { MatchOption result
        (IsRepeatFree dependents.now)
        (λ u. IsFirstRepeat dependents.now u) }
{
    for i in 0..dependents.len() {
        if dependents[..i].contains(&dependents[i]) {
            return Some(dependents[i]);
        }
    }
    None
}

/// The least number below `count` that is missing.
#[tactic(auto, using(crate::proofs::BlockLists::none_below, crate::proofs::BlockLists::one_more_below, crate::proofs::BlockLists::all_below, crate::proofs::BlockLists::least_missing))]
pub(crate) fn least_missing(dependents: &[u8], count: u8) -> Option<u8>
    ensures { MatchOption result
        (HasAllBelow count dependents.now)
        (λ u. IsLeastMissing count dependents.now u) }
{
    for u in 0..count {
        if !dependents.contains(&u) {
            return Some(u);
        }
    }
    None
}

/// Tests whether blocks name each dependent of a signature once.
#[tactic(auto, using(crate::proofs::Tables::is_ranking))]
pub(crate) fn check_names(
    alloc: Global,
    signature: Signature,
    blocks: &[Block],
) -> Result<(), RankFault>
    requires few_independents { signature.independents ≤ 4 }
    requires few_dependents { signature.dependents ≤ 16 }
    requires below { All (λ u. u < signature.dependents) (dependents_of (block_values blocks.now)) }
    ensures made { OnOk result (IsRanking (ranking_value signature blocks.now)) }
    ensures fault { IfErr result (λ e. IsFaultOf (ranking_value signature blocks.now) e) }
{
    let named = named_dependents(alloc, blocks).map_err(|_| RankFault::Memory)?;
    match (
        first_repeat(&named),
        least_missing(&named, signature.dependents),
    ) {
        (Some(dependent), _) => Err(RankFault::Twice(dependent)),
        (None, Some(dependent)) => Err(RankFault::Missing(dependent)),
        (None, None) => Ok(()),
    }
}

/// Where a dependent stands in a block.
fn place_in(dependents: &[u8], dependent: u8) -> Option<usize>
    ensures { MatchOption result
        (stands_in dependent dependents.now ≡ false)
        (λ place. (stands_in dependent dependents.now ≡ true)
        × (place ≡ place_of dependent dependents.now)) }
{
    for i in 0..dependents.len() {
        if dependents[i] == dependent {
            return Some(i);
        }
    }
    None
}

/// Where a dependent stands in blocks.
fn find_standing(blocks: &[Block], dependent: u8) -> Standing
    ensures { result ≡ standing_of (block_values blocks.now) dependent }
{
    for i in 0..blocks.len() {
        if let Some(place) = place_in(&blocks[i].dependents, dependent) {
            return Standing {
                block: i,
                kind: blocks[i].kind,
                place,
            };
        }
    }
    Standing {
        block: blocks.len(),
        kind: Kind::LexA,
        place: dependent as usize,
    }
}

/// Where each dependent below `count` stands.
#[tactic(auto, using(crate::proofs::Tables::one_standing_more))]
pub(crate) fn find_standings(
    alloc: Global,
    blocks: &[Block],
    count: u8,
) -> Result<Vec<Standing>, AllocError>
    ensures { IfOk result (λ table.
        table.items ≡ map (standing_of (block_values blocks.now)) (range_with_len 0 count)) }
{
    let mut table = Vec::new(alloc);
    for u in 0..count {
        table.push(find_standing(blocks, u))?;
    }
    Ok(table)
}

/// Blocks with the same kinds and dependents.
pub(crate) fn copy_blocks(alloc: Global, blocks: &[Block]) -> Result<Vec<Block>, AllocError>
    ensures { IfOk result (λ copy. block_values copy.items ≡ block_values blocks.now) }
{
    let mut copy = Vec::new(alloc);
    for i in 0..blocks.len() {
        let mut dependents = Vec::new(alloc);
        dependents.extend_from_slice(&blocks[i].dependents)?;
        copy.push(Block {
            kind: blocks[i].kind,
            dependents,
        })?;
    }
    Ok(copy)
}
