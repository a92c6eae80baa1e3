//! The independents, and the blocks of the ranking.

ghost use Rattle.std.specs.Prelude.{◌≡◌, ◌≤◌, ◌+◌, ◌-◌, length, IfOk};
ghost use Rattle.dz_rank.specs.Rankings.{block_values};
ghost use Rattle.dz_syntax.specs.Faults.{Gives};
ghost use Rattle.dz_syntax.specs.Names.{no_names};
ghost use Rattle.dz_syntax.specs.Blocks.{block_at, blocks, independents_at, numbers_from};

use crate::declaration::declarations;
use crate::fault::Stop;
use crate::marks::{close_bracket, derivations, expected, kind, open_bracket, semicolon};
use crate::names::{Group, Names};
use crate::token::next;
use dz_rank::{Block, Kind};
use std::alloc::{AllocError, Global};

/// Reads the independents, with the word before them and the semicolon after them.
#[tactic(auto, unfolding(crate::specs::Blocks::independents_at))]
pub(crate) fn independents<'a>(
    alloc: Global,
    names: &mut Names,
    text: &'a [u8],
) -> Result<&'a [u8], Stop>
    requires { names.old ≡ no_names }
    ensures read { Gives (λ t. (names.new, t.now)) result (independents_at names.old text.now) }
{
    let text = expected(derivations(text), text)?;
    if semicolon(text) {
        let (_, after) = next(text);
        return Ok(after);
    }
    let text = declarations(alloc, Group::Independents, 4, names, text)?;
    expected(semicolon(text), text)
}

// The numbers from the first to below the end.
fn numbers(alloc: Global, first: u8, end: u8) -> Result<Vec<u8>, AllocError>
    ensures { IfOk result (λ v. v.items ≡ numbers_from first (end - first)) }
{
    let mut numbers = Vec::new(alloc);
    for number in first..end {
        numbers.push(number)?;
    }
    Ok(numbers)
}

// Reads a block behind the word of its kind.
#[tactic(auto, unfolding(crate::specs::Blocks::block_at))]
fn block<'a>(
    alloc: Global,
    kind: Kind,
    names: &mut Names,
    text: &'a [u8],
) -> Result<(Block, &'a [u8]), Stop>
    ensures read { Gives (λ x. (
      names.new,
      record { kind = x.0.kind; dependents = x.0.dependents.items },
      x.1.now,
    )) result
        (block_at kind names.old text.now) }
    ensures shorter { IfOk result (λ x. length x.1.now ≤ length text.now) }
{
    let text = expected(open_bracket(text), text)?;
    let first = names.dependents();
    let text = declarations(alloc, Group::Dependents, names.room(), names, text)?;
    let text = expected(close_bracket(text), text)?;
    let dependents = numbers(alloc, first, names.dependents())?;
    Ok((Block { kind, dependents }, text))
}

/// Reads the blocks, and the semicolon after them.
#[tactic(auto, using(crate::proofs::BlockLists::kind_is_token))]
pub(crate) fn blocks<'a>(
    alloc: Global,
    names: &mut Names,
    into: &mut Vec<Block>,
    text: &'a [u8],
) -> Result<&'a [u8], Stop>
    ensures read { Gives (λ t. (names.new, block_values into.new.items, t.now)) result
        (blocks (length text.now + 1) names.old (block_values into.old.items) text.now) }
{
    let mut rest = text;
    'kinds: loop {
        let Some(kind) = kind(rest) else {
            return expected(semicolon(rest), rest);
        };
        let (_, after) = next(rest);
        let (read, behind) = block(alloc, kind, names, after)?;
        into.push(read)?;
        rest = behind;
    }
}
