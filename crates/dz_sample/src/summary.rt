// What is told of a system that is made from a seed.
ghost use Rattle.std.specs.Prelude.{◌≡◌, ◌++◌, IfOk, OnOk, decimal};
ghost use Rattle.dz_sample.specs.Summary.{count_line, summary_text};

use itoa::Buffer;
use std::alloc::{AllocError, Global};

/// The seed and the size of a system, how many equations it has, and what became of it: the number
/// of chains of its tree, that of the equations in all of them, and whether the tree has no open end.
#[derive(Clone, Copy, Debug, PartialEq, Eq)]
pub struct Summary {
    pub seed: u32,
    pub size: u32,
    pub equations: usize,
    pub chains: usize,
    pub members: u128,
    pub is_complete: bool,
}

/// Appends a word and a number.
fn push_number(into: &mut Vec<u8>, word: &[u8], number: u128) -> Result<(), AllocError>
    ensures { OnOk result (into.new.items ≡ into.old.items ++ word.now ++ decimal number) }
{
    let mut buffer = Buffer::new();
    into.extend_from_slice(word)?;
    into.extend_from_slice(buffer.format(number).as_bytes())
}

/// Appends a word and a number, which end a line.
fn push_count(into: &mut Vec<u8>, word: &[u8], number: u128) -> Result<(), AllocError>
    ensures { OnOk result (into.new.items ≡ into.old.items ++ count_line word.now number) }
{
    push_number(into, word, number)?;
    into.extend_from_slice(b"\n")
}

/// The text of a summary: the lines `sample seed S size N`, `equations E`, `chains K`, `members M`,
/// and `accepted` or `partial`.
#[tactic(auto, unfolding(crate::specs::Summary::summary_text))]
pub fn write_summary(alloc: Global, summary: Summary) -> Result<Vec<u8>, AllocError>
    ensures { IfOk result (λ text. text.items ≡ summary_text summary) }
{
    let mut text = Vec::new(alloc);
    let end: &[u8] = if summary.is_complete {
        b"accepted\n"
    } else {
        b"partial\n"
    };
    push_number(&mut text, b"sample seed ", u128::from(summary.seed))?;
    push_count(&mut text, b" size ", u128::from(summary.size))?;
    push_count(&mut text, b"equations ", summary.equations as u128)?;
    push_count(&mut text, b"chains ", summary.chains as u128)?;
    push_count(&mut text, b"members ", summary.members)?;
    text.extend_from_slice(end)?;
    Ok(text)
}
