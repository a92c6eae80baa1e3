//! Worked examples, and many cells against a plain list.

ghost use Rattle.std.specs.Prelude.{◌≡◌, ◌+◌, ◌≤◌, length, take, None, IfOk, OnOk};
ghost use Rattle.dz_arena.specs.Stacks.{spare_of, InOneChunk, IsMarkOf, restored};

use crate::{Mark, Run, Stack};
use std::alloc::AllocError;

#[test]
fn cells_before_a_mark(rt: HostRuntime) -> Result<(), AllocError> {
    let mut stack = Stack::new(rt.alloc());
    stack.reserve(3)?;
    stack.begin_run(3);
    stack.push(7);
    stack.push(8);
    stack.push(9);
    let run = stack.finish_run();
    let mark = stack.mark();
    assert!(rt;
        mark == Mark {
            length: 3,
            chunks: 1
        }
    );
    stack.reserve(1)?;
    stack.begin_run(1);
    stack.push(5);
    let _last = stack.finish_run();
    assert!(rt; stack.len() == 4);
    stack.restore(mark);
    assert!(rt; stack.len() == 3);
    assert!(rt; stack.slice(run) == [7u16, 8, 9].as_slice());
    Ok(())
}

#[test]
fn a_mark_before_any_chunk(rt: HostRuntime) -> Result<(), AllocError> {
    let mut stack = Stack::new(rt.alloc());
    let mark = stack.mark();
    stack.reserve(4)?;
    stack.begin_run(2);
    stack.push(1u16);
    stack.push(2);
    let _run = stack.finish_run();
    stack.restore(mark);
    assert!(rt; stack.len() == 0);
    assert!(rt; stack.spare() == 0);
    Ok(())
}

#[test]
fn a_mark_in_an_empty_chunk(rt: HostRuntime) -> Result<(), AllocError> {
    let mut stack = Stack::new(rt.alloc());
    stack.reserve(4)?;
    let mark = stack.mark();
    let spare = stack.spare();
    stack.begin_run(4);
    stack.push(1u16);
    stack.push(2);
    let run = stack.finish_run();
    assert!(rt; run.length == 2);
    stack.restore(mark);
    assert!(rt; stack.len() == 0);
    assert!(rt; stack.spare() == spare);
    stack.begin_run(0);
    let empty = stack.finish_run();
    assert!(rt; stack.slice(empty).is_empty());
    Ok(())
}

/// Writes a run of so many cells on a stack and at the end of a list.
fn write(stack: &mut Stack<u64>, list: &mut Vec<u64>, count: usize) -> Result<Run, AllocError>
    requires none { stack.old.begun ≡ None }
    requires room { count ≤ spare_of stack.old }
    ensures lies { IfOk result (λ run. InOneChunk (length stack.new.cells) stack.new.chunks
        run.beginning run.length) }
    ensures front { OnOk result (take (length stack.old.cells) stack.new.cells ≡ stack.old.cells) }
    ensures count { OnOk result (length stack.new.cells ≡ length stack.old.cells + count) }
    ensures chunks { OnOk result (stack.new.chunks ≡ stack.old.chunks) }
    ensures none { OnOk result (stack.new.begun ≡ None) }
{
    stack.begin_run(count);
    'cells: for number in 0..count {
        let cell = (number as u64).wrapping_mul(0x9e3779b97f4a7c15);
        stack.push(cell);
        list.push(cell)?;
    }
    Ok(stack.finish_run())
}

/// The same where there may be no room yet; the mark of before leads back.
fn append(
    stack: &mut Stack<u64>,
    list: &mut Vec<u64>,
    count: usize,
    mark: Mark,
) -> Result<Run, AllocError>
    requires none { stack.old.begun ≡ None }
    requires length { mark.length ≡ length stack.old.cells }
    requires chunks { mark.chunks ≡ length stack.old.chunks }
    requires mark { IsMarkOf stack.old mark }
    ensures lies { IfOk result (λ run. InOneChunk (length stack.new.cells) stack.new.chunks
        run.beginning run.length) }
    ensures none { OnOk result (stack.new.begun ≡ None) }
    ensures back { OnOk result (IsMarkOf stack.new mark × (restored stack.new mark ≡ stack.old)) }
{
    stack.reserve(count)?;
    let run = write(stack, list, count)?;
    Ok(run)
}

/// Whether cells are those of a list at a run.
fn are_at(cells: &[u64], list: &[u64], run: Run) -> bool {
    let Some(rest) = list.get(run.beginning..) else {
        return false;
    };
    rest.get(..run.length) == Some(cells)
}

/// Appends a run, more runs on top, which are given up again, and last gives up the run; tells
/// whether the stack and the list were the same each time.
fn follows_list(
    stack: &mut Stack<u64>,
    list: &mut Vec<u64>,
    levels: usize,
) -> Result<bool, AllocError>
    requires { stack.old.begun ≡ None }
    ensures { OnOk result (stack.new ≡ stack.old) }
{
    let mark = stack.mark();
    let run = append(stack, list, 10100 - levels.min(100) * 100, mark)?;
    let first = are_at(stack.slice(run), list, run);
    if levels > 0 {
        let upper = follows_list(stack, list, levels - 1)?;
        let other = follows_list(stack, list, 0)?;
        if !upper || !other {
            stack.restore(mark);
            return Ok(false);
        }
    }
    let last = are_at(stack.slice(run), list, run) && stack.len() == list.len();
    stack.restore(mark);
    list.truncate(mark.length);
    Ok(first && last)
}

#[test]
fn a_million_cells(rt: HostRuntime) -> Result<(), AllocError> {
    let mut stack = Stack::new(rt.alloc());
    let mut list = Vec::new(rt.alloc());
    assert!(rt; follows_list(&mut stack, &mut list, 100)?);
    assert!(rt; stack.len() == 0);
    Ok(())
}
