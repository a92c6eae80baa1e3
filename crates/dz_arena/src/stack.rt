//! Marked stacks of cells.

ghost use Rattle.std.specs.Prelude.{◌≡◌, ◌+◌, ◌-◌, ◌^◌, ◌<◌, ◌≤◌, [], ◌∷◌, ◌++◌, length, take, drop, Some, None, option_to_list, IfSome, IfNone, IfOk, OnOk, OnErr, vec_len, vec_capacity};
ghost use Rattle.dz_arena.specs.Chunks.{Held};
ghost use Rattle.dz_arena.specs.Stacks.{AreChunks, Lies, cells_of};

use crate::chunk::Chunk;
use std::alloc::{AllocError, Global};
use std::marker::Model;
use std::mem;

/// The least number of cells for which a chunk of memory is asked.
const LEAST_ROOM: usize = 64;

/// Neighbouring cells of a stack: where they begin, and how many they are. Its fields are public,
/// so that whoever keeps runs can name a part of one.
#[derive(Clone, Copy, Debug, PartialEq, Eq)]
pub struct Run {
    pub beginning: usize,
    pub length: usize,
}

/// How far a stack reached: its length, and the number of its chunks in use. Its fields are public,
/// so that contracts can say which stacks it is a mark of.
#[derive(Clone, Copy, Debug, PartialEq, Eq)]
pub struct Mark {
    pub length: usize,
    pub chunks: usize,
}

#[derive(Drop)]
/// A stack of cells in chunks of memory that never move. Chunks that a restore leaves are kept, and
/// all chunks are given back when the stack is dropped.
pub struct Stack<T: Copy> {
    alloc: Global,
    below: Vec<Chunk<T>>,
    top: Option<Chunk<T>>,
    kept: Vec<Chunk<T>>,
    /// The room of the largest chunk in use or kept.
    largest: usize,
    begun: Option<Run>,
}

impl<T: Copy> Model for Stack<T> {
    ghost use Rattle.std.specs.Prelude.{◌≡◌, ◌≤◌, ◌<◌, ◌+◌, ◌++◌, [], length, take, map, flat_map, option_to_list, vec_len, vec_capacity, None};
    ghost use Rattle.dz_arena.specs.Stacks.{Pile, AreChunks, BeginsIn, IsWithin, pile_of};

    ghost Value = { Pile T };

    ghost view = { λ s. pile_of (s.below.items ++ option_to_list s.top) s.begun };

    ghost invariant = { λ s. record {
      chunks : AreChunks 0 (s.below.items ++ option_to_list s.top);
      lowest : s.top ≡ None → s.below.items ≡ [];
      room : length (s.below.items ++ option_to_list s.top) + vec_len s.kept ≤ vec_capacity s.kept;
      begun : IsWithin (pile_of (s.below.items ++ option_to_list s.top) s.begun);
      on_top : BeginsIn s.begun s.top;
    } };
}

impl<T: Copy> Stack<T> {
    ghost use Rattle.std.specs.Prelude.{◌≡◌, ◌≢◌, ◌+◌, ◌-◌, ◌<◌, ◌≤◌, [], ◌∷◌, ◌++◌, length, take, drop, None, Some, IfSome, OnOk, OnErr, IsOk};
    ghost use Rattle.dz_arena.specs.Stacks.{Pile, spare_of, with_run, with_cells, HasRoom, HasRoomFor, InOneChunk, IsMarkOf, restored, IsGrown};

    /// A stack without cells and without chunks.
    pub fn new(alloc: Global) -> Stack<T>
        ensures { result ≡ record { cells = []; chunks = []; begun = None } }
    {
        Stack {
            alloc,
            below: Vec::new(alloc),
            top: None,
            kept: Vec::new(alloc),
            largest: 0,
            begun: None,
        }
    }

    /// The number of cells. Whoever keeps lists beside a stack compares lengths by it, without a
    /// mark.
    pub fn len(&self) -> usize
        ensures { result ≡ length self.now.cells }
    {
        match &self.top {
            Some(top) => top.begin() + top.len(),
            None => 0,
        }
    }

    /// The number of cells that are left in the top chunk.
    pub fn spare(&self) -> usize
        ensures { result ≡ spare_of self.now }
    {
        match &self.top {
            Some(top) => top.room() - top.len(),
            None => 0,
        }
    }

    /// Begins a run that may have so many cells.
    pub fn begin_run(&mut self, count: usize)
        requires none { self.old.begun ≡ None }
        requires room { count ≤ spare_of self.old }
        ensures { self.new ≡ with_run self.old (Some (record {
          beginning = length self.old.cells;
          length = count;
        })) }
    {
        self.begun = Some(Run {
            beginning: self.len(),
            length: count,
        });
    }

    /// Appends a cell to the begun run.
    pub fn push(&mut self, cell: T)
        requires { HasRoom self.old }
        ensures { self.new ≡ with_cells self.old (self.old.cells ++ cell ∷ []) }
    {
        match &mut self.top {
            Some(top) => top.push(cell),
            None => unreachable!(),
        }
    }

    /// Appends cells to the begun run.
    pub fn push_all(&mut self, cells: &[T])
        requires { HasRoomFor (length cells.now) self.old }
        ensures { self.new ≡ with_cells self.old (self.old.cells ++ cells.now) }
    {
        if cells.is_empty() {
            return;
        }
        match &mut self.top {
            Some(top) => top.push_all(cells),
            None => unreachable!(),
        }
    }

    /// Ends the begun run, and names its cells, which lie in one chunk.
    pub fn finish_run(&mut self) -> Run
        requires { self.old.begun ≢ None }
        ensures run { IfSome self.old.begun (λ run. (result.beginning ≡ run.beginning)
            × (result.beginning + result.length ≡ length self.old.cells)) }
        ensures lies { InOneChunk (length self.old.cells) self.old.chunks
            result.beginning result.length }
        ensures ended { self.new ≡ with_run self.old None }
    {
        let len = self.len();
        match self.begun {
            Some(run) => {
                self.begun = None;
                Run {
                    beginning: run.beginning,
                    length: len - run.beginning,
                }
            }
            None => unreachable!(),
        }
    }

    /// How far the stack reaches.
    pub fn mark(&self) -> Mark
        requires { self.now.begun ≡ None }
        ensures value { (result.length ≡ length self.now.cells)
            × (result.chunks ≡ length self.now.chunks) }
        ensures mark { IsMarkOf self.now result }
    {
        let chunks = match &self.top {
            Some(_) => self.below.len() + 1,
            None => 0,
        };
        Mark {
            length: self.len(),
            chunks,
        }
    }

    /// The cells of a run.
    pub fn slice(&self, run: Run) -> &[T]
        requires { InOneChunk (length self.now.cells) self.now.chunks run.beginning run.length }
        ensures { result.now ≡ take run.length (drop run.beginning self.now.cells) }
    {
        if run.length == 0 {
            return &[];
        }
        match &self.top {
            Some(top) => {
                if top.begin() <= run.beginning {
                    return top.slice(run.beginning - top.begin(), run.length);
                }
                lower_slice(self.below.as_slice(), run)
            }
            None => &[],
        }
    }

    /// Leaves the cells and the chunks that a mark found.
    pub fn restore(&mut self, mark: Mark)
        requires none { self.old.begun ≡ None }
        requires mark { IsMarkOf self.old mark }
        ensures { self.new ≡ restored self.old mark }
    {
        leave(&mut self.below, &mut self.top, &mut self.kept, mark.chunks);
        let Some(top) = &mut self.top else {
            return;
        };
        top.truncate(mark.length - top.begin());
    }

    /// Makes room for so many cells in the top chunk, by a further chunk where there is too
    /// little. It is one that was kept, or a new one with at least twice the room of the largest
    /// before it, so that there are few chunks however small the steps are.
    pub fn reserve(&mut self, count: usize) -> Result<(), AllocError>
        requires { self.old.begun ≡ None }
        ensures room { OnOk result (count ≤ spare_of self.new) }
        ensures grown { OnOk result (IsGrown self.old self.new) }
        ensures enough { count ≤ spare_of self.old → IsOk result × (self.new ≡ self.old) }
        ensures refused { OnErr result (self.new ≡ self.old) }
    {
        if count <= self.spare() {
            return Ok(());
        }
        let begin = self.len();
        self.kept.reserve(self.below.len() + 2)?;
        self.below.reserve(1)?;
        let least = self.largest.saturating_mul(2).max(LEAST_ROOM);
        let chunk = next_chunk(self.alloc, &mut self.kept, begin, count, least)?;
        self.largest = self.largest.max(chunk.room());
        put_on_top(&mut self.below, &mut self.top, chunk);
        Ok(())
    }
}

/// The cells of a run that lies in one of these chunks.
fn lower_slice<T: Copy>(chunks: &[Chunk<T>], run: Run) -> &[T]
    requires chunks { AreChunks 0 chunks.now }
    requires some { 0 < run.length }
    requires lies { Lies chunks.now run.beginning run.length }
    ensures { result.now ≡ take run.length (drop run.beginning (cells_of chunks.now)) }
{
    let mut chunks = chunks;
    'chunks: while let Some((last, below)) = chunks.split_last() {
        if last.begin() <= run.beginning {
            return last.slice(run.beginning - last.begin(), run.length);
        }
        chunks = below;
    }
    &[]
}

/// Gives up the chunks in use but for the lowest so many, and keeps them.
fn leave<T: Copy>(
    below: &mut Vec<Chunk<T>>,
    top: &mut Option<Chunk<T>>,
    kept: &mut Vec<Chunk<T>>,
    count: usize,
)
    requires lowest { top.old ≡ None → below.old.items ≡ [] }
    requires room { length (below.old.items ++ option_to_list top.old) + vec_len kept.old
        ≤ vec_capacity kept.old }
    requires count { count ≤ length (below.old.items ++ option_to_list top.old) }
    ensures left { below.new.items ++ option_to_list top.new
        ≡ take count (below.old.items ++ option_to_list top.old) }
    ensures lowest { top.new ≡ None → below.new.items ≡ [] }
    ensures room { length (below.new.items ++ option_to_list top.new) + vec_len kept.new
        ≤ vec_capacity kept.new }
{
    'chunks: while below.len() >= count {
        let Some(chunk) = mem::take(top) else {
            return;
        };
        *top = below.pop();
        match kept.push(chunk) {
            Ok(()) => {}
            Err(_) => unreachable!(),
        }
    }
}

/// Puts a chunk on top of those in use.
fn put_on_top<T: Copy>(below: &mut Vec<Chunk<T>>, top: &mut Option<Chunk<T>>, chunk: Chunk<T>)
    requires { vec_len below.old < vec_capacity below.old }
    ensures all { below.new.items ++ option_to_list top.new
        ≡ (below.old.items ++ option_to_list top.old) ++ chunk ∷ [] }
    ensures top { top.new ≡ Some chunk }
{
    if let Some(full) = mem::replace(top, Some(chunk)) {
        match below.push(full) {
            Ok(()) => {}
            Err(_) => unreachable!(),
        }
    }
}

/// An empty chunk with room for so many cells that begins at a position: one that was kept, where
/// one is large enough, or else a new one with at least the least room.
fn next_chunk<T: Copy>(
    alloc: Global,
    kept: &mut Vec<Chunk<T>>,
    begin: usize,
    count: usize,
    least: usize,
) -> Result<Chunk<T>, AllocError>
    requires { 0 < least }
    ensures chunk { IfOk result (λ h. (h.begin ≡ begin) × (h.cells ≡ []) × (count ≤ h.room)
        × (h.begin + h.room < 2 ^ 64)) }
    ensures fewer { vec_len kept.new ≤ vec_len kept.old }
    ensures capacity { vec_capacity kept.new ≡ vec_capacity kept.old }
{
    let room = count.max(least);
    if usize::MAX - begin < room {
        return Err(AllocError);
    }
    for i in 0..kept.len() {
        if count <= kept[i].room() && kept[i].room() <= usize::MAX - begin {
            let mut chunk = kept.swap_remove(i);
            chunk.move_to(begin);
            return Ok(chunk);
        }
    }
    Chunk::new(alloc, begin, room)
}
