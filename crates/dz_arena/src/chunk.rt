//! Chunks of cells.

ghost use Rattle.std.specs.Prelude.{◌≡◌, ◌+◌, ◌<◌, ◌≤◌, ◌^◌, [], ◌∷◌, ◌++◌, length, take, drop, IfOk, ⊤};

use crate::block::{Block, Start, Title, allocate, deallocate, may_hold};
use std::alloc::{AllocError, Global};
use std::marker::Model;

/// A block of memory with cells written from its beginning on. The block never moves. A chunk is
/// public as the type of a field of `Stack`.
pub struct Chunk<T> {
    alloc: Global,
    start: Start<T>,
    begin: usize,
    room: usize,
    len: usize,
    block: Block<T>,
    title: Title<T, Global>,
}

impl<T> Model for Chunk<T> {
    ghost use Rattle.std.specs.Prelude.{◌≡◌, ◌≤◌, ◌<◌, length, take};
    ghost use Rattle.dz_arena.specs.Chunks.{Held};

    ghost Value = { Held T };

    ghost view = { λ c. record {
      begin = c.begin;
      room = c.room;
      cells = take c.len c.block.cells;
    } };

    ghost invariant = { λ c. record {
      start : c.block.start ≡ c.start.first;
      title_start : c.title.start ≡ c.start.first;
      title_alloc : c.title.alloc ≡ c.alloc;
      block_room : c.block.room ≡ c.room;
      title_room : c.title.room ≡ c.room;
      some : 0 < c.room;
      written : c.len ≤ length c.block.cells;
      within : length c.block.cells ≤ c.room;
    } };
}

impl<T> Drop for Chunk<T> {
    fn drop(self) {
        let Chunk {
            alloc,
            start,
            begin: _,
            room,
            len: _,
            block,
            title,
        } = self;
        deallocate(&alloc, start, room, block, title);
    }
}

impl<T> Chunk<T> {
    /// A chunk without cells that begins at a position and has room for so many.
    pub(crate) fn new(alloc: Global, begin: usize, room: usize) -> Result<Chunk<T>, AllocError>
        requires { 0 < room }
        ensures { IfOk result (λ c. (c.begin ≡ begin) × (c.room ≡ room) × (c.cells ≡ [])) }
    {
        if !may_hold::<T>(room) {
            return Err(AllocError);
        }
        let (start, block, title) = allocate(&alloc, room)?;
        Ok(Chunk {
            alloc,
            start,
            begin,
            room,
            len: 0,
            block,
            title,
        })
    }

    /// Where the chunk begins.
    pub(crate) fn begin(&self) -> usize
        ensures { result ≡ self.now.begin }
    {
        self.begin
    }

    /// The number of cells for which there is room.
    pub(crate) fn room(&self) -> usize
        ensures { result ≡ self.now.room }
    {
        self.room
    }

    pub(crate) fn len(&self) -> usize
        ensures value { result ≡ length self.now.cells }
        ensures within { length self.now.cells ≤ self.now.room }
    {
        self.len
    }

    pub(crate) fn push(&mut self, cell: T)
        requires { length self.old.cells < self.old.room }
        ensures { (self.new.begin ≡ self.old.begin) × (self.new.room ≡ self.old.room)
            × (self.new.cells ≡ self.old.cells ++ cell ∷ []) }
    {
        let len = self.len;
        self.block.write(self.start, len, cell);
        self.len = len + 1;
    }

    /// Leaves the first so many cells.
    pub(crate) fn truncate(&mut self, len: usize)
        requires { len ≤ length self.old.cells }
        ensures { (self.new.begin ≡ self.old.begin) × (self.new.room ≡ self.old.room)
            × (self.new.cells ≡ take len self.old.cells) }
    {
        self.len = len;
    }

    /// Makes an empty chunk begin at another position.
    pub(crate) fn move_to(&mut self, begin: usize)
        ensures { (self.new.begin ≡ begin) × (self.new.room ≡ self.old.room)
            × (self.new.cells ≡ []) }
    {
        self.begin = begin;
        self.len = 0;
    }

    /// So many cells from an index on.
    pub(crate) fn slice(&self, from: usize, count: usize) -> &[T]
        requires { from + count ≤ length self.now.cells }
        ensures { result.now ≡ take count (drop from self.now.cells) }
    {
        self.block.slice(self.start, from, count)
    }
}

impl<T: Copy> Chunk<T> {
    ghost use Rattle.std.specs.Prelude.{◌≡◌, ◌+◌, ◌≤◌, ◌++◌, length};

    /// Appends cells.
    pub(crate) fn push_all(&mut self, cells: &[T])
        requires { length self.old.cells + length cells.now ≤ self.old.room }
        ensures { (self.new.begin ≡ self.old.begin) × (self.new.room ≡ self.old.room)
            × (self.new.cells ≡ self.old.cells ++ cells.now) }
    {
        let len = self.len;
        let _room = self.room;
        put_all(&mut self.block, self.start, len, cells);
        self.len = len + cells.len();
    }
}

/// Writes cells from an index on. It reads and writes no length, so that the cells are copied as a
/// whole.
fn put_all<T: Copy>(block: &mut Block<T>, start: Start<T>, index: usize, cells: &[T])
    requires start { start.first ≡ block.old.start }
    requires index { index ≤ length block.old.cells }
    requires within { length block.old.cells ≤ block.old.room }
    requires room { index + length cells.now ≤ block.old.room }
    requires in_range { index + length cells.now < 2 ^ 64 }
    ensures same { (block.new.start ≡ block.old.start) × (block.new.room ≡ block.old.room) }
    ensures written { index + length cells.now ≤ length block.new.cells }
    ensures within { length block.new.cells ≤ block.new.room }
    ensures cells { take (index + length cells.now) block.new.cells
        ≡ take index block.old.cells ++ cells.now }
{
    for i in 0..cells.len() {
        block.write(start, index + i, cells[i]);
    }
}
