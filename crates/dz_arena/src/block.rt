//! Blocks of memory for cells.
//!
//! This is the only module with raw pointers. What it says to others names no pointer but as the
//! start of a block.

ghost use Rattle.std.specs.Prelude.{◌≡◌, ℕ, ◌+◌, ◌<◌, ◌≤◌, List, [], ◌∷◌, ◌++◌, length, take, drop, IfOk, IsTrue, ⊤};
ghost use Rattle.std.specs.Vec.Ownership.{FitsInBlock, vec_shares};
ghost use base.Fml.{ftrue};
ghost use denote.RawPtr.{Ptr};
ghost use Rattle.dz_arena.specs.Blocks.{block_owns, title_owns};

use std::alloc::{AllocError, Allocator};
use std::marker::{Model, PhantomData};
use std::mem::{align_of, size_of};
use std::slice;

/// Where a block begins. It owns nothing. It is public as the type of a field of `Chunk`.
pub struct Start<T> {
    first: *mut T,
}

impl<T> Clone for Start<T> {
    ghost is_clone = { λ x y. y ≡ x };

    ghost is_infallible = { λ _. ⊤ };

    fn clone(&self) -> Result<Start<T>, AllocError> {
        Ok(*self)
    }
}

impl<T> Copy for Start<T> {}

/// The memory of a block, of which the first cells are written. It takes no space. It is public as
/// `Start` is.
pub struct Block<T> {
    kind: PhantomData<*const T>,
    ghost start: { Ptr },
    ghost room: { ℕ },
    ghost cells: { List T },
}

impl<T> Model for Block<T> {
    ghost also_owns = { λ b. block_owns T.row b.start b.room b.cells };

    ghost also_shares = { λ b _ κ. vec_shares T.row b.start (length b.cells) b.room b.cells κ };
}

/// The right to give a block back to its allocator. It takes no space. It is public as `Start` is.
pub struct Title<T, A: Allocator> {
    kind: PhantomData<*const (T, A)>,
    ghost start: { Ptr },
    ghost room: { ℕ },
    ghost alloc: { A },
}

impl<T, A: Allocator> Model for Title<T, A> {
    ghost also_owns = { λ t. title_owns T.row (A.dealloc_token t.alloc) t.start t.room };

    ghost also_shares = { λ _ _ _. ftrue };
}

/// The most bytes that a block may have.
const MOST_BYTES: u128 = 0x7fff_ffff_ffff_ffff;

/// Whether a block may have so many cells, and one byte more for each.
pub(crate) fn may_hold<T>(count: usize) -> bool
    requires { 0 < count }
    ensures { IsTrue result → FitsInBlock T.row count }
{
    let size = size_of::<T>();
    (count as u128) * (size as u128 + 1) <= MOST_BYTES
}

/// A block with room for so many cells, of which none is written.
pub(crate) fn allocate<T, A: Allocator>(
    alloc: &A,
    room: usize,
) -> Result<(Start<T>, Block<T>, Title<T, A>), AllocError>
    requires fits { FitsInBlock T.row room }
    requires some { 0 < room }
    ensures { IfOk result (λ r. (r.1.start ≡ r.0.first) × (r.1.room ≡ room) × (r.1.cells ≡ [])
        × (r.2.start ≡ r.0.first) × (r.2.room ≡ room) × (r.2.alloc ≡ alloc.now)) }
{
    match alloc.allocate(room * size_of::<T>(), align_of::<T>()) {
        Ok(memory) => {
            let start = Start {
                first: memory as *mut T,
            };
            Ok((
                start,
                Block { kind: PhantomData },
                Title { kind: PhantomData },
            ))
        }
        Err(error) => Err(error),
    }
}

/// Gives a block back.
pub(crate) fn deallocate<T, A: Allocator>(
    alloc: &A,
    start: Start<T>,
    room: usize,
    block: Block<T>,
    title: Title<T, A>,
)
    requires { (block.start ≡ start.first) × (block.room ≡ room) × (length block.cells ≤ room)
        × (0 < room) × (title.start ≡ start.first) × (title.room ≡ room) × (title.alloc ≡ alloc.now) }
{
    let Block { kind: _ } = block;
    let Title { kind: _ } = title;
    unsafe {
        alloc.deallocate(
            start.first as *mut u8,
            room * size_of::<T>(),
            align_of::<T>(),
        );
    }
}

impl<T> Block<T> {
    /// Writes the cell at an index; what was written from there on is forgotten.
    pub(crate) fn write(&mut self, start: Start<T>, index: usize, cell: T)
        requires { (start.first ≡ self.old.start) × (index ≤ length self.old.cells)
            × (index < self.old.room) × (length self.old.cells ≤ self.old.room) }
        ensures { (self.new.start ≡ self.old.start) × (self.new.room ≡ self.old.room)
            × (self.new.cells ≡ take index self.old.cells ++ cell ∷ []) }
    {
        unsafe { start.first.add(index).write(cell) }
    }

    /// The cells from an index on, so many.
    pub(crate) fn slice(&self, start: Start<T>, from: usize, count: usize) -> &[T]
        requires { (start.first ≡ self.now.start) × (from + count ≤ length self.now.cells)
            × (length self.now.cells ≤ self.now.room) × (0 < self.now.room) }
        ensures { result.now ≡ take count (drop from self.now.cells) }
    {
        unsafe { slice::from_raw_parts(start.first.add(from), count) }
    }
}
