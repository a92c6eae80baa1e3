// A source of bytes, and the reading of all of them up to a limit.
ghost use Rattle.std.specs.Prelude.{◌≡◌, ◌+◌, ◌<◌, ◌≤◌, ◌⊎◌, List, Option, ℕ, length, vec_len, IfOk, IsErrOf, OnOk};
ghost use Rattle.std.specs.Io.{ReadsAtMost};
ghost use Rattle.std.specs.Io.KnownBytes.{Consumes, ReadConsumes, IsAtEnd};
ghost use Rattle.dz_outside.specs.Causes.{HasCause, Rose};
ghost use Rattle.dz_outside.specs.Reading.{GivesBytes, GivesAtMost};

use crate::failure::Failed;
use std::alloc::{AllocError, Global};
use thiserror::Error;

pub trait Source {
    /// The bytes still to come, where the source tells them.
    ghost rest: { Self → Option (List ℕ) };

    /// How often the source has failed. It never falls.
    ghost faults: { Self → ℕ };

    /// Moves the first bytes still to come to the front of `into`, and answers how many. None are moved only at the
    /// end, and by a read that failed.
    fn read(&mut self, into: &mut [u8]) -> Result<usize, Failed>
        requires { 0 < length into.old }
        ensures bound { ReadsAtMost result into.new }
        ensures bytes { ReadConsumes (rest self.old) (rest self.new) result into.new }
        ensures cause { HasCause (faults self.old) (faults self.new) result };
}

/// Why the bytes of a source were not all read.
#[derive(Clone, Copy, Debug, PartialEq, Eq, Error)]
pub enum ReadStop {
    /// Memory ran out.
    #[error("out of memory")]
    Memory,
    /// A read failed.
    #[error("the source failed")]
    Failed,
    /// The source gave more bytes than the limit.
    #[error("too many bytes")]
    TooLong,
}

impl From<AllocError> for ReadStop {
    ghost use Rattle.std.specs.Prelude.{◌≡◌};
    ghost use Rattle.dz_outside.specs.declared.source.ReadStop.TheVariants.{Memory};

    ghost from_gives = { λ _ stop. stop ≡ Memory };

    fn from(_error: AllocError) -> ReadStop {
        ReadStop::Memory
    }
}

impl From<Failed> for ReadStop {
    ghost use Rattle.std.specs.Prelude.{◌≡◌};
    ghost use Rattle.dz_outside.specs.declared.source.ReadStop.TheVariants.{Failed};

    ghost from_gives = { λ _ stop. stop ≡ Failed };

    fn from(_error: Failed) -> ReadStop {
        ReadStop::Failed
    }
}

// The most bytes that one read asks for.
const PIECE: usize = 4096;

/// Reads to the end of the source, and answers its bytes, at most `limit` of them. It answers `TooLong` where the source
/// gave the byte after the limit, and then `limit + 1` bytes are taken; at the other errors at most `limit` are. Each
/// read but the last takes a byte, so it makes at most `limit + 2` reads.
pub fn read_all<S: Source>(alloc: Global, source: &mut S, limit: usize) -> Result<Vec<u8>, ReadStop>
    requires { limit < usize.MAX }
    ensures all { IfOk result (λ all. Consumes (S.rest source.old) (S.rest source.new) all.items) }
    ensures end { OnOk result (IsAtEnd (S.rest source.new)) }
    ensures within { IfOk result (λ all. vec_len all ≤ limit) }

    // The source gave byte `limit + 1` at `TooLong` alone.
    ensures too_long { IsErrOf result ReadStop.TooLong
        → GivesBytes (S.rest source.old) (S.rest source.new) (limit + 1) }
    ensures not_too_long { IsErrOf result ReadStop.Failed ⊎ IsErrOf result ReadStop.Memory
        → GivesAtMost (S.rest source.old) (S.rest source.new) limit }

    ensures failed { IsErrOf result ReadStop.Failed → Rose (S.faults source.old) (S.faults source.new) }
    ensures later { S.faults source.old ≤ S.faults source.new }
{
    let mut all = Vec::new(alloc);
    let mut piece = [0u8; PIECE];
    'pieces: loop {
        let room = limit - all.len();
        // One byte more than the room shows that the source is too long.
        let asked = (room + 1).min(PIECE);
        let count = source.read(&mut piece[..asked])?;
        if count == 0 {
            return Ok(all);
        }
        if count > room {
            return Err(ReadStop::TooLong);
        }
        all.extend_from_slice(&piece[..count])?;
    }
}
