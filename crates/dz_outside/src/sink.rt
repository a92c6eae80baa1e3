// A sink of bytes, and the writing of all bytes of a text.
ghost use Rattle.std.specs.Prelude.{◌≡◌, ◌≤◌, List, Option, ℕ, IsErrOf, OnOk, OnErr};
ghost use Rattle.std.specs.Io.{WritesAtMost};
ghost use Rattle.std.specs.Io.KnownBytes.{Appends, WriteAppends};
ghost use Rattle.dz_outside.specs.Causes.{HasCause, HasStall, Rose, stalls_after};
ghost use Rattle.dz_outside.specs.Writing.{AppendsPart};

use crate::failure::Failed;
use thiserror::Error;

pub trait Sink {
    /// The bytes that the sink holds, where it tells them.
    ghost written: { Self → Option (List ℕ) };

    /// How often the sink has failed. It never falls.
    ghost faults: { Self → ℕ };

    /// How often the sink took nothing of a nonempty piece. It never falls.
    ghost stalls: { Self → ℕ };

    /// Takes the first bytes of the piece, and answers how many. A write that failed takes none.
    fn write(&mut self, piece: &[u8]) -> Result<usize, Failed>
        ensures bound { WritesAtMost result piece.now }
        ensures bytes { WriteAppends (written self.old) (written self.new) result piece.now }
        ensures cause { HasCause (faults self.old) (faults self.new) result }
        ensures stall { HasStall (stalls self.old) (stalls self.new) result piece.now };
}

// The count of stalls after a write took `taken` bytes of a piece of `size` bytes.
pub(crate) fn stalls_now(stalls: u64, taken: usize, size: usize) -> u64
    ensures { result ≡ stalls_after stalls taken size }
{
    if taken == 0 && size > 0 {
        stalls.saturating_add(1)
    } else {
        stalls
    }
}

/// Why the bytes were not all written.
#[derive(Clone, Copy, Debug, PartialEq, Eq, Error)]
pub enum WriteStop {
    /// A write failed.
    #[error("the sink failed")]
    Failed,
    /// The sink took nothing of the bytes left.
    #[error("the sink takes nothing more")]
    Stuck,
}

impl From<Failed> for WriteStop {
    ghost use Rattle.std.specs.Prelude.{◌≡◌};
    ghost use Rattle.dz_outside.specs.declared.sink.WriteStop.TheVariants.{Failed};

    ghost from_gives = { λ _ stop. stop ≡ Failed };

    fn from(_error: Failed) -> WriteStop {
        WriteStop::Failed
    }
}

/// Writes all the bytes, in as many pieces as the sink wants. At an error the sink has taken some first ones of them, and
/// not all. It takes no memory of its own.
pub fn write_all<K: Sink>(sink: &mut K, bytes: &[u8]) -> Result<(), WriteStop>
    ensures ok { OnOk result (Appends (K.written sink.old) (K.written sink.new) bytes.now) }
    ensures err { OnErr result (AppendsPart (K.written sink.old) (K.written sink.new) bytes.now) }
    ensures failed { IsErrOf result WriteStop.Failed → Rose (K.faults sink.old) (K.faults sink.new) }
    ensures stuck { IsErrOf result WriteStop.Stuck → Rose (K.stalls sink.old) (K.stalls sink.new) }
    ensures later { K.faults sink.old ≤ K.faults sink.new }
    ensures stalls_later { K.stalls sink.old ≤ K.stalls sink.new }
{
    let mut sent = 0;
    'pieces: while sent < bytes.len() {
        let count = sink.write(&bytes[sent..])?;
        if count == 0 {
            return Err(WriteStop::Stuck);
        }
        sent += count;
    }
    Ok(())
}
