// A source over a reader of std, and a sink over a writer of std. They tell no bytes through the traits.
ghost use Rattle.std.specs.Prelude.{◌≡◌, ◌<◌, MatchResult, None, if◌then◌else◌, is_ok, length};
ghost use Rattle.std.specs.Io.{ReadsAtMost, WritesAtMost};
ghost use Rattle.std.specs.Io.KnownBytes.{ReadConsumes, WriteAppends};
ghost use Rattle.dz_outside.specs.Causes.{HasCause, HasStall, next_count, stalls_after};

use crate::failure::Failed;
use crate::sink::{Sink, stalls_now};
use crate::source::Source;
use std::io::{Read, Write};
use std::marker::Model;

/// A source over a reader of std. Each error of the reader is a fault.
#[derive(Drop)]
pub struct StdSource<R: Read> {
    reader: R,
    faults: u64,
}

impl<R: Read> Model for StdSource<R> {
    ghost use Rattle.dz_outside.specs.StdEnds.{ReaderState};

    ghost Value = { ReaderState };

    ghost view = { λ s. record { left = R.remaining s.reader; faults = s.faults } };
}

impl<R: Read> StdSource<R> {
    /// A source over this reader, with no fault so far.
    pub fn new(reader: R) -> StdSource<R>
        ensures { result ≡ record { left = R.remaining reader; faults = 0 } }
    {
        StdSource { reader, faults: 0 }
    }
}

impl<R: Read> Source for StdSource<R> {
    ghost rest = { λ _. None };

    ghost faults = { λ s. s.faults };

    fn read(&mut self, into: &mut [u8]) -> Result<usize, Failed>
        requires { 0 < length into.old }
        ensures bound { ReadsAtMost result into.new }
        ensures cause { HasCause self.old.faults self.new.faults result }

        // The bytes are those of the reader, and each error counts.
        ensures bytes { ReadConsumes self.old.left self.new.left result into.new }
        ensures faults { self.new.faults ≡
            (if is_ok result then self.old.faults else next_count self.old.faults) }
    {
        match self.reader.read(into) {
            Ok(count) => Ok(count),
            Err(_) => {
                self.faults = self.faults.saturating_add(1);
                Err(Failed)
            }
        }
    }
}

/// A sink over a writer of std. Each error of the writer is a fault, and each write that took nothing of a nonempty
/// piece a stall.
#[derive(Drop)]
pub struct StdSink<W: Write> {
    writer: W,
    faults: u64,
    stalls: u64,
}

impl<W: Write> Model for StdSink<W> {
    ghost use Rattle.dz_outside.specs.StdEnds.{WriterState};

    ghost Value = { WriterState };

    ghost view = { λ s. record { held = W.contents s.writer; faults = s.faults; stalls = s.stalls } };
}

impl<W: Write> StdSink<W> {
    /// A sink over this writer, with no fault and no stall so far.
    pub fn new(writer: W) -> StdSink<W>
        ensures { result ≡ record { held = W.contents writer; faults = 0; stalls = 0 } }
    {
        StdSink {
            writer,
            faults: 0,
            stalls: 0,
        }
    }
}

impl<W: Write> Sink for StdSink<W> {
    ghost written = { λ _. None };

    ghost faults = { λ s. s.faults };

    ghost stalls = { λ s. s.stalls };

    fn write(&mut self, piece: &[u8]) -> Result<usize, Failed>
        ensures bound { WritesAtMost result piece.now }
        ensures cause { HasCause self.old.faults self.new.faults result }
        ensures stall { HasStall self.old.stalls self.new.stalls result piece.now }

        // The bytes go to the writer, and each error and each stall counts.
        ensures bytes { WriteAppends self.old.held self.new.held result piece.now }
        ensures faults { self.new.faults ≡
            (if is_ok result then self.old.faults else next_count self.old.faults) }
        ensures stalls { MatchResult result
            (λ count. self.new.stalls ≡ stalls_after self.old.stalls count (length piece.now))
            (λ _. self.new.stalls ≡ self.old.stalls) }
    {
        match self.writer.write(piece) {
            Ok(count) => {
                self.stalls = stalls_now(self.stalls, count, piece.len());
                Ok(count)
            }
            Err(_) => {
                self.faults = self.faults.saturating_add(1);
                Err(Failed)
            }
        }
    }
}
