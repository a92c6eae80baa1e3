// A source and a sink in memory, which fail where they are told to.
ghost use Rattle.std.specs.Prelude.{◌≡◌, ◌+◌, ◌-◌, ◌<◌, ◌≤◌, ◌++◌, ◌↔◌, [], Contains, IfOk, IsErr, IsTrue, OnErr, Some, drop, length, min, take};
ghost use Rattle.std.specs.Io.{ReadsAtMost, WritesAtMost};
ghost use Rattle.std.specs.Io.KnownBytes.{ReadConsumes, WriteAppends};
ghost use Rattle.dz_outside.specs.Causes.{HasCause, HasStall, next_count, stalls_after};

use crate::failure::Failed;
use crate::sink::{Sink, stalls_now};
use crate::source::Source;
use std::alloc::{AllocError, Global};
use std::marker::Model;

// Whether a call of this number is among those that are to fail.
fn names_call(fails: &[u32], number: u64) -> bool
    ensures { IsTrue result ↔ Contains fails.now number }
{
    fails.iter().any(|&fail| u64::from(fail) == number)
}

/// A source that gives the bytes it was made of, at most `most` of them in a read, and fails at the reads whose numbers,
/// counted from 1, are in `fails`.
#[derive(Drop)]
pub struct MemSource {
    bytes: Vec<u8>,
    // How many bytes are read.
    at: usize,
    most: usize,
    fails: Vec<u32>,
    reads: u64,
    faults: u64,
}

impl Model for MemSource {
    ghost use Rattle.std.specs.Prelude.{◌<◌, ◌≤◌, drop, vec_len};
    ghost use Rattle.dz_outside.specs.Memory.{SourceState};

    ghost Value = { SourceState };

    ghost view = { λ s. record {
      unread = drop s.at s.bytes.items;
      most = s.most;
      fails = s.fails.items;
      reads = s.reads;
      faults = s.faults;
    } };

    ghost invariant = { λ s. (s.at ≤ vec_len s.bytes) × (0 < s.most) };
}

impl MemSource {
    /// A source of these bytes. `most` is at least 1. It takes no memory.
    pub fn new(bytes: Vec<u8>, most: usize, fails: Vec<u32>) -> MemSource
        requires { 0 < most }
        ensures { result ≡ record {
          unread = bytes.items;
          most = most;
          fails = fails.items;
          reads = 0;
          faults = 0;
        } }
    {
        MemSource {
            bytes,
            at: 0,
            most,
            fails,
            reads: 0,
            faults: 0,
        }
    }
}

impl Source for MemSource {
    ghost rest = { λ s. Some s.unread };

    ghost faults = { λ s. s.faults };

    fn read(&mut self, into: &mut [u8]) -> Result<usize, Failed>
        requires { 0 < length into.old }
        ensures bound { ReadsAtMost result into.new }
        ensures bytes { ReadConsumes (Some self.old.unread) (Some self.new.unread) result into.new }
        ensures cause { HasCause self.old.faults self.new.faults result }

        // Which reads fail, and how many bytes the others give.
        ensures fails { IsErr result ↔ Contains self.old.fails (next_count self.old.reads) }
        ensures count { IfOk result (λ count.
            count ≡ min (min (length into.old) self.old.most) (length self.old.unread)) }

        ensures ok { IfOk result (λ count. self.new ≡ record self.old {
          unread = drop count self.old.unread;
          reads = next_count self.old.reads;
        }) }
        ensures err { OnErr result (self.new ≡ record self.old {
          reads = next_count self.old.reads;
          faults = next_count self.old.faults;
        }) }
    {
        self.reads = self.reads.saturating_add(1);
        if names_call(&self.fails, self.reads) {
            self.faults = self.faults.saturating_add(1);
            return Err(Failed);
        }
        let unread = &self.bytes[self.at..];
        let count = into.len().min(self.most).min(unread.len());
        into[..count].copy_from_slice(&unread[..count]);
        self.at += count;
        Ok(count)
    }
}

/// A sink that holds what is written, up to `room` bytes, takes at most `most` of them in a write, and fails at the
/// writes whose numbers, counted from 1, are in `fails`.
#[derive(Drop)]
pub struct MemSink {
    bytes: Vec<u8>,
    room: usize,
    most: usize,
    fails: Vec<u32>,
    writes: u64,
    faults: u64,
    stalls: u64,
}

impl Model for MemSink {
    ghost use Rattle.std.specs.Prelude.{◌≤◌, vec_len};
    ghost use Rattle.std.specs.Vec.{vec_capacity};
    ghost use Rattle.dz_outside.specs.Memory.{SinkState};

    ghost Value = { SinkState };

    ghost view = { λ s. record {
      held = s.bytes.items;
      room = s.room;
      most = s.most;
      fails = s.fails.items;
      writes = s.writes;
      faults = s.faults;
      stalls = s.stalls;
    } };

    ghost invariant = { λ s. (vec_len s.bytes ≤ s.room) × (s.room ≤ vec_capacity s.bytes) };
}

impl MemSink {
    /// An empty sink. It reserves the room, so no write takes memory, and errs only where the room is not to be had.
    pub fn new(
        alloc: Global,
        room: usize,
        most: usize,
        fails: Vec<u32>,
    ) -> Result<MemSink, AllocError>
        ensures { IfOk result (λ sink. sink ≡ record {
          held = [];
          room = room;
          most = most;
          fails = fails.items;
          writes = 0;
          faults = 0;
          stalls = 0;
        }) }
    {
        Ok(MemSink {
            bytes: Vec::with_capacity(alloc, room)?,
            room,
            most,
            fails,
            writes: 0,
            faults: 0,
            stalls: 0,
        })
    }

    /// The bytes written so far.
    pub fn bytes(&self) -> &[u8]
        ensures { result.now ≡ self.now.held }
    {
        &self.bytes
    }
}

impl Sink for MemSink {
    ghost written = { λ s. Some s.held };

    ghost faults = { λ s. s.faults };

    ghost stalls = { λ s. s.stalls };

    fn write(&mut self, piece: &[u8]) -> Result<usize, Failed>
        ensures bound { WritesAtMost result piece.now }
        ensures bytes { WriteAppends (Some self.old.held) (Some self.new.held) result piece.now }
        ensures cause { HasCause self.old.faults self.new.faults result }
        ensures stall { HasStall self.old.stalls self.new.stalls result piece.now }

        // Which writes fail, and how many bytes the others take.
        ensures fails { IsErr result ↔ Contains self.old.fails (next_count self.old.writes) }
        ensures count { IfOk result (λ count.
            count ≡ min (min (length piece.now) self.old.most) (self.old.room - length self.old.held)) }

        ensures ok { IfOk result (λ count. self.new ≡ record self.old {
          held = self.old.held ++ take count piece.now;
          writes = next_count self.old.writes;
          stalls = stalls_after self.old.stalls count (length piece.now);
        }) }
        ensures err { OnErr result (self.new ≡ record self.old {
          writes = next_count self.old.writes;
          faults = next_count self.old.faults;
        }) }
    {
        self.writes = self.writes.saturating_add(1);
        if names_call(&self.fails, self.writes) {
            self.faults = self.faults.saturating_add(1);
            return Err(Failed);
        }
        let left = self.room - self.bytes.len();
        let count = piece.len().min(self.most).min(left);
        self.stalls = stalls_now(self.stalls, count, piece.len());
        // The room was reserved, so this takes no memory.
        self.bytes.extend_from_slice(&piece[..count]).unwrap();
        Ok(count)
    }
}
