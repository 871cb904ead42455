// An output in memory, with calls that fail on purpose.
ghost use Rattle.std.specs.Prelude.{◌≡◌, ◌<◌, ◌≤◌, ◌↔◌, ◌-◌, [], min, length, Some, IsErr, IfOk, OnOk, OnErr, Contains};
ghost use Rattle.std.specs.Io.{WritesAtMost};
ghost use Rattle.std.specs.Io.KnownBytes.{WriteAppends};
ghost use Rattle.ember_io.specs.Causes.{next_count, HasCause, CountsFault};
ghost use Rattle.ember_io.specs.Memory.{IsSameSink, FailsToWrite};
ghost use Rattle.ember_io.specs.Sinks.{IsFlushed};

use crate::failing::is_failing;
use crate::sink::Sink;
use crate::{Calls, Failed};
use std::alloc::{AllocError, Global};
use std::marker::Model;

/// Room in memory that takes bytes in pieces. Calls of `write` and `flush` are numbered together
/// from 1, and those of chosen numbers fail. Only tests use this.
#[derive(Drop)]
pub struct MemorySink {
    bytes: Vec<u8>,
    room: usize,
    piece: usize,
    failing: Calls,
    calls: u64,
    flushed: usize,
    faults: u64,
}

impl Model for MemorySink {
    ghost use Rattle.std.specs.Prelude.{◌<◌, ◌≤◌, vec_len, vec_capacity};
    ghost use Rattle.ember_io.specs.Memory.{SinkState};

    ghost Value = { SinkState };

    ghost view = { λ s. record {
      bytes = s.bytes.items;
      room = s.room;
      piece = s.piece;
      failing = s.failing;
      calls = s.calls;
      flushed = s.flushed;
      faults = s.faults;
    } };

    ghost invariant = { λ s. (0 < s.piece) × (s.room ≤ vec_capacity s.bytes) × (vec_len s.bytes ≤ s.room) };
}

impl MemorySink {
    /// A sink with room for `room` bytes. A write takes at most `piece` bytes, and the calls whose
    /// numbers are in `failing` fail.
    pub fn new(
        alloc: Global,
        room: usize,
        piece: usize,
        failing: Calls,
    ) -> Result<MemorySink, AllocError>
        requires { 0 < piece }
        ensures { IfOk result (λ s. s ≡ record {
          bytes = [];
          room = room;
          piece = piece;
          failing = failing;
          calls = 0;
          flushed = 0;
          faults = 0;
        }) }
    {
        let bytes = Vec::with_capacity(alloc, room)?;
        Ok(MemorySink {
            bytes,
            room,
            piece,
            failing,
            calls: 0,
            flushed: 0,
            faults: 0,
        })
    }

    /// The bytes taken.
    pub fn bytes(&self) -> &[u8]
        ensures { result.now ≡ self.now.bytes }
    {
        &self.bytes
    }
}

impl Sink for MemorySink {
    ghost taken = { λ s. Some s.bytes };

    ghost flushed = { λ s. s.flushed };

    ghost faults = { λ s. s.faults };

    fn write(&mut self, piece: &[u8]) -> Result<usize, Failed>
        ensures bound { WritesAtMost result piece.now }
        ensures some { IfOk result (λ n. 0 < length piece.now → 0 < n) }
        ensures bytes { WriteAppends (Some self.old.bytes) (Some self.new.bytes) result piece.now }
        ensures flushed { self.new.flushed ≤ self.old.flushed }
        ensures cause { HasCause self.old.faults self.new.faults result }

        // It fails exactly at the chosen calls and if the room is used up, and otherwise takes as
        // much as there is room for, up to a piece.
        ensures fails { IsErr result ↔ FailsToWrite self.old piece.now }
        ensures count { IfOk result (λ n. n ≡
            min self.old.piece (min (length piece.now) (self.old.room - length self.old.bytes))) }
        ensures still { self.new.flushed ≡ self.old.flushed }
        ensures counts { CountsFault self.old.faults self.new.faults result }
        ensures calls { self.new.calls ≡ next_count self.old.calls }
        ensures same { IsSameSink self.old self.new }
    {
        self.calls = self.calls.saturating_add(1);
        let room = self.room - self.bytes.len();
        let count = self.piece.min(piece.len().min(room));
        if is_failing(&self.failing, self.calls) || (count == 0 && !piece.is_empty()) {
            self.faults = self.faults.saturating_add(1);
            return Err(Failed);
        }
        self.bytes
            .extend_from_slice(piece.split_at(count).0)
            .unwrap();
        Ok(count)
    }

    fn flush(&mut self) -> Result<(), Failed>
        ensures bytes { Some self.new.bytes ≡ Some self.old.bytes }
        ensures flushed { OnOk result (IsFlushed (Some self.new.bytes) self.new.flushed) }
        ensures unflushed { OnErr result (self.new.flushed ≤ self.old.flushed) }
        ensures cause { HasCause self.old.faults self.new.faults result }

        // It fails exactly at the chosen calls.
        ensures fails { IsErr result ↔ Contains self.old.failing (next_count self.old.calls) }
        ensures counts { CountsFault self.old.faults self.new.faults result }
        ensures still { OnErr result (self.new.flushed ≡ self.old.flushed) }
        ensures calls { self.new.calls ≡ next_count self.old.calls }
        ensures same { IsSameSink self.old self.new }
    {
        self.calls = self.calls.saturating_add(1);
        if is_failing(&self.failing, self.calls) {
            self.faults = self.faults.saturating_add(1);
            return Err(Failed);
        }
        self.flushed = self.bytes.len();
        Ok(())
    }
}
