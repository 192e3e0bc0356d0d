ghost use Rattle.std.specs.Prelude.{◌≡◌, ◌-◌, ◌<◌, ◌↔◌, ◌++◌, [], length, take, Some, IfOk, OnErr, IsErr};
ghost use Rattle.std.specs.Io.{WritesAtMost};
ghost use Rattle.std.specs.Io.KnownBytes.{WriteAppends};
ghost use Rattle.dc_base.specs.Causes.{HasCause, raised};
ghost use Rattle.dc_base.specs.SinkState.{FailsNextWrite, next_taken};

use crate::{NoMemory, Sink, WriteFailed};
use std::alloc::Global;
use std::marker::Model;

/// A sink of bytes in memory, which takes them in chunks while it has room, and fails at the writes
/// that are listed.
#[derive(Debug, Drop)]
pub struct MemSink {
    bytes: Vec<u8>,
    room: usize,
    chunk: usize,
    fails: Vec<u64>,
    calls: u64,
    faults: u64,
}

impl Model for MemSink {
    ghost use Rattle.std.specs.Prelude.{◌≤◌, ◌+◌, ◌<◌, vec_len, vec_capacity};
    ghost use Rattle.dc_base.specs.SinkState.{SinkState};

    ghost Value = { SinkState };

    ghost view = { λ a. record {
      bytes = a.bytes.items;
      room = a.room;
      chunk = a.chunk;
      fails = a.fails.items;
      calls = a.calls;
      faults = a.faults;
    } };

    // The memory for all that there is room for is held from the start, so no write fails for it.
    ghost invariant = { λ a. (vec_len a.bytes + a.room ≤ vec_capacity a.bytes) × (0 < a.chunk) };
}

impl MemSink {
    /// A sink with room for `room` bytes, which takes at most `chunk` of them in one write. The writes
    /// whose numbers, counted from 1, are in `fails` fail. All memory is taken here.
    pub fn new(
        alloc: Global,
        room: usize,
        chunk: usize,
        fails: Vec<u64>,
    ) -> Result<MemSink, NoMemory>
        requires { 0 < chunk }
        ensures { IfOk result (λ s. s ≡ record {
          bytes = [];
          room = room;
          chunk = chunk;
          fails = fails.items;
          calls = 0;
          faults = 0;
        }) }
    {
        let bytes = Vec::with_capacity(alloc, room)?;
        Ok(MemSink {
            bytes,
            room,
            chunk,
            fails,
            calls: 0,
            faults: 0,
        })
    }

    /// The bytes that were taken.
    pub fn bytes(&self) -> &[u8]
        ensures { result.now ≡ self.now.bytes }
    {
        &self.bytes
    }

    /// How many writes have failed.
    pub fn faults(&self) -> u64
        ensures { result ≡ self.now.faults }
    {
        self.faults
    }
}

impl Sink for MemSink {
    ghost taken = { λ s. Some s.bytes };

    ghost faults = { λ s. s.faults };

    /// Each write, a failed one and one of an empty piece too, has the next number. The number stands
    /// still once it is `u64::MAX`. A write that is listed and also finds no room is one fault.
    fn write(&mut self, piece: &[u8]) -> Result<usize, WriteFailed>
        ensures bound { WritesAtMost result piece.now }
        ensures some { IfOk result (λ count. 0 < length piece.now → 0 < count) }
        ensures bytes { WriteAppends (Some self.old.bytes) (Some self.new.bytes) result piece.now }
        ensures cause { HasCause self.old.faults self.new.faults result }

        ensures fails { IsErr result ↔ FailsNextWrite self.old piece.now }
        ensures count { IfOk result (λ n. n ≡ next_taken self.old (length piece.now)) }

        ensures after { IfOk result (λ n. self.new ≡ record self.old {
          bytes = self.old.bytes ++ take n piece.now;
          room = self.old.room - n;
          calls = raised self.old.calls;
        }) }
        ensures after_fault { OnErr result (self.new
            ≡ record self.old { calls = raised self.old.calls; faults = raised self.old.faults }) }
    {
        self.calls = self.calls.saturating_add(1);
        let is_full = self.room == 0 && !piece.is_empty();
        if is_full || self.fails.contains(&self.calls) {
            self.faults = self.faults.saturating_add(1);
            return Err(WriteFailed);
        }
        let count = self.chunk.min(self.room).min(piece.len());
        self.bytes.extend_from_slice(&piece[..count]).unwrap();
        self.room -= count;
        Ok(count)
    }
}
