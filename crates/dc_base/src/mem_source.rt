ghost use Rattle.std.specs.Prelude.{◌≡◌, ◌<◌, ◌↔◌, ◌++◌, length, take, drop, Some, IfOk, OnErr, IsErr};
ghost use Rattle.std.specs.Io.{ReadsAtMost};
ghost use Rattle.std.specs.Io.KnownBytes.{ReadConsumes};
ghost use Rattle.dc_base.specs.Causes.{HasCause, raised};
ghost use Rattle.dc_base.specs.SourceState.{FailsNextRead, next_given};

use crate::{ReadFailed, Source};
use std::marker::Model;

/// A source of bytes in memory, which gives them in chunks and fails at the reads that are listed.
#[derive(Debug, Drop)]
pub struct MemSource {
    bytes: Vec<u8>,
    at: usize,
    chunk: usize,
    fails: Vec<u64>,
    calls: u64,
    faults: u64,
}

impl Model for MemSource {
    ghost use Rattle.std.specs.Prelude.{◌≤◌, ◌<◌, length, drop};
    ghost use Rattle.dc_base.specs.SourceState.{SourceState};

    ghost Value = { SourceState };

    ghost view = { λ a. record {
      left = drop a.at a.bytes.items;
      chunk = a.chunk;
      fails = a.fails.items;
      calls = a.calls;
      faults = a.faults;
    } };

    ghost invariant = { λ a. (a.at ≤ length a.bytes.items) × (0 < a.chunk) };
}

impl MemSource {
    /// A source of `bytes`, which gives at most `chunk` of them in one read. The reads whose numbers,
    /// counted from 1, are in `fails` fail.
    pub fn new(bytes: Vec<u8>, chunk: usize, fails: Vec<u64>) -> MemSource
        requires { 0 < chunk }
        ensures { result ≡ record {
          left = bytes.items;
          chunk = chunk;
          fails = fails.items;
          calls = 0;
          faults = 0;
        } }
    {
        MemSource {
            bytes,
            at: 0,
            chunk,
            fails,
            calls: 0,
            faults: 0,
        }
    }

    /// How many reads have failed.
    pub fn faults(&self) -> u64
        ensures { result ≡ self.now.faults }
    {
        self.faults
    }
}

impl Source for MemSource {
    ghost left = { λ s. Some s.left };

    ghost faults = { λ s. s.faults };

    /// Each read, a failed one too, has the next number. The number stands still once it is `u64::MAX`.
    fn read(&mut self, buf: &mut [u8]) -> Result<usize, ReadFailed>
        ensures bound { ReadsAtMost result buf.new }
        ensures bytes { ReadConsumes (Some self.old.left) (Some self.new.left) result buf.new }
        ensures cause { HasCause self.old.faults self.new.faults result }

        ensures fails { IsErr result ↔ FailsNextRead self.old }
        ensures count { IfOk result (λ n. n ≡ next_given self.old (length buf.old)) }
        ensures given { IfOk result (λ n. buf.new ≡ take n self.old.left ++ drop n buf.old) }
        ensures nothing_given { OnErr result (buf.new ≡ buf.old) }

        ensures after { IfOk result (λ n. self.new
            ≡ record self.old { left = drop n self.old.left; calls = raised self.old.calls }) }
        ensures after_fault { OnErr result (self.new
            ≡ record self.old { calls = raised self.old.calls; faults = raised self.old.faults }) }
    {
        self.calls = self.calls.saturating_add(1);
        if self.fails.contains(&self.calls) {
            self.faults = self.faults.saturating_add(1);
            return Err(ReadFailed);
        }
        let left = &self.bytes[self.at..];
        let count = self.chunk.min(buf.len()).min(left.len());
        buf[..count].copy_from_slice(&left[..count]);
        self.at += count;
        Ok(count)
    }
}
