ghost use Rattle.std.specs.Prelude.{◌≡◌, ◌<◌, length, take, None, IfOk, OnErr, if◌then◌else◌, is_ok};
ghost use Rattle.std.specs.Io.{WritesAtMost};
ghost use Rattle.std.specs.Io.KnownBytes.{Appends};
ghost use Rattle.dc_base.specs.Causes.{HasCause, raised};
ghost use Rattle.dc_base.specs.Told.{AppendsFront};

use crate::{Sink, WriteFailed};
use std::io::Write;
use std::marker::Model;

/// A writer of std as a sink, flushed after each write. As a sink it tells no bytes: where the flush
/// fails, the write has failed although the writer may have taken bytes.
#[derive(Debug, Drop)]
pub struct WriteSink<W> {
    inner: W,
    faults: u64,
}

impl<W> Model for WriteSink<W> {
    ghost use Rattle.dc_base.specs.Counted.{Counted};

    ghost Value = { Counted W };

    ghost view = { λ a. record { inner = a.inner; faults = a.faults } };
}

impl<W: Write> WriteSink<W> {
    /// The writer as a sink that has not failed yet.
    pub fn new(inner: W) -> WriteSink<W>
        ensures { result ≡ record { inner = inner; faults = 0 } }
    {
        WriteSink { inner, faults: 0 }
    }
}

impl<W: Write> Sink for WriteSink<W> {
    ghost taken = { λ _. None };

    ghost faults = { λ s. s.faults };

    /// One write and one flush of the writer. Every error of either is a failure, also where the call
    /// was interrupted, and so is a write that takes nothing of a piece that is not empty.
    fn write(&mut self, piece: &[u8]) -> Result<usize, WriteFailed>
        ensures bound { WritesAtMost result piece.now }
        ensures some { IfOk result (λ count. 0 < length piece.now → 0 < count) }
        ensures cause { HasCause self.old.faults self.new.faults result }

        // What a writer that knows its bytes took.
        ensures inner { IfOk result (λ n.
            Appends (W.contents self.old.inner) (W.contents self.new.inner) (take n piece.now)) }
        ensures inner_at_fault { OnErr result (
            AppendsFront (W.contents self.old.inner) (W.contents self.new.inner) piece.now) }
        ensures faults { self.new.faults
            ≡ (if is_ok result then self.old.faults else raised self.old.faults) }
    {
        if let Ok(count) = self.inner.write(piece)
            && (count > 0 || piece.is_empty())
            && self.inner.flush().is_ok()
        {
            return Ok(count);
        }
        self.faults = self.faults.saturating_add(1);
        Err(WriteFailed)
    }
}
