ghost use Rattle.std.specs.Prelude.{ℕ, ◌<◌, Option, List, length, IfOk};
ghost use Rattle.std.specs.Io.{WritesAtMost};
ghost use Rattle.std.specs.Io.KnownBytes.{WriteAppends};
ghost use Rattle.dc_base.specs.Causes.{HasCause};

use crate::WriteFailed;

/// What takes bytes, a piece at a time.
pub trait Sink {
    /// The bytes that were taken, where the sink tells them.
    ghost taken: { Self → Option (List ℕ) };

    /// How often it has failed. The count stands still at its last value.
    ghost faults: { Self → ℕ };

    /// Takes the first bytes of `piece`, and answers their number: at least 1, unless `piece` is empty.
    /// Where it fails, a sink that tells its bytes has taken nothing.
    fn write(&mut self, piece: &[u8]) -> Result<usize, WriteFailed>
        ensures bound { WritesAtMost result piece.now }
        ensures some { IfOk result (λ count. 0 < length piece.now → 0 < count) }
        ensures bytes { WriteAppends (taken self.old) (taken self.new) result piece.now }
        ensures cause { HasCause (faults self.old) (faults self.new) result };
}
