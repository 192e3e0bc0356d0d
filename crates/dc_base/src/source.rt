ghost use Rattle.std.specs.Prelude.{ℕ, Option, List};
ghost use Rattle.std.specs.Io.{ReadsAtMost};
ghost use Rattle.std.specs.Io.KnownBytes.{ReadConsumes};
ghost use Rattle.dc_base.specs.Causes.{HasCause};

use crate::ReadFailed;

/// What gives bytes, a piece at a time.
pub trait Source {
    /// The bytes that are left, where the source tells them.
    ghost left: { Self → Option (List ℕ) };

    /// How often it has failed. The count stands still at its last value.
    ghost faults: { Self → ℕ };

    /// Gives the first of the bytes that are left, at the front of `buf`, and answers their number.
    /// It answers 0 only for an empty `buf` or at the end, and takes nothing where it fails.
    fn read(&mut self, buf: &mut [u8]) -> Result<usize, ReadFailed>
        ensures bound { ReadsAtMost result buf.new }
        ensures bytes { ReadConsumes (left self.old) (left self.new) result buf.new }
        ensures cause { HasCause (faults self.old) (faults self.new) result };
}
