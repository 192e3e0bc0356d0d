ghost use Rattle.std.specs.Prelude.{◌≡◌, None, if◌then◌else◌, is_ok};
ghost use Rattle.std.specs.Io.{ReadsAtMost};
ghost use Rattle.std.specs.Io.KnownBytes.{ReadConsumes};
ghost use Rattle.dc_base.specs.Causes.{HasCause, raised};

use crate::{ReadFailed, Source};
use std::io::Read;
use std::marker::Model;

/// A reader of std as a source. As a source it tells no bytes, since what a reader will give is not
/// known: its content is trusted.
#[derive(Debug, Drop)]
pub struct ReadSource<R> {
    inner: R,
    faults: u64,
}

impl<R> Model for ReadSource<R> {
    ghost use Rattle.dc_base.specs.Counted.{Counted};

    ghost Value = { Counted R };

    ghost view = { λ a. record { inner = a.inner; faults = a.faults } };
}

impl<R: Read> ReadSource<R> {
    /// The reader as a source that has not failed yet.
    pub fn new(inner: R) -> ReadSource<R>
        ensures { result ≡ record { inner = inner; faults = 0 } }
    {
        ReadSource { inner, faults: 0 }
    }
}

impl<R: Read> Source for ReadSource<R> {
    ghost left = { λ _. None };

    ghost faults = { λ s. s.faults };

    /// One read of the reader. Every error of it is a failure, also where the read was interrupted.
    fn read(&mut self, buf: &mut [u8]) -> Result<usize, ReadFailed>
        ensures bound { ReadsAtMost result buf.new }
        ensures cause { HasCause self.old.faults self.new.faults result }

        // What a reader that knows its bytes gave.
        ensures inner { ReadConsumes (R.remaining self.old.inner) (R.remaining self.new.inner)
            result buf.new }
        ensures faults { self.new.faults
            ≡ (if is_ok result then self.old.faults else raised self.old.faults) }
    {
        match self.inner.read(buf) {
            Ok(count) => Ok(count),
            Err(_) => {
                self.faults = self.faults.saturating_add(1);
                Err(ReadFailed)
            }
        }
    }
}
