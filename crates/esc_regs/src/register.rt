ghost use Rattle.std.specs.Prelude.{◌≡◌};

use crate::reg_word::RegWord;
use std::marker::PhantomData;

/// Where a register stands: its address, and the number of its bytes.
#[derive(Clone, Copy, Debug, PartialEq, Eq)]
pub struct Place {
    pub addr: u16,
    pub bytes: usize,
}

/// A register that holds a `W` at the address `ADDR`. It has no content of its own: it names a place,
/// and [`crate::RegFile`] holds what stands there.
#[derive(Clone, Copy)]
pub struct Reg<W: RegWord, const ADDR: u16> {
    word: PhantomData<W>,
}

impl<W: RegWord, const ADDR: u16> Reg<W, ADDR> {
    /// The name as a value, to pass to [`crate::RegFile::get`] and [`crate::RegFile::set`].
    pub fn new() -> Self {
        Reg { word: PhantomData }
    }

    /// Where it stands.
    pub fn place(self) -> Place
        ensures { result ≡ record { addr = ADDR; bytes = W.BYTES } }
    {
        Place {
            addr: ADDR,
            bytes: W::BYTES,
        }
    }
}
