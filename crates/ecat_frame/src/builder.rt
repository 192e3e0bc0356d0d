ghost use Rattle.std.specs.Prelude.{◌≡◌, ◌+◌, ◌<◌, ◌≤◌, ◌↔◌, [], ◌∷◌, ◌++◌, length, drop, OnOk, OnErr, IsErr, IsOk};
ghost use Rattle.ecat_frame.specs.Built.{fresh, built, front_of, size_of};
ghost use Rattle.ecat_frame.specs.FrameGrammar.{all_spelled};

use crate::bytes::{place_of, read_word, write_part, write_word};
use crate::datagram::{Head, write_datagram};
use crate::frame::Frame;
use crate::layout::{
    DATAGRAMS, FIRST, HEADER, LENGTH_WORD, MAX_LENGTH, MIN_LENGTH, MORE, OVERHEAD, TYPE_UNIT,
};
use std::marker::Model;
use thiserror::Error;

/// A datagram does not fit into the frame.
#[derive(Clone, Copy, Debug, PartialEq, Eq, Error)]
#[error("the frame has no room for this datagram")]
pub struct Full;

const BROADCAST: [u8; 6] = [0xFF; 6];

const SOURCE: [u8; 6] = [0x02, 0x00, 0x00, 0x00, 0x00, 0x01];

const ETHER_TYPE: [u8; 2] = [0x88, 0xA4];

/// The datagrams of a frame to be, in their order.
// Each is written where it will stand, with its more bit set, and `finish` clears that of the last:
// so no datagram is touched again while others are appended.
#[derive(Debug, Drop)]
pub struct Builder {
    bytes: [u8; MAX_LENGTH],
    len: usize,
    count: usize,
}

impl Model for Builder {
    ghost use Rattle.std.specs.Prelude.{List};
    ghost use Rattle.ecat_frame.specs.FrameGrammar.{DatagramValue};

    ghost Value = { List DatagramValue };

    ghost use Rattle.ecat_frame.specs.InsideBuilder.{datagrams_of, IsFilled};

    ghost view = { datagrams_of };

    ghost invariant = { IsFilled };
}

impl Builder {
    /// A builder with no datagram.
    pub fn new() -> Builder
        ensures { result ≡ [] }
    {
        Builder {
            bytes: [0; MAX_LENGTH],
            len: FIRST,
            count: 0,
        }
    }

    /// The number of datagrams.
    pub fn count(&self) -> usize
        ensures { result ≡ length self.now }
    {
        self.count
    }

    /// Appends a datagram, with flags, IRQ and working counter 0. `Full` comes exactly where the
    /// frame without padding would pass [`MAX_LENGTH`] bytes.
    pub fn push(&mut self, head: Head, payload: &[u8]) -> Result<(), Full>
        ensures ok { OnOk result (self.new ≡ self.old ++ fresh head payload.now ∷ []) }
        ensures full { IsErr result
            ↔ (MAX_LENGTH < 16 + length (all_spelled self.old) + 12 + length payload.now) }
        ensures fits { 16 + size_of self.old + 12 + length payload.now ≤ MAX_LENGTH → IsOk result }
        ensures err { OnErr result (self.new ≡ self.old) }
    {
        let len = self.len + OVERHEAD + payload.len();
        if len > MAX_LENGTH {
            return Err(Full);
        }
        write_datagram(&mut self.bytes[self.len..len], head, payload);
        self.len = len;
        self.count += 1;
        Ok(())
    }

    /// The frame of these datagrams: to all stations, from 02:00:00:00:00:01, and padded with zeros
    /// to 60 bytes.
    pub fn finish(self) -> Frame
        requires { 0 < length self }
        ensures { result ≡ built self }
    {
        let mut bytes = self.bytes;
        let at = place_of(&bytes, self.count - 1) + LENGTH_WORD;
        let length_word = read_word(&bytes, at);
        write_word(&mut bytes, at, length_word & !MORE);
        write_front(&mut bytes, (self.len - FIRST) as u16);
        Frame {
            bytes,
            len: self.len.max(MIN_LENGTH),
            count: self.count,
        }
    }
}

// What stands before datagrams of this length.
fn write_front(bytes: &mut [u8], len: u16)
    requires short { len < 2048 }
    requires room { 16 ≤ length bytes.old }
    ensures { bytes.new ≡ front_of len ++ drop 16 bytes.old }
{
    write_part(bytes, 0, &BROADCAST);
    write_part(bytes, 6, &SOURCE);
    write_part(bytes, 12, &ETHER_TYPE);
    write_word(bytes, HEADER, DATAGRAMS * TYPE_UNIT | len);
}
