//! A frame read byte by byte: where its next byte stands, and which bytes are refused there.

ghost use Rattle.std.specs.Prelude.{◌≡◌, ◌+◌, ◌*◌, ◌<◌, ◌≤◌, IfOk};
ghost use Rattle.ecat_frame.specs.InsideScan.{IsLive, answer_of, part_of, told};
ghost use Rattle.ecat_frame.specs.Refusals.{after_header, after_length, after_length_low, step};

use crate::error::FrameError;
use crate::layout::{
    DATAGRAMS, FIRST, IRQ, LAST_COMMAND, LENGTH_BITS, MAX_DATAGRAMS, MIN_LENGTH, MORE, OVERHEAD,
    TYPE_UNIT,
};

/// Where the next byte of a frame stands, as `Part` of `specs/FramePart.antt` has it. `room` is how much
/// padding may follow the datagrams, and `left` what is left of the header's length from the datagram's
/// first byte on.
#[derive(Clone, Copy)]
pub(crate) enum Part {
    /// Behind so many of the 14 bytes before the header word.
    Front {
        at: usize,
    },
    /// The first byte of the header word.
    HeaderLow,
    /// Its second byte.
    HeaderHigh {
        low: u16,
    },
    /// Behind so many of the six bytes before a datagram's length word.
    Head {
        room: usize,
        left: usize,
        at: usize,
    },
    /// The first byte of the length word.
    LengthLow {
        room: usize,
        left: usize,
    },
    /// Its second byte.
    LengthHigh {
        room: usize,
        left: usize,
        low: u16,
    },
    /// In the last `body` bytes of a datagram, with `left` behind it.
    Body {
        room: usize,
        left: usize,
        body: usize,
    },
    /// Behind the datagrams.
    Padding {
        room: usize,
    },
}

impl Part {
    /// The place behind byte `at` of the frame.
    #[inline]
    pub(crate) fn step(self, at: usize, byte: u8) -> Result<Part, FrameError>
        requires { IsLive (part_of self) }
        ensures step { answer_of result ≡ told at (step (part_of self) byte) }
        ensures live { IfOk result (λ p. IsLive (part_of p)) }
    {
        let byte = u16::from(byte);
        match self {
            Part::Front { at: n } => match (n, byte) {
                (12, 0x88) => Ok(Part::Front { at: 13 }),
                (13, 0xA4) => Ok(Part::HeaderLow),
                (12 | 13, _) => Err(FrameError::EtherType(at)),
                _ => Ok(Part::Front { at: n + 1 }),
            },
            Part::HeaderLow => Ok(Part::HeaderHigh { low: byte }),
            Part::HeaderHigh { low } => after_header(low + 256 * byte, at),
            Part::Head { at: 0, .. } if byte > LAST_COMMAND => Err(FrameError::Command(at)),
            Part::Head { room, left, at: 5 } => Ok(Part::LengthLow { room, left }),
            Part::Head { room, left, at: n } => Ok(Part::Head {
                room,
                left,
                at: n + 1,
            }),
            Part::LengthLow { room, left } => after_length_low(room, left, byte, at),
            Part::LengthHigh { room, left, low } => after_length(room, left, low + 256 * byte, at),
            Part::Body { room, left, body } if body > 1 => Ok(Part::Body {
                room,
                left,
                body: body - 1,
            }),
            Part::Body { room, left: 0, .. } => Ok(Part::Padding { room }),
            Part::Body { room, left, .. } => Ok(Part::Head { room, left, at: 0 }),
            Part::Padding { room: 0 } => Err(FrameError::TooLong(at)),
            Part::Padding { room } => Ok(Part::Padding { room: room - 1 }),
        }
    }
}

// Behind the header word, whose second byte is byte `at`.
fn after_header(word: u16, at: usize) -> Result<Part, FrameError>
    ensures step { answer_of result ≡ told at (after_header word) }
    ensures live { IfOk result (λ p. IsLive (part_of p)) }
{
    let length = usize::from(word & LENGTH_BITS);
    if word / TYPE_UNIT != DATAGRAMS {
        Err(FrameError::FrameType(at))
    } else if length < OVERHEAD || length > MAX_DATAGRAMS {
        Err(FrameError::Length(at))
    } else {
        Ok(Part::Head {
            room: MIN_LENGTH.saturating_sub(FIRST + length),
            left: length,
            at: 0,
        })
    }
}

// Behind the first byte of a length word. The second adds a multiple of 256 to the data: so where
// the datagram is too long by this byte alone, or leaves too little for another one, none helps.
fn after_length_low(room: usize, left: usize, low: u16, at: usize) -> Result<Part, FrameError>
    requires least { 12 ≤ left }
    requires most { left ≤ 1498 }
    requires byte { low < 256 }
    ensures step { answer_of result ≡ told at (after_length_low room left low) }
    ensures live { IfOk result (λ p. IsLive (part_of p)) }
{
    let least = OVERHEAD + usize::from(low);
    if least > left {
        Err(FrameError::Length(at))
    } else if least < left && left < least + OVERHEAD {
        Err(FrameError::More(at))
    } else {
        Ok(Part::LengthHigh { room, left, low })
    }
}

// Behind the length word, whose second byte is byte `at`.
fn after_length(room: usize, left: usize, word: u16, at: usize) -> Result<Part, FrameError>
    requires { left ≤ 1498 }
    ensures step { answer_of result ≡ told at (after_length room left word) }
    ensures live { IfOk result (λ p. IsLive (part_of p)) }
{
    let size = OVERHEAD + usize::from(word & LENGTH_BITS);
    let more = word >= MORE;
    if size > left {
        Err(FrameError::Length(at))
    } else if !more && size < left || more && left < size + OVERHEAD {
        Err(FrameError::More(at))
    } else {
        Ok(Part::Body {
            room,
            left: left - size,
            body: size - IRQ,
        })
    }
}
