//! The bytes of a frame: its words, and where its datagrams begin.

ghost use Rattle.std.specs.Prelude.{◌≡◌, ◌+◌, ◌≤◌, length, drop};
ghost use Rattle.byteorder.specs.Endian.{little_number};
ghost use Rattle.ecat_frame.specs.FrameGrammar.{FrameValue, InGrammar, IsFrame, spelling, word};
ghost use Rattle.ecat_frame.specs.Changed.{put};
ghost use Rattle.ecat_frame.specs.Reading.{data_length, place_in};

use crate::layout::{FIRST, HEADER, LENGTH_BITS, LENGTH_WORD, OVERHEAD};
use byteorder::{ByteOrder, LittleEndian};

pub(crate) fn read_word(bytes: &[u8], at: usize) -> u16
    requires { at + 2 ≤ length bytes.now }
    ensures { result ≡ little_number 2 (drop at bytes.now) }
{
    LittleEndian::read_u16(&bytes[at..])
}

pub(crate) fn write_word(bytes: &mut [u8], at: usize, value: u16)
    requires { at + 2 ≤ length bytes.old }
    ensures { bytes.new ≡ put at (word value) bytes.old }
{
    LittleEndian::write_u16(&mut bytes[at..], value);
}

pub(crate) fn write_part(bytes: &mut [u8], at: usize, part: &[u8])
    requires { at + length part.now ≤ length bytes.old }
    ensures { bytes.new ≡ put at part.now bytes.old }
{
    bytes[at..at + part.len()].copy_from_slice(part);
}

/// The length of the data of the datagram that begins at this place.
pub(crate) fn data_length(bytes: &[u8], at: usize) -> usize
    requires { at + 8 ≤ length bytes.now }
    ensures { result ≡ data_length (drop at bytes.now) }
{
    usize::from(read_word(bytes, at + LENGTH_WORD) & LENGTH_BITS)
}

/// Where datagram k of a frame begins.
pub(crate) fn place_of(bytes: &[u8], k: usize) -> usize
    requires { 16 + place_in k (drop 16 bytes.now) + 8 ≤ length bytes.now }
    ensures { result ≡ 16 + place_in k (drop 16 bytes.now) }
{
    let mut at = FIRST;
    for _i in 0..k {
        at += OVERHEAD + data_length(bytes, at);
    }
    at
}

/// The number of datagrams in the bytes of a frame.
pub(crate) fn datagrams_in(bytes: &[u8]) -> usize
    requires { InGrammar bytes.now }
    ensures { (f : FrameValue) → IsFrame f → bytes.now ≡ spelling f → result ≡ length f.datagrams }
{
    let end = FIRST + usize::from(read_word(bytes, HEADER) & LENGTH_BITS);
    let mut at = FIRST;
    let mut count = 0;
    while at < end {
        at += OVERHEAD + data_length(bytes, at);
        count += 1;
    }
    count
}
