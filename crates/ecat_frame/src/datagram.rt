ghost use Rattle.std.specs.Prelude.{◌≡◌, ◌+◌, ◌<◌, ◌≤◌, ◌++◌, slice_index, length, drop};
ghost use Rattle.byteorder.specs.Endian.{little_number};
ghost use Rattle.ecat_frame.specs.Built.{fresh};
ghost use Rattle.ecat_frame.specs.FrameGrammar.{IsDatagram, spelled};

use crate::bytes::{data_length, read_word, write_part, write_word};
use crate::command::Command;
use crate::layout::{ADO, ADP, IRQ, LENGTH_WORD, MORE, PAYLOAD};

/// What a datagram asks, and of whom (ETG.1000.4, section 5.4).
#[derive(Clone, Copy, Debug, PartialEq, Eq)]
pub struct Head {
    pub command: Command,
    /// The sender's own number for the datagram.
    pub index: u8,
    /// The slave's address: its auto-increment or station address, or what a broadcast counts in.
    pub adp: u16,
    /// The address in the slave. Logical commands have one address in `adp` and `ado`.
    pub ado: u16,
}

/// A datagram as it stands in a frame.
#[derive(Clone, Copy, Debug, PartialEq, Eq)]
pub struct Datagram<'a> {
    pub head: Head,
    /// The data's length in bits 0 to 10, three reserved bits, the circulating bit, and in bit 15
    /// the more bit: whether another datagram follows.
    pub length_word: u16,
    pub irq: u16,
    /// The data.
    pub payload: &'a [u8],
    /// The working counter.
    pub wkc: u16,
}

impl<'a> Datagram<'a> {
    ghost use Rattle.ecat_frame.specs.Reading.{data_length, first_datagram, seen};

    /// The datagram at the start of these bytes.
    pub(crate) fn read(bytes: &'a [u8]) -> Datagram<'a>
        requires head { 8 ≤ length bytes.now }
        requires whole { 12 + data_length bytes.now ≤ length bytes.now }
        requires command { slice_index bytes.now 0 < 15 }
        ensures is { seen result ≡ first_datagram bytes.now }
        ensures length_word { result.length_word ≡ little_number 2 (drop 6 bytes.now) }
    {
        let Some(command) = Command::from_code(bytes[0]) else {
            unreachable!()
        };
        let end = PAYLOAD + data_length(bytes, 0);
        Datagram {
            head: Head {
                command,
                index: bytes[1],
                adp: read_word(bytes, ADP),
                ado: read_word(bytes, ADO),
            },
            length_word: read_word(bytes, LENGTH_WORD),
            irq: read_word(bytes, IRQ),
            payload: &bytes[PAYLOAD..end],
            wkc: read_word(bytes, end),
        }
    }
}

/// Writes a datagram to these bytes, with its more bit set.
pub(crate) fn write_datagram(bytes: &mut [u8], head: Head, payload: &[u8])
    requires short { length payload.now < 2048 }
    requires size { length bytes.old ≡ 12 + length payload.now }
    ensures bytes { bytes.new ≡ spelled 1 (fresh head payload.now) }
    ensures valid { IsDatagram (fresh head payload.now) }
{
    write_part(bytes, 0, &[head.command.code(), head.index]);
    write_word(bytes, ADP, head.adp);
    write_word(bytes, ADO, head.ado);
    write_word(bytes, LENGTH_WORD, MORE | payload.len() as u16);
    write_word(bytes, IRQ, 0);
    write_part(bytes, PAYLOAD, payload);
    write_word(bytes, PAYLOAD + payload.len(), 0);
}
