use std::fmt;
use thiserror::Error;

/// Why bytes are no frame. Each but [`FrameError::Short`] carries the offset of the first byte after
/// which no frame can follow; [`FrameError::Short`] carries the number of bytes.
#[derive(Clone, Copy, Debug, PartialEq, Eq, Error)]
pub enum FrameError {
    /// The bytes end before the frame does.
    Short(usize),
    /// The EtherType is not 0x88A4.
    EtherType(usize),
    /// The type of the header word is not 1.
    FrameType(usize),
    /// The header's length is not from 12 to 1498, or a datagram is longer than what is left of it.
    Length(usize),
    /// No command has this number.
    Command(usize),
    /// The more bit says that a datagram follows and none can, or the other way round; or what is left of the
    /// header's length behind the datagram is no place for one, whatever the bit says.
    More(usize),
    /// A byte stands behind the greatest padding.
    TooLong(usize),
}

impl fmt::Display for FrameError {
    ghost use Rattle.std.specs.Prelude.{Some};
    ghost use Rattle.ecat_frame.specs.ErrorText.{line_of_error};

    ghost output = { λ e. Some (line_of_error e) };

    fn fmt<W: fmt::Write>(&self, f: &mut fmt::Formatter<W>) -> fmt::Result {
        match self {
            FrameError::Short(at) => write!(f, "short at {at}"),
            FrameError::EtherType(at) => write!(f, "ethertype at {at}"),
            FrameError::FrameType(at) => write!(f, "type at {at}"),
            FrameError::Length(at) => write!(f, "length at {at}"),
            FrameError::Command(at) => write!(f, "command at {at}"),
            FrameError::More(at) => write!(f, "more at {at}"),
            FrameError::TooLong(at) => write!(f, "too long at {at}"),
        }
    }
}
