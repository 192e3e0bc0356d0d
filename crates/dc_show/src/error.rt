use ecat_frame::FrameError;
use std::alloc::AllocError;
use std::fmt;
use thiserror::Error;

/// Why a line is no frame in hexadecimal digits. The digits are judged first, to the end of the line.
#[derive(Clone, Copy, Debug, PartialEq, Eq, Error)]
pub enum FrameFault {
    /// The place of the first character that is no hexadecimal digit, or else the number of digits where it is odd.
    Hex(usize),
    /// The bytes are no frame.
    Frame(FrameError),
}

impl fmt::Display for FrameFault {
    ghost use Rattle.std.specs.Prelude.{Some};
    ghost use Rattle.dc_show.specs.FaultText.{fault_text};

    ghost output = { λ e. Some (fault_text e) };

    fn fmt<W: fmt::Write>(&self, f: &mut fmt::Formatter<W>) -> fmt::Result {
        match self {
            FrameFault::Hex(at) => write!(f, "hex at {at}"),
            FrameFault::Frame(error) => write!(f, "{error}"),
        }
    }
}

/// Why an input is not shown.
#[derive(Clone, Copy, Debug, PartialEq, Eq)]
pub enum ShowError {
    /// The number of the first line that is no frame, from 1, and why it is none.
    BadFrame(u32, FrameFault),
    /// Memory ran out.
    NoMemory,
}

impl From<AllocError> for ShowError {
    ghost use Rattle.std.specs.Prelude.{◌≡◌};
    ghost use Rattle.dc_show.specs.declared.error.ShowError.TheVariants.{NoMemory};

    ghost from_gives = { λ _ e. e ≡ NoMemory };

    fn from(_error: AllocError) -> ShowError {
        ShowError::NoMemory
    }
}
