ghost use Rattle.std.specs.Prelude.{◌≡◌};

use crate::SegFault;
use crate::step_text::StepText;
use dc_base::NoMemory;
use dc_master::Step;
use dc_show::{FrameFault, ShowError};
use segment_file::SegError;
use std::alloc::AllocError;
use std::fmt;

/// How the program ends.
#[derive(Clone, Copy, Debug, PartialEq, Eq)]
pub enum Outcome {
    /// All was read and written.
    Done,
    /// The words are no command.
    Usage,
    /// The input is not JSON.
    BadText,
    /// The input is JSON, but no legal segment file, for this reason.
    BadSegment(SegFault),
    /// This line of the input of `show`, counted from 1, is no frame.
    BadFrame(u32, FrameFault),
    /// No try of this step of the script came back.
    Lost(Step),
    /// The source failed.
    ReadFault,
    /// The sink failed, and holds a front of the output.
    WriteFault,
    /// Memory ran out.
    NoMemory,
    /// The input has more than 16,777,216 bytes.
    TooLong,
    /// The command is not built yet.
    NotYet,
}

impl Outcome {
    ghost use Rattle.dc_top.specs.Outcomes.{status_of};

    /// The exit status of the process.
    pub fn status(&self) -> u8
        ensures { result ≡ status_of self.now }
    {
        match self {
            Outcome::Done => 0,
            Outcome::Usage => 2,
            Outcome::BadText => 3,
            Outcome::BadSegment(..) => 4,
            Outcome::BadFrame(..) => 5,
            Outcome::Lost(..) => 6,
            Outcome::ReadFault => 7,
            Outcome::WriteFault => 8,
            Outcome::NoMemory => 9,
            Outcome::TooLong => 10,
            Outcome::NotYet => 11,
        }
    }
}

/// The line on standard error, without its line feed; empty where all went well.
impl fmt::Display for Outcome {
    ghost use Rattle.std.specs.Prelude.{Some};
    ghost use Rattle.dc_top.specs.Outcomes.{line_of_outcome};

    ghost output = { λ o. Some (line_of_outcome o) };

    fn fmt<W: fmt::Write>(&self, f: &mut fmt::Formatter<W>) -> fmt::Result {
        match self {
            Outcome::Done => Ok(()),
            Outcome::Usage => write!(f, "dc: usage"),
            Outcome::BadText => write!(f, "dc: not JSON"),
            Outcome::BadSegment(fault) => write!(f, "dc: segment: {fault}"),
            Outcome::BadFrame(line, fault) => write!(f, "dc: frame: line {line} {fault}"),
            Outcome::Lost(step) => write!(f, "dc: lost {}", StepText(*step)),
            Outcome::ReadFault => write!(f, "dc: read fault"),
            Outcome::WriteFault => write!(f, "dc: write fault"),
            Outcome::NoMemory => write!(f, "dc: no memory"),
            Outcome::TooLong => write!(f, "dc: input too long"),
            Outcome::NotYet => write!(f, "dc: not yet"),
        }
    }
}

impl From<AllocError> for Outcome {
    ghost use Rattle.dc_top.specs.declared.outcome.Outcome.TheVariants as outcome;

    ghost from_gives = { λ _ o. o ≡ outcome.NoMemory };

    fn from(_error: AllocError) -> Outcome {
        Outcome::NoMemory
    }
}

impl From<NoMemory> for Outcome {
    ghost use Rattle.dc_top.specs.declared.outcome.Outcome.TheVariants as outcome;

    ghost from_gives = { λ _ o. o ≡ outcome.NoMemory };

    fn from(_error: NoMemory) -> Outcome {
        Outcome::NoMemory
    }
}

impl From<ShowError> for Outcome {
    ghost use Rattle.dc_top.specs.Tells.{TellsLines};

    ghost from_gives = { λ error o. TellsLines o error };

    fn from(error: ShowError) -> Outcome {
        match error {
            ShowError::BadFrame(line, fault) => Outcome::BadFrame(line, fault),
            ShowError::NoMemory => Outcome::NoMemory,
        }
    }
}

impl From<SegError> for Outcome {
    ghost use Rattle.dc_top.specs.Tells.{TellsFile};

    ghost from_gives = { λ error o. TellsFile o error };

    fn from(error: SegError) -> Outcome {
        match error {
            SegError::BadText => Outcome::BadText,
            SegError::Shape(path) => Outcome::BadSegment(SegFault::Shape(path)),
            SegError::Twice(id) => Outcome::BadSegment(SegFault::Twice(id)),
            SegError::Tree(tree) => Outcome::BadSegment(SegFault::Tree(tree)),
            SegError::Rate(id) => Outcome::BadSegment(SegFault::Rate(id)),
            SegError::NoReference => Outcome::BadSegment(SegFault::NoReference),
            SegError::Unmeasurable(id) => Outcome::BadSegment(SegFault::Unmeasurable(id)),
            SegError::TooSlow => Outcome::BadSegment(SegFault::TooSlow),
            SegError::NoLock => Outcome::BadSegment(SegFault::NoLock),
            SegError::Lead => Outcome::BadSegment(SegFault::Lead),
            SegError::LossRun(number) => Outcome::BadSegment(SegFault::LossRun(number)),
            SegError::TooMuch => Outcome::BadSegment(SegFault::TooMuch),
            SegError::NoMemory => Outcome::NoMemory,
        }
    }
}
