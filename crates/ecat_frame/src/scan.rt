ghost use Rattle.std.specs.Prelude.{IfErr, IfOk, OnOk};
ghost use Rattle.ecat_frame.specs.Faults.{IsFault};
ghost use Rattle.ecat_frame.specs.FrameGrammar.{InGrammar};
ghost use Rattle.ecat_frame.specs.InsideScan.{LeadsTo, StopsAt, part_of};

use crate::error::FrameError;
use crate::part::Part;

/// Whether the bytes are a frame.
pub(crate) fn check(bytes: &[u8]) -> Result<(), FrameError>
    ensures ok { OnOk result (InGrammar bytes.now) }
    ensures fault { IfErr result (IsFault bytes.now) }
{
    match scan(bytes)? {
        Part::Padding { .. } => Ok(()),
        _ => Err(FrameError::Short(bytes.len())),
    }
}

// Where the bytes lead, or the first that is refused.
fn scan(bytes: &[u8]) -> Result<Part, FrameError>
    ensures leads { IfOk result (λ p. LeadsTo bytes.now (part_of p)) }
    ensures stops { IfErr result (StopsAt bytes.now) }
{
    let mut place = Part::Front { at: 0 };
    for (at, byte) in bytes.iter().enumerate() {
        place = place.step(at, *byte)?;
    }
    Ok(place)
}
