ghost use Rattle.std.specs.Prelude.{◌≡◌, ◌≤◌, IfOk, IfErr, length, Ok, Err};
ghost use Rattle.serde_json.specs.View.{view};
ghost use Rattle.segment_shape.specs.Head.{head_of};
ghost use Rattle.segment_shape.specs.KeyNames.{name_of};
ghost use Rattle.segment_shape.specs.Seen.{head_seen};

use crate::key::Key;
use crate::value_at::number_at;
use serde_json::Value;

/// What a segment file says of the segment as a whole.
#[derive(Clone, Copy, Debug, PartialEq, Eq)]
pub struct Head {
    /// Of the format: 1, or 2 where rows may list changes of their period.
    pub version: u8,
    /// How far an oscillator's period may be from 10 ns, 0 to 100.
    pub ppm: u32,
    /// From one frame to the next, 50,000 to 10,000,000.
    pub frame_ns: u32,
    /// The speed counter start, 128 to 16,383.
    pub speed: u16,
    /// The most drift frames that may be lost in a row, 0 to 15.
    pub loss_run: u8,
    /// The system time at the latch, 0 to 4·10^18.
    pub epoch_ns: u64,
    /// The SYNC0 cycle, 50,000 to 500,000,000.
    pub cycle_ns: u32,
    /// How many SYNC0 cycles are run, 1 to 100,000.
    pub cycles: u32,
}

#[tactic(auto, unfolding(crate::specs::Head::head_of))]
pub(crate) fn head_of(value: &Value) -> Result<Head, Key>
    ensures ok { IfOk result (λ h. head_of (view value.now) ≡ Ok (head_seen h)) }
    ensures err { IfErr result (λ k. head_of (view value.now) ≡ Err (name_of k)) }
    ensures cycle { IfOk result (λ h. 1 ≤ h.cycle_ns) }
{
    let version = number_at(value, Key::Version, 1, 2)?;
    let ppm = number_at(value, Key::Ppm, 0, 100)?;
    let frame_ns = number_at(value, Key::FrameNs, 50_000, 10_000_000)?;
    let speed = number_at(value, Key::Speed, 128, 16_383)?;
    let loss_run = number_at(value, Key::LossRun, 0, 15)?;
    let epoch_ns = number_at(value, Key::EpochNs, 0, 4_000_000_000_000_000_000)?;
    let cycle_ns = number_at(value, Key::CycleNs, 50_000, 500_000_000)?;
    let cycles = number_at(value, Key::Cycles, 1, 100_000)?;
    Ok(Head {
        version: version as u8,
        ppm: ppm as u32,
        frame_ns: frame_ns as u32,
        speed: speed as u16,
        loss_run: loss_run as u8,
        epoch_ns,
        cycle_ns: cycle_ns as u32,
        cycles: cycles as u32,
    })
}
