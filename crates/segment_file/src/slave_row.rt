ghost use Rattle.std.specs.Prelude.{◌≡◌, ◌≤◌, length, map};
ghost use Rattle.segment_file.specs.Segment.{is_clock, is_measuring};
ghost use Rattle.segment_file.specs.Seen.{row_seen};

use arrayvec::ArrayVec;
use cable_tree::Above;
use esc_regs::{ClockKind, has_clock, measures};
use osc_clock::RateList;
use segment_shape::Id;

/// A slave of a segment. The numbers of its clock are 0, empty or None where it has none: all of them at a
/// slave of kind None, shift and SYNC1 time at one of kind R32.
#[derive(Debug, Drop)]
pub struct SlaveRow {
    /// No other row has it.
    pub id: Id,
    /// Whether it takes receive times, and which clock it has.
    pub kind: ClockKind,
    /// From port 0 through the processing unit to the first port out, 1 to 10,000.
    pub tp_ns: u16,
    /// Of every later forwarding, 1 to 10,000.
    pub tf_ns: u16,
    /// Of the cable to the parent, for the root to the master: at most 100,000,000.
    pub cable_ps: u32,
    /// The parent's row and port. None at the root.
    pub above: Option<Above>,
    /// The local time at true time 0, in the width of the clock.
    pub start: u64,
    /// The true time of the first tick, at most `period_fs`.
    pub phase_fs: u64,
    /// From tick to tick, until a change says otherwise.
    pub period_fs: u64,
    /// Changes of the period.
    pub rates: RateList,
    /// Of SYNC0 against the cycle, below the cycle time.
    pub shift_ns: u32,
    /// SYNC1 after SYNC0, from 1 on and below the cycle time.
    pub sync1_ns: Option<u32>,
}

/// A flag for each row.
pub type Flags = ArrayVec<bool, 256>;

/// Which slaves take receive times.
pub fn measuring_flags(rows: &[SlaveRow]) -> Flags
    requires { length rows.now ≤ 256 }
    ensures { result.items ≡ map is_measuring (map row_seen rows.now) }
{
    let mut flags = Flags::new();
    for row in rows {
        flags.push(measures(row.kind));
    }
    flags
}

/// Which slaves are clocks.
pub fn clock_flags(rows: &[SlaveRow]) -> Flags
    requires { length rows.now ≤ 256 }
    ensures { result.items ≡ map is_clock (map row_seen rows.now) }
{
    let mut flags = Flags::new();
    for row in rows {
        flags.push(has_clock(row.kind));
    }
    flags
}
