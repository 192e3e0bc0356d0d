//! The table of registers as the code has it, and the names in its order.

ghost use Rattle.std.specs.Prelude.{◌≡◌, ◌+◌, ◌≤◌, map};
ghost use Rattle.std.specs.List.{All};
ghost use Rattle.esc_regs.specs.RegisterTable.{registers, row_of, register_place};

use crate::names::{
    Activation, Controller, CyclicControl, Delay, Difference, DlStatus, Features, FilterDepth1,
    FilterDepth2, Latch0Positive, Latch0Status, Offset, ReceivePort0, ReceivePort1, ReceivePort2,
    ReceivePort3, ReceiveUnit, SpeedDifference, SpeedStart, StartTime, Station, Sync0Cycle,
    Sync1Time, SystemTime,
};
use crate::register::Place;

/// What a write does to the bytes of a register.
#[derive(Clone, Copy, Debug, PartialEq, Eq)]
pub enum Writing {
    /// Nothing.
    Ignored,
    /// It stores each byte that it has.
    Stored,
    /// It stores both bytes of a speed, where it has both and the speed is in its range.
    StoredInRange,
}

/// A register of the table: its address, the number of its bytes, and what a write does to them.
pub(crate) type Row = (usize, usize, Writing);

static ROWS: [Row; 24] = [
    (0x0000, 1, Writing::Ignored),
    (0x0008, 2, Writing::Ignored),
    (0x0010, 2, Writing::Stored),
    (0x0110, 2, Writing::Ignored),
    (0x0900, 4, Writing::Ignored),
    (0x0904, 4, Writing::Ignored),
    (0x0908, 4, Writing::Ignored),
    (0x090C, 4, Writing::Ignored),
    (0x0910, 8, Writing::Ignored),
    (0x0918, 8, Writing::Ignored),
    (0x0920, 8, Writing::Stored),
    (0x0928, 4, Writing::Stored),
    (0x092C, 4, Writing::Ignored),
    (0x0930, 2, Writing::StoredInRange),
    (0x0932, 2, Writing::Ignored),
    (0x0934, 1, Writing::Stored),
    (0x0935, 1, Writing::Stored),
    (0x0980, 1, Writing::Stored),
    (0x0981, 1, Writing::Stored),
    (0x0990, 8, Writing::Stored),
    (0x09A0, 4, Writing::Stored),
    (0x09A4, 4, Writing::Stored),
    (0x09AE, 1, Writing::Ignored),
    (0x09B0, 8, Writing::Ignored),
];

/// The registers in the order of their addresses.
pub(crate) fn rows() -> &'static [Row]
    ensures table { result.now ≡ map row_of registers }
    ensures within { All (λ r. r.0 + r.1 ≤ 4096) result.now }
{
    &ROWS
}

/// Where the names of this crate stand, in the order of the table.
///
/// This is the table that ties each name to its register: a name at another address or with another
/// number of bytes is refused here.
pub fn places() -> [Place; 24]
    ensures { result ≡ map register_place registers }
{
    [
        Controller::new().place(),
        Features::new().place(),
        Station::new().place(),
        DlStatus::new().place(),
        ReceivePort0::new().place(),
        ReceivePort1::new().place(),
        ReceivePort2::new().place(),
        ReceivePort3::new().place(),
        SystemTime::new().place(),
        ReceiveUnit::new().place(),
        Offset::new().place(),
        Delay::new().place(),
        Difference::new().place(),
        SpeedStart::new().place(),
        SpeedDifference::new().place(),
        FilterDepth1::new().place(),
        FilterDepth2::new().place(),
        CyclicControl::new().place(),
        Activation::new().place(),
        StartTime::new().place(),
        Sync0Cycle::new().place(),
        Sync1Time::new().place(),
        Latch0Status::new().place(),
        Latch0Positive::new().place(),
    ]
}
