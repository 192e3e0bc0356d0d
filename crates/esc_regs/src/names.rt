//! The registers by name, in the order of their addresses.

use crate::register::Reg;

/// The type of the controller.
pub type Controller = Reg<u8, 0x0000>;

/// Bit 2: the slave has distributed clocks. Bit 3: they have 64 bits.
pub type Features = Reg<u16, 0x0008>;

/// The configured station address.
pub type Station = Reg<u16, 0x0010>;

/// The data link status: which ports have a link.
pub type DlStatus = Reg<u16, 0x0110>;

/// The local time at which a latching frame came into port 0, in ns.
pub type ReceivePort0 = Reg<u32, 0x0900>;

/// The same for port 1, where the frame came back into it.
pub type ReceivePort1 = Reg<u32, 0x0904>;

/// The same for port 2.
pub type ReceivePort2 = Reg<u32, 0x0908>;

/// The same for port 3.
pub type ReceivePort3 = Reg<u32, 0x090C>;

/// The slave's copy of the system time: its local copy less the propagation delay, in ns.
pub type SystemTime = Reg<u64, 0x0910>;

/// The local time at which a latching frame came to the processing unit, in ns.
pub type ReceiveUnit = Reg<u64, 0x0918>;

/// What the local copy is ahead of the local time, in ns.
pub type Offset = Reg<u64, 0x0920>;

/// The propagation delay from the reference clock, in ns.
pub type Delay = Reg<u32, 0x0928>;

/// How far the system time is ahead of the received one: bit 31 its sign, the rest its size in ns.
pub type Difference = Reg<u32, 0x092C>;

/// The start of the speed counter, which sets how fast a difference is corrected.
pub type SpeedStart = Reg<u16, 0x0930>;

/// The difference of the speed counter.
pub type SpeedDifference = Reg<u16, 0x0932>;

/// The filter depth of the system time difference.
pub type FilterDepth1 = Reg<u8, 0x0934>;

/// The filter depth of the speed counter.
pub type FilterDepth2 = Reg<u8, 0x0935>;

/// The control of the cyclic unit.
pub type CyclicControl = Reg<u8, 0x0980>;

/// Bit 0: the cyclic unit, bit 1: SYNC0, bit 2: SYNC1.
pub type Activation = Reg<u8, 0x0981>;

/// The local copy at which the first sync signal is due, in ns.
pub type StartTime = Reg<u64, 0x0990>;

/// The time between SYNC0 signals, in ns.
pub type Sync0Cycle = Reg<u32, 0x09A0>;

/// The time from a SYNC0 signal to the SYNC1 signal after it, in ns.
pub type Sync1Time = Reg<u32, 0x09A4>;

/// Bit 0: the latch input 0 has taken the time of an event.
pub type Latch0Status = Reg<u8, 0x09AE>;

/// The local copy at a positive edge of latch input 0, in ns.
pub type Latch0Positive = Reg<u64, 0x09B0>;
