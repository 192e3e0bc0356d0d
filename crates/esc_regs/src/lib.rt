//! The register file of an EtherCAT slave controller (ESC): the registers of ETG.1000.4, among them
//! those of distributed clocks, as a register description in an ESC's data sheet lists them.
//!
//! A [`RegFile`] holds the bytes 0x0000 to 0x0FFF of one slave. Frames reach it by [`RegFile::read`]
//! and [`RegFile::write`], with any address and any number of bytes; the slave itself reaches its
//! registers one by one by [`RegFile::get`] and [`RegFile::set`]. A write carries nothing out: it
//! stores bytes and tells what the slave has to do ([`Written`]), since a register file knows no
//! instant.
//!
//! `specs/RegisterTable.antt` is the table of registers, one row each; `specs/RegisterAccess.antt` is
//! this project's rule of register access: which accesses are refused, which bytes a write stores and
//! what it tells. `specs/RegisterWrite.antt` makes a write two functions of it. The numbers of the
//! registers that change with time come from the reader ([`RegFile::read_showing`]).
#![tactic(auto)]

mod answers;
mod clock_kind;
mod laws;
mod live;
mod names;
mod reg_word;
mod register;
mod register_file;
mod rules;
mod table;

pub use answers::{Access, Written};
pub use clock_kind::{ClockKind, greatest_start, has_clock, measures};
pub use laws::{
    load_after_store, narrow_numbers, numbers_fit, rates_told, registers_start, stay_whole,
    store_leaves_length, store_leaves_others, write_leaves_kind, write_leaves_others, write_stores,
    write_stores_numbers,
};
pub use live::Live;
pub use names::{
    Activation, Controller, CyclicControl, Delay, Difference, DlStatus, Features, FilterDepth1,
    FilterDepth2, Latch0Positive, Latch0Status, Offset, ReceivePort0, ReceivePort1, ReceivePort2,
    ReceivePort3, ReceiveUnit, SpeedDifference, SpeedStart, StartTime, Station, Sync0Cycle,
    Sync1Time, SystemTime,
};
pub use reg_word::RegWord;
pub use register::{Place, Reg};
pub use register_file::RegFile;
pub use table::{Writing, places};
