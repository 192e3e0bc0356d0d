//! Segment files: a description of an EtherCAT segment with distributed clocks, read from JSON and checked
//! to be legal.
//!
//! [`read_segment`] answers the segment that a file describes, or the first of twelve checks that it
//! fails: the text, its shape, an id that stands twice, the tree of cables, and then what master and
//! clocks need: rates within the ppm, a reference, slaves that can be measured, a round trip within the
//! frame period, clocks that come together, starts within reach, and few enough losses, frames and edges.
//! A [`Segment`] is always legal.
//!
//! Contracts see a segment as its head, its rows and its losses (`specs/Segment.antt`). What a file says
//! is in `specs/Placed.antt`, the checks in `specs/Faults.antt` and their order in `specs/Told.antt`.
#![tactic(auto)]

mod checks;
mod clock_checks;
mod counts;
mod drift_runs;
mod frame_checks;
pub mod laws;
mod placing;
mod seg_error;
mod segment;
mod slave_row;
mod time_checks;

pub use esc_regs::{has_clock, measures};
pub use loss_list::{LossRow, Phase};
pub use seg_error::{SegError, ShapeTree};
pub use segment::{Segment, read_segment};
pub use segment_shape::{Id, KeyPath};
pub use slave_row::{Flags, SlaveRow, clock_flags, measuring_flags};
