//! The propagation delays of the clocks of a segment, computed from latched receive times (ESC data
//! sheet, 0x0900).
//!
//! One frame is sent through all slaves, and each slave that measures latches when the frame passed its
//! ports. The difference of two of these times is how long it took from the frame's arrival at the slave
//! until it came back into a port. From these, from the tree and from the forwarding delays of the
//! slaves, [`delays`] computes how much later than at the reference clock the frame arrives at every
//! clock. All cables are taken to be as long there as back. The sum over a way is kept whole,
//! and halved once at its end. This, and what is added up, are this project's rules. Whether there are delays is known
//! from the tree before any slave has latched: [`judge`] says so.
//!
//! The definitions stand over the rows of `cable_tree` (`specs/MeasuredDelay.antt`); a shape with the
//! kinds of its slaves is such a list without cables (`specs/ShapeRows.antt`).
#![tactic(auto)]

pub mod by_position;
mod error;
mod judgement;
mod kind;
mod latch;
pub mod laws;
mod measured;
mod places;
mod slave;
mod table;
mod ways;

pub use error::DelayError;
pub use judgement::judge;
pub use kind::Kind;
pub use latch::Latch;
pub use measured::{DelayList, delays};
