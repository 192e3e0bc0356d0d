//! Latch input 0 of a slave (ESC data sheet, Section I: the latch unit of the distributed clocks): the
//! positive edge of a signal gets the slave's own copy of the system time as its stamp.
//!
//! A [`LatchUnit`] keeps the true time of the event that is expected at its input. [`LatchUnit::sample`]
//! gives the stamp where the ticks of an interval of the clock take the event. `specs/Stamp.antt` says
//! which tick takes it, and which stamp it gets; that this is the first tick at or after the event is this
//! project's rule. The [`laws`] say that an event is stamped once, in however many steps the clock goes.
#![tactic(auto)]

mod latch_unit;
pub mod laws;

pub use latch_unit::LatchUnit;
