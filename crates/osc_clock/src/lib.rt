//! The oscillator behind a slave's clock: the instants in true time, in fs, at which the clock takes a
//! step. It is this project's model of a quartz that drifts, and changes its drift.
//!
//! An [`Osc`] has its first tick at a phase and each further one a period after the one before, until
//! a [`RateRow`] gives another period.
//! Ticks are numbered from 1. [`Osc::ticks_until`] says how many there are by a time, and
//! [`Osc::instant_of`] when one comes. Both go over the rows and never over ticks. A [`Ticker`] is an
//! oscillator that stands at a time, and counts the ticks up to the next row with neither rows nor a division.
//!
//! Contracts see an oscillator as `specs/Ticks.antt` defines it, where ticks come one by one. What
//! layers above need of every oscillator, such as how many ticks an interval can have
//! (`specs/IntervalTicks.antt`), stands in `laws`.
#![tactic(auto)]

mod laws;
mod osc;
mod rate_row;
mod ticker;

pub use laws::{interval_ticks, steady_period, ticks_and_instants};
pub use osc::Osc;
pub use rate_row::{RateList, RateRow};
pub use ticker::Ticker;
