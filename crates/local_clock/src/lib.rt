//! The local clock of a slave: it counts 10 ns at every tick of the slave's oscillator, and takes 9 or
//! 11 ns at every g-th tick for as long as a received difference is not worked off. This step rule, and
//! that a reset drops what is left, are this project's own.
//!
//! A [`LocalClock`] stands at a true time, in fs, and shows a local time, in ns. [`LocalClock::advance`]
//! takes all ticks of an interval at once, and [`LocalClock::first_reaching`] finds the tick at which the
//! clock comes to a value by bisection: neither goes from tick to tick. What they answer is said tick by tick, in
//! `specs/StepRule.antt`, `specs/Reading.antt` and `specs/FirstReaching.antt`. What follows from these
//! for any number of ticks, and for a whole history of differences and resets, is in the [`laws`]. Some of them
//! speak of the local time without wrap (`specs/LocalTime.antt`), and of a clock since it received a difference
//! (`specs/Since.antt`).
#![tactic(auto)]

mod clock;
pub mod laws;
mod steps;

pub use clock::LocalClock;
