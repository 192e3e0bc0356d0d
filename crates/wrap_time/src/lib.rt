//! Times that wrap, as the distributed clocks of EtherCAT have them (ETG.1000.4, the attributes of
//! distributed clocks): a slave's clock counts nanoseconds in 64 bits, or in 32 where it is a small
//! one, and the receive times of the ports are the low 32 bits in both.
//!
//! A [`ClockWord`] is a time of either width, [`T32`] or [`T64`]. Two of them have no order, since
//! either may have wrapped; they have a signed difference, which is that of the times behind them
//! wherever those are less than half the range apart ([`near_numbers`]). Sums and differences of words are the
//! words of the sums and differences of times ([`cuts_of_sums`], [`cuts_of_differences`]). [`extend`] makes a low half
//! a time of 64 bits again, by a time that is expected near it ([`times_extended`]).
//!
//! Contracts see a word as its number (`specs/WordDifference.antt`, `specs/Extended.antt`).
#![tactic(auto)]

mod clock_word;
mod extension;
mod laws;
mod word32;
mod word64;

pub use clock_word::ClockWord;
pub use extension::extend;
pub use laws::{
    cuts_of_cuts, cuts_of_differences, cuts_of_sums, latched_differences, near_numbers, offsets,
    subtracted_and_back, times_extended,
};
pub use word32::T32;
pub use word64::T64;
