//! The bounds of one segment: how near the measured delays of its clocks are to the true ones, how near
//! their local copies stay to that of the reference, and how far apart edges of one index can be.
//!
//! Each call puts the numbers of a legal segment into the formulas of `dc_bounds`. That measured delays keep
//! to theirs is a law of `delay_law`; of copies and edges it is not proved yet. All are in fs, none takes memory, and a clock is named by
//! its row. Contracts cite `specs/Bounds.antt` and `specs/Window.antt`; what these formulas mean together
//! is in the [`laws`].
#![tactic(auto)]

mod bounded;
mod bounds;
pub mod laws;
mod signal;
mod windows;

pub use bounds::{copy_bound, delay_bound, true_delay};
pub use signal::Signal;
pub use windows::{window, window_between};
