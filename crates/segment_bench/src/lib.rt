//! The bench of a segment: a wire with its slaves, a master that is told of them what a file says, and the
//! run that the master makes over the wire.
//!
//! [`new_bench`] makes both; a bench takes no memory after that. [`commission`] makes the run of the file up
//! to the end of commissioning, and [`run`] the whole one, up to the instant at which its last frame is back
//! and every clock has gone on. What a run is, is said in `run_of_file`; `specs/BenchRun.antt` says what a
//! bench has come to.
#![tactic(auto)]

mod bench;
mod config;

pub use bench::{commission, new_bench, run};
