//! The top call of the program `dc`: which words are a command, what a segment file means, the run of its master over its wire, and what
//! is written.
//!
//! [`dc_main`] works over any source and any sink, so all of it can be tested and proved without a file or a terminal. What goes in is
//! bytes and what comes out is bytes and an [`Outcome`], whose status and line on standard error `dc_cli` hands on. What the run of a
//! file is, is said in `run_of_file`, and what is written of it in `bench_report`.
#![tactic(auto)]

mod check;
mod files;
mod outcome;
mod reading;
mod report;
mod runs;
mod seg_fault;
mod step_text;
mod top;
mod write;

pub use lost_step::lost_step;
pub use outcome::Outcome;
pub use reading::InputUse;
pub use report::Report;
pub use seg_fault::SegFault;
pub use segment_file::{Id, KeyPath, ShapeTree};
pub use top::dc_main;
