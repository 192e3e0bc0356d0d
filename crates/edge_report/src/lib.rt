//! The texts of a run: what the program writes of a segment once its master has measured it and its clocks
//! have raised their edges.
//!
//! [`delay_table`] is the table of measured delays, [`run_summary`] that of a whole run, and [`edges_csv`]
//! a row for each edge, which [`edges_csv_behind`] appends to another text. Each is a function of the legal
//! segment and of the numbers that a run gave: delays, counts of frames, the start, the edges. Nothing here
//! knows a frame, a register or a clock; the true delays and the bounds beside the measured ones are those
//! of `segment_bounds`.
//!
//! `specs/` has a file for each kind of line, and `specs/Reports.antt` the texts; the [`laws`] say what
//! spread and window mean together.
#![tactic(auto)]

mod bounded;
mod edge_rows;
mod extremes;
pub mod laws;
mod lines;
mod meeting;
mod report;
mod slave_edge;
mod slave_lines;
mod slaves;
mod spread;
mod windows;

pub use edge_rows::{edges_csv, edges_csv_behind};
pub use report::{delay_table, run_summary};
pub use slave_edge::SlaveEdge;
