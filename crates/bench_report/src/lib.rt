//! What is written of a bench: the table of delays, and the report of a run.
//!
//! The texts are those of `edge_report`, with the numbers that the bench has: the delays that its master has
//! measured ([`measured_delays`]), the start and the counts of frames as the master keeps them, and the edges
//! that its wire has kept ([`kept_edges`]). `specs/Reports.antt` says each text as a function of the segment
//! and the bench.
#![tactic(auto)]

mod delays;
mod edges;
mod report;

pub use delays::measured_delays;
pub use edges::kept_edges;
pub use report::{delays_of_bench, drill_report, run_report};
