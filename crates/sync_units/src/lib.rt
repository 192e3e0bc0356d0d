//! The SYNC signals of a slave (ESC data sheet, Section I: the SYNC unit of the distributed clocks): from
//! its start time on, a slave raises an edge of SYNC0 once a cycle, and one of SYNC1 a given time later,
//! by its own copy of the system time.
//!
//! A [`SyncUnit`] keeps the due value and the index of each signal's next edge. [`SyncUnit::edges_until`]
//! raises the edges of an interval of its clock into an [`EdgeList`], which keeps the first ones of each
//! signal. It goes from due value to due value by [`LocalClock::first_reaching`], unless all are so far ahead
//! that nothing can be due. What it raises is said tick by tick, in `specs/SyncRule.antt`. `specs/Edges.antt`
//! says without a unit when an edge is, and the [`laws`] that these are raised, each once and in order.
//!
//! That an edge is raised at the first tick at which the copy has reached the due value is this project's
//! rule.
//!
//! [`LocalClock::first_reaching`]: local_clock::LocalClock::first_reaching
#![tactic(auto)]

mod armed_unit;
mod edge;
mod edge_list;
pub mod laws;
mod next_due;
mod sync_unit;

pub use edge::{Edge, Signal};
pub use edge_list::EdgeList;
pub use sync_unit::SyncUnit;
