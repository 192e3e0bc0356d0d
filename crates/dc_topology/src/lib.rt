//! The topology of a segment from the DL statuses of its slaves, and the statuses of a topology (ESC data sheet, 0x0110).
//!
//! A status tells which ports of its slave are connected, and a frame visits what hangs at the ports 3, 1 and 2 in this
//! order. So the statuses in frame order list at most one tree, which [`topology`] finds in one pass; where they list none,
//! it says at which slave, and why. A [`Shape`] is such a tree, by positions. The other way, [`dl_status`] is the status of
//! a slave of a true tree: [`laws::status_tells_ports`] says what its bits are, [`laws::statuses_list_the_tree`] that these
//! statuses list that very tree, and [`laws::renumbered_shows_the_same`] that rows and positions show the same.
//!
//! Contracts see a shape as the list of where each slave hangs; `specs/Listed.antt` says by recursion on subtrees which tree
//! statuses list, `specs/Refusals.antt` why they list none, and `specs/Status.antt` what the slaves of a tree show.
#![tactic(auto)]

mod error;
pub mod laws;
mod shape;
mod shown;
mod status;
mod walk;

pub use error::TopologyError;
pub use shape::Shape;
pub use shown::dl_status;
pub use walk::topology;
