//! The tree of slaves behind a master: who hangs at which port of whom, in which order a frame visits
//! them, and how long its ways take.
//!
//! A frame enters a slave at port 0, passes the processing unit, goes out and comes back at each of
//! the ports 3, 1 and 2 that is connected, and leaves by port 0 (ESC data sheet, Section I, frame
//! processing order). How long a slave takes to pass it on is this project's rule: tP to the first port out, and tF
//! at every later forwarding. [`Tree::new`] takes the rows of a
//! segment in any order and refuses what is no tree, by the first fault and its row. A [`Tree`] then
//! answers the frame order, and in fs when a frame arrives, how long it stays in a subtree, and when it
//! comes back into a port.
//!
//! Contracts see a tree as the list of its rows, and every answer is a definition over that list:
//! `specs/Segment.antt`, `specs/FrameOrder.antt` and `specs/PathSums.antt`, which are recursions on
//! subtrees. `specs/Positions.antt` has the same tree with its rows in frame order, for callers that
//! know a slave by its position, as a master does. The code walks the tree with a stack, once, and keeps what it found in tables.
#![tactic(auto)]

mod checks;
mod error;
mod kids;
pub mod laws;
mod port;
mod row;
mod times;
mod tree;
mod walk;
mod wiring;

pub use error::TreeError;
pub use port::{Above, Port};
pub use row::TreeRow;
pub use tree::Tree;
