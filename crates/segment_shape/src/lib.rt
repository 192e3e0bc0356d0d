//! The shape of a segment file: from its bytes to its rows with every number in its range, or the
//! first thing that is wrong with them.
//!
//! A segment file describes an EtherCAT segment with distributed clocks: the slaves with their cables
//! and the oscillators behind their clocks, and the frames that are lost on the way. It is a JSON
//! object. [`read_shape`] checks in a fixed order, so that each file has one answer: the text is JSON,
//! each value is of its type and in its range ([`KeyPath`] says where it is not), and no two rows have
//! one id. Of the shape the head comes first, with the keys beside it that are not known, then the slaves,
//! then the losses; within a row the keys in their order, and last those that are not known. So a misspelt
//! key is reported as the one that is missing, where it has to be there. What rows say of one another, as a tree of cables, is no part of the shape.
//!
//! Contracts see the file as a JSON value, and what it says is defined in `specs/ShapeOf.antt`.
#![tactic(auto)]

mod id;
mod key;
mod key_path;
mod known_keys;
mod laws;
mod loss_row;
mod rate_rows;
mod row_fault;
mod segment_head;
mod shape;
mod shape_error;
mod slave_fault;
mod slave_row;
mod value_at;

pub use id::Id;
pub use key_path::KeyPath;
pub use laws::files_by_facts;
pub use segment_head::Head;
pub use shape::{Shape, read_shape};
pub use shape_error::ShapeError;
pub use slave_row::{Parent, ShapeRow};
