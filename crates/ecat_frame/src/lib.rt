//! EtherCAT frames, as ETG.1000.4 lays them out in its section 5.3: an Ethernet frame of the type
//! 0x88A4 whose data is a header word and one or more datagrams.
//!
//! A [`Builder`] takes datagrams and makes a [`Frame`] of them. A frame is a value of at most
//! [`MAX_LENGTH`] bytes that takes no memory; whoever passes it on reads its datagrams and changes
//! single fields of them, and it is a frame of the grammar all the while. Contracts see it as the
//! record of its parts (`specs/FrameGrammar.antt`), and so a change of one field is the change of
//! one field of that record. `spelling` says which bytes the parts are.
//!
//! Bytes from outside become a frame by [`Frame::from_bytes`], or are refused at the first byte after
//! which no frame can follow ([`FrameError`], `specs/Faults.antt`, `specs/Refusals.antt`). What may change
//! in a frame on its way is wiped by `wiped` of `specs/Difference.antt`, and [`Frame::first_difference`]
//! compares the rest. [`laws`] has what is true of these definitions.
#![tactic(auto)]

mod builder;
mod bytes;
mod command;
mod datagram;
mod difference;
mod error;
mod frame;
pub mod laws;
mod layout;
mod part;
mod scan;

pub use builder::{Builder, Full};
pub use command::Command;
pub use datagram::{Datagram, Head};
pub use error::FrameError;
pub use frame::Frame;
pub use layout::MAX_LENGTH;
