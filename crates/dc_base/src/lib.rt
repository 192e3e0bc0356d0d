//! The two ends of a program, and whole reads and writes over them.
//!
//! A [`Source`] gives bytes and a [`Sink`] takes them, each a piece at a time and each with a
//! count of its faults, so that a caller can prove why a call failed. Where an end tells its
//! bytes, contracts speak of them; one that stands for the world outside tells none.
//! [`MemSource`] and [`MemSink`] are ends in memory that fail at chosen calls, for tests and
//! proofs. [`ReadSource`] and [`WriteSink`] are the trusted edge of a few lines over std's
//! readers and writers. [`read_all`] reads a source to its end, and [`write_whole`] writes
//! bytes to the last one. Nothing here knows of EtherCAT.
#![tactic(auto)]

mod error;
mod mem_sink;
mod mem_source;
mod read_source;
mod sink;
mod source;
#[cfg(test)]
mod tests;
mod whole;
mod write_sink;

pub use error::{NoMemory, ReadAllError, ReadFailed, WriteFailed, WriteFault};
pub use mem_sink::MemSink;
pub use mem_source::MemSource;
pub use read_source::ReadSource;
pub use sink::Sink;
pub use source::Source;
pub use whole::{read_all, write_whole};
pub use write_sink::WriteSink;
