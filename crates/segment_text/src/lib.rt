//! The text of a segment file, from a segment, and the segment in the newest version of the format.
//!
//! [`write_segment`] gives the compact JSON text that `serde_json` has for the file's value, keys in byte
//! order, with a line feed behind it. The text is written as it goes, field by field: no value is built, so
//! that a file with many changes of periods takes little more memory than its text. [`migrated`] gives a
//! segment in version 2.
//!
//! Contracts cite the text as `segment_file` defines it (`segment_text` in its `specs/Written.antt`), and the
//! segment in version 2 as `specs/Migrated.antt` does.
#![tactic(auto)]

mod fields;
pub mod laws;
mod losses;
mod migrate;
mod slaves;
mod write;

pub use migrate::migrated;
pub use write::write_segment;
