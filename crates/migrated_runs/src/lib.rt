//! That migration changes the version of a segment and nothing that is seen of it: not its run, not what is written of
//! it, and not what the program answers over its file. Laws, and no code.
//!
//! The version says which keys a slave's row may have in a file (`rates`). A segment keeps it, to be written again; runs
//! and reports do not look at it.
#![tactic(auto)]

pub mod laws;
