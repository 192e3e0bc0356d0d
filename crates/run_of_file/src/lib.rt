//! The run of a segment file, as a function of the segment, and laws about it. There is nothing to run here.
//!
//! `specs/RunOfFile.antt` puts the master's script over the segment that is told by frames: what is sent, what
//! comes back, and in which state the segment is left. `specs/MasterOfFile.antt` has the master's configuration.
//! The program's contract says that its report is that of this run, and the laws on runs speak of it.
#![tactic(auto)]

pub mod laws;
