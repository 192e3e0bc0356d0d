//! The slaves of a file before the first frame, as a definition, and laws about them. There is nothing to run here.
//!
//! `specs/Start.antt` says which slaves are where, with which registers and clocks, at true time 0
//! (`started_segment`). The wire in memory begins there, and so do the laws on runs.
//!
//! The laws speak of any legal segment, and are read in this order. There is a slave for each row, in frame order
//! ([`laws::slaves_in_frame_order`]); when a frame visits it, its registers and its clock are those of its row
//! ([`laws::slave_at_position`]). Its visits are in turn: a frame arrives, and then comes back into the ports 3, 1
//! and 2 ([`laws::visits_in_turn`]). The clock of each measuring slave runs, and has no history
//! ([`laws::clocks_begin`]). No frame was sent, and the segment is sound in the sense of `frame_pass`
//! ([`laws::starts_in_order`]), so with one frame period between frames sending s leaves at s periods
//! ([`laws::sending_times`]).
//!
//! The last law says what every frame keeps: the edges of each signal that a slave has kept are numbered 0, 1, 2
//! and so on, from the start on, whatever frames come ([`laws::edges_are_numbered`]).
#![tactic(auto)]

pub mod laws;
