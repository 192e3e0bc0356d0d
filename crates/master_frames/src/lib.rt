//! What the master sends, and what it reads of a reply: the frames of its script, by position and numbers (`specs/Frames.antt` of
//! `master_script`; ESC data sheet, Section II, distributed clocks registers), and what comes back in them.
//!
//! A frame is told by the list of its datagrams alone. What the numbers are, which step is asked when, and over what link, is a
//! matter of the layers above. What was learned so far is [`Learned`]: contracts see it as the words of the script (`specs/Known.antt`).
#![tactic(auto)]

mod frames;
mod judgement;
mod learned;
mod measured;
mod replies;
mod slave_words;

pub use frames::{
    arm_frame, count_frame, drift_frame, identify_frame, latch_frame, rate_frame, set_frame,
    times_frame,
};
pub use judgement::{clocks, judge_slaves, measuring};
pub use learned::Learned;
pub use measured::measure_delays;
pub use replies::{identified_from, latch_in, low_in, miscounted};
pub use slave_words::SlaveWords;
