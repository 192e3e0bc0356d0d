//! Lines of hexadecimal digits as frames in words, for who reads a capture by eye: [`show`] writes the commands, addresses, working
//! counters and data of each frame, or names the first line that is none and why.
//!
//! `specs/FrameText.antt` is the text of a frame, and `specs/Shown.antt` what is written of lines and which line is refused. [`laws`] has
//! what is true of these: an input has one answer.
#![tactic(auto)]

mod error;
mod frame_text;
pub mod laws;
mod lines;

pub use error::{FrameFault, ShowError};
pub use lines::show;
