//! The step of a script whose three tries are all lost over a segment, told by the segment's list of losses.
//!
//! A master sends each frame of commissioning and of arming up to three times, and gives up a step when no try comes back. Frames
//! are numbered within their phase, so which frames are the tries of which step follows from the list alone
//! (`specs/LostStep.antt`). [`lost_step`] follows the exchanges by their first numbers; it sends no frame and keeps no clock.
#![tactic(auto)]

mod phases;
mod tries;

pub use phases::lost_step;
