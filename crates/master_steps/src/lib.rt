//! The steps of the master's script over any [`Link`](ecat_link::Link): the frame of a step is sent up to three times, its
//! reply is judged, and what it teaches is kept (ESC data sheet, Section I, distributed clocks).
//!
//! Which step comes when, and what a refusal ends, is a matter of the layer above. A step says of itself where the script
//! stood before it and where it stands behind it (`specs/Asking.antt`), whatever steps are still to come.
#![tactic(auto)]

mod config;
mod drift;
mod exchange;
mod frames;
mod replies;
mod start_time;
mod steps;

pub use config::Config;
pub use drift::judge_drift;
pub use exchange::{Counters, Notes, send};
pub use start_time::start;
pub use steps::take;
