//! The numbers of the bounds: how far the ticks of a clock can be from the time that they take, how near a
//! measured delay is to the true one, after how many frames the clocks are together, how near they then
//! stay, and how long a run is. They rest on three facts: each gap between two ticks is within `ppm` of
//! 10 ns, at most `loss_run` drift frames are lost in a row, and a frame is sent each `frame_ns`.
//!
//! Every call computes its formula in `specs/`, which are named by the letters of
//! docs/DEFINITIONS.md: G, Q and nmin (`TickBounds`), μ, Z, N and K (`LockNumbers`), B (`DelayBound`), X and W
//! (`CopyBound`), lead, U, the start and the frames of a run (`RunNumbers`). None takes memory. What the
//! formulas mean for clocks is in the [`laws`], and that a tree may be told by positions in place of rows
//! in [`by_position`]. The way up to the measuring parent goes over whatever tells where slaves hang, which
//! is a [`Topology`].
#![tactic(auto)]

pub mod by_position;
mod copies;
mod delays;
pub mod laws;
mod lock;
mod measurable;
mod measuring;
mod run;
mod ticks;
mod topology;
mod weights;

pub use copies::{copy_bound, window};
pub use delays::delay_bound;
pub use lock::{lock_count, lock_step, reach_fs};
pub use measurable::unmeasurable;
pub use measuring::{is_measurable, measuring_parent};
pub use run::{lead_ns, run_frames};
pub use ticks::{jump, least_ticks, tick_gap};
pub use topology::Topology;
pub use weights::{reference, weight};
