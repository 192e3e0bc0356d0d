//! Segments that are drawn by a seed, for drills: 1 to 256 slaves at random, always the same for the same seed.
//!
//! A draw is the next number of x -> 48271·x mod 2147483647. Thirteen are made for each slave, whether it uses
//! them or not, so that the numbers of a slave do not depend on the kinds of those before it. The rule is this
//! project's own; `specs/Draws.antt` and `specs/Generated.antt` say it. [`generate`] makes the segment.
//!
//! A generated segment is legal whatever is drawn: the law [`laws::drawn_segments_are_legal`] asks of the draws
//! only that each is below 2,147,483,647.
#![tactic(auto)]

mod draws;
pub mod laws;
mod segment;
mod slave;

pub use segment::generate;
