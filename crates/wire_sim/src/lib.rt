//! A segment of slaves in memory, over any tree of cables: what a master sends its frames over, and what it
//! never looks into.
//!
//! A [`Wire`] is a [`Link`](ecat_link::Link) whose state is told. [`Wire::build`] takes a legal segment and all
//! the memory that the wire will ever need. A frame passes the slaves in frame order, each at its own instant,
//! and each slave does what the frame's datagrams ask (ETG.1000.4, section 5.4); its ports latch at the
//! instants at which the frame comes back into them. A frame that is listed as lost reaches only the first
//! slaves.
//!
//! What a sending does is the step of `frame_pass`, and a wire is seen as the state of the segment there. One
//! type stands in each file: the slave, the distributed clocks unit that it may have, the times at which a
//! frame visits it. Of a slave's registers `esc_regs` knows the bytes, of its clock `local_clock` and
//! `sync_units` the ticks; here they meet.
#![tactic(auto)]

mod build;
mod datagram;
mod dc_unit;
mod doing;
mod effects;
mod pass;
mod registers;
mod slave;
mod visits;
mod wire;

pub use wire::Wire;
