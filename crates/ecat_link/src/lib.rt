//! Links, over which a master's frames go: an EtherCAT frame passes every slave of its segment and
//! comes back to the master that sent it (ESC data sheet, Section I, frame processing), or is lost.
//!
//! A [`Link`] exchanges one frame at a time. It counts the frames that it loses, so that a caller can
//! prove why it gave up. It may tell the state of its segment, as a wire in memory does and a network
//! cannot: then each exchange follows its step, which is a definition, and what a caller did over it
//! is a matter of values alone. [`ScriptLink`] answers from a list of replies, for tests and proofs.
//! [`try_frame`] sends one frame up to three times; it is for callers whose script is such tries alone
//! (`specs/Tries.antt`). The master counts its tries itself, in `master_steps`.
//!
//! Callers are generic in the link. `specs/Exchanges.antt` has what one exchange and a list of them
//! are, and `specs/Serves.antt` how a caller says in its contract that its exchanges are those that
//! its script wants. [`laws`] has what is true of these.
#![tactic(auto)]

pub mod laws;
mod link;
mod script_link;
mod tries;

pub use link::{Link, Lost};
pub use script_link::{ScriptLink, ScriptReply};
pub use tries::try_frame;

#[cfg(test)]
mod tests;
