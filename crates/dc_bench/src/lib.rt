//! One master over one wire.
//!
//! A [`Bench`] keeps a wire and the master whose frames go over it. Nothing hands out either of them to be
//! changed, takes one out or replaces one: so the two reached their states through each other, from a wire over
//! which nothing was sent and a master that had sent nothing.
#![tactic(auto)]

mod bench;

pub use bench::Bench;
