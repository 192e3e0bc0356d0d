//! The master of distributed clocks: it commissions the slaves of a segment, lets their clocks settle, arms
//! their SYNC units and keeps the clocks together, over whatever [`Link`](ecat_link::Link) it is given (ESC
//! data sheet, Section I, distributed clocks).
//!
//! What it sends, how it judges what comes back, and how each of its calls ends is the script of
//! `master_script`, whose steps `master_steps` takes. Each call says that it made the exchanges that the script wants, and that the master
//! keeps afterwards what the script gives over them. The master knows no wire and no file, and takes no
//! memory but that of its configuration, which it is given.
#![tactic(auto)]

mod commission;
mod drift;
mod master;

pub use master::Master;
pub use master_script::{MasterError, Refusal, Stage, Step, SyncPlan};
pub use master_steps::Config;
