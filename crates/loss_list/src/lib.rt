//! The frames of a segment that are listed as lost.
//!
//! Frames are numbered by their kind ([`Phase`]), from 1 on. A [`LossRow`] says that one of them is
//! lost, and how many slaves it reaches before. A [`LossList`] keeps the rows in their order, and beside
//! them a table by kind and number, so that each frame that is sent costs one look.
//!
//! `specs/Losses.antt` defines which frame is listed and how many slaves it reaches;
//! `specs/LossTable.antt` says what the table holds. Lists of losses are this project's own: no
//! standard has them.
#![tactic(auto)]

mod loss_list;
mod loss_row;

pub use loss_list::LossList;
pub use loss_row::{LossRow, Phase};
