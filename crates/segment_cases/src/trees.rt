//! Trees, DL statuses, topologies, delays, weights and the numbers of the bounds.
//!
//! A case is a word that says what is asked, and then words, which end at a space, a colon or a point: numbers,
//! statuses in hexadecimal digits, and places. A row or a slave hangs nowhere, `-`, or at a port of another row,
//! `3.2`. The stored answers were worked out by hand or by another program in whole numbers of any size.
//!
//! - `row TP TF CABLE`: whether these are the numbers of a row.
//! - `tree HUNG:TP:TF:CABLE ..`: the frame order and the round trip, and of each row its position, span and
//!   arrival, the port times at the ports 3, 1 and 2, and where it hangs; or why the rows are no tree.
//! - `status HUNG ..`: the status of each row, and the places that `topology` finds from them.
//! - `shape STATUS ..`: where each slave hangs, and its connected ports; or why the statuses list no tree.
//! - `delays STATUS:TP:TF:KIND ..`: what `judge` and `delays` answer. A slave is of the kind `none`, or latched
//!   these four times and is a `clock` or `only` measures: `clock:20:740:0:0`.
//! - `weights HUNG:KIND ..`: the reference, and the slave that cannot be measured, or else the weight of each
//!   clock.
//! - `ticks PPM LENGTH`: G, Q and nmin of a length.
//! - `lock PPM FRAME SPEED LOSS_RUN REACH`: μ, and where it is above 0, K.
//! - `reach MEASURING CLOCKS LOSS_RUN FRAME`: Z.
//! - `delay PPM WEIGHT ROUND_TRIP`: B.
//! - `copy PPM FRAME LOSS_RUN BOUND DELAY`: X of a clock other than the reference.
//! - `window PPM SHIFT X Y`: W.
//! - `run CLOCKS LOSS_RUN FRAME CYCLE CYCLES`: the lead, and the frames of the run phase.
//! - `segment FILE`: the greatest window of a segment file, and of each row B, D and X, or `-` where it is no
//!   clock.
//! - `between ROW SHIFT ROW SHIFT FILE`: W of two signals of a segment file.
//! - A line that begins with `#`: the line itself.
//! - Any other line: `unread`.

mod delays;
mod formulas;
mod rows;
mod segments;
mod shapes;
mod weights;

use crate::trees::delays::delays_told;
use crate::trees::formulas::{copies, delays, locks, reaches, runs, ticks, windows};
use crate::trees::rows::{is_row, tree_told};
use crate::trees::segments::{between, segment_told};
use crate::trees::shapes::{shape_told, statuses_told};
use crate::trees::weights::weights_told;
use crate::words::Words;
use std::alloc::{AllocError, Global};

/// The answer to a case.
pub(crate) fn answer(alloc: Global, line: &str) -> Result<String, AllocError> {
    if line.starts_with('#') {
        return String::from_str(alloc, line);
    }
    let mut words = Words::new(line);
    let mut told = String::new(alloc);
    tell(alloc, &mut words, &mut told)?;
    if words.are_read() {
        Ok(told)
    } else {
        String::from_str(alloc, "unread")
    }
}

fn tell(alloc: Global, words: &mut Words<'_>, told: &mut String) -> Result<(), AllocError> {
    match words.next() {
        "row" => is_row(words, told),
        "tree" => tree_told(alloc, words, told),
        "status" => statuses_told(alloc, words, told),
        "shape" => shape_told(alloc, words, told),
        "delays" => delays_told(alloc, words, told),
        "weights" => weights_told(alloc, words, told),
        "ticks" => ticks(words, told),
        "lock" => locks(words, told),
        "reach" => reaches(words, told),
        "delay" => delays(words, told),
        "copy" => copies(words, told),
        "window" => windows(words, told),
        "run" => runs(words, told),
        "segment" => segment_told(alloc, words, told),
        "between" => between(alloc, words, told),
        _ => {
            words.refuse();
            Ok(())
        }
    }
}
