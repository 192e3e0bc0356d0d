//! Lost steps.
//!
//! - `delays FILE` and `run FILE`: the step of commissioning, or behind it of arming, whose three tries the file lists as lost, or `none`;
//!   `refused` where the file is not legal.
//! - A line that begins with `#`: the line itself.
//! - Any other line: `unread`.
//!
//! The table and its answers are written by `tools/loss_cases.py`, which works out from the file alone which numbers are the tries
//! of which step.

use lost_step::lost_step;
use master_script::Step;
use segment_file::read_segment;
use std::alloc::{AllocError, Global};

/// The answer to a case.
pub(crate) fn answer(alloc: Global, line: &str) -> Result<String, AllocError> {
    if line.starts_with('#') {
        return String::from_str(alloc, line);
    }
    let mut told = String::new(alloc);
    if let Some(file) = line.strip_prefix("delays ") {
        lost_told(alloc, file, false, &mut told)?;
    } else if let Some(file) = line.strip_prefix("run ") {
        lost_told(alloc, file, true, &mut told)?;
    } else {
        told.push_str("unread")?;
    }
    Ok(told)
}

// The lost step of a file.
fn lost_told(
    alloc: Global,
    file: &str,
    with_arming: bool,
    told: &mut String,
) -> Result<(), AllocError> {
    match read_segment(alloc, file.as_bytes()) {
        Ok(segment) => step_told(lost_step(&segment, with_arming), told),
        Err(_) => told.push_str("refused"),
    }
}

fn step_told(step: Option<Step>, told: &mut String) -> Result<(), AllocError> {
    match step {
        None => told.push_str("none"),
        Some(Step::Count) => told.push_str("count"),
        Some(Step::Identify(position)) => write!(told, "identify {position}"),
        Some(Step::Rate) => told.push_str("rate"),
        Some(Step::Latch) => told.push_str("latch"),
        Some(Step::Times(position)) => write!(told, "times {position}"),
        Some(Step::Set(position)) => write!(told, "set {position}"),
        Some(Step::Settle) => told.push_str("settle"),
        Some(Step::Drift(number)) => write!(told, "drift {number}"),
        Some(Step::Arm(position)) => write!(told, "arm {position}"),
    }
}
