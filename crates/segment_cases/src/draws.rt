//! Drawn segments. A case is `N SEED`, and the answer the file of the segment that the seed gives, and an empty line.
//!
//! The table and its answers are those of `tools/draw_cases.py`. They show that the definitions of `segment_draw` are the ones that are
//! meant.

use anyhow::{Context, bail};
use segment_draw::generate;
use segment_text::write_segment;
use std::alloc::Global;

/// The answer to a case.
pub(crate) fn answer(alloc: Global, line: &str) -> anyhow::Result<String> {
    let (slaves, seed) = line.split_once(' ').context("N SEED")?;
    file(alloc, slaves.parse()?, seed.parse()?)
}

// The file of the segment that a seed gives.
fn file(alloc: Global, slaves: u16, seed: u64) -> anyhow::Result<String> {
    if slaves == 0 || slaves > 256 {
        bail!("1 to 256 slaves");
    }
    let Ok(segment) = generate(alloc, slaves, seed) else {
        bail!("no memory");
    };
    let Ok(text) = write_segment(alloc, &segment) else {
        bail!("no memory");
    };
    match String::from_utf8(text) {
        Ok(text) => Ok(text),
        Err(_) => bail!("no text"),
    }
}
