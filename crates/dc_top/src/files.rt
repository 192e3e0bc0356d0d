//! What the commands write that drive no wire, or the answer where they write nothing.

ghost use Rattle.std.specs.Prelude.{◌≤◌, None, [], IfErr, IfOk, length};
ghost use Rattle.dc_top.specs.Answers.{RefusesBy, Writes, input_limit};
ghost use Rattle.dc_words.specs.declared.command.Command.TheVariants.{Check, Gen, Migrate, Show};

use crate::Outcome;
use crate::check::check_line;
use segment_draw::generate;
use segment_file::read_segment;
use segment_text::{migrated, write_segment};
use std::alloc::Global;

/// The text of `check`: the numbers of a segment.
pub(crate) fn check(alloc: Global, bytes: &[u8]) -> Result<Vec<u8>, Outcome>
    ensures written { IfOk result (λ text. Writes Check bytes.now text.items None) }
    ensures refused { IfErr result (λ o. RefusesBy Check bytes.now o None) }
{
    let segment = read_segment(alloc, bytes)?;
    let line = check_line(alloc, &segment)?;
    Ok(line.into_bytes())
}

/// The text of `show`: lines of digits in words.
pub(crate) fn show(alloc: Global, bytes: &[u8]) -> Result<Vec<u8>, Outcome>
    requires { length bytes.now ≤ input_limit }
    ensures written { IfOk result (λ text. Writes Show bytes.now text.items None) }
    ensures refused { IfErr result (λ o. RefusesBy Show bytes.now o None) }
{
    Ok(dc_show::show(alloc, bytes)?)
}

/// The text of `migrate`: the file of the segment in version 2.
pub(crate) fn migrate(alloc: Global, bytes: &[u8]) -> Result<Vec<u8>, Outcome>
    ensures written { IfOk result (λ text. Writes Migrate bytes.now text.items None) }
    ensures refused { IfErr result (λ o. RefusesBy Migrate bytes.now o None) }
{
    let segment = read_segment(alloc, bytes)?;
    let newest = migrated(alloc, &segment)?;
    Ok(write_segment(alloc, &newest)?)
}

/// The text of `gen`: the file of the segment that is drawn by a seed.
pub(crate) fn draw(alloc: Global, slaves: u16, seed: u64) -> Result<Vec<u8>, Outcome>
    requires { (1 ≤ slaves) × (slaves ≤ 256) }
    ensures written { IfOk result (λ text. Writes (Gen slaves seed) [] text.items None) }
    ensures refused { IfErr result (λ o. RefusesBy (Gen slaves seed) [] o None) }
{
    let segment = generate(alloc, slaves, seed)?;
    Ok(write_segment(alloc, &segment)?)
}
