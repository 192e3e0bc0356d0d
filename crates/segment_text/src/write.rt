ghost use Rattle.std.specs.Prelude.{◌≡◌, ◌++◌, OnOk, IfOk, codes};
ghost use Rattle.serde_json.specs.Data.{array};
ghost use Rattle.segment_shape.specs.Written.{at_key, items_for, slave_data};
ghost use Rattle.segment_file.specs.Told.{IsSegmentText};
ghost use Rattle.segment_file.specs.Written.{segment_text, written};
ghost use Rattle.serde_json.specs.Written.{compact_text};
ghost use Rattle.segment_text.specs.HeadText.{back_text, front_text};
ghost use Rattle.segment_text.specs.Text.{entry_text};

use crate::fields::{open_at, push_comma_if, push_key, push_whole};
use crate::losses::push_losses;
use crate::slaves::push_slave;
use dc_base::NoMemory;
use segment_file::Segment;
use std::alloc::{AllocError, Global};

fn push_rows(text: &mut Vec<u8>, segment: &Segment) -> Result<(), AllocError>
    ensures { OnOk result (text.new.items ≡ text.old.items
        ++ compact_text (array (items_for (slave_data segment.now.head.version) (written segment.now).slaves))) }
{
    text.push(b'[')?;
    let version = segment.version();
    let rows = segment.rows();
    let mut later = false;
    for row in rows {
        push_comma_if(text, later)?;
        push_slave(text, version, rows, row)?;
        later = true;
    }
    text.extend_from_slice(b"]")
}

// The slaves of a file, at their key.
#[tactic(auto, unfolding(crate::specs::Text::entry_text))]
fn push_slaves(text: &mut Vec<u8>, segment: &Segment) -> Result<(), AllocError>
    ensures { OnOk result (text.new.items ≡ text.old.items
        ++ entry_text (at_key (codes "slaves") (array (items_for (slave_data segment.now.head.version) (written segment.now).slaves)))) }
{
    push_key(text, "slaves")?;
    push_rows(text, segment)
}

// The head up to the losses.
#[tactic(auto, unfolding(crate::specs::HeadText::front_text))]
fn push_front(text: &mut Vec<u8>, segment: &Segment) -> Result<(), AllocError>
    ensures { OnOk result (text.new.items ≡ text.old.items ++ front_text segment.now.head) }
{
    open_at(text, "cycle_ns", u64::from(segment.cycle_ns()))?;
    push_whole(text, "cycles", u64::from(segment.cycles()))?;
    push_whole(text, "epoch_ns", segment.epoch_ns())?;
    push_whole(text, "frame_ns", u64::from(segment.frame_ns()))?;
    push_whole(text, "loss_run", u64::from(segment.loss_run()))
}

// The head behind the slaves.
#[tactic(auto, unfolding(crate::specs::HeadText::back_text))]
fn push_back(text: &mut Vec<u8>, segment: &Segment) -> Result<(), AllocError>
    ensures { OnOk result (text.new.items ≡ text.old.items ++ back_text segment.now.head) }
{
    push_whole(text, "speed", u64::from(segment.speed()))?;
    push_whole(text, "version", u64::from(segment.version()))
}

fn push_segment(text: &mut Vec<u8>, segment: &Segment) -> Result<(), AllocError>
    ensures is { OnOk result (text.new.items ≡ text.old.items ++ segment_text segment.now) }
    ensures read { OnOk result (IsSegmentText (segment_text segment.now) segment.now) }
{
    push_front(text, segment)?;
    push_losses(text, segment.losses())?;
    push_whole(text, "ppm", u64::from(segment.ppm()))?;
    push_slaves(text, segment)?;
    push_back(text, segment)?;
    text.extend_from_slice(b"}\n")
}

/// The text of a segment's file, in the segment's version: the compact text of its JSON value, keys in byte
/// order, and a line feed. It is read as that segment.
pub fn write_segment(alloc: Global, segment: &Segment) -> Result<Vec<u8>, NoMemory>
    ensures text { IfOk result (λ text. text.items ≡ segment_text segment.now) }
    ensures read { IfOk result (λ text. IsSegmentText text.items segment.now) }
{
    let mut text = Vec::new(alloc);
    push_segment(&mut text, segment)?;
    Ok(text)
}
