// The lines of the slaves.
ghost use Rattle.std.specs.Prelude.{◌≡◌, ◌<◌, ◌++◌, length, string_bytes, OnOk};
ghost use Rattle.edge_report.specs.Delays.{AreDelays};
ghost use Rattle.edge_report.specs.SlaveLine.{kind_text, measured_text, numbers_text, place_text, slave_line, slave_lines};

use crate::slaves::{reference_position, slave};
use esc_regs::ClockKind;
use segment_bounds::{delay_bound, true_delay};
use segment_file::{Id, Segment};
use std::alloc::AllocError;
use std::fmt::Write;

#[tactic(auto, unfolding(crate::specs::SlaveLine::kind_text))]
fn kind_text(reference: bool, kind: ClockKind) -> &'static str
    ensures { result.now ≡ kind_text reference kind }
{
    match kind {
        ClockKind::None => "none",
        ClockKind::R32 => "r32",
        ClockKind::C32 => { if reference { "ref32" } else { "c32" } }
        ClockKind::C64 => { if reference { "ref64" } else { "c64" } }
    }
}

#[tactic(auto, unfolding(crate::specs::SlaveLine::place_text))]
fn push_place(text: &mut String, position: u16, id: &Id, kind: &str) -> Result<(), AllocError>
    ensures { OnOk result (string_bytes text.new ≡ string_bytes text.old ++ place_text position id.now.bytes kind.now) }
{
    let station = 0x1001 + u32::from(position);
    write!(text, "{position} {id} {station:04x} {kind} ")
}

#[tactic(auto, unfolding(crate::specs::SlaveLine::numbers_text))]
fn push_numbers(text: &mut String, delay: u64, wire: u64, bound: u128) -> Result<(), AllocError>
    ensures { OnOk result (string_bytes text.new ≡ string_bytes text.old ++ numbers_text delay wire bound) }
{
    writeln!(text, "{delay} {wire} {bound}")
}

// The measured delay of the slave at a row, the true one and the bound, or three dashes.
#[tactic(auto, unfolding(crate::specs::SlaveLine::measured_text))]
fn push_measured(
    text: &mut String,
    segment: &Segment,
    row: u16,
    delay: Option<u64>,
) -> Result<(), AllocError>
    requires { row < length segment.now.rows }
    ensures { OnOk result (string_bytes text.new ≡ string_bytes text.old ++ measured_text segment.now row delay) }
{
    match delay {
        None => text.push_str("- - -\n"),
        Some(delay) => push_numbers(
            text,
            delay,
            true_delay(segment, row),
            delay_bound(segment, row),
        ),
    }
}

// The line of the slave at a position.
#[tactic(auto, unfolding(crate::specs::SlaveLine::slave_line))]
fn push_slave(
    text: &mut String,
    segment: &Segment,
    position: u16,
    delay: Option<u64>,
) -> Result<(), AllocError>
    requires { position < length segment.now.rows }
    ensures { OnOk result (string_bytes text.new ≡ string_bytes text.old ++ slave_line segment.now position delay) }
{
    let row = slave(segment, position);
    let kind = kind_text(position == reference_position(segment), row.kind);
    push_place(text, position, &row.id, kind)?;
    push_measured(text, segment, segment.row_at(position), delay)
}

/// Appends the lines of all slaves, in frame order.
pub(crate) fn push_slaves(
    text: &mut String,
    segment: &Segment,
    delays: &[Option<u64>],
) -> Result<(), AllocError>
    requires { AreDelays segment.now delays.now }
    ensures { OnOk result (string_bytes text.new ≡ string_bytes text.old ++ slave_lines segment.now delays.now) }
{
    let slaves = segment.tree().len() as u16;
    for position in 0..slaves {
        let delay = delays[usize::from(position)];
        push_slave(text, segment, position, delay)?;
    }
    Ok(())
}
