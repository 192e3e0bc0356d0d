//! The slaves, each by the id and the port of its parent.

ghost use Rattle.std.specs.Prelude.{◌≡◌, ◌<◌, ◌++◌, codes, true, OnOk, IfSome, length, map, option_map};
ghost use Rattle.std.specs.List.{All};
ghost use Rattle.serde_json.specs.Data.{array, string};
ghost use Rattle.serde_json.specs.Written.{compact_text};
ghost use Rattle.segment_shape.specs.Seen.{parent_seen};
ghost use Rattle.segment_shape.specs.Slaves.{changes};
ghost use Rattle.segment_shape.specs.Written.{at_key, at_key_if, at_key_of, items_for, kind_name, rate_data, slave_data, whole};
ghost use Rattle.segment_file.specs.Seen.{row_seen};
ghost use Rattle.segment_file.specs.Written.{parent_of, port_number, written_row};
ghost use Rattle.segment_text.specs.SlaveText.{oscillator_text, place_text, signal_text};
ghost use Rattle.segment_text.specs.Text.{entry_text, is_plain};

use crate::fields::{
    open_at, push_comma_if, push_key, push_quoted, push_string, push_whole, push_whole_if,
    push_whole_of,
};
use cable_tree::{Above, Port};
use esc_regs::ClockKind;
use osc_clock::RateRow;
use segment_file::{SlaveRow, has_clock, measures};
use segment_shape::Parent;
use std::alloc::AllocError;

fn kind_name(kind: ClockKind) -> &'static str
    ensures is { result.now ≡ kind_name kind }
    ensures plain { is_plain result.now ≡ true }
{
    match kind {
        ClockKind::None => "none",
        ClockKind::R32 => "r32",
        ClockKind::C32 => "c32",
        ClockKind::C64 => "c64",
    }
}

fn port_number(port: Port) -> u8
    ensures { result ≡ port_number port }
{
    match port {
        Port::P1 => 1,
        Port::P2 => 2,
        Port::P3 => 3,
    }
}

fn parent_at(rows: &[SlaveRow], above: Above) -> Parent
    requires row { above.row < length rows.now }
    requires ids { All (λ r. is_plain r.id ≡ true) (map row_seen rows.now) }
    ensures is { parent_seen result ≡ parent_of (map row_seen rows.now) above }
    ensures plain { is_plain result.id.bytes ≡ true }
{
    Parent {
        id: rows[usize::from(above.row)].id,
        port: port_number(above.port),
    }
}

// The parent of a slave.
fn parent_of(rows: &[SlaveRow], above: Option<Above>) -> Option<Parent>
    requires row { IfSome above (λ a. a.row < length rows.now) }
    requires ids { All (λ r. is_plain r.id ≡ true) (map row_seen rows.now) }
    ensures is { option_map parent_seen result ≡ option_map (parent_of (map row_seen rows.now)) above }
    ensures plain { IfSome result (λ p. is_plain p.id.bytes ≡ true) }
{
    match above {
        None => None,
        Some(above) => Some(parent_at(rows, above)),
    }
}

#[tactic(auto, unfolding(crate::specs::Text::entry_text))]
fn push_parent(text: &mut Vec<u8>, parent: &Option<Parent>) -> Result<(), AllocError>
    requires { IfSome parent.now (λ p. is_plain p.id.bytes ≡ true) }
    ensures { OnOk result (text.new.items
        ≡ text.old.items ++ entry_text (at_key_of (λ p. string p.id) (codes "parent") (option_map parent_seen parent.now))) }
{
    if let Some(parent) = parent {
        push_key(text, "parent")?;
        push_quoted(text, parent.id.as_str())?;
    }
    Ok(())
}

#[tactic(auto, unfolding(crate::specs::Text::entry_text))]
fn push_port(text: &mut Vec<u8>, parent: &Option<Parent>) -> Result<(), AllocError>
    ensures { OnOk result (text.new.items
        ≡ text.old.items ++ entry_text (at_key_of (λ p. whole p.port) (codes "port") (option_map parent_seen parent.now))) }
{
    if let Some(parent) = parent {
        push_whole(text, "port", u64::from(parent.port))?;
    }
    Ok(())
}

fn push_rate(text: &mut Vec<u8>, rate: RateRow) -> Result<(), AllocError>
    ensures { OnOk result (text.new.items ≡ text.old.items ++ compact_text (rate_data rate)) }
{
    open_at(text, "period_fs", rate.period_fs)?;
    push_whole(text, "tick", rate.tick)?;
    text.extend_from_slice(b"}")
}

fn push_rate_rows(text: &mut Vec<u8>, rates: &[RateRow]) -> Result<(), AllocError>
    ensures { OnOk result (text.new.items ≡ text.old.items ++ compact_text (array (items_for rate_data rates.now))) }
{
    text.push(b'[')?;
    let mut later = false;
    for rate in rates {
        push_comma_if(text, later)?;
        push_rate(text, *rate)?;
        later = true;
    }
    text.extend_from_slice(b"]")
}

// The changes of a period, where it may change.
#[tactic(auto, unfolding(crate::specs::Text::entry_text))]
fn push_rates(text: &mut Vec<u8>, changing: bool, rates: &[RateRow]) -> Result<(), AllocError>
    ensures { OnOk result (text.new.items
        ≡ text.old.items ++ entry_text (at_key_if changing (codes "rates") (array (items_for rate_data rates.now)))) }
{
    if changing {
        push_key(text, "rates")?;
        push_rate_rows(text, rates)?;
    }
    Ok(())
}

// From the cable to the parent.
#[tactic(auto, unfolding(crate::specs::SlaveText::place_text))]
fn push_place(text: &mut Vec<u8>, row: &SlaveRow, parent: &Option<Parent>) -> Result<(), AllocError>
    requires id { is_plain row.now.id.bytes ≡ true }
    requires parent { IfSome parent.now (λ p. is_plain p.id.bytes ≡ true) }
    ensures { OnOk result (text.new.items ≡ text.old.items ++ place_text (row_seen row.now) (option_map parent_seen parent.now)) }
{
    open_at(text, "cable_ps", u64::from(row.cable_ps))?;
    push_string(text, "clock", kind_name(row.kind))?;
    push_string(text, "id", row.id.as_str())?;
    push_parent(text, parent)
}

// From the period to its changes.
#[tactic(auto, unfolding(crate::specs::SlaveText::oscillator_text))]
fn push_oscillator(
    text: &mut Vec<u8>,
    version: u8,
    row: &SlaveRow,
    parent: &Option<Parent>,
) -> Result<(), AllocError>
    ensures { OnOk result (text.new.items
        ≡ text.old.items ++ oscillator_text version (row_seen row.now) (option_map parent_seen parent.now)) }
{
    let measures = measures(row.kind);
    push_whole_if(text, measures, "period_fs", row.period_fs)?;
    push_whole_if(text, measures, "phase_fs", row.phase_fs)?;
    push_port(text, parent)?;
    push_rates(text, version == 2 && measures, &row.rates)
}

// From the shift to the forwarding times.
#[tactic(auto, unfolding(crate::specs::SlaveText::signal_text))]
fn push_signals(text: &mut Vec<u8>, row: &SlaveRow) -> Result<(), AllocError>
    ensures { OnOk result (text.new.items ≡ text.old.items ++ signal_text (row_seen row.now)) }
{
    push_whole_if(
        text,
        has_clock(row.kind),
        "shift_ns",
        u64::from(row.shift_ns),
    )?;
    push_whole_if(text, measures(row.kind), "start", row.start)?;
    push_whole_of(text, "sync1_ns", row.sync1_ns)?;
    push_whole(text, "tf_ns", u64::from(row.tf_ns))?;
    push_whole(text, "tp_ns", u64::from(row.tp_ns))
}

/// A slave among the rows of its segment.
pub(crate) fn push_slave(
    text: &mut Vec<u8>,
    version: u8,
    rows: &[SlaveRow],
    row: &SlaveRow,
) -> Result<(), AllocError>
    requires above { IfSome row.now.above (λ a. a.row < length rows.now) }
    requires ids { All (λ r. is_plain r.id ≡ true) (map row_seen rows.now) }
    requires id { is_plain row.now.id.bytes ≡ true }
    ensures { OnOk result (text.new.items
        ≡ text.old.items ++ compact_text (slave_data version (written_row (map row_seen rows.now) (row_seen row.now)))) }
{
    let parent = parent_of(rows, row.above);
    push_place(text, row, &parent)?;
    push_oscillator(text, version, row, &parent)?;
    push_signals(text, row)?;
    text.extend_from_slice(b"}")
}
