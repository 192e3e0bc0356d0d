//! The row that follows some rows.

ghost use Rattle.std.specs.Prelude.{◌≡◌, ◌≤◌, ◌<◌, ◌==◌, length, map, Some, None, if◌then◌else◌};
ghost use Rattle.cable_tree.specs.FrameOrder.{is_at};
ghost use Rattle.segment_file.specs.Segment.{clock_at};
ghost use Rattle.segment_file.specs.Seen.{row_seen};
ghost use Rattle.segment_draw.specs.Draws.{AreLow};
ghost use Rattle.segment_draw.specs.Generated.{above_of, free_port, is_taken, kind_of, name, of_clock, row_of, start_of, sync1_of};
ghost use Rattle.segment_draw.specs.Seen.{draws_seen};

use crate::draws::Draws;
use cable_tree::{Above, Port};
use esc_regs::ClockKind;
use osc_clock::RateList;
use segment_file::{Id, SlaveRow, has_clock, measures};

fn name(row: u16) -> Id
    ensures { result.bytes ≡ name row }
{
    let mut id = Id::new();
    id.push_str("S");
    let mut digits = itoa::Buffer::new();
    id.push_str(digits.format(row));
    id
}

#[tactic(auto, unfolding(crate::specs::Generated::kind_of))]
fn kind_of(row: u16, draws: &Draws) -> ClockKind
    ensures { result ≡ kind_of row (draws_seen draws.now) }
{
    if row != 0 && draws.clockless % 4 == 0 {
        ClockKind::None
    } else if draws.narrow % 2 == 1 {
        ClockKind::C32
    } else {
        ClockKind::C64
    }
}

// Whether a cable ends at this port of this row.
fn is_at(above: Option<Above>, row: u16, port: Port) -> bool
    ensures { result ≡ is_at row port above }
{
    match above {
        None => false,
        Some(above) => above.row == row && above.port == port,
    }
}

fn is_taken(rows: &[SlaveRow], row: u16, port: Port) -> bool
    ensures { result ≡ is_taken (map row_seen rows.now) row port }
{
    for earlier in rows {
        if is_at(earlier.above, row, port) {
            return true;
        }
    }
    false
}

#[tactic(auto, unfolding(crate::specs::Generated::free_port))]
fn free_port(rows: &[SlaveRow], row: u16) -> Option<Port>
    ensures { result ≡ free_port (map row_seen rows.now) row }
{
    if !is_taken(rows, row, Port::P1) {
        Some(Port::P1)
    } else if !is_taken(rows, row, Port::P2) {
        Some(Port::P2)
    } else if !is_taken(rows, row, Port::P3) {
        Some(Port::P3)
    } else {
        None
    }
}

fn is_clock(rows: &[SlaveRow], row: u16) -> bool
    requires { row < length rows.now }
    ensures { result ≡ clock_at (map row_seen rows.now) row }
{
    has_clock(rows[usize::from(row)].kind)
}

// Where the cable of a row that is not the first ends.
#[tactic(auto, unfolding(crate::specs::Generated::above_of))]
fn above_of(rows: &[SlaveRow], draws: &Draws) -> Above
    requires some { 1 ≤ length rows.now }
    requires few { length rows.now ≤ 255 }
    ensures { result ≡ above_of (map row_seen rows.now) (draws_seen draws.now) }
{
    let row = rows.len() as u16;
    let parent = (draws.parent % u64::from(row)) as u16;
    if draws.branch % 4 == 0 && is_clock(rows, parent) {
        if let Some(port) = free_port(rows, parent) {
            return Above { row: parent, port };
        }
    }
    Above {
        row: row - 1,
        port: Port::P1,
    }
}

#[tactic(auto, unfolding(crate::specs::Generated::start_of))]
fn start_of(kind: ClockKind, draws: &Draws) -> u64
    requires high { draws.now.start_high < 2147483647 }
    requires low { draws.now.start_low < 2147483647 }
    ensures { result ≡ start_of kind (draws_seen draws.now) }
{
    match kind {
        ClockKind::C64 => 8_589_934_592 * draws.start_high + draws.start_low,
        ClockKind::C32 => 2 * draws.start_high + draws.start_low % 2,
        ClockKind::None | ClockKind::R32 => 0,
    }
}

// SYNC1, where the draw is odd.
fn sync1_of(ns: u32) -> Option<u32>
    ensures { result ≡ sync1_of ns }
{
    if ns % 2 == 1 { Some(ns) } else { None }
}

// A number that belongs to clocks.
fn of_clock(kind: ClockKind, number: u64) -> u64
    ensures is { result ≡ of_clock kind number }
    ensures most { result ≤ number }
{
    if measures(kind) { number } else { 0 }
}

// The first row has no parent.
fn above_if_any(rows: &[SlaveRow], draws: &Draws) -> Option<Above>
    requires { length rows.now ≤ 255 }
    ensures { result ≡ (if length rows.now == 0 then None else Some (above_of (map row_seen rows.now) (draws_seen draws.now))) }
{
    if rows.is_empty() {
        None
    } else {
        Some(above_of(rows, draws))
    }
}

/// The row that follows these.
pub(crate) fn row_of(rows: &[SlaveRow], draws: &Draws) -> SlaveRow
    requires few { length rows.now ≤ 255 }
    requires low { AreLow (draws_seen draws.now) }
    ensures { row_seen result ≡ row_of (map row_seen rows.now) (draws_seen draws.now) }
{
    let row = rows.len() as u16;
    let kind = kind_of(row, draws);
    let sync1_ns = if measures(kind) {
        sync1_of((draws.sync1 % 1_000_000) as u32)
    } else {
        None
    };
    SlaveRow {
        id: name(row),
        kind,
        tp_ns: 300 + (draws.tp % 50) as u16,
        tf_ns: 280 + (draws.tf % 50) as u16,
        cable_ps: 5000 + (draws.cable % 95_001) as u32,
        above: above_if_any(rows, draws),
        start: start_of(kind, draws),
        phase_fs: of_clock(kind, 1 + draws.phase % 9_999_500),
        period_fs: of_clock(kind, 9_999_500 + draws.period % 1001),
        rates: RateList::new(),
        shift_ns: of_clock(kind, draws.shift % 1_000_000) as u32,
        sync1_ns,
    }
}
