ghost use Rattle.std.specs.Prelude.{◌≡◌, ◌≤◌, ◌-◌, IfOk, IfErr, IfSome, length, option_map, Ok, Err};
ghost use Rattle.serde_json.specs.View.{view};
ghost use Rattle.segment_shape.specs.FaultPaths.{path_of_slave};
ghost use Rattle.segment_shape.specs.KeyNames.{name_of};
ghost use Rattle.segment_shape.specs.Slaves.{changes, kind_named, kind_of, kind_at, parent_of, place_of, rates_where, times_of, slave_of};
ghost use Rattle.esc_regs.specs.Kinds.{measures, has_clock, greatest_start};
ghost use Rattle.segment_shape.specs.Seen.{parent_seen, place_seen, times_seen, row_seen};

use crate::id::Id;
use crate::key::Key;
use crate::known_keys::are_slave_keys;
use crate::rate_rows::rates_of;
use crate::row_fault::RowFault;
use crate::slave_fault::SlaveFault;
use crate::value_at::{id_at, id_of, number_at, number_where, option_where};
use esc_regs::{ClockKind, greatest_start, has_clock, measures};
use osc_clock::RateList;
use serde_json::Value;

/// The far end of the cable at a slave's port 0.
#[derive(Clone, Copy, Debug, PartialEq, Eq)]
pub struct Parent {
    /// The form of an id; that a row has it is not said.
    pub id: Id,
    /// 1, 2 or 3.
    pub port: u8,
}

/// A slave of a segment. The numbers of its clock are 0, empty or None where the file has none.
#[derive(Debug, Drop)]
pub struct ShapeRow {
    /// No other row of a [`crate::Shape`] has it.
    pub id: Id,
    pub kind: ClockKind,
    /// From port 0 through the processing unit to the first port out, 1 to 10,000.
    pub tp_ns: u16,
    /// Of every later forwarding, 1 to 10,000.
    pub tf_ns: u16,
    /// Of the cable to the parent, for the root to the master: 0 to 100,000,000.
    pub cable_ps: u32,
    /// None at a root.
    pub parent: Option<Parent>,
    /// The local time at true time 0, in the width of the clock.
    pub start: u64,
    /// The instant of the first tick, 1 to 20,000,000 for a slave that measures.
    pub phase_fs: u64,
    /// From tick to tick, 1 to 20,000,000 for a slave that measures.
    pub period_fs: u64,
    /// Changes of the period, with ticks of 1 to 10^12 that rise and periods of 1 to 20,000,000.
    pub rates: RateList,
    /// Of SYNC0 against the cycle, below the cycle time.
    pub shift_ns: u32,
    /// SYNC1 after SYNC0, from 1 on and below the cycle time.
    pub sync1_ns: Option<u32>,
}

/// What a row says of every slave.
#[derive(Clone, Copy)]
pub(crate) struct RowBase {
    id: Id,
    kind: ClockKind,
    tp_ns: u16,
    tf_ns: u16,
    cable_ps: u32,
    parent: Option<Parent>,
}

/// What a row says of its slave's clock.
#[derive(Drop)]
pub(crate) struct Times {
    start: u64,
    phase_fs: u64,
    period_fs: u64,
    rates: RateList,
    shift_ns: u32,
    sync1_ns: Option<u32>,
}

#[tactic(auto, unfolding(crate::specs::Slaves::kind_named))]
fn kind_named(text: &str) -> Option<ClockKind>
    ensures { result ≡ kind_named text.now }
{
    if text == "none" {
        Some(ClockKind::None)
    } else if text == "r32" {
        Some(ClockKind::R32)
    } else if text == "c32" {
        Some(ClockKind::C32)
    } else if text == "c64" {
        Some(ClockKind::C64)
    } else {
        None
    }
}

fn kind_of(value: &Value) -> Option<ClockKind>
    ensures { result ≡ kind_of (view value.now) }
{
    kind_named(value.get(Key::Clock.name())?.as_str()?)
}

fn kind_at(value: &Value) -> Result<ClockKind, Key>
    ensures ok { IfOk result (λ k. kind_at (view value.now) ≡ Ok k) }
    ensures err { IfErr result (λ k. kind_at (view value.now) ≡ Err (name_of k)) }
{
    match kind_of(value) {
        Some(kind) => Ok(kind),
        None => Err(Key::Clock),
    }
}

/// The parent and its port: both there, or at the root neither.
#[tactic(auto, unfolding(crate::specs::Slaves::parent_of))]
fn parent_of(value: &Value) -> Result<Option<Parent>, Key>
    ensures ok { IfOk result (λ p. parent_of (view value.now) ≡ Ok (option_map parent_seen p)) }
    ensures err { IfErr result (λ k. parent_of (view value.now) ≡ Err (name_of k)) }
{
    let Some(parent) = value.get(Key::Parent.name()) else {
        return match value.get(Key::Port.name()) {
            None => Ok(None),
            Some(_) => Err(Key::Port),
        };
    };
    let Some(id) = id_of(parent) else {
        return Err(Key::Parent);
    };
    let port = number_at(value, Key::Port, 1, 3)?;
    Ok(Some(Parent {
        id,
        port: port as u8,
    }))
}

#[tactic(auto, unfolding(crate::specs::Slaves::place_of))]
fn place_of(value: &Value) -> Result<RowBase, Key>
    ensures ok { IfOk result (λ p. place_of (view value.now) ≡ Ok (place_seen p)) }
    ensures err { IfErr result (λ k. place_of (view value.now) ≡ Err (name_of k)) }
{
    let id = id_at(value, Key::Id)?;
    let kind = kind_at(value)?;
    let tp_ns = number_at(value, Key::TpNs, 1, 10_000)?;
    let tf_ns = number_at(value, Key::TfNs, 1, 10_000)?;
    let cable_ps = number_at(value, Key::CablePs, 0, 100_000_000)?;
    let parent = parent_of(value)?;
    Ok(RowBase {
        id,
        kind,
        tp_ns: tp_ns as u16,
        tf_ns: tf_ns as u16,
        cable_ps: cable_ps as u32,
        parent,
    })
}

/// Whether a row may list changes of its period.
fn changes(version: u8, kind: ClockKind) -> bool
    ensures { result ≡ changes version kind }
{
    version == 2 && measures(kind)
}

fn rates_where(value: &Value, changes: bool) -> Result<RateList, SlaveFault>
    ensures ok { IfOk result (λ v. rates_where changes (view value.now) ≡ Ok v.items) }
    ensures err { IfErr result (λ fault. rates_where changes (view value.now) ≡ Err (path_of_slave fault)) }
{
    if changes {
        rates_of(value)
    } else {
        Ok(RateList::new())
    }
}

#[tactic(auto, unfolding(crate::specs::Slaves::times_of))]
fn times_of(value: &Value, version: u8, cycle_ns: u32, kind: ClockKind) -> Result<Times, SlaveFault>
    requires { 1 ≤ cycle_ns }
    ensures ok { IfOk result (λ t. times_of version cycle_ns kind (view value.now) ≡ Ok (times_seen t)) }
    ensures err { IfErr result (λ fault. times_of version cycle_ns kind (view value.now) ≡ Err (path_of_slave fault)) }
{
    let measures = measures(kind);
    let start = number_where(value, measures, Key::Start, 0, greatest_start(kind))?;
    let phase_fs = number_where(value, measures, Key::PhaseFs, 1, 20_000_000)?;
    let period_fs = number_where(value, measures, Key::PeriodFs, 1, 20_000_000)?;
    let rates = rates_where(value, changes(version, kind))?;
    let has_clock = has_clock(kind);
    let last_ns = u64::from(cycle_ns - 1);
    let shift_ns = option_where(value, has_clock, Key::ShiftNs, 0, last_ns)?;
    let sync1_ns = option_where(value, has_clock, Key::Sync1Ns, 1, last_ns)?;
    Ok(Times {
        start,
        phase_fs,
        period_fs,
        rates,
        shift_ns: shift_ns.unwrap_or(0) as u32,
        sync1_ns: sync1_ns.map(|ns| ns as u32),
    })
}

/// A slave row of a file of this version and cycle time.
#[tactic(auto, unfolding(crate::specs::Slaves::slave_of))]
pub(crate) fn slave_of(value: &Value, version: u8, cycle_ns: u32) -> Result<ShapeRow, SlaveFault>
    requires { 1 ≤ cycle_ns }
    ensures ok { IfOk result (λ r. slave_of version cycle_ns (view value.now) ≡ Ok (row_seen r)) }
    ensures err { IfErr result (λ fault. slave_of version cycle_ns (view value.now) ≡ Err (path_of_slave fault)) }
{
    let Some(members) = value.as_object() else {
        return Err(SlaveFault::Own(RowFault::Row));
    };
    let place = place_of(value)?;
    let times = times_of(value, version, cycle_ns, place.kind)?;
    if !are_slave_keys(members, changes(version, place.kind)) {
        return Err(SlaveFault::Own(RowFault::Row));
    }
    Ok(ShapeRow {
        id: place.id,
        kind: place.kind,
        tp_ns: place.tp_ns,
        tf_ns: place.tf_ns,
        cable_ps: place.cable_ps,
        parent: place.parent,
        start: times.start,
        phase_fs: times.phase_fs,
        period_fs: times.period_fs,
        rates: times.rates,
        shift_ns: times.shift_ns,
        sync1_ns: times.sync1_ns,
    })
}
