ghost use Rattle.std.specs.Prelude.{◌≡◌, ◌<◌, ◌≤◌, ◌+◌, ◌^◌, length, IfSome, Some};
ghost use Rattle.cable_tree.specs.Hops.{last_port, previous};
ghost use Rattle.dc_delay.specs.MeasuredDelay.{ahead, back, forwarding_ns, hop_ahead, hop_back, latched_before, passed, turn};
ghost use Rattle.dc_delay.specs.ShapeRows.{tf_ns, tp_ns};
ghost use Rattle.dc_delay.specs.Table.{table_laps, table_measures, table_rows};

use crate::table::Table;
use cable_tree::{Above, Port};
use dc_bounds::{Topology, measuring_parent};

// Two sums in ns, the second of which is to be taken off the first. The difference may be negative.
#[derive(Clone, Copy, Debug)]
pub(crate) struct Sums {
    pub(crate) ahead: u64,
    pub(crate) back: u64,
}

// The sum of the doubled hops from the first measuring slave down to this one.
pub(crate) fn way(slaves: &Table, position: u16) -> Sums
    requires { position < length slaves.now }
    ensures ahead { result.ahead ≡ ahead (table_rows slaves.now) (table_measures slaves.now) (table_laps slaves.now) position }
    ensures back { result.back ≡ back (table_rows slaves.now) (table_measures slaves.now) (table_laps slaves.now) position }
    ensures few { (result.ahead ≤ 2 ^ 42) × (result.back ≤ 2 ^ 42) }
{
    let mut ahead = 0;
    let mut back = 0;
    let mut here = position;
    for _ in 0..slaves.len() {
        let Some(above) = measuring_parent(slaves, slaves.measuring(), here) else {
            return Sums { ahead, back };
        };
        let hop = hop(slaves, above, here);
        ahead += hop.ahead;
        back += hop.back;
        here = above.row;
    }
    Sums { ahead, back }
}

// The doubled hop from a port of the measuring parent to the slave at `position`.
fn hop(slaves: &Table, above: Above, position: u16) -> Sums
    requires above { above.row < length slaves.now }
    requires within { position < length slaves.now }
    ensures ahead { result.ahead ≡ hop_ahead (table_rows slaves.now) (table_measures slaves.now) (table_laps slaves.now) above position }
    ensures back { result.back ≡ hop_back (table_rows slaves.now) (table_measures slaves.now) (table_laps slaves.now) above position }
    ensures few { (result.ahead ≤ 2 ^ 34) × (result.back ≤ 2 ^ 34) }
{
    let before = previous(slaves, above.row, above.port);
    let passed = passed(slaves, position);
    let laps = lap_before(slaves, above.row, before) + lap(slaves, above.row, above.port);
    Sums {
        ahead: laps + forwarding(slaves, above.row, before) + passed.ahead,
        back: passed.back + turn(slaves, position),
    }
}

// The sums of tP and of tF over the clockless slaves between the slave at `position` and its measuring
// parent.
fn passed(slaves: &Table, position: u16) -> Sums
    ensures ahead { result.ahead ≡ passed (table_rows slaves.now) (table_measures slaves.now) (tp_ns (table_rows slaves.now)) position }
    ensures back { result.back ≡ passed (table_rows slaves.now) (table_measures slaves.now) (tf_ns (table_rows slaves.now)) position }
    ensures few { (result.ahead ≤ 2 ^ 24) × (result.back ≤ 2 ^ 24) }
{
    let mut ahead = 0;
    let mut back = 0;
    let mut here = position;
    for _ in 0..slaves.len() {
        let Some(above) = slaves.slave(here).above else {
            return Sums { ahead, back };
        };
        let between = slaves.slave(above.row);
        if between.latch.is_some() {
            return Sums { ahead, back };
        }
        ahead += u64::from(between.kind.tp_ns);
        back += u64::from(between.kind.tf_ns);
        here = above.row;
    }
    Sums { ahead, back }
}

// S: from the arrival at a slave until the frame leaves it by port 0, by its own latches.
fn turn(slaves: &Table, position: u16) -> u64
    requires { position < length slaves.now }
    ensures is { result ≡ turn (table_rows slaves.now) (table_laps slaves.now) position }
    ensures few { result < 2 ^ 33 }
{
    let kind = slaves.slave(position).kind;
    match last_port(slaves, position) {
        None => u64::from(kind.tp_ns),
        Some(last) => lap(slaves, position, last) + u64::from(kind.tf_ns),
    }
}

// L of a port.
fn lap(slaves: &Table, position: u16, port: Port) -> u64
    ensures is { result ≡ table_laps slaves.now position port }
    ensures few { result < 2 ^ 32 }
{
    match slaves.slave(position).latch {
        None => 0,
        Some(latch) => latch.lap(port),
    }
}

// L of the connected port before a port.
fn lap_before(slaves: &Table, position: u16, before: Option<Port>) -> u64
    ensures is { result ≡ latched_before (table_laps slaves.now) position before }
    ensures few { result < 2 ^ 32 }
{
    match before {
        None => 0,
        Some(port) => lap(slaves, position, port),
    }
}

// The delay with which the frame leaves by the port that follows this one.
fn forwarding(slaves: &Table, position: u16, before: Option<Port>) -> u64
    ensures is { result ≡ forwarding_ns (table_rows slaves.now) position before }
    ensures few { result < 2 ^ 16 }
{
    let kind = slaves.slave(position).kind;
    match before {
        None => u64::from(kind.tp_ns),
        Some(_) => u64::from(kind.tf_ns),
    }
}

// The connected port before a port, in the order 3, 1, 2.
fn previous(slaves: &Table, position: u16, port: Port) -> Option<Port>
    requires { position < length slaves.now }
    ensures { result ≡ previous (table_rows slaves.now) position port }
{
    match port {
        Port::P3 => None,
        Port::P1 => slaves.is_connected(position, Port::P3).then_some(Port::P3),
        Port::P2 if slaves.is_connected(position, Port::P1) => Some(Port::P1),
        Port::P2 => slaves.is_connected(position, Port::P3).then_some(Port::P3),
    }
}

// The last connected port.
fn last_port(slaves: &Table, position: u16) -> Option<Port>
    requires { position < length slaves.now }
    ensures { result ≡ last_port (table_rows slaves.now) position }
{
    if slaves.is_connected(position, Port::P2) {
        Some(Port::P2)
    } else {
        previous(slaves, position, Port::P2)
    }
}
