ghost use Rattle.std.specs.Prelude.{◌≡◌, ◌<◌, ◌≤◌, length};
ghost use Rattle.dc_bounds.specs.Weight.{flag};
ghost use Rattle.dc_delay.specs.Latched.{measures};
ghost use Rattle.dc_delay.specs.Table.{IsOf, IsTable, slave_at, table_measures, table_rows, told};

use crate::kind::Kind;
use crate::latch::Latch;
use crate::slave::{Connected, Slave};
use arrayvec::ArrayVec;
use cable_tree::{Above, Port};
use dc_bounds::Topology;
use dc_topology::Shape;
use std::marker::Model;

// All slaves, with their connected ports, which a shape tells only by looking through all its places, and
// which of them measure.
#[derive(Debug, Drop)]
pub(crate) struct Table {
    slaves: ArrayVec<Slave, 256>,
    measuring: ArrayVec<bool, 256>,
}

impl Model for Table {
    ghost use Rattle.std.specs.Prelude.{List};
    ghost use Rattle.dc_delay.specs.declared.slave.Slave.{Slave as SlaveValue};
    ghost use Rattle.dc_delay.specs.InsideTable.{IsKept};

    ghost Value = { List SlaveValue };

    ghost view = { λ a. a.slaves.items };

    ghost invariant = { IsKept };
}

impl Table {
    // What is told of all slaves. Those with a latch measure.
    pub(crate) fn new(shape: &Shape, kinds: &[Kind], latches: &[Option<Latch>]) -> Table
        requires kinds { length kinds.now ≡ length shape.now }
        requires latches { length latches.now ≡ length shape.now }
        ensures whole { length result ≡ length shape.now }
        ensures few { length result ≤ 256 }
        ensures is { IsOf shape.now kinds.now latches.now result }
    {
        Table {
            slaves: slaves(shape, kinds, latches),
            measuring: measuring(latches),
        }
    }

    pub(crate) fn len(&self) -> usize
        ensures is { result ≡ length self.now }
        ensures valid { IsTable self.now }
    {
        self.slaves.len()
    }

    // The slave at a position; past the end one that hangs nowhere and does not measure.
    pub(crate) fn slave(&self, position: u16) -> Slave
        ensures is { result ≡ slave_at self.now position }
        ensures valid { IsTable self.now }
    {
        match self.slaves.get(usize::from(position)) {
            Some(slave) => *slave,
            None => Slave::default(),
        }
    }

    // Which slaves measure.
    pub(crate) fn measuring(&self) -> &[bool]
        ensures whole { length result.now ≡ length self.now }
        ensures is { flag result.now ≡ table_measures self.now }
    {
        &self.measuring
    }
}

impl Topology for Table {
    ghost rows = { table_rows };

    fn count(&self) -> usize {
        self.len()
    }

    fn parent(&self, row: u16) -> Option<Above> {
        self.slave(row).above
    }

    fn is_connected(&self, row: u16, port: Port) -> bool {
        self.slave(row).connected.at(port)
    }
}

fn slaves(shape: &Shape, kinds: &[Kind], latches: &[Option<Latch>]) -> ArrayVec<Slave, 256>
    requires kinds { length kinds.now ≡ length shape.now }
    requires latches { length latches.now ≡ length shape.now }
    ensures whole { length result.items ≡ length shape.now }
    ensures table { IsTable result.items }
    ensures is { IsOf shape.now kinds.now latches.now result.items }
{
    let mut slaves = ArrayVec::new();
    for position in 0..shape.len() {
        slaves.push(told(shape, kinds, latches, position as u16));
    }
    slaves
}

// What is told of one slave.
fn told(shape: &Shape, kinds: &[Kind], latches: &[Option<Latch>], position: u16) -> Slave
    requires kinds { length kinds.now ≡ length shape.now }
    requires latches { length latches.now ≡ length shape.now }
    requires within { position < length shape.now }
    ensures { result ≡ told shape.now kinds.now latches.now position }
{
    Slave {
        above: shape.above(position),
        kind: kinds[usize::from(position)],
        latch: latches[usize::from(position)],
        connected: Connected {
            p1: shape.connected(position, Port::P1),
            p2: shape.connected(position, Port::P2),
            p3: shape.connected(position, Port::P3),
        },
    }
}

// Which slaves measure: those with a latch.
fn measuring(latches: &[Option<Latch>]) -> ArrayVec<bool, 256>
    requires { length latches.now ≤ 256 }
    ensures whole { length result.items ≡ length latches.now }
    ensures is { flag result.items ≡ measures latches.now }
{
    let mut measuring = ArrayVec::new();
    for position in 0..latches.len() {
        measuring.push(measures(latches, position));
    }
    measuring
}

fn measures(latches: &[Option<Latch>], position: usize) -> bool
    requires { position < length latches.now }
    ensures { result ≡ measures latches.now position }
{
    latches[position].is_some()
}
