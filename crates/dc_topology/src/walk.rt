ghost use Rattle.std.specs.Prelude.{◌≡◌, ◌<◌, ◌≤◌, ◌+◌, [], ◌++◌, length, reverse, Ok, Err, IfErr, OnErr, OnOk, IfOk, List};
ghost use Rattle.dc_topology.specs.Listed.{Lists, Place, places, place_at, port_number};
ghost use Rattle.dc_topology.specs.Refusals.{IsRefused};
ghost use Rattle.dc_topology.specs.declared.error.TopologyError.{TopologyError as Error};

use crate::error::TopologyError;
use crate::shape::Shape;
use crate::status::{is_connected, is_formed};
use arrayvec::ArrayVec;
use cable_tree::{Above, Port};

// The places that have no slave yet, the next one at the end. A slave takes one and opens up to three.
type FreePlaces = ArrayVec<Option<Above>, 513>;

/// The tree that these DL statuses list. They are those of all slaves in frame order, at most 256. After
/// a refusal `out` is empty.
pub fn topology(statuses: &[u16], out: &mut Shape) -> Result<(), TopologyError>
    requires { length statuses.now ≤ 256 }
    ensures ok { OnOk result (Lists statuses.now out.new) }
    ensures only { (hung : List Place) → Lists statuses.now hung → (result ≡ Ok tt) × (out.new ≡ hung) }
    ensures refused { IfErr result (IsRefused statuses.now) }
    ensures exactly { (e : Error) → IsRefused statuses.now e → result ≡ Err e }
    ensures empty { OnErr result (out.new ≡ []) }
{
    out.places.clear();
    match walk(statuses, out) {
        Ok(()) => Ok(()),
        Err(error) => {
            out.places.clear();
            Err(error)
        }
    }
}

// Gives each slave in turn the next free place, and opens those of its connected ports.
fn walk(statuses: &[u16], out: &mut Shape) -> Result<(), TopologyError>
    requires few { length statuses.now ≤ 256 }
    requires empty { out.old ≡ [] }
    ensures ok { OnOk result (Lists statuses.now out.new) }
    ensures refused { IfErr result (IsRefused statuses.now) }
{
    let mut free = FreePlaces::new();
    free.push(None);
    for (position, status) in statuses.iter().enumerate() {
        let position = position as u16;
        let Some(place) = free.pop() else {
            return Err(TopologyError::Surplus(position));
        };
        if !is_formed(*status) {
            return Err(TopologyError::BadStatus(position));
        }
        out.places.push(place);
        open_places(&mut free, position, *status);
    }
    if free.is_empty() {
        Ok(())
    } else {
        Err(TopologyError::Missing)
    }
}

// Puts the places for the children of a slave at the end, the next one last.
fn open_places(free: &mut FreePlaces, position: u16, status: u16)
    requires { length free.old.items ≤ 510 }
    ensures is { reverse free.new.items ≡ places position status ++ reverse free.old.items }
    ensures few { length free.new.items ≤ length free.old.items + 3 }
{
    open_place(free, position, status, Port::P2);
    open_place(free, position, status, Port::P1);
    open_place(free, position, status, Port::P3);
}

// Puts the place at a port at the end, if the port is connected.
fn open_place(free: &mut FreePlaces, position: u16, status: u16, port: Port)
    requires { length free.old.items ≤ 512 }
    ensures is { reverse free.new.items ≡ place_at position status port ++ reverse free.old.items }
    ensures few { length free.new.items ≤ length free.old.items + 1 }
{
    if is_connected(status, port_number(port)) {
        free.push(Some(Above {
            row: position,
            port,
        }));
    }
}

fn port_number(port: Port) -> u32
    ensures is { result ≡ port_number port }
    ensures few { result ≤ 3 }
{
    match port {
        Port::P1 => 1,
        Port::P2 => 2,
        Port::P3 => 3,
    }
}
