//! The way from a slave up to its measuring parent, over a tree or whatever else tells where slaves hang.
//! `measuring` says of each slave whether it latches receive times.

ghost use Rattle.std.specs.Prelude.{◌≡◌, ◌<◌, length, IfSome};
ghost use Rattle.dc_bounds.specs.Measurable.{branches, is_measurable};
ghost use Rattle.dc_bounds.specs.Weight.{flag, measuring_parent};

use crate::topology::Topology;
use cable_tree::{Above, Port};

/// The measuring parent: the nearest slave above that measures, and its port on the way.
pub fn measuring_parent<T: Topology>(slaves: &T, measuring: &[bool], row: u16) -> Option<Above>
    ensures is { result ≡ measuring_parent (T.rows slaves.now) (flag measuring.now) row }
    ensures within { IfSome result (λ a. a.row < length measuring.now) }
{
    let mut here = row;
    for _ in 0..slaves.count() {
        let above = slaves.parent(here)?;
        if measures(measuring, above.row) {
            return Some(above);
        }
        here = above.row;
    }
    None
}

/// Whether a slave has a measuring parent, and none between the two has more than one child.
pub fn is_measurable<T: Topology>(slaves: &T, measuring: &[bool], row: u16) -> bool
    requires { length measuring.now ≡ length (T.rows slaves.now) }
    ensures { result ≡ is_measurable (T.rows slaves.now) (flag measuring.now) row }
{
    let mut here = row;
    for _ in 0..slaves.count() {
        let Some(above) = slaves.parent(here) else {
            return false;
        };
        // A place may name a slave that is not there. Nothing measures above it.
        let higher = usize::from(above.row);
        if higher >= measuring.len() {
            return false;
        }
        if measuring[higher] {
            return true;
        }
        if branches(slaves, above.row) {
            return false;
        }
        here = above.row;
    }
    false
}

// Whether more than one slave hangs at the ports of a slave.
fn branches<T: Topology>(slaves: &T, row: u16) -> bool
    requires { row < length (T.rows slaves.now) }
    ensures { result ≡ branches (T.rows slaves.now) row }
{
    let children = u8::from(slaves.is_connected(row, Port::P3))
        + u8::from(slaves.is_connected(row, Port::P1))
        + u8::from(slaves.is_connected(row, Port::P2));
    children >= 2
}

// Whether a slave measures. One that is not there does not.
fn measures(measuring: &[bool], row: u16) -> bool
    ensures { result ≡ flag measuring.now row }
{
    measuring.get(usize::from(row)) == Some(&true)
}
