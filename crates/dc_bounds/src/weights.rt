ghost use Rattle.std.specs.Prelude.{◌≡◌, ℕ, ◌<◌, ◌≤◌, ◌*◌, length, IfSome};
ghost use Rattle.dc_bounds.specs.Weight.{flag, has_earlier, has_later, hop_weight, hops_within, is_leaf, is_over, meeting, reference, weight, weight_below};

use crate::measuring::measuring_parent;
use crate::topology::Topology;
use cable_tree::{Above, Port, Tree};

/// w: how many differences of two latched times stand between the measured delay of the clock at `row`
/// and the true one, counted over the way from the reference to it. `measuring` and `timed` say of each
/// row whether the slave latches receive times, and whether it is a clock; the reference is the first
/// clock in frame order, and its weight is 0. The number means this where each clock is a measuring
/// slave and every measuring slave can be measured from the one above it.
pub fn weight(tree: &Tree, measuring: &[bool], timed: &[bool], row: u16) -> u32
    requires measuring { length measuring.now ≡ length tree.now }
    requires timed { length timed.now ≡ length tree.now }
    requires row { row < length tree.now }
    ensures { result ≡ weight tree.now (flag measuring.now) (flag timed.now) row }
{
    let Some(reference) = reference(tree, timed) else {
        return 0;
    };
    let parting = meeting(tree, measuring, reference, row);
    weight_below(tree, measuring, parting, row) + weight_below(tree, measuring, parting, reference)
}

/// The reference: the first clock in frame order. None comes exactly where there is no clock. `timed` says of
/// each row whether the slave is a clock.
pub fn reference(tree: &Tree, timed: &[bool]) -> Option<u16>
    requires timed { length timed.now ≡ length tree.now }
    ensures is { result ≡ reference tree.now (flag timed.now) }
    ensures row { IfSome result (λ r. r < length tree.now) }
{
    for row in tree.order() {
        if timed.get(usize::from(*row)) == Some(&true) {
            return Some(*row);
        }
    }
    None
}

// The slave at which the way from `row` upwards meets that of the reference.
fn meeting(tree: &Tree, measuring: &[bool], reference: u16, row: u16) -> u16
    requires measuring { length measuring.now ≡ length tree.now }
    requires rows { (row < length tree.now) × (reference < length tree.now) }
    ensures is { result ≡ meeting tree.now (flag measuring.now) reference row }
    ensures row { result < length tree.now }
{
    let mut here = row;
    for _ in 0..tree.len() {
        if is_over(tree, measuring, here, reference) {
            return here;
        }
        let Some(above) = measuring_parent(tree, measuring, here) else {
            return here;
        };
        here = above.row;
    }
    here
}

// Whether slave `over` is `row` or measures above it.
fn is_over(tree: &Tree, measuring: &[bool], over: u16, row: u16) -> bool
    requires measuring { length measuring.now ≡ length tree.now }
    requires row { row < length tree.now }
    ensures { result ≡ is_over tree.now (flag measuring.now) over row }
{
    let mut here = row;
    for _ in 0..tree.len() {
        if here == over {
            return true;
        }
        let Some(above) = measuring_parent(tree, measuring, here) else {
            return false;
        };
        here = above.row;
    }
    false
}

// The weight of the way from slave `over` down to `row`.
fn weight_below(tree: &Tree, measuring: &[bool], over: u16, row: u16) -> u32
    requires measuring { length measuring.now ≡ length tree.now }
    requires row { row < length tree.now }
    ensures is { result ≡ weight_below tree.now (flag measuring.now) over row }
    ensures few { result ≤ 514 }
{
    if row == over {
        return 0;
    }
    let end = if is_leaf(tree, row) { 0 } else { 1 };
    1 + hops(tree, measuring, over, row) + end
}

// The sum of what the hops from slave `over` down to `row` weigh.
fn hops(tree: &Tree, measuring: &[bool], over: u16, row: u16) -> u32
    requires measuring { length measuring.now ≡ length tree.now }
    requires row { row < length tree.now }
    ensures is { result ≡ hops_within tree.now (flag measuring.now) over (length tree.now) row }
    ensures few { result ≤ 512 }
{
    let mut sum = 0;
    let mut here = row;
    for _ in 0..tree.len() {
        if here == over {
            return sum;
        }
        let Some(above) = measuring_parent(tree, measuring, here) else {
            return sum;
        };
        sum += hop_weight(tree, above);
        here = above.row;
    }
    sum
}

// What the hop from a slave by one of its ports weighs.
fn hop_weight(tree: &Tree, above: Above) -> u32
    requires { above.row < length tree.now }
    ensures is { result ≡ hop_weight tree.now above }
    ensures few { result ≤ 2 }
{
    u32::from(has_earlier(tree, above)) + u32::from(has_later(tree, above))
}

// Whether a slave hangs at a port of the same parent before this one, in the order 3, 1, 2.
fn has_earlier(tree: &Tree, above: Above) -> bool
    requires { above.row < length tree.now }
    ensures { result ≡ has_earlier tree.now above }
{
    match above.port {
        Port::P3 => false,
        Port::P1 => tree.is_connected(above.row, Port::P3),
        Port::P2 => tree.is_connected(above.row, Port::P3)
            || tree.is_connected(above.row, Port::P1),
    }
}

// And behind it.
fn has_later(tree: &Tree, above: Above) -> bool
    requires { above.row < length tree.now }
    ensures { result ≡ has_later tree.now above }
{
    match above.port {
        Port::P3 => tree.is_connected(above.row, Port::P1)
            || tree.is_connected(above.row, Port::P2),
        Port::P1 => tree.is_connected(above.row, Port::P2),
        Port::P2 => false,
    }
}

// Whether nothing hangs below a slave.
fn is_leaf(tree: &Tree, row: u16) -> bool
    requires { row < length tree.now }
    ensures { result ≡ is_leaf tree.now row }
{
    !(tree.is_connected(row, Port::P3)
        || tree.is_connected(row, Port::P1)
        || tree.is_connected(row, Port::P2))
}
