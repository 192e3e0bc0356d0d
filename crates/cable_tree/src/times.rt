//! How long a frame takes, from the leaves up and then from the root down.

ghost use Rattle.std.specs.Prelude.{◌≡◌, ◌≤◌, ◌<◌, length, IfOk, Some, slice_index};
ghost use Rattle.cable_tree.specs.FrameOrder.{order as order_of};
ghost use Rattle.cable_tree.specs.Kept.{HasChildSpans, IsTable};
ghost use Rattle.cable_tree.specs.Segment.{IsSegment};
ghost use Rattle.cable_tree.specs.PathSums.{span, arrive, detour, earlier};
ghost use Rattle.cable_tree.specs.Row.{above};
ghost use Rattle.cable_tree.specs.declared.port.Above.{Above};

use crate::port::Port;
use crate::wiring::Wiring;
use std::alloc::{AllocError, Global};

// The span of each row.
pub(crate) fn spans(alloc: Global, wiring: &Wiring, order: &[u16]) -> Result<Vec<u64>, AllocError>
    requires { order.now ≡ order_of wiring.now }
    ensures { IfOk result (λ spans. IsTable wiring.now (span wiring.now) spans.items) }
{
    let mut spans = Vec::from_elem(alloc, 0, wiring.len())?;
    // A child comes after its parent, so its span is there when that of the parent is made.
    for done in 0..order.len() {
        let row = order[order.len() - 1 - done];
        spans[usize::from(row)] = span_of(wiring, &spans, row);
    }
    Ok(spans)
}

// The arrival at each row.
pub(crate) fn arrivals(
    alloc: Global,
    wiring: &Wiring,
    order: &[u16],
    spans: &[u64],
) -> Result<Vec<u64>, AllocError>
    requires order { order.now ≡ order_of wiring.now }
    requires spans { IsTable wiring.now (span wiring.now) spans.now }
    ensures { IfOk result (λ arrivals. IsTable wiring.now (arrive wiring.now) arrivals.items) }
{
    let mut arrivals = Vec::from_elem(alloc, 0, wiring.len())?;
    for row in order {
        arrivals[usize::from(*row)] = arrival_of(wiring, spans, &arrivals, *row);
    }
    Ok(arrivals)
}

// The span of a row, by those of its children.
fn span_of(wiring: &Wiring, spans: &[u64], row: u16) -> u64
    requires segment { IsSegment wiring.now }
    requires row { row < length wiring.now }
    requires whole { length spans.now ≡ length wiring.now }
    requires children { HasChildSpans wiring.now row spans.now }
    ensures { result ≡ span wiring.now row }
{
    wiring.tp_fs(row)
        + (detour_at(wiring, spans, row, Port::P3)
            + detour_at(wiring, spans, row, Port::P1)
            + detour_at(wiring, spans, row, Port::P2))
}

// The arrival at a row, by that at its parent.
fn arrival_of(wiring: &Wiring, spans: &[u64], arrivals: &[u64], row: u16) -> u64
    requires segment { IsSegment wiring.now }
    requires row { row < length wiring.now }
    requires spans { IsTable wiring.now (span wiring.now) spans.now }
    requires whole { length arrivals.now ≡ length wiring.now }
    requires parent { (a : Above) → above wiring.now row ≡ Some a → slice_index arrivals.now a.row ≡ arrive wiring.now a.row }
    ensures { result ≡ arrive wiring.now row }
{
    let cable = wiring.cable_fs(row);
    match wiring.above(row) {
        None => cable,
        Some(above) => {
            let start = arrivals[usize::from(above.row)] + wiring.tp_fs(above.row);
            start + earlier_at(wiring, spans, above.row, above.port) + cable
        }
    }
}

// What the ports before this one add.
fn earlier_at(wiring: &Wiring, spans: &[u64], row: u16, port: Port) -> u64
    requires segment { IsSegment wiring.now }
    requires row { row < length wiring.now }
    requires whole { length spans.now ≡ length wiring.now }
    requires children { HasChildSpans wiring.now row spans.now }
    ensures is { result ≡ earlier wiring.now row port }
    ensures most { result ≤ 200000000000000 }
{
    match port {
        Port::P3 => 0,
        Port::P1 => detour_at(wiring, spans, row, Port::P3),
        Port::P2 => {
            detour_at(wiring, spans, row, Port::P3) + detour_at(wiring, spans, row, Port::P1)
        }
    }
}

// What a port adds: nothing where it is not connected.
fn detour_at(wiring: &Wiring, spans: &[u64], row: u16, port: Port) -> u64
    requires segment { IsSegment wiring.now }
    requires row { row < length wiring.now }
    requires whole { length spans.now ≡ length wiring.now }
    requires children { HasChildSpans wiring.now row spans.now }
    ensures is { result ≡ detour wiring.now row port }
    ensures most { result ≤ 100000000000000 }
{
    match wiring.child(row, port) {
        None => 0,
        Some(kid) => 2 * wiring.cable_fs(kid) + spans[usize::from(kid)] + wiring.tf_fs(row),
    }
}
