ghost use Rattle.std.specs.Prelude.{◌≡◌, ◌<◌, ◌≤◌, ◌^◌, nat_eq, IfOk, length, map};
ghost use Rattle.std.specs.List.{All, filter};
ghost use Rattle.segment_bounds.specs.Window.{greatest, greatest_with};
ghost use Rattle.edge_report.specs.Edges.{AreEdges, IsEdge};
ghost use Rattle.edge_report.specs.InsideWindow.{bounded, bounded_window, IsSmall};
ghost use Rattle.edge_report.specs.Spread.{allowed_of};

use crate::bounded::Bounded;
use crate::slave_edge::SlaveEdge;
use crate::slaves::total_shift;
use segment_bounds::{Signal, copy_bound};
use segment_file::Segment;
use std::alloc::{AllocError, Global};

// The signal of an edge.
fn bounded(segment: &Segment, edge: &SlaveEdge) -> Bounded
    requires { edge.now.position < length segment.now.rows }
    ensures is { result ≡ bounded segment.now edge.now }
    ensures small { IsSmall result }
{
    let row = segment.row_at(edge.position);
    let shift_ns = total_shift(segment, edge);
    Bounded {
        signal: Signal { row, shift_ns },
        bound_fs: copy_bound(segment, row),
    }
}

// The signals that have an edge: those of the edges of index 0.
fn signals(
    alloc: Global,
    segment: &Segment,
    edges: &[SlaveEdge],
) -> Result<Vec<Bounded>, AllocError>
    requires { All (IsEdge segment.now) edges.now }
    ensures is { IfOk result (λ v. v.items ≡ map (bounded segment.now) (filter (λ e. nat_eq e.edge.index 0) edges.now)) }
    ensures small { IfOk result (λ v. All IsSmall v.items) }
{
    let mut signals = Vec::new(alloc);
    for edge in edges {
        if edge.edge.index == 0 {
            signals.push(bounded(segment, edge))?;
        }
    }
    Ok(signals)
}

// W of two signals, 0 for two of one slave.
fn window_within(ppm: u32, a: &Bounded, b: &Bounded) -> u128
    requires ppm { ppm ≤ 100 }
    requires small { IsSmall a.now × IsSmall b.now }
    ensures { result ≡ bounded_window ppm a.now b.now }
{
    if a.signal.row == b.signal.row {
        return 0;
    }
    let apart = a.signal.shift_ns.abs_diff(b.signal.shift_ns);
    dc_bounds::window(ppm, u64::from(apart), a.bound_fs, b.bound_fs)
}

// The greatest window of a signal and some others.
fn greatest_with(ppm: u32, signal: &Bounded, others: &[Bounded]) -> u128
    requires ppm { ppm ≤ 100 }
    requires signal { IsSmall signal.now }
    requires others { All IsSmall others.now }
    ensures { result ≡ greatest_with (bounded_window ppm) signal.now others.now }
{
    let mut greatest = 0;
    for other in others {
        greatest = window_within(ppm, signal, other).max(greatest);
    }
    greatest
}

// The greatest window of all pairs.
fn greatest(ppm: u32, signals: &[Bounded]) -> u128
    requires ppm { ppm ≤ 100 }
    requires signals { All IsSmall signals.now }
    ensures { result ≡ greatest (bounded_window ppm) signals.now }
{
    let mut greatest = 0;
    for (place, signal) in signals.iter().enumerate() {
        greatest = greatest_with(ppm, signal, &signals[place + 1..]).max(greatest);
    }
    greatest
}

/// The greatest window of two edges of one index on two different slaves (fs). It is 0 where there is no such
/// pair. Where two signals have edges, both have one of index 0.
pub(crate) fn window(
    alloc: Global,
    segment: &Segment,
    edges: &[SlaveEdge],
) -> Result<u128, AllocError>
    requires { AreEdges segment.now edges.now }
    ensures { IfOk result (λ most. most ≡ allowed_of segment.now edges.now) }
{
    let signals = signals(alloc, segment, edges)?;
    Ok(greatest(segment.ppm(), &signals))
}
