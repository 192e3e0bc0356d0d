ghost use Rattle.std.specs.Prelude.{◌≡◌, ◌+◌, ◌<◌, ◌≤◌, ◌++◌, length, map};
ghost use Rattle.std.specs.List.{All};
ghost use Rattle.segment_file.specs.Legal.{IsClock};
ghost use Rattle.segment_file.specs.Seen.{row_seen};
ghost use Rattle.segment_bounds.specs.Bounded.{IsSmall, bounded};
ghost use Rattle.segment_bounds.specs.Window.{signal, signals_at, signals_from};

use crate::bounds::copy_bound;
use crate::signal::Signal;
use arrayvec::ArrayVec;
use segment_file::{Segment, SlaveRow, has_clock};

/// A signal with X of its clock, which is computed once for all its pairs.
#[derive(Clone, Copy, Debug, Default)]
pub(crate) struct Bounded {
    pub(crate) signal: Signal,
    pub(crate) bound_fs: u128,
}

/// The signals of a segment: at most two of each slave.
pub(crate) type BoundedList = ArrayVec<Bounded, 512>;

fn bounded_signal(segment: &Segment, row: u16, shift_ns: u32) -> Bounded
    requires row { row < length segment.now.rows }
    ensures is { result ≡ bounded segment.now (signal row shift_ns) }
    ensures small { IsSmall result }
{
    Bounded {
        signal: Signal { row, shift_ns },
        bound_fs: copy_bound(segment, row),
    }
}

// Puts the signals of a slave at the end.
fn push_signals(signals: &mut BoundedList, segment: &Segment, row: u16, slave: &SlaveRow)
    requires cycle { segment.now.head.cycle_ns ≤ 500000000 }
    requires row { row < length segment.now.rows }
    requires room { length signals.old.items ≤ 510 }
    requires slave { IsClock segment.now.head.cycle_ns (row_seen slave.now) }
    requires each { All IsSmall signals.old.items }
    ensures is { signals.new.items ≡ signals.old.items ++ map (bounded segment.now) (signals_at row (row_seen slave.now)) }
    ensures few { length signals.new.items ≤ length signals.old.items + 2 }
    ensures each { All IsSmall signals.new.items }
{
    if !has_clock(slave.kind) {
        return;
    }
    signals.push(bounded_signal(segment, row, slave.shift_ns));
    if let Some(sync1_ns) = slave.sync1_ns {
        signals.push(bounded_signal(segment, row, slave.shift_ns + sync1_ns));
    }
}

/// The signals of a segment, by row.
#[tactic(auto, unfolding(crate::specs::Window::signals_from))]
pub(crate) fn signals_of(segment: &Segment) -> BoundedList
    ensures is { result.items ≡ map (bounded segment.now) (signals_from 0 segment.now.rows) }
    ensures each { All IsSmall result.items }
{
    let mut signals = BoundedList::new();
    for (row, slave) in segment.rows().iter().enumerate() {
        push_signals(&mut signals, segment, row as u16, slave);
    }
    signals
}
