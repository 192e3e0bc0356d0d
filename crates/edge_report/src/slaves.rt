ghost use Rattle.std.specs.Prelude.{◌≡◌, ◌<◌, length};
ghost use Rattle.segment_file.specs.Seen.{row_seen};
ghost use Rattle.edge_report.specs.Edges.{total_shift};
ghost use Rattle.edge_report.specs.Shifts.{HasSmallShifts};
ghost use Rattle.edge_report.specs.Slaves.{reference_position, slave_at};

use crate::slave_edge::SlaveEdge;
use segment_file::{Segment, SlaveRow};
use sync_units::Signal;

/// The slave at a position.
pub(crate) fn slave(segment: &Segment, position: u16) -> &SlaveRow
    requires { position < length segment.now.rows }
    ensures is { row_seen result.now ≡ slave_at segment.now position }
    ensures small { HasSmallShifts (slave_at segment.now position) }
{
    &segment.rows()[usize::from(segment.row_at(position))]
}

/// The position of the reference clock.
pub(crate) fn reference_position(segment: &Segment) -> u16
    ensures { result ≡ reference_position segment.now }
{
    segment.tree().position(segment.reference())
}

/// The total shift of the signal that has an edge (ns): the slave's shift, and for SYNC1 its time after
/// SYNC0 on top.
pub(crate) fn total_shift(segment: &Segment, edge: &SlaveEdge) -> u32
    requires { edge.now.position < length segment.now.rows }
    ensures is { result ≡ total_shift segment.now edge.now }
    ensures small { result < 1000000000 }
{
    let row = slave(segment, edge.position);
    match edge.edge.signal {
        Signal::Sync0 => row.shift_ns,
        Signal::Sync1 => row.shift_ns + row.sync1_ns.unwrap_or(0),
    }
}
