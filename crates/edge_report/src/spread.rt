ghost use Rattle.std.specs.Prelude.{◌≡◌, ◌<◌, ◌+◌, ◌-◌, ◌*◌, IfOk, length, replicate};
ghost use Rattle.edge_report.specs.Edges.{AreEdges};
ghost use Rattle.edge_report.specs.InsideSpread.{moved, no_edge};
ghost use Rattle.edge_report.specs.Spread.{spread_of};

use crate::meeting::Meeting;
use crate::slave_edge::SlaveEdge;
use crate::slaves::total_shift;
use segment_file::Segment;
use std::alloc::{AllocError, Global};

// A time, moved from its shift to one of a second (fs).
fn at_second(time_fs: u64, shift_ns: u32) -> u128
    requires { shift_ns < 1000000000 }
    ensures { result ≡ time_fs + 1000000 * (1000000000 - shift_ns) }
{
    u128::from(time_fs) + 1_000_000 * u128::from(1_000_000_000 - shift_ns)
}

// The instant of an edge, moved to a total shift of one second (fs). The differences of such instants are
// those of the edges, their shifts taken off.
fn moved(segment: &Segment, edge: &SlaveEdge) -> u128
    requires { edge.now.position < length segment.now.rows }
    ensures { result ≡ moved segment.now edge.now }
{
    at_second(edge.edge.time_fs, total_shift(segment, edge))
}

// One for each index.
fn meetings(alloc: Global, cycles: u32) -> Result<Vec<Meeting>, AllocError>
    ensures { IfOk result (λ v. v.items ≡ replicate cycles no_edge) }
{
    vec![in alloc; Meeting::new(); cycles as usize]
}

/// How far apart two edges of one index on two different slaves are at most, their shifts taken off (fs). It
/// is 0 where there is no such pair.
pub(crate) fn spread(
    alloc: Global,
    segment: &Segment,
    edges: &[SlaveEdge],
) -> Result<u128, AllocError>
    requires { AreEdges segment.now edges.now }
    ensures { IfOk result (λ most. most ≡ spread_of segment.now edges.now) }
{
    let mut meetings = meetings(alloc, segment.cycles())?;
    let mut spread = 0;
    for edge in edges {
        let instant = moved(segment, edge);
        let meeting = &mut meetings[edge.edge.index as usize];
        spread = meeting.meet(edge.position, instant).max(spread);
    }
    Ok(spread)
}
