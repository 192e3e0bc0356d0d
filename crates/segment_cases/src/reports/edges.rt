ghost use Rattle.std.specs.Prelude.{◌≡◌, ◌<◌, ◌≤◌, ◌+◌, ◌++◌, ◌∷◌, [], IfOk, OnOk, length};
ghost use Rattle.std.specs.List.{All};
ghost use Rattle.segment_file.specs.Seen.{row_seen};
ghost use Rattle.edge_report.specs.Edges.{AreEdges, edges_of, IsEdge};
ghost use Rattle.edge_report.specs.Slaves.{slave_at};
ghost use Rattle.segment_cases.specs.Runs.{IsClockAt, IsRunBefore, IsRunTo};

use edge_report::SlaveEdge;
use segment_file::{Segment, SlaveRow, has_clock};
use std::alloc::{AllocError, Global};
use sync_units::{Edge, Signal};

/// How many edges a signal has, how many fewer each position has, when the first is, and by how much each position is later
/// (fs).
#[derive(Clone, Copy, Debug)]
pub(crate) struct Times {
    pub(crate) count: u32,
    pub(crate) fewer: u32,
    pub(crate) first_fs: u64,
    pub(crate) late_fs: u64,
}

impl Times {
    fn count_at(&self, position: u16) -> u32 {
        let fewer = self.fewer.saturating_mul(u32::from(position));
        self.count.saturating_sub(fewer)
    }

    fn at(&self, segment: &Segment, position: u16, index: u32, shift_ns: u32) -> u64 {
        let cycle_fs = 1_000_000 * u64::from(segment.cycle_ns());
        let late_fs = self.late_fs.wrapping_mul(u64::from(position));
        self.first_fs
            .wrapping_add(late_fs)
            .wrapping_add(cycle_fs.wrapping_mul(u64::from(index)))
            .wrapping_add(1_000_000 * u64::from(shift_ns))
    }
}

/// The slave at a position.
pub(crate) fn slave(segment: &Segment, position: u16) -> &SlaveRow
    requires { position < length segment.now.rows }
    ensures { row_seen result.now ≡ slave_at segment.now position }
{
    &segment.rows()[usize::from(segment.row_at(position))]
}

fn edge_at(position: u16, signal: Signal, index: u32, time_fs: u64) -> SlaveEdge
    ensures { result ≡ record { position = position; edge = record { signal = signal; index = index; time_fs = time_fs } } }
{
    SlaveEdge {
        position,
        edge: Edge {
            signal,
            index,
            time_fs,
        },
    }
}

// Puts the next edge of a signal at the end.
fn push_edge(
    edges: &mut Vec<SlaveEdge>,
    segment: &Segment,
    edge: SlaveEdge,
) -> Result<(), AllocError>
    requires edges { AreEdges segment.now edges.old.items }
    requires edge { IsEdge segment.now edge }
    requires last { All (λ e. e.position ≤ edge.position) edges.old.items }
    requires next { length (edges_of edge.position edge.edge.signal edges.old.items) ≡ edge.edge.index }
    requires low { edge.edge.index < segment.now.head.cycles }
    ensures is { OnOk result (edges.new.items ≡ edges.old.items ++ edge ∷ []) }
    ensures edges { OnOk result (AreEdges segment.now edges.new.items) }
{
    edges.push(edge)?;
    Ok(())
}

// The edges of an index of a clock: SYNC0, and SYNC1 where it has that.
fn push_index(
    edges: &mut Vec<SlaveEdge>,
    segment: &Segment,
    position: u16,
    index: u32,
    times: &Times,
) -> Result<(), AllocError>
    requires low { index < segment.now.head.cycles }
    requires clock { IsClockAt segment.now position }
    requires run { IsRunTo segment.now position index edges.old.items }
    ensures { OnOk result (IsRunTo segment.now position (index + 1) edges.new.items) }
{
    let row = slave(segment, position);
    let time_fs = times.at(segment, position, index, row.shift_ns);
    push_edge(
        edges,
        segment,
        edge_at(position, Signal::Sync0, index, time_fs),
    )?;
    let Some(sync1_ns) = row.sync1_ns else {
        return Ok(());
    };
    let later_fs = time_fs.wrapping_add(u64::from(sync1_ns).wrapping_mul(1_000_000));
    push_edge(
        edges,
        segment,
        edge_at(position, Signal::Sync1, index, later_fs),
    )?;
    Ok(())
}

// The edges of a clock.
fn push_clock(
    edges: &mut Vec<SlaveEdge>,
    segment: &Segment,
    position: u16,
    times: &Times,
) -> Result<(), AllocError>
    requires clock { IsClockAt segment.now position }
    requires run { IsRunBefore segment.now position edges.old.items }
    ensures { OnOk result (IsRunBefore segment.now (position + 1) edges.new.items) }
{
    for index in 0..times.count_at(position).min(segment.cycles()) {
        push_index(edges, segment, position, index, times)?;
    }
    Ok(())
}

// The edges of a slave, if it is a clock.
fn push_slave(
    edges: &mut Vec<SlaveEdge>,
    segment: &Segment,
    position: u16,
    times: &Times,
) -> Result<(), AllocError>
    requires within { position < length segment.now.rows }
    requires run { IsRunBefore segment.now position edges.old.items }
    ensures { OnOk result (IsRunBefore segment.now (position + 1) edges.new.items) }
{
    if !has_clock(slave(segment, position).kind) {
        return Ok(());
    }
    push_clock(edges, segment, position, times)
}

/// The edges of all clocks.
pub(crate) fn edges_of(
    alloc: Global,
    segment: &Segment,
    times: &Times,
) -> Result<Vec<SlaveEdge>, AllocError>
    ensures { IfOk result (λ v. AreEdges segment.now v.items) }
{
    let mut edges = Vec::new(alloc);
    let slaves = segment.tree().len() as u16;
    for position in 0..slaves {
        push_slave(&mut edges, segment, position, times)?;
    }
    Ok(edges)
}
