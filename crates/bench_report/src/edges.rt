//! The edges that the wire of a bench has kept.

ghost use Rattle.std.specs.Prelude.{◌≡◌, ◌++◌, IfOk, OnOk, Ok};
ghost use Rattle.edge_report.specs.Edges.{AreEdges};
ghost use Rattle.segment_bench.specs.BenchRun.{HasRun};
ghost use Rattle.segment_file.specs.Legal.{IsLegal};
ghost use Rattle.bench_report.specs.Edges.{edges_told, own_edges};

use dc_bench::Bench;
use edge_report::SlaveEdge;
use segment_file::Segment;
use std::alloc::{AllocError, Global};
use sync_units::Edge;

// Puts the edges of the slave at a position behind those of the positions before it.
fn push_own(list: &mut Vec<SlaveEdge>, position: u16, edges: &[Edge]) -> Result<(), AllocError>
    ensures { OnOk result (list.new.items ≡ list.old.items ++ own_edges position edges.now) }
{
    for edge in edges {
        list.push(SlaveEdge {
            position,
            edge: *edge,
        })?;
    }
    Ok(())
}

/// All edges that the slaves of the bench have kept, in frame order. They are edges of a run: each is of a signal that its slave
/// has by the file.
pub fn kept_edges(
    alloc: Global,
    segment: &Segment,
    bench: &Bench,
) -> Result<Vec<SlaveEdge>, AllocError>
    requires { HasRun segment.now bench.now (Ok tt) }
    ensures told { IfOk result (λ edges. edges.items ≡ edges_told segment.now bench.now.wire) }
    ensures are { AreEdges segment.now (edges_told segment.now bench.now.wire) }
    ensures legal { IsLegal segment.now }
{
    let slaves = segment.tree().len() as u16;
    let mut edges = Vec::new(alloc);
    for position in 0..slaves {
        push_own(&mut edges, position, bench.wire().edges(position))?;
    }
    Ok(edges)
}
