ghost use Rattle.std.specs.Prelude.{◌≡◌, IfOk, None, Ok};
ghost use Rattle.edge_report.specs.Edges.{AreEdges};
ghost use Rattle.edge_report.specs.Delays.{AreDelays};
ghost use Rattle.run_of_file.specs.AtEnd.{IsAtEnd};
ghost use Rattle.run_of_file.specs.RunOfFile.{commissioned};
ghost use Rattle.segment_bench.specs.BenchRun.{HasRun};
ghost use Rattle.segment_file.specs.Legal.{IsLegal};
ghost use Rattle.bench_report.specs.Edges.{edges_told};
ghost use Rattle.bench_report.specs.Reports.{drill_text, report_text, summary_text, table_text};

use crate::delays::measured_delays;
use crate::edges::kept_edges;
use dc_base::NoMemory;
use dc_bench::Bench;
use edge_report::{SlaveEdge, edges_csv_behind, run_summary};
use segment_file::Segment;
use std::alloc::Global;

/// The table of delays of a bench whose master has commissioned the segment.
#[tactic(auto, unfolding(crate::specs::Reports::table_text))]
pub fn delays_of_bench(alloc: Global, segment: &Segment, bench: &Bench) -> Result<Vec<u8>, NoMemory>
    requires legal { IsLegal segment.now }
    requires run { IsAtEnd segment.now None (commissioned segment.now) bench.now.wire bench.now.master (Ok tt) }
    ensures { IfOk result (λ text. text.items ≡ table_text segment.now bench.now) }
{
    let delays = measured_delays(alloc, segment, bench)?;
    let master = bench.master();
    edge_report::delay_table(alloc, segment, &delays, master.sent(), master.lost())
}

// The summary of a run, with these edges.
#[tactic(auto, unfolding(crate::specs::Reports::summary_text))]
fn summary(
    alloc: Global,
    segment: &Segment,
    bench: &Bench,
    edges: &[SlaveEdge],
    slave_lines: bool,
) -> Result<Vec<u8>, NoMemory>
    requires delays { AreDelays segment.now bench.now.master.delays }
    requires are { AreEdges segment.now edges.now }
    requires told { edges.now ≡ edges_told segment.now bench.now.wire }
    ensures { IfOk result (λ text. text.items ≡ summary_text segment.now bench.now slave_lines) }
{
    let delays = measured_delays(alloc, segment, bench)?;
    let master = bench.master();
    let start = master.start().unwrap_or(0);
    run_summary(
        alloc,
        segment,
        &delays,
        start,
        master.sent(),
        master.lost(),
        edges,
        slave_lines,
    )
}

/// The report of a whole run: the summary with the lines of the slaves, and behind it the rows of the edges
/// where `with_rows` is set.
pub fn run_report(
    alloc: Global,
    segment: &Segment,
    bench: &Bench,
    with_rows: bool,
) -> Result<Vec<u8>, NoMemory>
    requires { HasRun segment.now bench.now (Ok tt) }
    ensures { IfOk result (λ text. text.items ≡ report_text segment.now bench.now with_rows) }
{
    let edges = kept_edges(alloc, segment, bench)?;
    let text = summary(alloc, segment, bench, &edges, true)?;
    if with_rows {
        edges_csv_behind(text, segment, edges)
    } else {
        Ok(text)
    }
}

/// The report of a whole run without the lines of the slaves.
pub fn drill_report(alloc: Global, segment: &Segment, bench: &Bench) -> Result<Vec<u8>, NoMemory>
    requires { HasRun segment.now bench.now (Ok tt) }
    ensures { IfOk result (λ text. text.items ≡ drill_text segment.now bench.now) }
{
    let edges = kept_edges(alloc, segment, bench)?;
    summary(alloc, segment, bench, &edges, false)
}
