//! The report of a run, made again of the segment and of the bench alone.

ghost use Rattle.std.specs.Prelude.{◌≡◌, Bool, Ok, map, string_bytes};
ghost use Rattle.dc_words.specs.declared.command.Command.TheVariants.{Run};
ghost use Rattle.edge_report.specs.Delays.{AreDelays};
ghost use Rattle.edge_report.specs.Edges.{AreEdges};
ghost use Rattle.segment_bench.specs.BenchRun.{HasRun};
ghost use Rattle.segment_file.specs.Segment.{SegmentValue};
ghost use Rattle.segment_file.specs.Told.{IsSegmentText};
ghost use Rattle.acceptance.specs.Runs.{HoldsRun, StandsAtEnd};

use crate::call::Called;
use anyhow::bail;
use bench_report::{kept_edges, measured_delays};
use dc_bench::Bench;
use dc_top::Outcome;
use dc_words::{Command, read_words};
use edge_report::{SlaveEdge, edges_csv, run_summary};
use segment_file::{Segment, read_segment};
use std::alloc::Global;

/// Whether the text that a run has written is made again; None where no run was made.
pub(crate) fn remakes(
    alloc: Global,
    words: &[String],
    input: &[u8],
    called: &Called,
) -> anyhow::Result<Option<bool>>
    requires { HoldsRun (map string_bytes words.now) input.now called.now.outcome called.now.bench }
{
    match (called.outcome, &called.bench) {
        (Outcome::Done, Some(bench)) => of_words(alloc, words, input, bench, &called.written),
        _ => Ok(None),
    }
}

// The same of a bench that stands at the end of its run, where the words ask for one.
fn of_words(
    alloc: Global,
    words: &[String],
    input: &[u8],
    bench: &Bench,
    written: &[u8],
) -> anyhow::Result<Option<bool>>
    requires { StandsAtEnd (map string_bytes words.now) input.now bench.now }
{
    let Ok(command) = read_words(alloc, words) else {
        bail!("no memory");
    };
    match command {
        Some(asked) => of_command(alloc, asked, input, bench, written),
        None => Ok(None),
    }
}

fn of_command(
    alloc: Global,
    command: Command,
    input: &[u8],
    bench: &Bench,
    written: &[u8],
) -> anyhow::Result<Option<bool>>
    requires { (edges : Bool) (s : SegmentValue) → command ≡ Run edges → IsSegmentText input.now s → HasRun s bench.now (Ok tt) }
{
    match command {
        Command::Run { edges } => of_run(alloc, input, bench, edges, written),
        _ => Ok(None),
    }
}

fn of_run(
    alloc: Global,
    input: &[u8],
    bench: &Bench,
    with_rows: bool,
    written: &[u8],
) -> anyhow::Result<Option<bool>>
    requires { (s : SegmentValue) → IsSegmentText input.now s → HasRun s bench.now (Ok tt) }
{
    let Ok(segment) = read_segment(alloc, input) else {
        return Ok(None);
    };
    let text = report_of(alloc, &segment, bench, with_rows)?;
    Ok(Some(text.as_slice() == written))
}

// The report by `edge_report`: nothing but the segment and the bench goes into it.
fn report_of(
    alloc: Global,
    segment: &Segment,
    bench: &Bench,
    with_rows: bool,
) -> anyhow::Result<Vec<u8>>
    requires { HasRun segment.now bench.now (Ok tt) }
{
    let Ok(edges) = kept_edges(alloc, segment, bench) else {
        bail!("no memory");
    };
    let mut text = summary(alloc, segment, bench, &edges)?;
    if with_rows {
        push_rows(alloc, &mut text, segment, &edges)?;
    }
    Ok(text)
}

fn summary(
    alloc: Global,
    segment: &Segment,
    bench: &Bench,
    edges: &[SlaveEdge],
) -> anyhow::Result<Vec<u8>>
    requires delays { AreDelays segment.now bench.now.master.delays }
    requires are { AreEdges segment.now edges.now }
{
    let Ok(delays) = measured_delays(alloc, segment, bench) else {
        bail!("no memory");
    };
    let master = bench.master();
    let start = master.start().unwrap_or(0);
    let Ok(text) = run_summary(
        alloc,
        segment,
        &delays,
        start,
        master.sent(),
        master.lost(),
        edges,
        true,
    ) else {
        bail!("no memory");
    };
    Ok(text)
}

fn push_rows(
    alloc: Global,
    text: &mut Vec<u8>,
    segment: &Segment,
    edges: &[SlaveEdge],
) -> anyhow::Result<()>
    requires { AreEdges segment.now edges.now }
{
    let Ok(rows) = edges_csv(alloc, segment, edges) else {
        bail!("no memory");
    };
    Ok(text.extend_from_slice(&rows)?)
}
