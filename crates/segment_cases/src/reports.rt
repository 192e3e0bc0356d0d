//! The texts of runs.
//!
//! A case is `START SENT LOST EDGES FEWER FIRST LATE LINES FILE`: numbers, `lines` or `plain`, and the text of a segment
//! file without spaces. The clock at position p has the measured delay 360·p ns, and EDGES - p·FEWER edges of each
//! signal, or as many as the file has cycles. Edge k is at FIRST + p·LATE fs, k cycles and the total shift of its signal.
//! What is written is the table of delays, the summary, with its slave lines or without them, the rows of the edges, and
//! an empty line.
//!
//! The table and its answers are those of `tools/report_cases.py`.

mod delays;
mod edges;

use crate::reports::delays::delays_of;
use crate::reports::edges::{Times, edges_of};
use crate::words::Words;
use anyhow::bail;
use edge_report::{delay_table, edges_csv, run_summary};
use segment_file::{Segment, read_segment};
use std::alloc::Global;

/// The three texts of a case.
pub(crate) fn answer(alloc: Global, line: &str) -> anyhow::Result<String> {
    let mut words = Words::new(line);
    let mut numbers = Summary {
        start: words.time(),
        sent: words.count(),
        lost: words.count(),
        slave_lines: false,
    };
    let times = Times {
        count: words.count(),
        fewer: words.count(),
        first_fs: words.time(),
        late_fs: words.time(),
    };
    numbers.slave_lines = words.next() == "lines";
    let Ok(segment) = read_segment(alloc, words.last().as_bytes()) else {
        bail!("no legal file");
    };
    if !words.are_read() {
        bail!("START SENT LOST EDGES FEWER FIRST LATE LINES FILE");
    }
    texts(alloc, &segment, &numbers, &times)
}

// The numbers of a summary beside delays and edges.
#[derive(Clone, Copy, Debug)]
struct Summary {
    start: u64,
    sent: u32,
    lost: u32,
    /// Whether the summary has its slave lines.
    slave_lines: bool,
}

fn texts(
    alloc: Global,
    segment: &Segment,
    numbers: &Summary,
    times: &Times,
) -> anyhow::Result<String> {
    let delays = delays_of(alloc, segment)?;
    let edges = edges_of(alloc, segment, times)?;
    let mut text = String::new(alloc);
    let Ok(table) = delay_table(alloc, segment, &delays, numbers.sent, numbers.lost) else {
        bail!("no memory");
    };
    push(alloc, &mut text, table)?;
    let Ok(summary) = run_summary(
        alloc,
        segment,
        &delays,
        numbers.start,
        numbers.sent,
        numbers.lost,
        &edges,
        numbers.slave_lines,
    ) else {
        bail!("no memory");
    };
    push(alloc, &mut text, summary)?;
    let Ok(rows) = edges_csv(alloc, segment, &edges) else {
        bail!("no memory");
    };
    push(alloc, &mut text, rows)?;
    Ok(text)
}

fn push(alloc: Global, text: &mut String, bytes: Vec<u8>) -> anyhow::Result<()> {
    match String::from_utf8(bytes) {
        Ok(more) => Ok(text.push_str(&more)?),
        Err(_) => bail!("no text"),
    }
}
