ghost use Rattle.std.specs.Prelude.{◌≡◌, ◌++◌, IfOk, OnOk, string_bytes};
ghost use Rattle.edge_report.specs.Delays.{AreDelays};
ghost use Rattle.edge_report.specs.Edges.{AreEdges};
ghost use Rattle.edge_report.specs.Reports.{delay_table_text, edges_part, run_summary_text, slaves_part};

use crate::lines::{push_edges, push_first, push_frames, push_lock_in, push_start};
use crate::slave_edge::SlaveEdge;
use crate::slave_lines::push_slaves;
use crate::spread::spread;
use crate::windows::window;
use dc_base::NoMemory;
use segment_file::Segment;
use std::alloc::{AllocError, Global};

fn delay_text(
    alloc: Global,
    segment: &Segment,
    delays: &[Option<u64>],
    sent: u32,
    lost: u32,
) -> Result<String, AllocError>
    requires { AreDelays segment.now delays.now }
    ensures { IfOk result (λ text. string_bytes text ≡ delay_table_text segment.now delays.now sent lost) }
{
    let mut text = String::new(alloc);
    push_first(&mut text, segment)?;
    push_slaves(&mut text, segment, delays)?;
    push_frames(&mut text, sent, lost)?;
    Ok(text)
}

/// The table of delays: `slaves N clocks C reference P`, a line for each slave in frame order with its
/// measured delay (ns), the true one (fs) and the bound on their difference (fs), and `frames T lost L`.
/// `delays` has an entry for each position, Some exactly where a clock stands.
pub fn delay_table(
    alloc: Global,
    segment: &Segment,
    delays: &[Option<u64>],
    sent: u32,
    lost: u32,
) -> Result<Vec<u8>, NoMemory>
    requires { AreDelays segment.now delays.now }
    ensures { IfOk result (λ text. text.items ≡ delay_table_text segment.now delays.now sent lost) }
{
    let text = delay_text(alloc, segment, delays, sent, lost)?;
    Ok(text.into_bytes())
}

// The lines of the slaves, where they are asked for.
fn push_slaves_part(
    text: &mut String,
    segment: &Segment,
    delays: &[Option<u64>],
    asked: bool,
) -> Result<(), AllocError>
    requires { AreDelays segment.now delays.now }
    ensures { OnOk result (string_bytes text.new ≡ string_bytes text.old ++ slaves_part segment.now delays.now asked) }
{
    if asked {
        push_slaves(text, segment, delays)
    } else {
        Ok(())
    }
}

// The edges line.
fn push_edges_part(
    alloc: Global,
    text: &mut String,
    segment: &Segment,
    edges: &[SlaveEdge],
) -> Result<(), AllocError>
    requires { AreEdges segment.now edges.now }
    ensures { OnOk result (string_bytes text.new ≡ string_bytes text.old ++ edges_part segment.now edges.now) }
{
    let spread = spread(alloc, segment, edges)?;
    let window = window(alloc, segment, edges)?;
    push_edges(text, edges.len(), spread, window)
}

fn run_text(
    alloc: Global,
    segment: &Segment,
    delays: &[Option<u64>],
    start: u64,
    sent: u32,
    lost: u32,
    edges: &[SlaveEdge],
    slave_lines: bool,
) -> Result<String, AllocError>
    requires delays { AreDelays segment.now delays.now }
    requires edges { AreEdges segment.now edges.now }
    ensures { IfOk result (λ text. string_bytes text ≡ run_summary_text segment.now delays.now start sent lost edges.now slave_lines) }
{
    let mut text = String::new(alloc);
    push_first(&mut text, segment)?;
    push_slaves_part(&mut text, segment, delays, slave_lines)?;
    push_lock_in(&mut text, segment)?;
    push_start(&mut text, start)?;
    push_frames(&mut text, sent, lost)?;
    push_edges_part(alloc, &mut text, segment, edges)?;
    Ok(text)
}

/// The summary of a run: the first line, where `slave_lines` is set a line for each slave, as in
/// [`delay_table`], `lock_in K difference_ns Q`, `start S`, `frames T lost L`, and
/// `edges E spread_fs S window_fs W`. K is the number of drift frames after which the clocks are together, Q
/// how far one can then drift from the reference until the next frame comes, and `start` the time of cycle 0
/// before shifts (ns). The spread is how far two edges of one index on two different slaves are apart at
/// most, their total shifts taken off, and the window how far they may be; both are 0 where there is no such
/// pair.
///
/// The edges stand by position. Each is of a signal that its slave has, and the indices of a signal are 0, 1,
/// 2 and so on, at most as many as the segment has cycles.
pub fn run_summary(
    alloc: Global,
    segment: &Segment,
    delays: &[Option<u64>],
    start: u64,
    sent: u32,
    lost: u32,
    edges: &[SlaveEdge],
    slave_lines: bool,
) -> Result<Vec<u8>, NoMemory>
    requires delays { AreDelays segment.now delays.now }
    requires edges { AreEdges segment.now edges.now }
    ensures { IfOk result (λ text. text.items ≡ run_summary_text segment.now delays.now start sent lost edges.now slave_lines) }
{
    let text = run_text(
        alloc,
        segment,
        delays,
        start,
        sent,
        lost,
        edges,
        slave_lines,
    )?;
    Ok(text.into_bytes())
}
