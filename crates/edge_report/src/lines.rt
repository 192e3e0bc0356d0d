// The lines that tell of all slaves together.
ghost use Rattle.std.specs.Prelude.{◌≡◌, ◌++◌, string_bytes, OnOk};
ghost use Rattle.edge_report.specs.FirstLine.{first_line, slaves_text};
ghost use Rattle.edge_report.specs.FramesLine.{frames_line};
ghost use Rattle.edge_report.specs.LockInLine.{difference_ns, lock_in_line, lock_in_text};
ghost use Rattle.edge_report.specs.StartLine.{start_line};
ghost use Rattle.edge_report.specs.EdgesLine.{edges_line};

use crate::slaves::reference_position;
use dc_bounds::jump;
use segment_file::Segment;
use std::alloc::AllocError;
use std::fmt::Write;

#[tactic(auto, unfolding(crate::specs::FirstLine::slaves_text))]
fn push_slaves(
    text: &mut String,
    slaves: usize,
    clocks: u16,
    reference: u16,
) -> Result<(), AllocError>
    ensures { OnOk result (string_bytes text.new ≡ string_bytes text.old ++ slaves_text slaves clocks reference) }
{
    writeln!(
        text,
        "slaves {slaves} clocks {clocks} reference {reference}"
    )
}

/// Appends the first line.
pub(crate) fn push_first(text: &mut String, segment: &Segment) -> Result<(), AllocError>
    ensures { OnOk result (string_bytes text.new ≡ string_bytes text.old ++ first_line segment.now) }
{
    push_slaves(
        text,
        segment.rows().len(),
        segment.clocks(),
        reference_position(segment),
    )
}

// How far a clock can drift from the reference while frames are lost (ns).
fn difference_ns(segment: &Segment) -> u128
    ensures { result ≡ difference_ns segment.now }
{
    let period_fs = 1_000_000 * u128::from(segment.frame_ns());
    jump(
        segment.ppm(),
        (u128::from(segment.loss_run()) + 1) * period_fs,
    )
}

#[tactic(auto, unfolding(crate::specs::LockInLine::lock_in_text))]
fn push_lock_numbers(text: &mut String, frames: u32, difference: u128) -> Result<(), AllocError>
    ensures { OnOk result (string_bytes text.new ≡ string_bytes text.old ++ lock_in_text frames difference) }
{
    writeln!(text, "lock_in {frames} difference_ns {difference}")
}

/// Appends the lock-in line.
pub(crate) fn push_lock_in(text: &mut String, segment: &Segment) -> Result<(), AllocError>
    ensures { OnOk result (string_bytes text.new ≡ string_bytes text.old ++ lock_in_line segment.now) }
{
    push_lock_numbers(text, segment.lock_in(), difference_ns(segment))
}

/// Appends the start line.
#[tactic(auto, unfolding(crate::specs::StartLine::start_line))]
pub(crate) fn push_start(text: &mut String, start: u64) -> Result<(), AllocError>
    ensures { OnOk result (string_bytes text.new ≡ string_bytes text.old ++ start_line start) }
{
    writeln!(text, "start {start}")
}

/// Appends the frames line.
#[tactic(auto, unfolding(crate::specs::FramesLine::frames_line))]
pub(crate) fn push_frames(text: &mut String, sent: u32, lost: u32) -> Result<(), AllocError>
    ensures { OnOk result (string_bytes text.new ≡ string_bytes text.old ++ frames_line sent lost) }
{
    writeln!(text, "frames {sent} lost {lost}")
}

/// Appends the edges line.
#[tactic(auto, unfolding(crate::specs::EdgesLine::edges_line))]
pub(crate) fn push_edges(
    text: &mut String,
    edges: usize,
    spread: u128,
    window: u128,
) -> Result<(), AllocError>
    ensures { OnOk result (string_bytes text.new ≡ string_bytes text.old ++ edges_line edges spread window) }
{
    writeln!(text, "edges {edges} spread_fs {spread} window_fs {window}")
}
