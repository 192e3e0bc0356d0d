ghost use Rattle.std.specs.Prelude.{◌≡◌, ◌≤◌, ◌*◌, IfErr, OnOk, pos, ◌≤ℤ◌, nat_lt, None};
ghost use Rattle.segment_shape.specs.Ranges.{IsHead};
ghost use Rattle.segment_shape.specs.Seen.{head_seen};
ghost use Rattle.segment_file.specs.Counted.{IsCounted};
ghost use Rattle.segment_file.specs.FaultOf.{IsFaultOf};
ghost use Rattle.segment_file.specs.Faults.{frame_fault, frames_of_run, lock_in, most_frames, step_of};
ghost use Rattle.segment_file.specs.Seen.{counts_seen};

use crate::counts::Counts;
use crate::drift_runs::first_run;
use crate::seg_error::SegError;
use dc_bounds::{lock_count, reach_fs, run_frames};
use loss_list::LossList;
use segment_shape::Head;

/// The most transmissions that a run may take.
const MOST_FRAMES: u128 = 100_000;

/// The most edges of all signals together.
const MOST_EDGES: u64 = 200_000;

/// K.
pub(crate) fn lock_in(head: Head, counts: Counts) -> u128
    requires head { IsHead (head_seen head) }
    requires counts { IsCounted (counts_seen counts) }
    requires some { 1 ≤ counts.clocks }
    requires step { pos 1 ≤ℤ step_of (head_seen head) }
    ensures { result ≡ lock_in (head_seen head) (counts_seen counts) }
{
    let reach = reach_fs(
        counts.measuring,
        counts.clocks,
        head.loss_run,
        head.frame_ns,
    );
    lock_count(head.ppm, head.frame_ns, head.speed, head.loss_run, reach)
}

/// The drift frames of the run phase.
pub(crate) fn frames_of_run(head: Head, counts: Counts) -> u128
    requires head { IsHead (head_seen head) }
    requires counts { IsCounted (counts_seen counts) }
    requires some { 1 ≤ counts.clocks }
    ensures { result ≡ frames_of_run (head_seen head) (counts_seen counts) }
{
    run_frames(
        counts.clocks,
        head.loss_run,
        head.frame_ns,
        head.cycle_ns,
        head.cycles,
    )
}

// Whether a run may have too many frames.
fn has_too_many_frames(head: Head, counts: Counts) -> bool
    requires head { IsHead (head_seen head) }
    requires counts { IsCounted (counts_seen counts) }
    requires some { 1 ≤ counts.clocks }
    requires step { pos 1 ≤ℤ step_of (head_seen head) }
    ensures { result ≡ nat_lt 100000 (most_frames (head_seen head) (counts_seen counts)) }
{
    let exchanges = u128::from(counts.slaves)
        + u128::from(counts.measuring)
        + u128::from(counts.clocks)
        + 3;
    let others = 3 * exchanges + u128::from(head.loss_run) + 1 + 3 * u128::from(counts.clocks);
    let frames = others
        .saturating_add(lock_in(head, counts))
        .saturating_add(frames_of_run(head, counts));
    frames > MOST_FRAMES
}

// Whether a run has too many edges.
fn has_too_many_edges(head: Head, counts: Counts) -> bool
    requires head { IsHead (head_seen head) }
    requires counts { IsCounted (counts_seen counts) }
    ensures { result ≡ nat_lt 200000 (head.cycles * counts.signals) }
{
    u64::from(head.cycles) * u64::from(counts.signals) > MOST_EDGES
}

/// Whether the frames are without fault: never more than `loss_run` drift frames are lost in a row, and
/// a run has few enough frames and edges.
#[tactic(auto, unfolding(crate::specs::Faults::frame_fault))]
pub(crate) fn check_frames(head: Head, counts: Counts, losses: &LossList) -> Result<(), SegError>
    requires head { IsHead (head_seen head) }
    requires counts { IsCounted (counts_seen counts) }
    requires some { 1 ≤ counts.clocks }
    requires step { pos 1 ≤ℤ step_of (head_seen head) }
    ensures ok { OnOk result (frame_fault (head_seen head) (counts_seen counts) losses.now ≡ None) }
    ensures err { IfErr result (IsFaultOf (frame_fault (head_seen head) (counts_seen counts) losses.now)) }
{
    if let Some(number) = first_run(losses, u32::from(head.loss_run) + 1) {
        return Err(SegError::LossRun(number));
    }
    if has_too_many_frames(head, counts) || has_too_many_edges(head, counts) {
        return Err(SegError::TooMuch);
    }
    Ok(())
}
