ghost use Rattle.std.specs.Prelude.{◌≡◌, IfErr, OnOk, pos, ◌≤ℤ◌, None};
ghost use Rattle.segment_shape.specs.Ranges.{IsHead};
ghost use Rattle.segment_shape.specs.Seen.{head_seen};
ghost use Rattle.segment_file.specs.Counted.{IsCounted};
ghost use Rattle.segment_file.specs.FaultOf.{IsFaultOf};
ghost use Rattle.segment_file.specs.Faults.{ahead_ns, step_of, time_fault};
ghost use Rattle.segment_file.specs.Seen.{counts_seen};

use crate::counts::Counts;
use crate::seg_error::SegError;
use cable_tree::Tree;
use dc_bounds::lock_step;
use segment_shape::Head;

/// Half the range of a 32-bit clock, a little less (ns).
const FARTHEST_START_NS: u64 = 2_000_000_000;

/// μ, in ns.
pub(crate) fn step_of(head: Head) -> i128
    requires { IsHead (head_seen head) }
    ensures { result ≡ step_of (head_seen head) }
{
    lock_step(head.ppm, head.frame_ns, head.speed, head.loss_run)
}

// How far ahead a start may lie where a 32-bit clock is armed.
fn ahead_ns(head: Head, counts: Counts) -> u64
    requires head { IsHead (head_seen head) }
    requires counts { IsCounted (counts_seen counts) }
    ensures { result ≡ ahead_ns (head_seen head) (counts_seen counts) }
{
    let periods = 3 * u64::from(counts.clocks) + u64::from(head.loss_run) + 4;
    periods * u64::from(head.frame_ns) + 3 * u64::from(head.cycle_ns)
}

/// Whether the times are without fault: the round trip is shorter than a frame period, the clocks come
/// together, and no start lies too far ahead.
#[tactic(auto, unfolding(crate::specs::Faults::time_fault))]
pub(crate) fn check_times(head: Head, counts: Counts, tree: &Tree) -> Result<(), SegError>
    requires head { IsHead (head_seen head) }
    requires counts { IsCounted (counts_seen counts) }
    ensures ok { OnOk result (time_fault (head_seen head) (counts_seen counts) tree.now ≡ None) }
    ensures err { IfErr result (IsFaultOf (time_fault (head_seen head) (counts_seen counts) tree.now)) }
    ensures step { OnOk result (pos 1 ≤ℤ step_of (head_seen head)) }
{
    if tree.round_trip() >= 1_000_000 * u64::from(head.frame_ns) {
        return Err(SegError::TooSlow);
    }
    if step_of(head) < 1 {
        return Err(SegError::NoLock);
    }
    if ahead_ns(head, counts) >= FARTHEST_START_NS {
        return Err(SegError::Lead);
    }
    Ok(())
}
