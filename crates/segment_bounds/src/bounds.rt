ghost use Rattle.std.specs.Prelude.{◌≡◌, ◌*◌, ◌^◌, ◌<◌, ◌≤◌, length};
ghost use Rattle.segment_bounds.specs.Bounds.{copy_bound_at, wire_delay_at, delay_bound_at, weight_at};

use dc_bounds::weight;
use segment_file::{Segment, clock_flags, measuring_flags};

// w of the clock at a row.
fn weight_at(segment: &Segment, row: u16) -> u32
    requires { row < length segment.now.rows }
    ensures is { result ≡ weight_at segment.now row }
    ensures few { result ≤ 1024 }
{
    let measuring = measuring_flags(segment.rows());
    let timed = clock_flags(segment.rows());
    weight(segment.tree(), &measuring, &timed, row)
}

/// B: how far the measured delay of the clock at a row can be from the true one (fs). It is 0 at the
/// reference.
#[tactic(auto, unfolding(crate::specs::Bounds::delay_bound_at))]
pub fn delay_bound(segment: &Segment, row: u16) -> u128
    requires { row < length segment.now.rows }
    ensures { result ≡ delay_bound_at segment.now row }
{
    let weight = weight_at(segment, row);
    dc_bounds::delay_bound(segment.ppm(), weight, segment.tree().round_trip())
}

/// D: how much later a frame reaches the clock at a row than the reference (fs).
#[tactic(auto, unfolding(crate::specs::Bounds::wire_delay_at))]
pub fn true_delay(segment: &Segment, row: u16) -> u64
    requires { row < length segment.now.rows }
    ensures { result ≡ wire_delay_at segment.now row }
{
    let tree = segment.tree();
    tree.arrive(row)
        .saturating_sub(tree.arrive(segment.reference()))
}

/// X: how far the local copy of the clock at a row can be from that of the reference, once the clocks are
/// together (fs). It is 0 at the reference.
#[tactic(auto, unfolding(crate::specs::Bounds::copy_bound_at))]
pub fn copy_bound(segment: &Segment, row: u16) -> u128
    requires { row < length segment.now.rows }
    ensures is { result ≡ copy_bound_at segment.now row }
    ensures small { 4 * result ≤ 10 ^ 13 }
{
    if row == segment.reference() {
        return 0;
    }
    dc_bounds::copy_bound(
        segment.ppm(),
        segment.frame_ns(),
        segment.loss_run(),
        delay_bound(segment, row),
        true_delay(segment, row),
    )
}
