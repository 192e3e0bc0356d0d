ghost use Rattle.std.specs.Prelude.{◌≡◌, ℕ, ◌*◌, ◌^◌, ◌≤◌, pos, ◌≤ℤ◌};
ghost use Rattle.dc_bounds.specs.LockNumbers.{gain, lock_count, lock_step, reach_fs};

use crate::ticks::{jump, least_ticks};

/// μ, in ns: what is surely gained on a difference between two drift frames that come, with at most
/// `loss_run` lost between them. Where it is not above 0 the clocks may never come together.
/// `speed` is the speed counter's start (ESC data sheet, 0x0930).
pub fn lock_step(ppm: u32, frame_ns: u32, speed: u16, loss_run: u8) -> i128
    requires rate { ppm ≤ 100 }
    requires frame { (50000 ≤ frame_ns) × (frame_ns ≤ 10000000) }
    requires speed { (128 ≤ speed) × (speed ≤ 16383) }
    requires losses { loss_run ≤ 15 }
    ensures { result ≡ lock_step ppm frame_ns speed loss_run }
{
    let mut least = gain(ppm, frame_ns, speed, 1);
    for more in 0..loss_run {
        least = least.min(gain(ppm, frame_ns, speed, more + 2));
    }
    least
}

// What is surely gained where k periods lie between two frames that come.
fn gain(ppm: u32, frame_ns: u32, speed: u16, k: u8) -> i128
    requires rate { ppm ≤ 100 }
    requires frame { frame_ns ≤ 10000000 }
    requires speed { (128 ≤ speed) × (speed ≤ 16383) }
    requires few { k ≤ 16 }
    ensures { result ≡ gain ppm frame_ns speed k }
{
    let length = u128::from(k) * period_fs(frame_ns);
    let corrections = least_ticks(ppm, length) / u128::from(speed / 64);
    corrections as i128 - jump(ppm, length) as i128
}

/// K: the number of drift frames after which no difference is above the drift of `loss_run + 1` periods,
/// where the first of them comes at most `z_fs` after the latch frame.
pub fn lock_count(ppm: u32, frame_ns: u32, speed: u16, loss_run: u8, z_fs: u128) -> u128
    requires rate { ppm ≤ 100 }
    requires frame { (50000 ≤ frame_ns) × (frame_ns ≤ 10000000) }
    requires speed { (128 ≤ speed) × (speed ≤ 16383) }
    requires losses { loss_run ≤ 15 }
    requires reach { z_fs ≤ 10 ^ 20 }
    requires gains { pos 1 ≤ℤ lock_step ppm frame_ns speed loss_run }
    ensures { result ≡ lock_count ppm frame_ns speed loss_run z_fs }
{
    let step = lock_step(ppm, frame_ns, speed, loss_run).unsigned_abs();
    let periods = u128::from(loss_run) + 1;
    let drift = jump(ppm, z_fs).saturating_sub(jump(ppm, periods * period_fs(frame_ns)));
    periods * drift.div_ceil(step)
}

/// Z, in fs: the time from the latch frame to the first drift frame that reaches a clock, at most.
pub fn reach_fs(measuring: u16, clocks: u16, loss_run: u8, frame_ns: u32) -> u128
    requires slaves { (1 ≤ clocks) × (clocks ≤ measuring) × (measuring ≤ 256) }
    requires losses { loss_run ≤ 15 }
    requires frame { (50000 ≤ frame_ns) × (frame_ns ≤ 10000000) }
    ensures { result ≡ reach_fs measuring clocks loss_run frame_ns }
{
    let frames = 3 * u128::from(measuring) + 3 * u128::from(clocks) + u128::from(loss_run) + 1;
    frames * period_fs(frame_ns)
}

/// A frame period in fs.
pub(crate) fn period_fs(frame_ns: u32) -> u128
    ensures { result ≡ 1000000 * frame_ns }
{
    1_000_000 * u128::from(frame_ns)
}
