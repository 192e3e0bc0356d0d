ghost use Rattle.std.specs.Prelude.{◌≡◌, ℕ, ◌^◌, ◌≤◌};
ghost use Rattle.dc_bounds.specs.CopyBound.{copy_bound, window};

use crate::lock::period_fs;
use crate::ticks::{TICK_FS, jump, tick_gap};

/// X, in fs: how far the local copy of a clock other than the reference can be from the reference's once
/// they are together, where its delay is `delay_fs` and was measured within `delay_bound_fs`.
pub fn copy_bound(
    ppm: u32,
    frame_ns: u32,
    loss_run: u8,
    delay_bound_fs: u128,
    delay_fs: u64,
) -> u128
    requires rate { ppm ≤ 100 }
    requires frame { (50000 ≤ frame_ns) × (frame_ns ≤ 10000000) }
    requires losses { loss_run ≤ 15 }
    requires bound { delay_bound_fs ≤ 10 ^ 20 }
    ensures { result ≡ copy_bound ppm frame_ns loss_run delay_bound_fs delay_fs }
{
    let silence = (u128::from(loss_run) + 1) * period_fs(frame_ns);
    let drift = tick_gap(ppm, silence + u128::from(delay_fs));
    1_000_000 * jump(ppm, silence) + delay_bound_fs + 2 * drift
}

/// W, in fs: edges of one index at two clocks with the copy bounds `x` and `y`, whose shifts differ by
/// `shift_ns`, are apart by that shift and at most this much more or less.
pub fn window(ppm: u32, shift_ns: u64, x: u128, y: u128) -> u128
    requires rate { ppm ≤ 100 }
    requires shift { shift_ns ≤ 10 ^ 12 }
    requires bounds { (x ≤ 10 ^ 21) × (y ≤ 10 ^ 21) }
    ensures { result ≡ window ppm shift_ns x y }
{
    let ticks = (1_000_000 * u128::from(shift_ns) + TICK_FS + x + y) / TICK_FS;
    TICK_FS + x + y + (TICK_FS + (ticks + 1) * (10 * u128::from(ppm)))
}
