ghost use Rattle.std.specs.Prelude.{◌≡◌, ℕ, ◌≤◌};
ghost use Rattle.dc_bounds.specs.DelayBound.{delay_bound};

use crate::ticks::tick_gap;

/// B, in fs: how far the measured delay of a clock with this weight can be from the true one, where a
/// frame takes `round_trip_fs` through the segment. The weight of the reference is 0, and so is its bound.
pub fn delay_bound(ppm: u32, weight: u32, round_trip_fs: u64) -> u128
    requires rate { ppm ≤ 100 }
    ensures { result ≡ delay_bound ppm weight round_trip_fs }
{
    if weight == 0 {
        return 0;
    }
    (u128::from(weight) * tick_gap(ppm, u128::from(round_trip_fs)) + 1_000_000) / 2
}
