ghost use Rattle.std.specs.Prelude.{◌≡◌, ℕ, ◌^◌, ◌≤◌};
ghost use Rattle.dc_bounds.specs.TickBounds.{jump, least_ticks, tick_gap};

/// The fs that a tick stands for.
pub(crate) const TICK_FS: u128 = 10_000_000;

/// G, in fs: how far the ticks in an interval of this length, 10 ns each, can be from its length.
pub fn tick_gap(ppm: u32, length_fs: u128) -> u128
    requires rate { ppm ≤ 100 }
    requires length { length_fs ≤ 10 ^ 20 }
    ensures { result ≡ tick_gap ppm length_fs }
{
    let tolerance = 10 * u128::from(ppm);
    TICK_FS + tolerance * (length_fs / (TICK_FS - tolerance) + 2)
}

/// Q, in ns: how far two clocks can drift apart in an interval of this length.
pub fn jump(ppm: u32, length_fs: u128) -> u128
    requires rate { ppm ≤ 100 }
    requires length { length_fs ≤ 10 ^ 20 }
    ensures { result ≡ jump ppm length_fs }
{
    2 * tick_gap(ppm, length_fs) / 1_000_000
}

/// nmin: the least number of ticks in an interval of this length.
pub fn least_ticks(ppm: u32, length_fs: u128) -> u128
    requires rate { ppm ≤ 100 }
    requires length { length_fs ≤ 10 ^ 20 }
    ensures { result ≡ least_ticks ppm length_fs }
{
    length_fs / (TICK_FS + 10 * u128::from(ppm))
}
