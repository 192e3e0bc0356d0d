ghost use Rattle.std.specs.Prelude.{◌≡◌, ℕ, ◌≤◌};
ghost use Rattle.dc_bounds.specs.RunNumbers.{lead_ns, run_frames};

/// The ns from the last time of the reference that came back to the start of the units, at least: the
/// tries of arming, the frames that may have been lost, and two periods.
pub fn lead_ns(clocks: u16, loss_run: u8, frame_ns: u32) -> u128
    requires clocks { (1 ≤ clocks) × (clocks ≤ 256) }
    requires losses { loss_run ≤ 15 }
    requires frame { (50000 ≤ frame_ns) × (frame_ns ≤ 10000000) }
    ensures { result ≡ lead_ns clocks loss_run frame_ns }
{
    (3 * u128::from(clocks) + u128::from(loss_run) + 2) * u128::from(frame_ns)
}

/// The number of drift frames that the run phase sends, so that each unit raises its edges 0 to
/// `cycles - 1` in it.
pub fn run_frames(clocks: u16, loss_run: u8, frame_ns: u32, cycle_ns: u32, cycles: u32) -> u128
    requires clocks { (1 ≤ clocks) × (clocks ≤ 256) }
    requires losses { loss_run ≤ 15 }
    requires frame { (50000 ≤ frame_ns) × (frame_ns ≤ 10000000) }
    requires cycles { cycles ≤ 100000 }
    ensures { result ≡ run_frames clocks loss_run frame_ns cycle_ns cycles }
{
    let lead = lead_ns(clocks, loss_run, frame_ns);
    let run_time = lead + (u128::from(cycles) + 2) * u128::from(cycle_ns);
    (run_time + run_time / 1000) / u128::from(frame_ns) + 3
}
