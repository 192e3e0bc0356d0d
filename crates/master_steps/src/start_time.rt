// The start time of the SYNC units.
ghost use Rattle.std.specs.Prelude.{◌≡◌, ◌≤◌, length};
ghost use Rattle.master_steps.specs.ConfigRange.{IsConfig, value_of};
ghost use Rattle.master_steps.specs.Known.{words_of};
ghost use Rattle.master_script.specs.Slaves.{clocks};
ghost use Rattle.master_script.specs.Words.{start_at};

use crate::config::Config;
use dc_bounds::lead_ns;
use master_frames::Learned;

/// The first whole number of cycles behind the lead from the last time of the reference on, in ns, modulo 2^64.
#[tactic(auto, unfolding(master_script::specs::Config::start_of))]
pub fn start(config: &Config, learned: &Learned) -> u64
    requires config { IsConfig (value_of config.now) }
    requires clocks { 1 ≤ length (clocks (words_of learned.now).slaves) }
    ensures { result ≡ start_at (value_of config.now) (words_of learned.now) }
{
    let cycle_ns = u128::from(config.cycle_ns);
    let lead = lead_ns(learned.clocks(), config.loss_run, config.frame_ns);
    let time = u128::from(learned.time.unwrap_or(0));
    let start = ((time + lead) / cycle_ns + 1) * cycle_ns;
    (start % (1 << 64)) as u64
}
