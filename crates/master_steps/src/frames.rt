// The frame of each step, by the table of the script.
ghost use Rattle.std.specs.Prelude.{◌≡◌, ◌+◌, ◌≤◌, length, None, slice_index_or, unwrap_or};
ghost use Rattle.byteorder.specs.Endian.{little_bytes};
ghost use Rattle.master_steps.specs.ConfigRange.{IsConfig, value_of};
ghost use Rattle.master_steps.specs.Known.{words_of};
ghost use Rattle.master_steps.specs.Asking.{CanAsk};
ghost use Rattle.master_script.specs.Config.{plan_at};
ghost use Rattle.master_script.specs.Frames.{width};
ghost use Rattle.master_script.specs.Slaves.{clocks};
ghost use Rattle.master_script.specs.Steps.{frame_of};
ghost use Rattle.master_script.specs.Words.{offset_at, start_at, wide_at};
ghost use Rattle.master_script.specs.declared.step.Step.TheVariants.{Set};

use crate::config::Config;
use crate::exchange::Notes;
use crate::start_time::start;
use ecat_frame::Frame;
use master_frames::{
    Learned, arm_frame, count_frame, drift_frame, identify_frame, latch_frame, rate_frame,
    set_frame, times_frame,
};
use master_script::{Step, SyncPlan};

/// The frame of a step.
#[tactic(auto, unfolding(master_script::specs::Steps::frame_of))]
pub(crate) fn frame(config: &Config, notes: &Notes, step: Step) -> Frame
    requires config { IsConfig (value_of config.now) }
    requires known { CanAsk (value_of config.now) (words_of notes.now.learned) notes.now.delays.items step }
    ensures { result ≡ frame_of (value_of config.now) (words_of notes.now.learned) step }
{
    let learned = &notes.learned;
    match step {
        Step::Count => count_frame(),
        Step::Identify(position) => identify_frame(position),
        Step::Rate => rate_frame(config.speed),
        Step::Latch => latch_frame(),
        Step::Times(position) => times_frame(position, learned.is_wide(position)),
        Step::Set(position) => {
            let offset = offset(config, notes, position);
            let delay_ns = delay_or_0(&notes.delays, position);
            set_frame(position, learned.is_wide(position), offset, delay_ns)
        }
        Step::Settle | Step::Drift(_) => drift_frame(learned.reference_or_0()),
        Step::Arm(position) => {
            let reference = learned.reference_or_0();
            let plan = plan(config, position);
            let start = arm_start(config, learned, position);
            arm_frame(
                reference,
                position,
                learned.is_wide(position),
                config.cycle_ns,
                plan.sync1_ns,
                start,
            )
        }
    }
}

// The offset of the clock at a position; of a 32-bit clock its lower half counts.
fn offset(config: &Config, notes: &Notes, position: u16) -> u64
    requires { CanAsk (value_of config.now) (words_of notes.now.learned) notes.now.delays.items (Set position) }
    ensures { (let w = words_of notes.now.learned in
        little_bytes (width (wide_at w position)) result
        ≡ little_bytes (width (wide_at w position)) (offset_at (value_of config.now) w position)) }
{
    let delay_ns = delay_or_0(&notes.delays, position);
    config
        .epoch_ns
        .wrapping_add(delay_ns)
        .wrapping_sub(notes.learned.unit(position))
}

// The start time of the clock at a position, shifted by its plan; of a 32-bit clock its lower half counts.
fn arm_start(config: &Config, learned: &Learned, position: u16) -> u64
    requires config { IsConfig (value_of config.now) }
    requires clocks { 1 ≤ length (clocks (words_of learned.now).slaves) }
    ensures { (let w = words_of learned.now in
        little_bytes (width (wide_at w position)) result ≡ little_bytes (width (wide_at w position))
        (start_at (value_of config.now) w + (plan_at (value_of config.now) position).shift_ns)) }
{
    start(config, learned).wrapping_add(u64::from(plan(config, position).shift_ns))
}

// The measured delay at a position.
fn delay_or_0(delays: &[Option<u64>], position: u16) -> u64
    ensures { result ≡ unwrap_or (slice_index_or delays.now position None) 0 }
{
    match delays.get(usize::from(position)) {
        Some(Some(delay_ns)) => *delay_ns,
        _ => 0,
    }
}

// What the SYNC signals of the slave at a position are to do.
fn plan(config: &Config, position: u16) -> SyncPlan
    ensures { result ≡ plan_at (value_of config.now) position }
{
    match config.plans.get(usize::from(position)) {
        Some(plan) => *plan,
        None => SyncPlan {
            shift_ns: 0,
            sync1_ns: None,
        },
    }
}
