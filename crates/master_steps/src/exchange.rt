// Frames that are sent, counted, and sent again.
ghost use Rattle.std.specs.Prelude.{◌≡◌, ◌+◌, ◌<◌, ◌≤◌, ◌^◌, ◌∷◌, ℕ, List, None};
ghost use Rattle.ecat_link.specs.Exchanges.{Follows};
ghost use Rattle.ecat_link.specs.RoseBy.{RoseBy};
ghost use Rattle.ecat_link.specs.Serves.{Serves};
ghost use Rattle.master_script.specs.Progress.{drift_one};
ghost use Rattle.master_script.specs.Script.{script};
ghost use Rattle.master_script.specs.Steps.{frame_of};
ghost use Rattle.master_script.specs.Words.{Words};
ghost use Rattle.master_script.specs.declared.step.Step.{Step as AnyStep};
ghost use Rattle.master_steps.specs.ConfigRange.{value_of};
ghost use Rattle.master_steps.specs.Asking.{AfterTries, Asks, IsCounted, call_of, one_sent, phase_of};

use crate::config::Config;
use dc_delay::DelayList;
use ecat_frame::Frame;
use ecat_link::{Link, Lost};
use master_frames::Learned;
use master_script::Step;

/// How many frames were sent, how many of these were lost, and how many were drift frames.
#[derive(Clone, Copy, Debug)]
pub struct Counters {
    pub sent: u32,
    pub lost: u32,
    pub drifts: u32,
}

/// What a master notes as it goes: its counters, what it has learned, and the delays, once they are
/// measured.
#[derive(Debug, Drop)]
pub struct Notes {
    pub counters: Counters,
    pub learned: Learned,
    pub delays: DelayList,
}

/// Sends a frame, one period after the one before, as so many drift frames. None where it is lost.
pub fn send<L: Link>(
    config: &Config,
    counters: &mut Counters,
    link: &mut L,
    drifts: u32,
    sent: &Frame,
) -> Option<Frame>
    requires few { counters.old.sent + 1 < 2 ^ 32 }
    requires lost { counters.old.lost ≤ counters.old.sent }
    requires drifts { (drifts ≤ 1) × (counters.old.drifts ≤ counters.old.sent) }
    ensures told { Follows L.step (L.state link.old) (L.state link.new)
        (record { wait_ns = (value_of config.now).frame_ns; sent = sent.now; back = result }) }
    ensures counters { counters.new ≡ one_sent drifts result counters.old }
    ensures later { L.lost link.old ≤ L.lost link.new }
    ensures counted { IsCounted counters.old counters.new (L.lost link.old) (L.lost link.new) }
    ensures lost { result ≡ None → RoseBy 1 (L.lost link.old) (L.lost link.new) }
{
    let mut frame = *sent;
    counters.sent += 1;
    counters.drifts += drifts;
    match link.exchange(u64::from(config.frame_ns), &mut frame) {
        Ok(()) => Some(frame),
        Err(Lost) => {
            counters.lost += 1;
            None
        }
    }
}

/// Sends the frame of a step, up to three times. None where all three are lost.
pub(crate) fn ask<L: Link>(
    config: &Config,
    counters: &mut Counters,
    link: &mut L,
    step: Step,
    sent: &Frame,
) -> Option<Frame>
    requires few { counters.old.sent + 3 < 2 ^ 32 }
    requires lost { counters.old.lost ≤ counters.old.sent }
    requires drifts { counters.old.drifts ≤ counters.old.sent }
    ensures serves { (w : Words) (rest : List AnyStep) → sent.now ≡ frame_of (value_of config.now) w step
        → Serves L.step (script (value_of config.now) (call_of step))
        (Asks (value_of config.now) (phase_of step) counters.old w (step ∷ rest))
        (L.state link.old) (L.state link.new) (AfterTries (value_of config.now) (phase_of step) counters.new w step rest sent.now result) }
    ensures sent { (counters.old.sent < counters.new.sent) × (counters.new.sent ≤ counters.old.sent + 3) }
    ensures fewer { counters.new.lost ≤ counters.new.sent }
    ensures drifts { counters.new.drifts ≤ counters.new.sent }
    ensures still { drift_one (phase_of step) ≡ 0 → counters.new.drifts ≡ counters.old.drifts }
    ensures all { drift_one (phase_of step) ≡ 1 → counters.new.drifts + counters.old.sent ≡ counters.old.drifts + counters.new.sent }
    ensures later { L.lost link.old ≤ L.lost link.new }
    ensures counted { IsCounted counters.old counters.new (L.lost link.old) (L.lost link.new) }
    ensures lost { result ≡ None → RoseBy 3 (L.lost link.old) (L.lost link.new) }
{
    for _try in 0..3u8 {
        if let Some(reply) = send(config, counters, link, drift_frames(step), sent) {
            return Some(reply);
        }
    }
    None
}

// How many drift frames the frame of a step is.
fn drift_frames(step: Step) -> u32
    ensures is { result ≡ drift_one (phase_of step) }
    ensures few { result ≤ 1 }
{
    match step {
        Step::Arm(_) => 1,
        _ => 0,
    }
}
