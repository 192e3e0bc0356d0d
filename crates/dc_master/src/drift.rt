// Drift frames of settling and running.
ghost use Rattle.std.specs.Prelude.{◌≡◌, ◌≤◌, [], Err, IfErr, OnOk};
ghost use Rattle.ecat_frame.specs.Built.{built};
ghost use Rattle.ecat_frame.specs.FrameGrammar.{IsFrame};
ghost use Rattle.ecat_link.specs.RoseBy.{RoseBy};
ghost use Rattle.ecat_link.specs.Serves.{Serves};
ghost use Rattle.master_steps.specs.ConfigRange.{IsConfig, value_of};
ghost use Rattle.master_steps.specs.Known.{words_of};
ghost use Rattle.dc_master.specs.Places.{AfterRun, AfterSettle, AtRest, HasRoom, HasSent, IsReady, IsTimed};
ghost use Rattle.master_steps.specs.Asking.{IsCounted};
ghost use Rattle.master_script.specs.Causes.{IsCause};
ghost use Rattle.master_script.specs.Config.{settle_frames as settle_frames_of};
ghost use Rattle.master_script.specs.Frames.{drift_datagrams};
ghost use Rattle.master_script.specs.Progress.{Running, Settling};
ghost use Rattle.master_script.specs.Script.{Run, Settle as SettleCall, script};
ghost use Rattle.master_script.specs.Words.{reference_of};
ghost use Rattle.master_script.specs.declared.step.Refusal.TheVariants.{Lost};

use ecat_frame::Frame;
use ecat_link::Link;
use master_frames::{drift_frame, low_in};
use master_script::{Refusal, Step};
use master_steps::{Config, Notes, judge_drift, send};
use wrap_time::extend;

/// How many drift frames settling sends.
pub(crate) fn settle_frames(config: &Config) -> u32
    requires { IsConfig (value_of config.now) }
    ensures { result ≡ settle_frames_of (value_of config.now) }
{
    config.lock_in + u32::from(config.loss_run) + 1
}

/// Lets the clocks settle.
pub(crate) fn settle<L: Link>(
    config: &Config,
    notes: &mut Notes,
    link: &mut L,
) -> Result<(), Refusal>
    requires config { IsConfig (value_of config.now) }
    requires room { HasRoom notes.old.counters 100016 }
    requires first { notes.old.counters.drifts ≡ 0 }
    requires ready { IsReady (value_of config.now) (words_of notes.old.learned) notes.old.delays.items }
    ensures serves { Serves L.step (script (value_of config.now) SettleCall)
        (AtRest (value_of config.now) Settling notes.old.counters (words_of notes.old.learned) [])
        (L.state link.old) (L.state link.new)
        (AfterSettle (value_of config.now) notes.new.counters (words_of notes.new.learned) notes.new.delays.items result) }
    ensures ready { OnOk result (IsReady (value_of config.now) (words_of notes.new.learned) notes.new.delays.items) }
    ensures slaves { (words_of notes.new.learned).slaves ≡ (words_of notes.old.learned).slaves }
    ensures sent { HasSent notes.old.counters notes.new.counters 100016 }
    ensures drifts { OnOk result (notes.new.counters.drifts ≡ settle_frames_of (value_of config.now)) }
    ensures later { L.lost link.old ≤ L.lost link.new }
    ensures counted { IsCounted notes.old.counters notes.new.counters (L.lost link.old) (L.lost link.new) }
    ensures lost { (q : _) → result ≡ Err (Lost q) → RoseBy (settle_frames_of (value_of config.now)) (L.lost link.old) (L.lost link.new) }
    ensures caused { IfErr result (IsCause (value_of config.now) SettleCall notes.new.counters.drifts (words_of notes.new.learned)) }
{
    let sent = drift_frame(notes.learned.reference_or_0());
    let clocks = notes.learned.clocks();
    for _number in 0..settle_frames(config) {
        if let Some(reply) = send(config, &mut notes.counters, link, 1, &sent) {
            if let Err(refusal) = receive_time(config, notes, clocks, &sent, &reply) {
                return Err(refusal);
            }
        }
    }
    if notes.learned.time.is_none() {
        return Err(Refusal::Lost(Step::Settle));
    }
    Ok(())
}

// Judges the reply to a settle frame, and keeps the time of the reference.
fn receive_time(
    config: &Config,
    notes: &mut Notes,
    clocks: u16,
    sent: &Frame,
    reply: &Frame,
) -> Result<(), Refusal>
    requires config { IsConfig (value_of config.now) }
    requires sent { sent.now ≡ built (drift_datagrams (reference_of (words_of notes.old.learned))) }
    ensures is { IsTimed (value_of config.now) notes.old.counters clocks sent.now reply.now (words_of notes.old.learned)
        (words_of notes.new.learned) result }
    ensures valid { IsFrame reply.now }
    ensures counters { notes.new.counters ≡ notes.old.counters }
    ensures delays { notes.new.delays.items ≡ notes.old.delays.items }
{
    if let Some(refusal) = judge_drift(notes.counters.drifts, clocks, sent, reply) {
        return Err(refusal);
    }
    let periods = u64::from(notes.counters.sent.saturating_sub(notes.learned.latched));
    let expected = config.epoch_ns + u64::from(config.frame_ns) * periods;
    notes.learned.time = Some(extend(low_in(reply), expected));
    Ok(())
}

/// Keeps the clocks together for so many frames.
pub(crate) fn run<L: Link>(
    config: &Config,
    notes: &mut Notes,
    link: &mut L,
    frames: u32,
) -> Result<(), Refusal>
    requires config { IsConfig (value_of config.now) }
    requires room { HasRoom notes.old.counters frames }
    requires ready { IsReady (value_of config.now) (words_of notes.old.learned) notes.old.delays.items }
    ensures serves { Serves L.step (script (value_of config.now) (Run frames))
        (AtRest (value_of config.now) Running notes.old.counters (words_of notes.old.learned) [])
        (L.state link.old) (L.state link.new)
        (AfterRun (value_of config.now) notes.new.counters (words_of notes.new.learned) frames notes.new.delays.items result) }
    ensures words { words_of notes.new.learned ≡ words_of notes.old.learned }
    ensures delays { notes.new.delays.items ≡ notes.old.delays.items }
    ensures sent { HasSent notes.old.counters notes.new.counters frames }
    ensures later { L.lost link.old ≤ L.lost link.new }
    ensures counted { IsCounted notes.old.counters notes.new.counters (L.lost link.old) (L.lost link.new) }
    ensures caused { IfErr result (IsCause (value_of config.now) (Run frames) notes.new.counters.drifts (words_of notes.new.learned)) }
    ensures lost { (q : _) → result ≡ Err (Lost q) → ⊥ }
{
    let sent = drift_frame(notes.learned.reference_or_0());
    let clocks = notes.learned.clocks();
    for _number in 0..frames {
        if let Some(reply) = send(config, &mut notes.counters, link, 1, &sent) {
            if let Some(refusal) = judge_drift(notes.counters.drifts, clocks, &sent, &reply) {
                return Err(refusal);
            }
        }
    }
    Ok(())
}
