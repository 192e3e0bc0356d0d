// Steps that are asked: sent up to three times, judged, and learned from.
ghost use Rattle.std.specs.Prelude.{◌≡◌, ◌+◌, ◌<◌, ◌≤◌, ◌^◌, ◌∷◌, List, Err, IfErr, OnOk, OnErr};
ghost use Rattle.ecat_frame.specs.FrameGrammar.{FrameValue, IsFrame};
ghost use Rattle.ecat_link.specs.RoseBy.{RoseBy};
ghost use Rattle.ecat_link.specs.Serves.{Serves};
ghost use Rattle.master_script.specs.Progress.{drift_one};
ghost use Rattle.master_script.specs.Script.{script};
ghost use Rattle.master_script.specs.Steps.{frame_of, learned};
ghost use Rattle.master_script.specs.declared.step.Refusal.TheVariants.{Lost};
ghost use Rattle.master_script.specs.declared.step.Step.{Step as AnyStep};
ghost use Rattle.master_steps.specs.ConfigRange.{IsConfig, value_of};
ghost use Rattle.master_steps.specs.Known.{words_of};
ghost use Rattle.master_steps.specs.Asking.{AfterStep, Asks, CanAsk, CanLearn, IsCauseAt, IsCounted, IsReceived, call_of, phase_of};

use crate::config::Config;
use crate::exchange::{Notes, ask};
use crate::frames::frame;
use crate::replies::{judge, learn};
use ecat_frame::Frame;
use ecat_link::Link;
use master_script::{Refusal, Step};

/// Takes a step of the script.
pub fn take<L: Link>(
    config: &Config,
    notes: &mut Notes,
    link: &mut L,
    step: Step,
) -> Result<(), Refusal>
    requires config { IsConfig (value_of config.now) }
    requires known { CanAsk (value_of config.now) (words_of notes.old.learned) notes.old.delays.items step }
    requires room { CanLearn (words_of notes.old.learned) step }
    requires few { notes.old.counters.sent + 3 < 2 ^ 32 }
    requires lost { notes.old.counters.lost ≤ notes.old.counters.sent }
    requires drifts { notes.old.counters.drifts ≤ notes.old.counters.sent }
    ensures serves { (rest : List AnyStep) → Serves L.step (script (value_of config.now) (call_of step))
        (Asks (value_of config.now) (phase_of step) notes.old.counters (words_of notes.old.learned) (step ∷ rest)) (L.state link.old)
        (L.state link.new)
        (AfterStep (value_of config.now) (phase_of step) notes.new.counters (words_of notes.new.learned) step rest result) }
    ensures learned { OnOk result ((f : FrameValue)
        × (words_of notes.new.learned ≡ learned notes.new.counters.sent step f (words_of notes.old.learned))) }
    ensures stays { OnErr result (words_of notes.new.learned ≡ words_of notes.old.learned) }
    ensures delays { notes.new.delays.items ≡ notes.old.delays.items }
    ensures sent { (notes.old.counters.sent < notes.new.counters.sent) × (notes.new.counters.sent ≤ notes.old.counters.sent + 3) }
    ensures fewer { notes.new.counters.lost ≤ notes.new.counters.sent }
    ensures drifts { notes.new.counters.drifts ≤ notes.new.counters.sent }
    ensures still { drift_one (phase_of step) ≡ 0 → notes.new.counters.drifts ≡ notes.old.counters.drifts }
    ensures all { drift_one (phase_of step) ≡ 1
        → notes.new.counters.drifts + notes.old.counters.sent ≡ notes.old.counters.drifts + notes.new.counters.sent }
    ensures later { L.lost link.old ≤ L.lost link.new }
    ensures counted { IsCounted notes.old.counters notes.new.counters (L.lost link.old) (L.lost link.new) }
    ensures lost { (q : _) → result ≡ Err (Lost q) → RoseBy 3 (L.lost link.old) (L.lost link.new) }
    ensures caused { IfErr result (IsCauseAt (value_of config.now) (words_of notes.new.learned) step) }
{
    let sent = frame(config, notes, step);
    match ask(config, &mut notes.counters, link, step, &sent) {
        Some(reply) => receive(config, notes, step, &sent, &reply),
        None => Err(Refusal::Lost(step)),
    }
}

// Judges the reply to a step, and learns from it.
fn receive(
    config: &Config,
    notes: &mut Notes,
    step: Step,
    sent: &Frame,
    reply: &Frame,
) -> Result<(), Refusal>
    requires config { IsConfig (value_of config.now) }
    requires sent { sent.now ≡ frame_of (value_of config.now) (words_of notes.old.learned) step }
    requires room { CanLearn (words_of notes.old.learned) step }
    ensures is { IsReceived (value_of config.now) notes.old.counters.sent step sent.now reply.now (words_of notes.old.learned)
        (words_of notes.new.learned) result }
    ensures valid { IsFrame reply.now }
    ensures counters { notes.new.counters ≡ notes.old.counters }
    ensures delays { notes.new.delays.items ≡ notes.old.delays.items }
{
    if let Some(refusal) = judge(config, &notes.learned, step, sent, reply) {
        return Err(refusal);
    }
    learn(&mut notes.learned, step, notes.counters.sent, reply);
    Ok(())
}
