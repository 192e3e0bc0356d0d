// Commissioning: the slaves are found, measured and set.
ghost use Rattle.std.specs.Prelude.{◌≡◌, ◌≤◌, ◌<◌, ◌+◌, ◌*◌, ℕ, List, [], ◌++◌, false, length, map, Err, None, IfErr, OnErr, OnOk};
ghost use Rattle.dc_bounds.specs.Weight.{flag};
ghost use Rattle.dc_delay.specs.Latched.{measures};
ghost use Rattle.ecat_link.specs.RoseBy.{RoseBy};
ghost use Rattle.ecat_link.specs.Serves.{Serves};
ghost use Rattle.master_steps.specs.ConfigRange.{IsConfig, value_of};
ghost use Rattle.master_steps.specs.Known.{words_of};
ghost use Rattle.dc_master.specs.Places.{AfterPart, HasRoom, HasSent, IsFresh, IsReady};
ghost use Rattle.master_steps.specs.Asking.{Asks, IsCounted};
ghost use Rattle.master_script.specs.Causes.{AreRefused, IsCause};
ghost use Rattle.master_script.specs.Config.{slaves as slaves_of};
ghost use Rattle.master_script.specs.Progress.{Arming, Commissioning, arm_steps, first_steps, later_steps};
ghost use Rattle.master_script.specs.Script.{Arm as ArmCall, Commission, script};
ghost use Rattle.master_script.specs.Slaves.{clocks, is_measuring, measuring};
ghost use Rattle.master_script.specs.declared.step.Refusal.{Refusal as Reason};
ghost use Rattle.master_script.specs.declared.step.Refusal.TheVariants.{Lost};
ghost use Rattle.master_script.specs.declared.step.Step.{Step as AnyStep};
ghost use Rattle.master_script.specs.declared.step.Step.TheVariants.{Set, Times};

use dc_topology::Shape;
use ecat_link::Link;
use master_frames::{judge_slaves, measure_delays};
use master_script::{Refusal, Step};
use master_steps::{Config, Notes, take};

/// Commissions the slaves.
pub(crate) fn commission<L: Link>(
    config: &Config,
    notes: &mut Notes,
    link: &mut L,
) -> Result<(), Refusal>
    requires config { IsConfig (value_of config.now) }
    requires fresh { IsFresh (value_of config.now) notes.old.counters (words_of notes.old.learned) notes.old.delays.items }
    ensures serves { Serves L.step (script (value_of config.now) Commission)
        (Asks (value_of config.now) Commissioning notes.old.counters (words_of notes.old.learned) (first_steps (value_of config.now)))
        (L.state link.old) (L.state link.new)
        (AfterPart (value_of config.now) Commissioning notes.new.counters (words_of notes.new.learned) [] notes.new.delays.items result) }
    ensures ready { OnOk result (IsReady (value_of config.now) (words_of notes.new.learned) notes.new.delays.items) }
    ensures sent { HasSent notes.old.counters notes.new.counters 2313 }
    ensures drifts { notes.new.counters.drifts ≡ 0 }
    ensures later { L.lost link.old ≤ L.lost link.new }
    ensures counted { IsCounted notes.old.counters notes.new.counters (L.lost link.old) (L.lost link.new) }
    ensures lost { (q : _) → result ≡ Err (Lost q) → RoseBy 3 (L.lost link.old) (L.lost link.new) }
    ensures caused { IfErr result (IsCause (value_of config.now) Commission notes.new.counters.drifts (words_of notes.new.learned)) }
    ensures judged { (r : Reason) → AreRefused (value_of config.now) (words_of notes.new.learned).slaves r → result ≡ Err r }
{
    if let Err(refusal) = identify_slaves(config, notes, link) {
        return Err(refusal);
    }
    let mut shape = Shape::new();
    match judge_slaves(&notes.learned.slaves, &mut shape) {
        Ok(reference) => notes.learned.reference = Some(reference),
        Err(refusal) => return Err(refusal),
    }
    if let Err(refusal) = measure(config, notes, link) {
        return Err(refusal);
    }
    measure_delays(&config.kinds, &notes.learned, &shape, &mut notes.delays);
    set_clocks(config, notes, link)
}

// Counts the slaves, gives each its station address and reads what it is.
fn identify_slaves<L: Link>(config: &Config, notes: &mut Notes, link: &mut L) -> Result<(), Refusal>
    requires config { IsConfig (value_of config.now) }
    requires room { HasRoom notes.old.counters 771 }
    requires slaves { (words_of notes.old.learned).slaves ≡ [] }
    requires reference { (words_of notes.old.learned).reference ≡ None }
    requires delays { notes.old.delays.items ≡ [] }
    ensures serves { Serves L.step (script (value_of config.now) Commission)
        (Asks (value_of config.now) Commissioning notes.old.counters (words_of notes.old.learned) (first_steps (value_of config.now)))
        (L.state link.old) (L.state link.new)
        (AfterPart (value_of config.now) Commissioning notes.new.counters (words_of notes.new.learned) [] [] result) }
    ensures slaves { OnOk result (length (words_of notes.new.learned).slaves ≡ slaves_of (value_of config.now)) }
    ensures fewer { OnErr result (length (words_of notes.new.learned).slaves < slaves_of (value_of config.now)) }
    ensures reference { (words_of notes.new.learned).reference ≡ None }
    ensures latches { (words_of notes.new.learned).latches ≡ (words_of notes.old.learned).latches }
    ensures delays { notes.new.delays.items ≡ [] }
    ensures sent { HasSent notes.old.counters notes.new.counters 771 }
    ensures drifts { notes.new.counters.drifts ≡ notes.old.counters.drifts }
    ensures later { L.lost link.old ≤ L.lost link.new }
    ensures counted { IsCounted notes.old.counters notes.new.counters (L.lost link.old) (L.lost link.new) }
    ensures lost { (q : _) → result ≡ Err (Lost q) → RoseBy 3 (L.lost link.old) (L.lost link.new) }
    ensures caused { IfErr result (IsCause (value_of config.now) Commission notes.new.counters.drifts (words_of notes.new.learned)) }
{
    if let Err(refusal) = take(config, notes, link, Step::Count) {
        return Err(refusal);
    }
    for position in 0..config.kinds.len() as u16 {
        if let Err(refusal) = take(config, notes, link, Step::Identify(position)) {
            return Err(refusal);
        }
    }
    Ok(())
}

// Latches the receive times of the slaves that measure, and reads them.
fn measure<L: Link>(config: &Config, notes: &mut Notes, link: &mut L) -> Result<(), Refusal>
    requires config { IsConfig (value_of config.now) }
    requires room { HasRoom notes.old.counters 774 }
    requires few { length (words_of notes.old.learned).slaves ≤ 256 }
    requires some { 1 ≤ length (measuring (words_of notes.old.learned).slaves) }
    requires latches { length (words_of notes.old.learned).latches ≡ length (words_of notes.old.learned).slaves }
    requires unread { (p : ℕ) → measures (words_of notes.old.learned).latches p ≡ false }
    requires delays { notes.old.delays.items ≡ [] }
    ensures serves { Serves L.step (script (value_of config.now) Commission)
        (Asks (value_of config.now) Commissioning notes.old.counters (words_of notes.old.learned)
        (later_steps (words_of notes.old.learned).slaves))
        (L.state link.old) (L.state link.new)
        (AfterPart (value_of config.now) Commissioning notes.new.counters (words_of notes.new.learned)
        (map Set (clocks (words_of notes.old.learned).slaves)) [] result) }
    ensures slaves { (words_of notes.new.learned).slaves ≡ (words_of notes.old.learned).slaves }
    ensures reference { (words_of notes.new.learned).reference ≡ (words_of notes.old.learned).reference }
    ensures latches { length (words_of notes.new.learned).latches ≡ length (words_of notes.old.learned).latches }
    ensures read { OnOk result ((p : ℕ)
        → measures (words_of notes.new.learned).latches p ≡ flag (map is_measuring (words_of notes.old.learned).slaves) p) }
    ensures delays { notes.new.delays.items ≡ [] }
    ensures sent { HasSent notes.old.counters notes.new.counters 774 }
    ensures drifts { notes.new.counters.drifts ≡ notes.old.counters.drifts }
    ensures later { L.lost link.old ≤ L.lost link.new }
    ensures counted { IsCounted notes.old.counters notes.new.counters (L.lost link.old) (L.lost link.new) }
    ensures lost { (q : _) → result ≡ Err (Lost q) → RoseBy 3 (L.lost link.old) (L.lost link.new) }
    ensures caused { IfErr result (IsCause (value_of config.now) Commission notes.new.counters.drifts (words_of notes.new.learned)) }
{
    if let Err(refusal) = take(config, notes, link, Step::Rate) {
        return Err(refusal);
    }
    if let Err(refusal) = take(config, notes, link, Step::Latch) {
        return Err(refusal);
    }
    read_times(config, notes, link)
}

// Reads the receive times of each slave that measures.
fn read_times<L: Link>(config: &Config, notes: &mut Notes, link: &mut L) -> Result<(), Refusal>
    requires config { IsConfig (value_of config.now) }
    requires room { HasRoom notes.old.counters 768 }
    requires few { length (words_of notes.old.learned).slaves ≤ 256 }
    requires latches { length (words_of notes.old.learned).latches ≡ length (words_of notes.old.learned).slaves }
    requires unread { (p : ℕ) → measures (words_of notes.old.learned).latches p ≡ false }
    requires delays { notes.old.delays.items ≡ [] }
    ensures serves { (rest : List AnyStep) → Serves L.step (script (value_of config.now) Commission)
        (Asks (value_of config.now) Commissioning notes.old.counters (words_of notes.old.learned)
        (map Times (measuring (words_of notes.old.learned).slaves) ++ rest))
        (L.state link.old) (L.state link.new)
        (AfterPart (value_of config.now) Commissioning notes.new.counters (words_of notes.new.learned) rest [] result) }
    ensures slaves { (words_of notes.new.learned).slaves ≡ (words_of notes.old.learned).slaves }
    ensures reference { (words_of notes.new.learned).reference ≡ (words_of notes.old.learned).reference }
    ensures latches { length (words_of notes.new.learned).latches ≡ length (words_of notes.old.learned).latches }
    ensures read { OnOk result ((p : ℕ)
        → measures (words_of notes.new.learned).latches p ≡ flag (map is_measuring (words_of notes.old.learned).slaves) p) }
    ensures delays { notes.new.delays.items ≡ [] }
    ensures sent { HasSent notes.old.counters notes.new.counters 768 }
    ensures drifts { notes.new.counters.drifts ≡ notes.old.counters.drifts }
    ensures later { L.lost link.old ≤ L.lost link.new }
    ensures counted { IsCounted notes.old.counters notes.new.counters (L.lost link.old) (L.lost link.new) }
    ensures lost { (q : _) → result ≡ Err (Lost q) → RoseBy 3 (L.lost link.old) (L.lost link.new) }
    ensures caused { IfErr result (IsCause (value_of config.now) Commission notes.new.counters.drifts (words_of notes.new.learned)) }
{
    for position in 0..notes.learned.slaves.len() as u16 {
        if notes.learned.is_measuring(position) {
            if let Err(refusal) = take(config, notes, link, Step::Times(position)) {
                return Err(refusal);
            }
        }
    }
    Ok(())
}

// Sets offset and delay of each clock.
fn set_clocks<L: Link>(config: &Config, notes: &mut Notes, link: &mut L) -> Result<(), Refusal>
    requires config { IsConfig (value_of config.now) }
    requires room { HasRoom notes.old.counters 768 }
    requires ready { IsReady (value_of config.now) (words_of notes.old.learned) notes.old.delays.items }
    ensures serves { Serves L.step (script (value_of config.now) Commission)
        (Asks (value_of config.now) Commissioning notes.old.counters (words_of notes.old.learned)
        (map Set (clocks (words_of notes.old.learned).slaves)))
        (L.state link.old) (L.state link.new)
        (AfterPart (value_of config.now) Commissioning notes.new.counters (words_of notes.new.learned) [] notes.new.delays.items result) }
    ensures words { words_of notes.new.learned ≡ words_of notes.old.learned }
    ensures delays { notes.new.delays.items ≡ notes.old.delays.items }
    ensures sent { HasSent notes.old.counters notes.new.counters 768 }
    ensures drifts { notes.new.counters.drifts ≡ notes.old.counters.drifts }
    ensures later { L.lost link.old ≤ L.lost link.new }
    ensures counted { IsCounted notes.old.counters notes.new.counters (L.lost link.old) (L.lost link.new) }
    ensures lost { (q : _) → result ≡ Err (Lost q) → RoseBy 3 (L.lost link.old) (L.lost link.new) }
    ensures caused { IfErr result (IsCause (value_of config.now) Commission notes.new.counters.drifts (words_of notes.new.learned)) }
{
    for position in 0..notes.learned.slaves.len() as u16 {
        if notes.learned.is_clock(position) {
            if let Err(refusal) = take(config, notes, link, Step::Set(position)) {
                return Err(refusal);
            }
        }
    }
    Ok(())
}

/// Arms the SYNC unit of each clock.
pub(crate) fn arm<L: Link>(config: &Config, notes: &mut Notes, link: &mut L) -> Result<(), Refusal>
    requires config { IsConfig (value_of config.now) }
    requires room { HasRoom notes.old.counters 768 }
    requires ready { IsReady (value_of config.now) (words_of notes.old.learned) notes.old.delays.items }
    ensures serves { Serves L.step (script (value_of config.now) ArmCall)
        (Asks (value_of config.now) Arming notes.old.counters (words_of notes.old.learned) (arm_steps (words_of notes.old.learned).slaves))
        (L.state link.old) (L.state link.new)
        (AfterPart (value_of config.now) Arming notes.new.counters (words_of notes.new.learned) [] notes.new.delays.items result) }
    ensures words { words_of notes.new.learned ≡ words_of notes.old.learned }
    ensures delays { notes.new.delays.items ≡ notes.old.delays.items }
    ensures sent { HasSent notes.old.counters notes.new.counters 768 }
    ensures later { L.lost link.old ≤ L.lost link.new }
    ensures counted { IsCounted notes.old.counters notes.new.counters (L.lost link.old) (L.lost link.new) }
    ensures lost { (q : _) → result ≡ Err (Lost q) → RoseBy 3 (L.lost link.old) (L.lost link.new) }
    ensures caused { IfErr result (IsCause (value_of config.now) ArmCall notes.new.counters.drifts (words_of notes.new.learned)) }
{
    for position in 0..notes.learned.slaves.len() as u16 {
        if notes.learned.is_clock(position) {
            if let Err(refusal) = take(config, notes, link, Step::Arm(position)) {
                return Err(refusal);
            }
        }
    }
    Ok(())
}
