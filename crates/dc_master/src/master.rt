ghost use Rattle.std.specs.Prelude.{◌≡◌, ◌↔◌, ◌-◌, ◌≤◌, ◌⊎◌, ℕ, [], Err, IfOk, IsSome, None, OnErr, OnOk, Some, slice_index_or};
ghost use Rattle.ecat_link.specs.RoseBy.{RoseBy};
ghost use Rattle.ecat_link.specs.Serves.{Serves};
ghost use Rattle.master_steps.specs.ConfigRange.{IsConfig, value_of};
ghost use Rattle.dc_master.specs.Answered.{IsAnswered};
ghost use Rattle.dc_master.specs.Made.{IsOfSlaves, IsSpent, Makes, Stands};
ghost use Rattle.master_script.specs.Causes.{AreRefused, IsCause};
ghost use Rattle.master_script.specs.Config.{settle_frames as settle_frames_of};
ghost use Rattle.master_script.specs.Kept.{Ends, StandsFor};
ghost use Rattle.master_script.specs.Script.{Arm, Commission, Run, Settle, script};
ghost use Rattle.master_script.specs.declared.step.MasterError.TheVariants.{Refused, Spent};
ghost use Rattle.master_script.specs.declared.step.Refusal.TheVariants.{Lost};
ghost use Rattle.master_script.specs.declared.step.Stage.TheVariants as stage;

use crate::commission::{arm, commission};
use crate::drift::{run, settle, settle_frames};
use arrayvec::ArrayVec;
use dc_base::NoMemory;
use ecat_link::Link;
use master_frames::Learned;
use master_script::{MasterError, Refusal, Stage};
use master_steps::{Config, Counters, Notes, start};
use std::alloc::Global;
use std::marker::Model;

/// A master of distributed clocks. Its calls come in the order of its stages: [`commission`](Self::commission),
/// [`settle`](Self::settle), [`arm`](Self::arm) and [`run`](Self::run), each with the link that it is given.
/// After a refusal nothing is sent any more, and each call answers `Spent` with that refusal.
/// [`Stage`] draws the calls with their steps.
#[derive(Debug, Drop)]
pub struct Master {
    config: Config,
    stage: Stage,
    refusal: Option<Refusal>,
    notes: Notes,
}

impl Model for Master {
    ghost use Rattle.master_script.specs.Kept.{Kept};

    ghost Value = { Kept };

    ghost use Rattle.dc_master.specs.Inside.{IsKept, kept_of};

    ghost view = { kept_of };

    ghost invariant = { IsKept };
}

impl Master {
    /// A master that has sent nothing. It keeps the memory of its configuration, and takes none.
    pub fn new(_alloc: Global, config: Config) -> Result<Master, NoMemory>
        requires { IsConfig (value_of config) }
        ensures fresh { IfOk result (λ m. StandsFor None m []) }
        ensures config { IfOk result (λ m. m.config ≡ value_of config) }
        ensures stage { IfOk result (λ m. m.stage ≡ stage.Fresh) }
        ensures refusal { IfOk result (λ m. m.refusal ≡ None) }
    {
        let learned = Learned::new(config.kinds.len());
        Ok(Master {
            config,
            stage: Stage::Fresh,
            refusal: None,
            notes: Notes {
                counters: Counters {
                    sent: 0,
                    lost: 0,
                    drifts: 0,
                },
                learned,
                delays: ArrayVec::new(),
            },
        })
    }

    /// What the master has done. It is spent exactly where a call of it was refused.
    pub fn stage(&self) -> Stage
        ensures is { result ≡ self.now.stage }
        ensures spent { (self.now.stage ≡ stage.Spent) ↔ IsSome self.now.refusal }
        ensures stands { Stands self.now }
        ensures fresh { self.now.stage ≡ stage.Fresh → StandsFor None self.now [] }
    {
        self.stage
    }

    /// How many frames were sent.
    pub fn sent(&self) -> u32
        ensures { result ≡ self.now.sent }
    {
        self.notes.counters.sent
    }

    /// How many of them were lost.
    pub fn lost(&self) -> u32
        ensures { result ≡ self.now.lost }
    {
        self.notes.counters.lost
    }

    /// The measured delay of the clock at a position, in ns. None until the last receive times were read, and at
    /// a position that is not that of a clock.
    pub fn delay(&self, position: u16) -> Option<u64>
        ensures { result ≡ slice_index_or self.now.delays position None }
    {
        match self.notes.delays.get(usize::from(position)) {
            Some(delay) => *delay,
            None => None,
        }
    }

    /// The position of the reference clock. None until the slaves were judged and not refused.
    pub fn reference(&self) -> Option<u16>
        ensures { result ≡ self.now.words.reference }
    {
        self.notes.learned.reference
    }

    /// The start time of the SYNC units, before shifts, in ns. None until arming has begun.
    pub fn start(&self) -> Option<u64>
        ensures { result ≡ self.now.start }
    {
        if self.notes.counters.drifts > settle_frames(&self.config) {
            Some(start(&self.config, &self.notes.learned))
        } else {
            None
        }
    }

    /// Counts and identifies the slaves, measures their delays, and sets the clocks. It is refused with `Lost` where the
    /// frame of a step was lost three times; with `Reply` where one came back with a byte changed that may not, and with
    /// `Counter` where one came back with another working counter than is expected; with `Topology`, `NoReference` or
    /// `Unmeasurable` where the last slave told what it is and the slaves list no tree, have no clock, or cannot all be measured.
    pub fn commission<L: Link>(&mut self, link: &mut L) -> Result<(), MasterError>
        requires { (self.old.stage ≡ stage.Fresh) ⊎ (self.old.stage ≡ stage.Spent) }
        ensures answered { IsAnswered stage.Commissioned self.old self.new result }
        ensures spent { (r : _) → self.old.refusal ≡ Some r → (self.new ≡ self.old) × (link.new ≡ link.old) × (result ≡ Err (Spent r)) }
        ensures spent_exactly { (self.old.stage ≡ stage.Spent) ↔ IsSpent result }
        ensures serves { self.old.refusal ≡ None → Serves L.step (script self.old.config Commission)
            (StandsFor None self.old) (L.state link.old) (L.state link.new) (Ends self.old.config Commission self.new result) }
        ensures made { self.old.refusal ≡ None → Makes L.step Commission self.old self.new (L.state link.old) (L.state link.new) result }
        ensures later { L.lost link.old ≤ L.lost link.new }
        ensures counted { RoseBy (self.new.lost - self.old.lost) (L.lost link.old) (L.lost link.new) }
        ensures lost { (step : _) → result ≡ Err (Refused (Lost step)) → RoseBy 3 (L.lost link.old) (L.lost link.new) }
        ensures caused { (r : _) → result ≡ Err (Refused r) → IsCause self.old.config Commission self.new.drifts self.new.words r }
        ensures judged { (r : _) → self.old.refusal ≡ None → AreRefused self.old.config self.new.words.slaves r → result ≡ Err (Refused r) }
        ensures judged_exactly { (r : _) → IsOfSlaves r
            → (result ≡ Err (Refused r)) ↔ ((self.old.stage ≡ stage.Fresh) × AreRefused self.old.config self.new.words.slaves r) }
    {
        if let Some(refusal) = self.refusal {
            return Err(MasterError::Spent(refusal));
        }
        match commission(&self.config, &mut self.notes, link) {
            Ok(()) => {
                self.stage = Stage::Commissioned;
                Ok(())
            }
            Err(refusal) => {
                self.stage = Stage::Spent;
                self.refusal = Some(refusal);
                Err(MasterError::Refused(refusal))
            }
        }
    }

    /// Lets the clocks settle, by `lock_in + loss_run + 1` drift frames. It is refused with `Lost` where all of them were
    /// lost; with `Reply` or `Counter` where one came back with a byte changed that may not, or with another working counter
    /// than the number of clocks.
    pub fn settle<L: Link>(&mut self, link: &mut L) -> Result<(), MasterError>
        requires { (self.old.stage ≡ stage.Commissioned) ⊎ (self.old.stage ≡ stage.Spent) }
        ensures answered { IsAnswered stage.Settled self.old self.new result }
        ensures spent { (r : _) → self.old.refusal ≡ Some r → (self.new ≡ self.old) × (link.new ≡ link.old) × (result ≡ Err (Spent r)) }
        ensures spent_exactly { (self.old.stage ≡ stage.Spent) ↔ IsSpent result }
        ensures serves { self.old.refusal ≡ None → Serves L.step (script self.old.config Settle)
            (StandsFor None self.old) (L.state link.old) (L.state link.new) (Ends self.old.config Settle self.new result) }
        ensures made { self.old.refusal ≡ None → Makes L.step Settle self.old self.new (L.state link.old) (L.state link.new) result }
        ensures later { L.lost link.old ≤ L.lost link.new }
        ensures counted { RoseBy (self.new.lost - self.old.lost) (L.lost link.old) (L.lost link.new) }
        ensures lost { (step : _) → result ≡ Err (Refused (Lost step))
            → RoseBy (settle_frames_of self.old.config) (L.lost link.old) (L.lost link.new) }
        ensures caused { (r : _) → result ≡ Err (Refused r) → IsCause self.old.config Settle self.new.drifts self.new.words r }
    {
        if let Some(refusal) = self.refusal {
            return Err(MasterError::Spent(refusal));
        }
        match settle(&self.config, &mut self.notes, link) {
            Ok(()) => {
                self.stage = Stage::Settled;
                Ok(())
            }
            Err(refusal) => {
                self.stage = Stage::Spent;
                self.refusal = Some(refusal);
                Err(MasterError::Refused(refusal))
            }
        }
    }

    /// Arms the SYNC unit of each clock. It is refused with `Lost` where the frame of a step was lost three times; with
    /// `Reply` or `Counter` where one came back with a byte changed that may not, or with another working counter than is
    /// expected.
    pub fn arm<L: Link>(&mut self, link: &mut L) -> Result<(), MasterError>
        requires { (self.old.stage ≡ stage.Settled) ⊎ (self.old.stage ≡ stage.Spent) }
        ensures answered { IsAnswered stage.Armed self.old self.new result }
        ensures spent { (r : _) → self.old.refusal ≡ Some r → (self.new ≡ self.old) × (link.new ≡ link.old) × (result ≡ Err (Spent r)) }
        ensures spent_exactly { (self.old.stage ≡ stage.Spent) ↔ IsSpent result }
        ensures serves { self.old.refusal ≡ None → Serves L.step (script self.old.config Arm)
            (StandsFor None self.old) (L.state link.old) (L.state link.new) (Ends self.old.config Arm self.new result) }
        ensures made { self.old.refusal ≡ None → Makes L.step Arm self.old self.new (L.state link.old) (L.state link.new) result }
        ensures later { L.lost link.old ≤ L.lost link.new }
        ensures counted { RoseBy (self.new.lost - self.old.lost) (L.lost link.old) (L.lost link.new) }
        ensures lost { (step : _) → result ≡ Err (Refused (Lost step)) → RoseBy 3 (L.lost link.old) (L.lost link.new) }
        ensures caused { (r : _) → result ≡ Err (Refused r) → IsCause self.old.config Arm self.new.drifts self.new.words r }
    {
        if let Some(refusal) = self.refusal {
            return Err(MasterError::Spent(refusal));
        }
        match arm(&self.config, &mut self.notes, link) {
            Ok(()) => {
                self.stage = Stage::Armed;
                Ok(())
            }
            Err(refusal) => {
                self.stage = Stage::Spent;
                self.refusal = Some(refusal);
                Err(MasterError::Refused(refusal))
            }
        }
    }

    /// Keeps the clocks together by so many drift frames, at most 100,000. A lost one is no refusal. It is refused with
    /// `Reply` or `Counter` where one came back with a byte changed that may not, or with another working counter than the
    /// number of clocks.
    pub fn run<L: Link>(&mut self, link: &mut L, frames: u32) -> Result<(), MasterError>
        requires stage { (self.old.stage ≡ stage.Armed) ⊎ (self.old.stage ≡ stage.Spent) }
        requires few { frames ≤ 100000 }
        ensures answered { IsAnswered stage.Ended self.old self.new result }
        ensures spent { (r : _) → self.old.refusal ≡ Some r → (self.new ≡ self.old) × (link.new ≡ link.old) × (result ≡ Err (Spent r)) }
        ensures spent_exactly { (self.old.stage ≡ stage.Spent) ↔ IsSpent result }
        ensures serves { self.old.refusal ≡ None → Serves L.step (script self.old.config (Run frames))
            (StandsFor None self.old) (L.state link.old) (L.state link.new) (Ends self.old.config (Run frames) self.new result) }
        ensures made { self.old.refusal ≡ None → Makes L.step (Run frames) self.old self.new (L.state link.old) (L.state link.new) result }
        ensures later { L.lost link.old ≤ L.lost link.new }
        ensures counted { RoseBy (self.new.lost - self.old.lost) (L.lost link.old) (L.lost link.new) }
        ensures lost { (step : _) → result ≡ Err (Refused (Lost step)) → ⊥ }
        ensures caused { (r : _) → result ≡ Err (Refused r) → IsCause self.old.config (Run frames) self.new.drifts self.new.words r }
    {
        if let Some(refusal) = self.refusal {
            return Err(MasterError::Spent(refusal));
        }
        match run(&self.config, &mut self.notes, link, frames) {
            Ok(()) => {
                self.stage = Stage::Ended;
                Ok(())
            }
            Err(refusal) => {
                self.stage = Stage::Spent;
                self.refusal = Some(refusal);
                Err(MasterError::Refused(refusal))
            }
        }
    }
}
