ghost use Rattle.std.specs.Prelude.{◌≡◌, ◌⊎◌, ℕ, ◌≤◌, Some, None, OnOk, OnErr, Err};
ghost use Rattle.dc_master.specs.Answered.{IsAnswered};
ghost use Rattle.ecat_link.specs.RoseBy.{RoseBy};
ghost use Rattle.ecat_link.specs.Serves.{Serves};
ghost use Rattle.master_script.specs.Causes.{AreRefused, IsCause};
ghost use Rattle.master_script.specs.Config.{settle_frames};
ghost use Rattle.master_script.specs.Kept.{StandsFor, Ends};
ghost use Rattle.master_script.specs.Script.{Commission, Settle, Arm, Run, script};
ghost use Rattle.master_script.specs.declared.step.MasterError.{MasterError as Error};
ghost use Rattle.master_script.specs.declared.step.Refusal.{Refusal};
ghost use Rattle.master_script.specs.declared.step.Refusal.TheVariants as Reason;
ghost use Rattle.master_script.specs.declared.step.Step.{Step};
ghost use Rattle.master_script.specs.declared.step.Stage.{Stage};
ghost use Rattle.frame_pass.specs.SegmentState.{segment_step, finished};

use dc_master::{Master, MasterError};
use std::marker::Model;
use wire_sim::Wire;

/// One master over one wire.
#[derive(Drop)]
pub struct Bench {
    wire: Wire,
    master: Master,
}

impl Model for Bench {
    ghost use Rattle.dc_bench.specs.BenchState.{BenchState};

    ghost Value = { BenchState };

    ghost view = { λ a. record { wire = a.wire; master = a.master } };
}

impl Bench {
    /// The wire, over which nothing was sent, and the master, which has sent nothing.
    pub fn new(wire: Wire, master: Master) -> Bench
        requires master { master.stage ≡ Stage.Fresh }
        requires wire { wire.sent ≡ 0 }
        ensures { result ≡ record { wire = wire; master = master } }
    {
        Bench { wire, master }
    }

    /// `Master::commission` over the wire.
    pub fn commission(&mut self) -> Result<(), MasterError>
        requires { (self.old.master.stage ≡ Stage.Fresh) ⊎ (self.old.master.stage ≡ Stage.Spent) }
        ensures answered { IsAnswered Stage.Commissioned self.old.master self.new.master result }
        ensures spent { (r : Refusal) → self.old.master.refusal ≡ Some r → (self.new ≡ self.old) × (result ≡ Err (Error.Spent r)) }
        ensures serves { self.old.master.refusal ≡ None → Serves segment_step (script self.old.master.config Commission)
            (StandsFor None self.old.master) (Some self.old.wire) (Some self.new.wire)
            (Ends self.old.master.config Commission self.new.master result) }
        ensures later { self.old.wire.lost ≤ self.new.wire.lost }
        ensures lost { (step : Step) → result ≡ Err (Error.Refused (Reason.Lost step)) → RoseBy 3 self.old.wire.lost self.new.wire.lost }
        ensures caused { (r : Refusal) → result ≡ Err (Error.Refused r)
            → IsCause self.old.master.config Commission self.new.master.drifts self.new.master.words r }
        ensures judged { (r : Refusal) → self.old.master.refusal ≡ None → AreRefused self.old.master.config self.new.master.words.slaves r
            → result ≡ Err (Error.Refused r) }
    {
        self.master.commission(&mut self.wire)
    }

    /// `Master::settle` over the wire.
    pub fn settle(&mut self) -> Result<(), MasterError>
        requires { (self.old.master.stage ≡ Stage.Commissioned) ⊎ (self.old.master.stage ≡ Stage.Spent) }
        ensures answered { IsAnswered Stage.Settled self.old.master self.new.master result }
        ensures spent { (r : Refusal) → self.old.master.refusal ≡ Some r → (self.new ≡ self.old) × (result ≡ Err (Error.Spent r)) }
        ensures serves { self.old.master.refusal ≡ None → Serves segment_step (script self.old.master.config Settle)
            (StandsFor None self.old.master) (Some self.old.wire) (Some self.new.wire)
            (Ends self.old.master.config Settle self.new.master result) }
        ensures later { self.old.wire.lost ≤ self.new.wire.lost }
        ensures lost { (step : Step) → result ≡ Err (Error.Refused (Reason.Lost step))
            → RoseBy (settle_frames self.old.master.config) self.old.wire.lost self.new.wire.lost }
        ensures caused { (r : Refusal) → result ≡ Err (Error.Refused r)
            → IsCause self.old.master.config Settle self.new.master.drifts self.new.master.words r }
    {
        self.master.settle(&mut self.wire)
    }

    /// `Master::arm` over the wire.
    pub fn arm(&mut self) -> Result<(), MasterError>
        requires { (self.old.master.stage ≡ Stage.Settled) ⊎ (self.old.master.stage ≡ Stage.Spent) }
        ensures answered { IsAnswered Stage.Armed self.old.master self.new.master result }
        ensures spent { (r : Refusal) → self.old.master.refusal ≡ Some r → (self.new ≡ self.old) × (result ≡ Err (Error.Spent r)) }
        ensures serves { self.old.master.refusal ≡ None → Serves segment_step (script self.old.master.config Arm)
            (StandsFor None self.old.master) (Some self.old.wire) (Some self.new.wire)
            (Ends self.old.master.config Arm self.new.master result) }
        ensures later { self.old.wire.lost ≤ self.new.wire.lost }
        ensures lost { (step : Step) → result ≡ Err (Error.Refused (Reason.Lost step)) → RoseBy 3 self.old.wire.lost self.new.wire.lost }
        ensures caused { (r : Refusal) → result ≡ Err (Error.Refused r)
            → IsCause self.old.master.config Arm self.new.master.drifts self.new.master.words r }
    {
        self.master.arm(&mut self.wire)
    }

    /// `Master::run` over the wire.
    pub fn run(&mut self, frames: u32) -> Result<(), MasterError>
        requires stage { (self.old.master.stage ≡ Stage.Armed) ⊎ (self.old.master.stage ≡ Stage.Spent) }
        requires frames { frames ≤ 100000 }
        ensures answered { IsAnswered Stage.Ended self.old.master self.new.master result }
        ensures spent { (r : Refusal) → self.old.master.refusal ≡ Some r → (self.new ≡ self.old) × (result ≡ Err (Error.Spent r)) }
        ensures serves { self.old.master.refusal ≡ None → Serves segment_step (script self.old.master.config (Run frames))
            (StandsFor None self.old.master) (Some self.old.wire) (Some self.new.wire)
            (Ends self.old.master.config (Run frames) self.new.master result) }
        ensures later { self.old.wire.lost ≤ self.new.wire.lost }
        ensures lost { (step : Step) → result ≡ Err (Error.Refused (Reason.Lost step)) → ⊥ }
        ensures caused { (r : Refusal) → result ≡ Err (Error.Refused r)
            → IsCause self.old.master.config (Run frames) self.new.master.drifts self.new.master.words r }
    {
        self.master.run(&mut self.wire, frames)
    }

    /// `Wire::finish`: every clock goes on to the true time `t`, in fs.
    pub fn finish(&mut self, t: u64)
        requires { t ≤ 8000000000000000000 }
        ensures { self.new ≡ record self.old { wire = finished t self.old.wire } }
    {
        self.wire.finish(t);
    }

    /// The wire.
    pub fn wire(&self) -> &Wire
        ensures { result.now ≡ self.now.wire }
    {
        &self.wire
    }

    /// The master.
    pub fn master(&self) -> &Master
        ensures { result.now ≡ self.now.master }
    {
        &self.master
    }
}
