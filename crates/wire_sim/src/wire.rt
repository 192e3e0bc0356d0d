ghost use Rattle.std.specs.Prelude.{◌≡◌, ◌+◌, ◌^◌, ◌<◌, ◌≤◌, ◌↔◌, true, None, Some, length, slice_get, IfOk, IfSome, IsErr, IsSome, OnErr};
ghost use Rattle.dc_base.specs.Causes.{HasCause};
ghost use Rattle.ecat_frame.specs.FrameGrammar.{IsFrame};
ghost use Rattle.ecat_link.specs.Exchanges.{Follows, back_of};
ghost use Rattle.esc_regs.specs.RegisterAccess.{is_refused};
ghost use Rattle.loss_list.specs.Losses.{loss_at};
ghost use Rattle.frame_pass.specs.LiveRegisters.{read_of};
ghost use Rattle.frame_pass.specs.SegmentState.{phase_of, number_of, numbered, leaving, leaves_at, carried, segment_step, finished, expected_at};
ghost use Rattle.segment_start.specs.Start.{started_segment};
ghost use Rattle.wire_sim.specs.Loses.{LosesNext};
ghost use Rattle.wire_sim.specs.Seen.{edges_kept};

use crate::build::{losses, slaves};
use crate::pass::{advance_all, carry_all, expect_at};
use crate::slave::Slave;
use dc_base::NoMemory;
use ecat_frame::{Command, Frame};
use ecat_link::{Link, Lost};
use esc_regs::Access;
use loss_list::{LossList, Phase};
use segment_file::Segment;
use std::alloc::Global;
use std::marker::Model;
use sync_units::Edge;

/// How many frames are sent; each one after them is lost before it leaves.
const MOST_SENDINGS: u32 = 1_000_000;

/// The longest wait that counts, in ns: 10 ms.
const LONGEST_WAIT_NS: u64 = 10_000_000;

const FS_PER_NS: u64 = 1_000_000;

/// A segment of slaves in memory. It stands between two sendings.
#[derive(Drop)]
pub struct Wire {
    slaves: Vec<Slave>,
    round_trip: u64,
    losses: LossList,
    commission: u32,
    drift: u32,
    sent: u32,
    lost: u64,
    last: u64,
    free: u64,
}

impl Model for Wire {
    ghost use Rattle.frame_pass.specs.SegmentState.{SegmentState};
    ghost use Rattle.wire_sim.specs.InTime.{IsInTime};

    ghost Value = { SegmentState };

    ghost view = { λ a. record {
      slaves = a.slaves.items;
      round_trip = a.round_trip;
      losses = a.losses;
      commission = a.commission;
      drift = a.drift;
      sent = a.sent;
      lost = a.lost;
      last = a.last;
      free = a.free;
    } };

    ghost invariant = { λ a. IsInTime a.round_trip a.commission a.drift a.sent a.last a.free };
}

impl Wire {
    /// The slaves of a segment in frame order, before the first frame. All memory is taken here, so that neither
    /// frames nor edges take any.
    #[tactic(auto, unfolding(segment_start::specs::Start::started_segment))]
    pub fn build(alloc: Global, segment: &Segment) -> Result<Wire, NoMemory>
        ensures { IfOk result (λ wire. wire ≡ started_segment segment.now) }
    {
        Ok(Wire {
            slaves: slaves(alloc, segment)?,
            round_trip: segment.tree().round_trip(),
            losses: losses(alloc, segment)?,
            commission: 0,
            drift: 0,
            sent: 0,
            lost: 0,
            last: 0,
            free: 0,
        })
    }

    /// The number of slaves.
    pub fn slaves(&self) -> usize
        ensures { result ≡ length self.now.slaves }
    {
        self.slaves.len()
    }

    /// The number of frames that were sent, lost ones too.
    pub fn sent(&self) -> u32
        ensures { result ≡ self.now.sent }
    {
        self.sent
    }

    /// The number of frames that were lost, with those that were not sent any more.
    pub fn lost(&self) -> u64
        ensures { result ≡ self.now.lost }
    {
        self.lost
    }

    // Numbers a frame of this phase, which leaves now, and tells how many slaves it reaches, `None` where it
    // is not lost.
    fn leave(&mut self, wait_ns: u64, phase: Phase) -> Option<u16>
        requires { self.old.sent < 1000000 }
        ensures is { self.new ≡ numbered phase (leaving (leaves_at self.old wait_ns) self.old) }
        ensures lost { result ≡ loss_at self.new.losses phase (number_of phase self.new) }
        ensures time { self.new.last + 10000000000000 < 2 ^ 64 }
    {
        let wait = wait_ns.min(LONGEST_WAIT_NS) * FS_PER_NS;
        self.last = (self.last + wait).max(self.free);
        self.free = self.last + self.round_trip;
        self.sent += 1;
        match phase {
            Phase::Commission => {
                self.commission += 1;
                self.losses.after(phase, self.commission)
            }
            Phase::Drift => {
                self.drift += 1;
                self.losses.after(phase, self.drift)
            }
        }
    }

    // The frame that left reaches all slaves and comes back (`None`), or some, and is lost.
    fn carry(&mut self, after: Option<u16>, frame: &mut Frame) -> Result<(), Lost>
        requires { self.old.last + 10000000000000 < 2 ^ 64 }
        ensures state { self.new ≡ (carried after self.old frame.old).0 }
        ensures back { back_of result frame.new ≡ (carried after self.old frame.old).1 }
        ensures lost { IsErr result ↔ IsSome after }
        ensures valid { IsFrame frame.new }
    {
        carry_all(&mut self.slaves, after, frame, self.last);
        frame.in_grammar();
        match after {
            None => Ok(()),
            Some(_) => {
                self.lost = self.lost.saturating_add(1);
                Err(Lost)
            }
        }
    }

    /// Advances every slave's clock to the true time `t`, in fs; a clock that stands later stays. Exchanges may
    /// follow, none of them before `t`.
    #[tactic(auto, unfolding(frame_pass::specs::SegmentState::finished))]
    pub fn finish(&mut self, t: u64)
        requires { t ≤ 8000000000000000000 }
        ensures { self.new ≡ finished t self.old }
    {
        advance_all(&mut self.slaves, t);
        self.free = self.free.max(t);
    }

    /// An event of latch input 0 comes at the slave at this position at the true time `t`, in fs. Call it before
    /// the first frame: an event whose tick is at or before the slave's present time is never stamped.
    #[tactic(auto, unfolding(frame_pass::specs::SegmentState::expected_at))]
    pub fn expect_event(&mut self, position: u16, t: u64)
        requires { position < length self.old.slaves }
        ensures { self.new ≡ expected_at position t self.old }
    {
        expect_at(&mut self.slaves, position, t);
    }

    /// The edges that the slave at this position has raised since it was armed, as far as they are kept, in order
    /// of time, SYNC0 before SYNC1 at one tick. A slave that is no clock has none.
    pub fn edges(&self, position: u16) -> &[Edge]
        requires { position < length self.now.slaves }
        ensures { IfSome (slice_get self.now.slaves position) (λ s. result.now ≡ edges_kept s) }
    {
        self.slaves[usize::from(position)].edges()
    }

    /// Fills `out` with what a frame would read at the slave at this position, from `addr` on, at the slave's
    /// present time. A refused read leaves it.
    pub fn register(&self, position: u16, addr: u16, out: &mut [u8]) -> Access
        requires { position < length self.now.slaves }
        ensures refused { IfSome (slice_get self.now.slaves position)
            (λ s. result ≡ Access.Refused ↔ (is_refused s.registers.kind addr (length out.old) ≡ true)) }
        ensures bytes { IfSome (slice_get self.now.slaves position)
            (λ s. result ≡ Access.Done → read_of s addr (length out.old) ≡ Some out.new) }
        ensures stays { result ≡ Access.Refused → out.new ≡ out.old }
    {
        self.slaves[usize::from(position)].read(addr, out)
    }
}

impl Link for Wire {
    type State = Wire;

    ghost lost = { λ s. s.lost };

    ghost state = { λ s. Some s };

    ghost step = { segment_step };

    /// Sends the frame a wait after the last one, of which at most 10 ms count, and not before that one came back.
    fn exchange(&mut self, wait_ns: u64, frame: &mut Frame) -> Result<(), Lost>
        ensures cause { HasCause self.old.lost self.new.lost result }
        ensures told { Follows segment_step (Some self.old) (Some self.new)
            (record { wait_ns = wait_ns; sent = frame.old; back = back_of result frame.new }) }
        ensures lost { IsErr result ↔ LosesNext self.old frame.old }
        ensures valid { OnErr result (IsFrame frame.new) }
    {
        let phase = phase_of(frame);
        if self.sent >= MOST_SENDINGS {
            self.lost = self.lost.saturating_add(1);
            return Err(Lost);
        }
        let after = self.leave(wait_ns, phase);
        self.carry(after, frame)
    }
}

// A drift frame begins with a FRMW; every other is a commission frame.
fn phase_of(frame: &Frame) -> Phase
    ensures phase { result ≡ phase_of frame.now.datagrams }
    ensures valid { IsFrame frame.now }
{
    frame.in_grammar();
    match frame.datagram(0).head.command {
        Command::Frmw => Phase::Drift,
        _ => Phase::Commission,
    }
}
