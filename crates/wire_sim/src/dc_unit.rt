ghost use Rattle.std.specs.Prelude.{◌≡◌, ◌≤◌, ◌<◌, None, Some, IfSome};
ghost use Rattle.std.specs.Option.{option_map};
ghost use Rattle.esc_regs.specs.RegisterFile.{Registers};
ghost use Rattle.latch_unit.specs.Stamp.{expected_after, stamp_by};
ghost use Rattle.local_clock.specs.Reading.{advanced, ticks_to};
ghost use Rattle.sync_units.specs.ClockCopy.{copy_of};
ghost use Rattle.sync_units.specs.KeptEdges.{empty_list};
ghost use Rattle.sync_units.specs.Quiet.{spare_of};
ghost use Rattle.sync_units.specs.SyncRule.{armed_by};
ghost use Rattle.frame_pass.specs.SlaveState.{width};
ghost use Rattle.frame_pass.specs.Advancing.{measuring_at, stamped, timing_at};
ghost use Rattle.frame_pass.specs.LiveRegisters.{system_time, live};
ghost use Rattle.wire_sim.specs.Seen.{measuring};

use crate::registers::{offset, set_word};
use esc_regs::{Delay, Latch0Positive, Latch0Status, Live, RegFile};
use latch_unit::LatchUnit;
use local_clock::LocalClock;
use std::marker::Model;
use sync_units::{EdgeList, SyncUnit};
use wrap_time::{ClockWord, T32, T64};

/// The distributed clocks unit of a slave: its clock, its SYNC signals, and its latch input.
#[derive(Drop)]
pub(crate) struct DcUnit<W: ClockWord> {
    pub(crate) clock: LocalClock<W>,
    pub(crate) sync: SyncUnit<W>,
    pub(crate) edges: EdgeList,
    input: LatchUnit<W>,
    // Where it is false, the input expects no event.
    waits: bool,
    // The next so many ticks of the clock raise no edge, as long as the offset, in ns, is `spare_offset`.
    spare: u64,
    spare_offset: W,
}

impl<W: ClockWord> Model for DcUnit<W> {
    ghost use Rattle.frame_pass.specs.SlaveState.{Timing};

    ghost Value = { Timing };

    ghost view = { λ a. record { clock = a.clock; unit = a.sync; edges = a.edges; event = a.input } };

    ghost use Rattle.std.specs.Prelude.{◌≡◌, ◌≤◌, false, None};
    ghost use Rattle.sync_units.specs.ClockCopy.{copy_of};
    ghost use Rattle.sync_units.specs.Quiet.{spare_of};

    ghost invariant = { λ a. (a.spare ≤ spare_of W.WIDTH (copy_of W.WIDTH a.clock (W.number a.spare_offset)) a.sync)
        × (a.waits ≡ false → a.input ≡ None) };
}

/// The unit of a slave by the width of its clock.
#[derive(Drop)]
pub(crate) enum AnyUnit {
    Clockless,
    Narrow(DcUnit<T32>),
    Wide(DcUnit<T64>),
}

impl<W: ClockWord> DcUnit<W> {
    /// A unit at true time 0, with nothing to correct, not armed, that expects no event.
    pub(crate) fn new(clock: LocalClock<W>, edges: EdgeList) -> Self
        ensures { result ≡ record { clock = clock; unit = None; edges = edges; event = None } }
    {
        DcUnit {
            clock,
            sync: SyncUnit::new(),
            edges,
            input: LatchUnit::new(),
            waits: false,
            spare: 0,
            spare_offset: W::cut(0),
        }
    }

    /// Arms the SYNC unit as `SyncUnit::arm` does, and drops the edges of an earlier arming.
    pub(crate) fn arm(&mut self, start: W, cycle: u32, sync1: Option<u32>)
        requires cycle { 1000 ≤ cycle }
        requires sync1 { IfSome sync1 (λ time. (1 ≤ time) × (time < cycle)) }
        ensures { self.new ≡ record self.old {
          unit = Some (armed_by W.WIDTH (W.number start) cycle sync1);
          edges = empty_list self.old.edges.keep;
        } }
    {
        self.sync.arm(start, cycle, sync1);
        self.edges.clear();
        self.spare = 0;
    }

    /// Disarms the SYNC unit, and leaves the edges.
    pub(crate) fn disarm(&mut self)
        ensures { self.new ≡ record self.old { unit = None } }
    {
        self.sync.disarm();
        self.spare = 0;
    }

    /// Expects an event of latch input 0 at the true time `t`, in fs.
    pub(crate) fn expect(&mut self, t: u64)
        ensures { self.new ≡ record self.old { event = Some t } }
    {
        self.input.expect(t);
        self.waits = true;
    }

    /// Lets time go on to `t`, in fs: edges are raised, the expected event is stamped, and the clock counts.
    /// A `t` before the clock's own time leaves all as it is.
    #[tactic(auto, unfolding(frame_pass::specs::Advancing::measuring_at, frame_pass::specs::Advancing::ticked_to))]
    pub(crate) fn advance(&mut self, registers: &mut RegFile, t: u64)
        requires { W.WIDTH ≡ width registers.old.kind }
        ensures is { measuring registers.new self.new ≡ measuring_at t (measuring registers.old self.old) }
        ensures kind { registers.new.kind ≡ registers.old.kind }
    {
        if t < self.clock.now() {
            return;
        }
        let offset = offset::<W>(registers);
        self.sample(registers, offset, t);
        self.count(offset, t);
    }

    // The same of the clock and its edges alone. Most visits raise no edge: their ticks are within those that are
    // known to raise none.
    fn count(&mut self, offset: W, t: u64)
        requires { self.old.clock.instant ≤ t }
        ensures { self.new ≡ record (timing_at W.WIDTH (W.number offset) t self.old) { event = self.old.event } }
    {
        let ticks = self.clock.ticks_to(t);
        if ticks <= self.spare && offset.value() == self.spare_offset.value() {
            self.pass(ticks, t);
        } else {
            self.raise(offset, t);
        }
    }

    // The clock counts so many ticks, with no look for edges; so many fewer are then known to raise none.
    fn pass(&mut self, ticks: u64, t: u64)
        requires later { self.old.clock.instant ≤ t }
        requires number { ticks ≡ ticks_to self.old.clock t }
        ensures { self.new ≡ record self.old { clock = advanced W.WIDTH t self.old.clock } }
    {
        self.clock.advance_by(ticks, t);
        self.spare = self.spare.saturating_sub(ticks);
    }

    // The clock counts, raising edges on its way; then it finds how many ticks after them surely raise none.
    #[cold]
    #[inline(never)]
    fn raise(&mut self, offset: W, t: u64)
        requires { self.old.clock.instant ≤ t }
        ensures { self.new ≡ record (timing_at W.WIDTH (W.number offset) t self.old) { event = self.old.event } }
    {
        self.sync
            .advance(&mut self.clock, offset, t, &mut self.edges);
        self.spare = self.sync.spare(&self.clock, offset);
        self.spare_offset = offset;
    }

    // Stamps the event that is expected, where the ticks up to `t` take it.
    #[inline(always)]
    fn sample(&mut self, registers: &mut RegFile, offset: W, t: u64)
        requires width { W.WIDTH ≡ width registers.old.kind }
        requires later { self.old.clock.instant ≤ t }
        ensures stamp { registers.new ≡ stamped (stamp_by W.WIDTH self.old.clock (W.number offset) t self.old.event) registers.old }
        ensures expected { self.new ≡ record self.old { event = expected_after self.old.clock t self.old.event } }
    {
        if self.waits {
            self.sample_input(registers, offset, t);
        }
    }

    // The same where an event may be expected.
    #[inline(never)]
    fn sample_input(&mut self, registers: &mut RegFile, offset: W, t: u64)
        requires width { W.WIDTH ≡ width registers.old.kind }
        requires later { self.old.clock.instant ≤ t }
        ensures stamp { registers.new ≡ stamped (stamp_by W.WIDTH self.old.clock (W.number offset) t self.old.event) registers.old }
        ensures expected { self.new ≡ record self.old { event = expected_after self.old.clock t self.old.event } }
    {
        let stamp = self.input.sample(&self.clock, offset, t);
        set_stamp(registers, stamp);
    }

    /// The system time: the local copy less the delay, in ns.
    #[tactic(auto, unfolding(frame_pass::specs::LiveRegisters::system_time))]
    pub(crate) fn system_time(&self, registers: &RegFile) -> W
        requires { W.WIDTH ≡ width registers.now.kind }
        ensures { W.number result ≡ system_time (measuring registers.now self.now) }
    {
        let copy = self.clock.reading().add(offset::<W>(registers).value());
        copy.sub(u64::from(registers.get(Delay::new())))
    }

    /// What the slave shows in place of what its registers hold.
    pub(crate) fn live(&self, registers: &RegFile) -> Live
        requires { W.WIDTH ≡ width registers.now.kind }
        ensures { result ≡ live registers.now (Some self.now) }
    {
        Live {
            system_time: Some(self.system_time(registers).value()),
            next_due: self.sync.next_due().map(|due| due.value()),
        }
    }
}

// Puts a stamp into the registers of the latch input.
fn set_stamp<W: ClockWord>(registers: &mut RegFile, stamp: Option<W>)
    requires { W.WIDTH ≡ width registers.old.kind }
    ensures is { registers.new ≡ stamped (option_map W.number stamp) registers.old }
{
    if let Some(stamp) = stamp {
        registers.set(Latch0Status::new(), 1);
        set_word(registers, Latch0Positive::new(), stamp);
    }
}
