ghost use Rattle.std.specs.Prelude.{◌≡◌, ◌<◌, ◌≤◌, ⊤, Some, None, IfSome};
ghost use Rattle.std.specs.Option.{option_map};
ghost use Rattle.local_clock.specs.Reading.{advanced};
ghost use Rattle.sync_units.specs.ClockCopy.{copy_of};
ghost use Rattle.sync_units.specs.Quiet.{spare_of};
ghost use Rattle.sync_units.specs.SyncRule.{armed_by};
ghost use Rattle.sync_units.specs.Interval.{unit_at, edges_to};
ghost use Rattle.sync_units.specs.KeptEdges.{put_all};

use crate::armed_unit::ArmedUnit;
use crate::edge_list::EdgeList;
use local_clock::LocalClock;
use std::alloc::AllocError;
use std::marker::Model;
use wrap_time::ClockWord;

/// The unit that raises the SYNC signals of a slave (ESC data sheet, Section I, distributed clocks). It is
/// `Copy`, as its clock is.
#[derive(Copy)]
pub struct SyncUnit<W: ClockWord> {
    armed: Option<ArmedUnit<W>>,
}

impl<W: ClockWord> Model for SyncUnit<W> {
    ghost use Rattle.std.specs.Prelude.{Option};
    ghost use Rattle.sync_units.specs.SyncRule.{Armed};

    ghost Value = { Option Armed };

    ghost view = { λ a. a.armed };

    ghost inverse = { λ armed. record { armed = armed } };
}

impl<W: ClockWord> Clone for SyncUnit<W> {
    ghost is_clone = { λ x y. y ≡ x };

    ghost is_infallible = { λ _. ⊤ };

    fn clone(&self) -> Result<Self, AllocError> {
        Ok(*self)
    }
}

impl<W: ClockWord> SyncUnit<W> {
    /// A unit that is not armed.
    pub fn new() -> Self
        ensures { result ≡ None }
    {
        SyncUnit { armed: None }
    }

    /// Arms the unit: edge 0 of SYNC0 is due when the local copy comes to `start`, each further one
    /// `cycle` ns later, and those of SYNC1 the time `sync1`, in ns, after them. A unit that was armed
    /// begins anew. No list is touched: clear it for the edges of this arming alone.
    pub fn arm(&mut self, start: W, cycle: u32, sync1: Option<u32>)
        requires cycle { 1000 ≤ cycle }
        requires sync1 { IfSome sync1 (λ time. (1 ≤ time) × (time < cycle)) }
        ensures { self.new ≡ Some (armed_by W.WIDTH (W.number start) cycle sync1) }
    {
        self.armed = Some(ArmedUnit::new(start, cycle, sync1));
    }

    /// Disarms the unit, which then raises nothing.
    pub fn disarm(&mut self)
        ensures { self.new ≡ None }
    {
        self.armed = None;
    }

    /// The word at which SYNC0 is next due, in ns; `None` where the unit is not armed.
    pub fn next_due(&self) -> Option<W>
        ensures { option_map W.number result ≡ option_map (λ a. a.sync0.value) self.now }
    {
        self.armed.map(|unit| unit.next_due())
    }

    /// So many ticks of the clock surely raise no edge, whatever the clock receives: a tick takes 11 ns at most.
    /// It is 2^64 - 1 where the unit is not armed. `offset` is the system time offset, in ns.
    pub fn spare(&self, clock: &LocalClock<W>, offset: W) -> u64
        ensures { result ≡ spare_of W.WIDTH (copy_of W.WIDTH clock.now (W.number offset)) self.now }
    {
        match self.armed {
            Some(unit) => unit.spare(clock, offset),
            None => u64::MAX,
        }
    }

    /// Advances the clock to `t`, in fs, and raises the edges of the ticks until then into the list.
    /// `offset` is the system time offset, in ns, which makes the local time the local copy.
    pub fn advance(&mut self, clock: &mut LocalClock<W>, offset: W, t: u64, list: &mut EdgeList)
        requires { clock.old.instant ≤ t }
        ensures unit { self.new ≡ unit_at W.WIDTH clock.old (W.number offset) t self.old }
        ensures list { list.new ≡ put_all (edges_to W.WIDTH clock.old (W.number offset) t self.old) list.old }
        ensures clock { clock.new ≡ advanced W.WIDTH t clock.old }
    {
        match &mut self.armed {
            Some(unit) => unit.advance(clock, offset, t, list),
            None => clock.advance(t),
        }
    }

    /// The same, where the clock is left for the caller to advance: raises the edges of its ticks after its
    /// instant and at or before `t`, in fs. Nothing else may happen to the clock until `t`.
    pub fn edges_until(&mut self, clock: &LocalClock<W>, offset: W, t: u64, list: &mut EdgeList)
        requires { clock.now.instant ≤ t }
        ensures unit { self.new ≡ unit_at W.WIDTH clock.now (W.number offset) t self.old }
        ensures list { list.new ≡ put_all (edges_to W.WIDTH clock.now (W.number offset) t self.old) list.old }
    {
        // The copy has room for all changes of the clock's period, so it is made only where an edge may be due.
        if clock.ticks_to(t) > self.spare(clock, offset) {
            let mut clock = *clock;
            self.advance(&mut clock, offset, t, list);
        }
    }
}
