ghost use Rattle.std.specs.Prelude.{◌≡◌, ◌≤◌, ◌+◌, ⊤, Some, MatchOption};
ghost use Rattle.local_clock.specs.Reading.{advanced, ticks_to};
ghost use Rattle.local_clock.specs.FirstReaching.{tick_after};
ghost use Rattle.sync_units.specs.ClockCopy.{copy_of, copy_after};
ghost use Rattle.sync_units.specs.SyncRule.{armed_by, due_of, after_tick, tick_edges, after_ticks, ticks_edges};
ghost use Rattle.sync_units.specs.KeptEdges.{put_all};
ghost use Rattle.sync_units.specs.Quiet.{spare_of};
ghost use Rattle.sync_units.specs.NextEdge.{next_of, IsNextEdge, IsNextUnlessNow, AreNextEdges, AreFrom, IsFirst};

use crate::edge::Signal;
use crate::edge_list::EdgeList;
use crate::next_due::NextDue;
use local_clock::LocalClock;
use std::alloc::AllocError;
use std::marker::Model;
use wrap_time::ClockWord;

// When each signal has its next edge, in fs.
#[derive(Clone, Copy)]
struct NextEdges {
    sync0: Option<u64>,
    sync1: Option<u64>,
}

impl NextEdges {
    // The earlier of them, if it is at or before t.
    fn first_until(self, t: u64) -> Option<u64>
        ensures { MatchOption result (AreFrom (t + 1) self) (λ n. IsFirst t n self) }
    {
        let first = match (self.sync0, self.sync1) {
            (Some(a), Some(b)) => a.min(b),
            (Some(only), None) | (None, Some(only)) => only,
            (None, None) => return None,
        };
        if first <= t { Some(first) } else { None }
    }
}

/// A unit that is armed.
#[derive(Copy)]
pub(crate) struct ArmedUnit<W: ClockWord> {
    cycle: u32,
    sync0: NextDue<W>,
    sync1: Option<NextDue<W>>,
}

impl<W: ClockWord> Model for ArmedUnit<W> {
    ghost use Rattle.sync_units.specs.SyncRule.{Armed};

    ghost Value = { Armed };

    ghost view = { λ a. record { cycle = a.cycle; sync0 = a.sync0; sync1 = a.sync1 } };

    ghost inverse = { λ a. record { cycle = a.cycle; sync0 = a.sync0; sync1 = a.sync1 } };
}

impl<W: ClockWord> Clone for ArmedUnit<W> {
    ghost is_clone = { λ x y. y ≡ x };

    ghost is_infallible = { λ _. ⊤ };

    fn clone(&self) -> Result<Self, AllocError> {
        Ok(*self)
    }
}

impl<W: ClockWord> ArmedUnit<W> {
    /// A unit that begins with edge 0 of each signal.
    pub(crate) fn new(start: W, cycle: u32, sync1: Option<u32>) -> Self
        ensures { result ≡ armed_by W.WIDTH (W.number start) cycle sync1 }
    {
        ArmedUnit {
            cycle,
            sync0: NextDue::first(start),
            sync1: sync1.map(|time| NextDue::first(start.add(u64::from(time)))),
        }
    }

    /// The word at which SYNC0 is next due.
    pub(crate) fn next_due(&self) -> W
        ensures { W.number result ≡ self.now.sync0.value }
    {
        self.sync0.value()
    }

    /// Advances the clock to `t`, and raises the edges of the ticks until then into the list.
    pub(crate) fn advance(
        &mut self,
        clock: &mut LocalClock<W>,
        offset: W,
        t: u64,
        list: &mut EdgeList,
    )
        requires { clock.old.instant ≤ t }
        ensures unit { self.new
            ≡ after_ticks W.WIDTH (copy_after W.WIDTH clock.old (W.number offset)) (ticks_to clock.old t) self.old }
        ensures list { let copy = copy_after W.WIDTH clock.old (W.number offset) in
            list.new ≡ put_all (ticks_edges W.WIDTH copy (tick_after clock.old) (ticks_to clock.old t) self.old) list.old }
        ensures clock { clock.new ≡ advanced W.WIDTH t clock.old }
    {
        // From edge to edge, and then to `t`.
        let mut ticks = clock.ticks_to(t);
        let mut next = self.next_edges(clock, offset, ticks);
        while let Some(tick) = next.first_until(t) {
            clock.advance(tick);
            ticks = clock.ticks_to(t);
            next = self.take_tick(clock, offset, ticks, next, list);
        }
        clock.advance_by(ticks, t);
    }

    /// So many ticks of the clock surely raise no edge of either signal, whatever the clock receives.
    pub(crate) fn spare(&self, clock: &LocalClock<W>, offset: W) -> u64
        ensures { result ≡ spare_of W.WIDTH (copy_of W.WIDTH clock.now (W.number offset)) (Some self.now) }
    {
        let spare = self.sync0.spare(clock, offset);
        match self.sync1 {
            Some(due) => spare.min(due.spare(clock, offset)),
            None => spare,
        }
    }

    // When each signal has its next edge, as `NextDue::next_edge` answers it.
    fn next_edges(&self, clock: &LocalClock<W>, offset: W, ticks: u64) -> NextEdges
        ensures { AreNextEdges W.WIDTH ticks clock.now (W.number offset) self.now result }
    {
        NextEdges {
            sync0: self.sync0.next_edge(clock, offset, ticks),
            sync1: self
                .sync1
                .and_then(|due| due.next_edge(clock, offset, ticks)),
        }
    }

    // Takes the tick at which the clock stands, as `NextDue::take_tick` does, for each signal.
    fn take_tick(
        &mut self,
        clock: &LocalClock<W>,
        offset: W,
        ticks: u64,
        next: NextEdges,
        list: &mut EdgeList,
    ) -> NextEdges
        ensures unit { self.new ≡ after_tick W.WIDTH (copy_of W.WIDTH clock.now (W.number offset)) self.old }
        ensures list { let copy = copy_of W.WIDTH clock.now (W.number offset) in
            list.new ≡ put_all (tick_edges W.WIDTH copy clock.now.instant self.old) list.old }
        ensures next { (signal : Signal)
            → IsNextUnlessNow W.WIDTH ticks clock.now (W.number offset) (due_of signal self.old) (next_of signal next)
            → IsNextEdge W.WIDTH ticks clock.now (W.number offset) (due_of signal self.new) (next_of signal result) }
    {
        let cycle = self.cycle;
        let sync0 = self.sync0.take_tick(
            Signal::Sync0,
            cycle,
            clock,
            offset,
            ticks,
            next.sync0,
            list,
        );
        let sync1 = match &mut self.sync1 {
            Some(due) => due.take_tick(
                Signal::Sync1,
                cycle,
                clock,
                offset,
                ticks,
                next.sync1,
                list,
            ),
            None => next.sync1,
        };
        NextEdges { sync0, sync1 }
    }
}
