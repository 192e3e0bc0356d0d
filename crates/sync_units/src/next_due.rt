ghost use Rattle.std.specs.Prelude.{◌≡◌, ℕ, Some, ⊤};
ghost use Rattle.osc_clock.specs.Ticks.{IsRunning};
ghost use Rattle.local_clock.specs.FirstReaching.{tick_after, within_time};
ghost use Rattle.sync_units.specs.ClockCopy.{copy_of, copy_after};
ghost use Rattle.sync_units.specs.Edges.{IsNextReached};
ghost use Rattle.sync_units.specs.SyncRule.{first_due, due_after_tick, raised};
ghost use Rattle.sync_units.specs.KeptEdges.{put_all};
ghost use Rattle.sync_units.specs.Quiet.{spare_to};
ghost use Rattle.sync_units.specs.NextEdge.{IsNextEdge, IsNextUnlessNow};

use crate::edge::Signal;
use crate::edge_list::EdgeList;
use local_clock::LocalClock;
use std::alloc::AllocError;
use std::marker::Model;
use wrap_time::ClockWord;

/// What a signal is waiting for: the word at which its next edge is due, and the index of that edge.
#[derive(Copy)]
pub(crate) struct NextDue<W: ClockWord> {
    value: W,
    index: u64,
}

impl<W: ClockWord> Model for NextDue<W> {
    ghost use Rattle.sync_units.specs.SyncRule.{Due};

    ghost Value = { Due };

    ghost use Rattle.std.specs.Prelude.{◌≡◌, ◌≤◌, ◌^◌};

    ghost view = { λ a. record { value = W.number a.value; index = a.index } };

    ghost invariant = { λ a. (a.index ≤ 2 ^ 32) × (W.word (W.number a.value) ≡ a.value) };

    ghost inverse = { λ d. record { value = W.word d.value; index = d.index } };

    ghost use Rattle.std.proofs.Common.{ap};

    ghost inverse_ok = { λ a h. ap (λ v. record a { value = v }) h.1 };
}

impl<W: ClockWord> Clone for NextDue<W> {
    ghost is_clone = { λ x y. y ≡ x };

    ghost is_infallible = { λ _. ⊤ };

    fn clone(&self) -> Result<Self, AllocError> {
        Ok(*self)
    }
}

impl<W: ClockWord> NextDue<W> {
    /// Edge 0, due at this word.
    pub(crate) fn first(value: W) -> Self
        ensures { result ≡ first_due (W.number value) }
    {
        NextDue { value, index: 0 }
    }

    /// The word at which the next edge is due.
    pub(crate) fn value(&self) -> W
        ensures { W.number result ≡ self.now.value }
    {
        self.value
    }

    /// The instant of the next edge, in fs, where nothing else happens to the clock; `None` where none of the next
    /// so many ticks has it.
    pub(crate) fn next_edge(&self, clock: &LocalClock<W>, offset: W, ticks: u64) -> Option<u64>
        ensures at { IsNextEdge W.WIDTH ticks clock.now (W.number offset) (Some self.now) result }
    {
        // A wire visits a clock far more often than an edge is due, and looking for one is dear.
        if ticks <= self.spare(clock, offset) {
            None
        } else {
            self.first_reached(clock, offset)
        }
    }

    // The instant of the next tick at which the local copy has reached the due value, in fs; `None` where that is
    // above 2^64 - 1.
    fn first_reached(&self, clock: &LocalClock<W>, offset: W) -> Option<u64>
        ensures at { let copy = copy_after W.WIDTH clock.now (W.number offset) in
            (k : ℕ) × IsNextReached W.WIDTH copy self.now.value 0 k × (result ≡ within_time (tick_after clock.now k)) }
        ensures running { IsRunning clock.now.osc }
    {
        // the local time at which the local copy reaches the due value
        let target = W::cut(self.value.value().wrapping_sub(offset.value()));
        clock.first_reaching(target)
    }

    /// So many ticks of the clock surely raise no edge, whatever the clock receives: a tick takes 11 ns at most.
    pub(crate) fn spare(&self, clock: &LocalClock<W>, offset: W) -> u64
        ensures { result ≡ spare_to W.WIDTH (copy_of W.WIDTH clock.now (W.number offset)) self.now.value }
    {
        let ahead = clock.reading().add(offset.value()).diff(self.value);
        if ahead < 0 {
            (ahead.unsigned_abs() - 1) / 11
        } else {
            0
        }
    }

    /// Takes the tick at which the clock stands: raises the edge if the local copy has reached the due
    /// value, and answers the instant of the edge that then is the next one. `next` is what to answer
    /// if no edge is raised.
    pub(crate) fn take_tick(
        &mut self,
        signal: Signal,
        cycle: u32,
        clock: &LocalClock<W>,
        offset: W,
        ticks: u64,
        next: Option<u64>,
        list: &mut EdgeList,
    ) -> Option<u64>
        ensures due { self.new ≡ due_after_tick W.WIDTH cycle (copy_of W.WIDTH clock.now (W.number offset)) self.old }
        ensures list { let copy = copy_of W.WIDTH clock.now (W.number offset) in
            list.new ≡ put_all (raised W.WIDTH signal copy clock.now.instant self.old) list.old }
        ensures next { IsNextUnlessNow W.WIDTH ticks clock.now (W.number offset) (Some self.old) next
            → IsNextEdge W.WIDTH ticks clock.now (W.number offset) (Some self.new) result }
    {
        let copy = clock.reading().add(offset.value());
        if copy.diff(self.value) < 0 {
            return next;
        }
        list.put(signal, self.index, clock.now());
        self.value = self.value.add(u64::from(cycle));
        self.index = (self.index + 1).min(1 << 32);
        self.next_edge(clock, offset, ticks)
    }
}
