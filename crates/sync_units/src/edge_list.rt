ghost use Rattle.std.specs.Prelude.{◌≡◌, ◌≤◌, IfOk};
ghost use Rattle.sync_units.specs.KeptEdges.{empty_list, put};

use crate::edge::{Edge, Signal};
use dc_base::NoMemory;
use std::alloc::Global;
use std::marker::Model;

/// The first edges of each signal that were raised into it since it was made or cleared, in the order in
/// which they were raised.
#[derive(Debug, Drop)]
pub struct EdgeList {
    edges: Vec<Edge>,
    keep: u32,
    room0: u32,
    room1: u32,
}

impl Model for EdgeList {
    ghost use Rattle.std.specs.Prelude.{◌+◌, ◌*◌, ◌≤◌, vec_len, vec_capacity};
    ghost use Rattle.sync_units.specs.KeptEdges.{Kept};

    ghost Value = { Kept };

    ghost view = { λ a. record { keep = a.keep; room0 = a.room0; room1 = a.room1; edges = a.edges.items } };

    // The memory for all that there is room for is held from the start, so no edge is lost for it.
    ghost invariant = { λ a. (vec_len a.edges + a.room0 + a.room1 ≤ 2 * a.keep) × (2 * a.keep ≤ vec_capacity a.edges)
        × (a.room0 ≤ a.keep) × (a.room1 ≤ a.keep) × (a.keep ≤ 100000) };
}

impl EdgeList {
    /// A list that keeps the first `keep` edges of each signal. All memory is taken here, so that
    /// edges are raised without any.
    pub fn new(alloc: Global, keep: u32) -> Result<EdgeList, NoMemory>
        requires { keep ≤ 100000 }
        ensures { IfOk result (λ l. l ≡ empty_list keep) }
    {
        let Ok(edges) = Vec::with_capacity(alloc, 2 * keep as usize) else {
            return Err(NoMemory);
        };
        Ok(EdgeList {
            edges,
            keep,
            room0: keep,
            room1: keep,
        })
    }

    /// The edges that are kept, in order of time for those of one call, SYNC0 before SYNC1 at one tick.
    pub fn edges(&self) -> &[Edge]
        ensures { result.now ≡ self.now.edges }
    {
        &self.edges
    }

    /// Drops the edges. The list then keeps as many again.
    pub fn clear(&mut self)
        ensures { self.new ≡ empty_list self.old.keep }
    {
        self.edges.clear();
        self.room0 = self.keep;
        self.room1 = self.keep;
    }

    /// Takes an edge that was raised, and keeps it if there is room.
    pub(crate) fn put(&mut self, signal: Signal, index: u64, time_fs: u64)
        ensures { self.new ≡ put (record { signal = signal; index = index; time_fs = time_fs }) self.old }
    {
        let room = match signal {
            Signal::Sync0 => self.room0,
            Signal::Sync1 => self.room1,
        };
        if room == 0 {
            return;
        }
        match signal {
            Signal::Sync0 => self.room0 = room - 1,
            Signal::Sync1 => self.room1 = room - 1,
        }
        if let Ok(index) = u32::try_from(index) {
            self.edges
                .push(Edge {
                    signal,
                    index,
                    time_fs,
                })
                .unwrap();
        }
    }
}
