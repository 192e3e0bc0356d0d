ghost use Rattle.std.specs.Prelude.{◌≡◌, ◌⊎◌, ◌<◌, ◌≤◌, length, IfOk, IfErr, IsOk, Ok, Err, slice_index};
ghost use Rattle.cable_tree.specs.FrameOrder.{order};
ghost use Rattle.cable_tree.specs.PathSums.{span, arrive, port_time, round_trip};
ghost use Rattle.cable_tree.specs.Positions.{position_of};
ghost use Rattle.cable_tree.specs.Refusals.{IsRefused, MayAnswer};
ghost use Rattle.cable_tree.specs.Row.{above};
ghost use Rattle.cable_tree.specs.Segment.{IsSegment, IsTree};
ghost use Rattle.cable_tree.specs.declared.error.TreeError.{TreeError};

use crate::error::TreeError;
use crate::port::{Above, Port};
use crate::row::TreeRow;
use crate::times::{arrivals, spans};
use crate::walk::{frame_order, places};
use crate::wiring::Wiring;
use std::alloc::{AllocError, Global};
use std::marker::Model;

/// A tree of 1 to 256 slaves (`IsTree` of `specs/Segment.antt`), with the frame order and the path
/// sums of all of them. Rows are counted from 0, in the order in which they were given.
#[derive(Debug, Drop)]
pub struct Tree {
    wiring: Wiring,
    order: Vec<u16>,
    places: Vec<u16>,
    spans: Vec<u64>,
    arrivals: Vec<u64>,
}

impl Model for Tree {
    ghost use Rattle.std.specs.Prelude.{List};
    ghost use Rattle.cable_tree.specs.Row.{Row};

    ghost Value = { List Row };

    ghost use Rattle.cable_tree.specs.InsideTree.{rows_of, IsKept};

    ghost view = { rows_of };

    ghost invariant = { IsKept };
}

impl Tree {
    /// The tree of these rows. A refusal is that of the first kind in the order of [`TreeError`] of
    /// which there is a fault, with its row; want of memory may come at any time.
    pub fn new(alloc: Global, rows: &[TreeRow]) -> Result<Tree, TreeError>
        requires { length rows.now ≤ 256 }
        ensures ok { IfOk result (λ tree. tree ≡ rows.now) }
        ensures valid { IfOk result (λ tree. IsTree tree) }
        ensures only { IsTree rows.now → IsOk result ⊎ (result ≡ Err TreeError.NoMemory) }
        ensures refused { IfErr result (MayAnswer rows.now) }
        ensures exactly { (e : TreeError) → IsRefused rows.now e → (result ≡ Err e) ⊎ (result ≡ Err TreeError.NoMemory) }
    {
        let wiring = Wiring::new(alloc, rows)?;
        let Ok(tree) = Tree::of(alloc, wiring) else {
            return Err(TreeError::NoMemory);
        };
        Ok(tree)
    }

    // The tree with all its tables.
    fn of(alloc: Global, wiring: Wiring) -> Result<Tree, AllocError>
        requires { IsSegment wiring }
        ensures { IfOk result (λ tree. tree ≡ wiring) }
    {
        let order = frame_order(alloc, &wiring)?;
        let places = places(alloc, &wiring, &order)?;
        let spans = spans(alloc, &wiring, &order)?;
        let arrivals = arrivals(alloc, &wiring, &order, &spans)?;
        Ok(Tree {
            wiring,
            order,
            places,
            spans,
            arrivals,
        })
    }

    /// The number of rows.
    pub fn len(&self) -> usize
        ensures is { result ≡ length self.now }
        ensures valid { IsSegment self.now }
    {
        self.wiring.len()
    }

    /// The rows in frame order: each slave, and then the subtrees at its ports 3, 1 and 2.
    pub fn order(&self) -> &[u16]
        ensures is { result.now ≡ order self.now }
        ensures valid { IsSegment self.now }
    {
        &self.order
    }

    /// The place of a row in the frame order, counted from 0.
    pub fn position(&self, row: u16) -> u16
        requires { row < length self.now }
        ensures within { result < length (order self.now) }
        ensures is { slice_index (order self.now) result ≡ row }
        ensures position { result ≡ position_of self.now row }
    {
        self.places[usize::from(row)]
    }

    /// How long a frame stays in the subtree of a row, in fs: from port 0 in to port 0 out.
    pub fn span(&self, row: u16) -> u64
        requires { row < length self.now }
        ensures { result ≡ span self.now row }
    {
        self.spans[usize::from(row)]
    }

    /// How long a frame takes from the master to port 0 of a row, in fs.
    pub fn arrive(&self, row: u16) -> u64
        requires { row < length self.now }
        ensures { result ≡ arrive self.now row }
    {
        self.arrivals[usize::from(row)]
    }

    /// How long a frame takes from the master and back, in fs.
    pub fn round_trip(&self) -> u64
        ensures { result ≡ round_trip self.now }
    {
        let root = self.wiring.root();
        2 * self.wiring.cable_fs(root) + self.span(root)
    }

    /// How long a frame takes from the master until it comes back into a port of a row, in fs. None
    /// comes exactly where the port is not connected.
    pub fn port_time(&self, row: u16, port: Port) -> Option<u64>
        requires { row < length self.now }
        ensures { result ≡ port_time self.now row port }
    {
        let kid = self.wiring.child(row, port)?;
        Some(self.arrive(kid) + self.span(kid) + self.wiring.cable_fs(kid))
    }

    /// Where a row hangs, as it was given. None comes exactly at the root.
    pub fn above(&self, row: u16) -> Option<Above>
        requires { row < length self.now }
        ensures { result ≡ above self.now row }
    {
        self.wiring.above(row)
    }
}
