ghost use Rattle.std.specs.Prelude.{◌≡◌, ◌<◌, ◌≤◌, length, IfOk, IfErr, IfSome};
ghost use Rattle.std.specs.List.{All};
ghost use Rattle.cable_tree.specs.FrameOrder.{child, root};
ghost use Rattle.cable_tree.specs.Segment.{IsSegment};
ghost use Rattle.cable_tree.specs.Refusals.{MayAnswer};
ghost use Rattle.cable_tree.specs.Row.{IsRow, above, tp, tf, cable};

use crate::checks::{check_parents, check_ports, check_roots, check_ways};
use crate::error::TreeError;
use crate::kids::Kids;
use crate::port::{Above, Port};
use crate::row::TreeRow;
use std::alloc::Global;
use std::marker::Model;

// The rows of a tree, with the children of each.
#[derive(Debug, Drop)]
pub(crate) struct Wiring {
    rows: Vec<TreeRow>,
    kids: Vec<Kids>,
    root: u16,
}

impl Model for Wiring {
    ghost use Rattle.std.specs.Prelude.{List};
    ghost use Rattle.cable_tree.specs.Row.{Row};

    ghost Value = { List Row };

    ghost use Rattle.cable_tree.specs.InsideWiring.{rows_of, IsWired};

    ghost view = { rows_of };

    ghost invariant = { IsWired };
}

impl Wiring {
    // The wiring of rows that are a tree; an error is their first fault.
    pub(crate) fn new(alloc: Global, rows: &[TreeRow]) -> Result<Wiring, TreeError>
        requires { length rows.now ≤ 256 }
        ensures ok { IfOk result (λ wiring. wiring ≡ rows.now) }
        ensures segment { IfOk result (λ wiring. IsSegment wiring) }
        ensures err { IfErr result (MayAnswer rows.now) }
    {
        if rows.is_empty() {
            return Err(TreeError::Empty);
        }
        check_parents(rows)?;
        let root = check_roots(rows)?;
        let kids = check_ports(alloc, rows)?;
        // Without a root no row leads to one, the first row neither.
        let Some(root) = root else {
            return Err(TreeError::Cycle(0));
        };
        check_ways(rows)?;
        let rows = copy_rows(alloc, rows)?;
        Ok(Wiring { rows, kids, root })
    }

    // The number of rows.
    pub(crate) fn len(&self) -> usize
        ensures is { result ≡ length self.now }
        ensures segment { IsSegment self.now }
    {
        self.rows.len()
    }

    // The row without a parent.
    pub(crate) fn root(&self) -> u16
        ensures is { result ≡ root self.now }
        ensures segment { IsSegment self.now }
    {
        self.root
    }

    // Where a row hangs.
    pub(crate) fn above(&self, row: u16) -> Option<Above>
        requires { row < length self.now }
        ensures { result ≡ above self.now row }
    {
        self.rows[usize::from(row)].above()
    }

    // The row at a port of a row.
    pub(crate) fn child(&self, row: u16, port: Port) -> Option<u16>
        requires { row < length self.now }
        ensures is { result ≡ child self.now row port }
        ensures within { IfSome result (λ kid. kid < length self.now) }
    {
        self.kids[usize::from(row)].at(port)
    }

    // The delays of a row.
    pub(crate) fn tp_fs(&self, row: u16) -> u64
        requires { row < length self.now }
        ensures is { result ≡ tp self.now row }
        ensures most { result ≤ 10000000000 }
    {
        self.rows[usize::from(row)].tp_fs()
    }

    pub(crate) fn tf_fs(&self, row: u16) -> u64
        requires { row < length self.now }
        ensures is { result ≡ tf self.now row }
        ensures most { result ≤ 10000000000 }
    {
        self.rows[usize::from(row)].tf_fs()
    }

    pub(crate) fn cable_fs(&self, row: u16) -> u64
        requires { row < length self.now }
        ensures is { result ≡ cable self.now row }
        ensures most { result ≤ 100000000000 }
    {
        self.rows[usize::from(row)].cable_fs()
    }
}

// A copy of the rows, each of which is within the limits.
fn copy_rows(alloc: Global, rows: &[TreeRow]) -> Result<Vec<TreeRow>, TreeError>
    ensures same { IfOk result (λ copy. copy.items ≡ rows.now) }
    ensures fit { IfOk result (λ copy. All IsRow copy.items) }
    ensures err { IfErr result (λ e. e ≡ TreeError.NoMemory) }
{
    let Ok(mut copy) = Vec::with_capacity(alloc, rows.len()) else {
        return Err(TreeError::NoMemory);
    };
    for row in rows {
        let _ = row.above();
        if copy.push(*row).is_err() {
            return Err(TreeError::NoMemory);
        }
    }
    Ok(copy)
}
