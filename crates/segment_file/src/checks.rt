ghost use Rattle.std.specs.Prelude.{◌≡◌, ◌≤◌, IfErr, IfOk, OnOk, None, Some, length, map};
ghost use Rattle.std.specs.List.{All};
ghost use Rattle.cable_tree.specs.Row.{IsRow};
ghost use Rattle.cable_tree.specs.Segment.{IsTree};
ghost use Rattle.segment_shape.specs.Ranges.{IsHead};
ghost use Rattle.segment_shape.specs.Seen.{head_seen};
ghost use Rattle.segment_file.specs.FaultOf.{IsFaultOf, IsTreeFault};
ghost use Rattle.segment_file.specs.Faults.{fault_of};
ghost use Rattle.segment_file.specs.Segment.{counts_of, reference_row, tree_row, tree_rows};
ghost use Rattle.segment_file.specs.Seen.{counts_seen, row_seen};

use crate::clock_checks::check_clocks;
use crate::counts::{Counts, counts_of};
use crate::frame_checks::check_frames;
use crate::placing::tree_rows;
use crate::seg_error::SegError;
use crate::slave_row::SlaveRow;
use crate::time_checks::check_times;
use cable_tree::Tree;
use loss_list::LossList;
use segment_shape::Head;
use std::alloc::Global;

/// What is known of a segment without fault.
#[derive(Clone, Copy)]
pub(crate) struct Checked {
    pub(crate) reference: u16,
    pub(crate) counts: Counts,
}

/// The tree that the rows are.
pub(crate) fn tree_of(alloc: Global, rows: &[SlaveRow]) -> Result<Tree, SegError>
    requires few { length rows.now ≤ 256 }
    requires rows { All (λ r. IsRow (tree_row (row_seen r))) rows.now }
    ensures ok { IfOk result (λ tree. tree ≡ tree_rows (map row_seen rows.now)) }
    ensures valid { OnOk result (IsTree (tree_rows (map row_seen rows.now))) }
    ensures err { IfErr result (IsTreeFault (tree_rows (map row_seen rows.now))) }
{
    let rows = tree_rows(alloc, rows)?;
    match Tree::new(alloc, &rows) {
        Ok(tree) => Ok(tree),
        Err(error) => Err(SegError::from(error)),
    }
}

/// Whether a segment is without fault.
pub(crate) fn check(
    head: Head,
    rows: &[SlaveRow],
    tree: &Tree,
    losses: &LossList,
) -> Result<Checked, SegError>
    requires head { IsHead (head_seen head) }
    requires few { length rows.now ≤ 256 }
    requires tree { tree.now ≡ tree_rows (map row_seen rows.now) }
    ensures ok { OnOk result (fault_of (record { head = head_seen head; rows = map row_seen rows.now; losses = losses.now }) ≡ None) }
    ensures reference { IfOk result (λ c. reference_row (map row_seen rows.now) ≡ Some c.reference) }
    ensures counts { IfOk result (λ c. counts_seen c.counts ≡ counts_of (map row_seen rows.now)) }
    ensures err { IfErr result (IsFaultOf
        (fault_of (record { head = head_seen head; rows = map row_seen rows.now; losses = losses.now }))) }
{
    let reference = check_clocks(head.ppm, rows, tree)?;
    let counts = counts_of(rows);
    check_times(head, counts, tree)?;
    check_frames(head, counts, losses)?;
    Ok(Checked { reference, counts })
}
