//! The checks of a segment's rows, each a pass over them, in the order of the refusals.

ghost use Rattle.std.specs.Prelude.{◌≡◌, ℕ, ◌<◌, ◌≤◌, ◌↔◌, length, IsTrue, OnOk, IfOk, IfErr, MatchOption};
ghost use Rattle.cable_tree.specs.Kept.{AreKids};
ghost use Rattle.cable_tree.specs.Refusals.{IsOrphan, IsLaterRoot, IsDoubled, IsCyclic, IsFree, MayAnswer};
ghost use Rattle.cable_tree.specs.Segment.{IsRoot, LeadsToRoot};

use crate::error::TreeError;
use crate::kids::Kids;
use crate::row::TreeRow;
use std::alloc::Global;

// Each parent is a row.
pub(crate) fn check_parents(rows: &[TreeRow]) -> Result<(), TreeError>
    requires { length rows.now ≤ 256 }
    ensures ok { OnOk result (IsFree rows.now (IsOrphan rows.now)) }
    ensures err { IfErr result (MayAnswer rows.now) }
{
    for row in 0..rows.len() {
        if is_orphan(rows, row) {
            return Err(TreeError::NoParent(row as u16));
        }
    }
    Ok(())
}

fn is_orphan(rows: &[TreeRow], row: usize) -> bool
    requires { row < length rows.now }
    ensures { IsTrue result ↔ IsOrphan rows.now row }
{
    match rows[row].above() {
        None => false,
        Some(above) => usize::from(above.row) >= rows.len(),
    }
}

// At most one row has no parent; this is it.
pub(crate) fn check_roots(rows: &[TreeRow]) -> Result<Option<u16>, TreeError>
    requires few { length rows.now ≤ 256 }
    requires parents { IsFree rows.now (IsOrphan rows.now) }
    ensures ok { OnOk result (IsFree rows.now (IsLaterRoot rows.now)) }
    ensures root { IfOk result (λ found. MatchOption found
        (IsFree rows.now (IsRoot rows.now))
        (λ r. (r < length rows.now) × IsRoot rows.now r)) }
    ensures err { IfErr result (MayAnswer rows.now) }
{
    let mut root = None;
    for (row, slave) in rows.iter().enumerate() {
        if slave.above().is_some() {
            continue;
        }
        if root.is_some() {
            return Err(TreeError::TwoRoots(row as u16));
        }
        root = Some(row as u16);
    }
    Ok(root)
}

// No two rows share parent and port; these are the children of each.
pub(crate) fn check_ports(alloc: Global, rows: &[TreeRow]) -> Result<Vec<Kids>, TreeError>
    requires few { length rows.now ≤ 256 }
    requires parents { IsFree rows.now (IsOrphan rows.now) }
    requires roots { IsFree rows.now (IsLaterRoot rows.now) }
    ensures ok { OnOk result (IsFree rows.now (IsDoubled rows.now)) }
    ensures kids { IfOk result (λ kids. AreKids rows.now kids.items) }
    ensures err { IfErr result (MayAnswer rows.now) }
{
    let Ok(mut kids) = Vec::from_elem(alloc, Kids::none(), rows.len()) else {
        return Err(TreeError::NoMemory);
    };
    for (row, slave) in rows.iter().enumerate() {
        let Some(above) = slave.above() else {
            continue;
        };
        let parent = usize::from(above.row);
        let siblings = kids[parent];
        if siblings.at(above.port).is_some() {
            return Err(TreeError::PortTaken(row as u16));
        }
        kids[parent] = siblings.with(above.port, row as u16);
    }
    Ok(kids)
}

// From each row the parents lead to a root.
pub(crate) fn check_ways(rows: &[TreeRow]) -> Result<(), TreeError>
    requires few { length rows.now ≤ 256 }
    requires parents { IsFree rows.now (IsOrphan rows.now) }
    requires roots { IsFree rows.now (IsLaterRoot rows.now) }
    requires ports { IsFree rows.now (IsDoubled rows.now) }
    ensures ok { OnOk result ((r : ℕ) → r < length rows.now → LeadsToRoot rows.now (length rows.now) r) }
    ensures err { IfErr result (MayAnswer rows.now) }
{
    for row in 0..rows.len() {
        if !leads_to_root(rows, row) {
            return Err(TreeError::Cycle(row as u16));
        }
    }
    Ok(())
}

fn leads_to_root(rows: &[TreeRow], row: usize) -> bool
    requires within { row < length rows.now }
    requires parents { IsFree rows.now (IsOrphan rows.now) }
    ensures { IsTrue result ↔ LeadsToRoot rows.now (length rows.now) row }
{
    let mut at = row;
    for _step in 0..rows.len() {
        match rows[at].above() {
            None => return true,
            Some(above) => at = usize::from(above.row),
        }
    }
    false
}
