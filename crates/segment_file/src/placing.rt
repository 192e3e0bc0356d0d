// From the ids of parents to their rows.
ghost use Rattle.std.specs.Prelude.{◌≡◌, ◌≤◌, ◌<◌, IfOk, length, map, option_map};
ghost use Rattle.std.specs.List.{All};
ghost use Rattle.segment_shape.specs.Seen.{parent_seen, row_seen as slave_seen};
ghost use Rattle.cable_tree.specs.Row.{IsRow};
ghost use Rattle.segment_file.specs.Placed.{above_in, placed_row, placed_rows, port_numbered, row_with};
ghost use Rattle.segment_file.specs.Segment.{tree_row, tree_rows};
ghost use Rattle.segment_file.specs.Seen.{row_seen};

use crate::slave_row::SlaveRow;
use arrayvec::ArrayVec;
use cable_tree::{Above, Port, TreeRow};
use segment_shape::{Id, Parent, ShapeRow};
use std::alloc::{AllocError, Global};

// The ids of the rows.
type Ids = ArrayVec<Id, 256>;

fn port_numbered(number: u8) -> Port
    ensures { result ≡ port_numbered number }
{
    match number {
        1 => Port::P1,
        2 => Port::P2,
        _ => Port::P3,
    }
}

fn ids_of(rows: &[ShapeRow]) -> Ids
    requires { length rows.now ≤ 256 }
    ensures { map (λ id. id.bytes) result.items ≡ map (λ s. s.id) (map slave_seen rows.now) }
{
    let mut ids = Ids::new();
    for row in rows {
        ids.push(row.id);
    }
    ids
}

// The row that has an id, or the number of rows where none has it.
fn row_with(ids: &[Id], id: &Id) -> u16
    requires { length ids.now ≤ 256 }
    ensures { result ≡ row_with (map (λ id. id.bytes) ids.now) id.now.bytes }
{
    for (row, known) in ids.iter().enumerate() {
        if id.as_str() == known.as_str() {
            return row as u16;
        }
    }
    ids.len() as u16
}

fn above_in(ids: &[Id], parent: Parent) -> Above
    requires { length ids.now ≤ 256 }
    ensures { result ≡ above_in (map (λ id. id.bytes) ids.now) (parent_seen parent) }
{
    Above {
        row: row_with(ids, &parent.id),
        port: port_numbered(parent.port),
    }
}

fn above_if_any(ids: &[Id], parent: Option<Parent>) -> Option<Above>
    requires { length ids.now ≤ 256 }
    ensures { result ≡ option_map (λ p. above_in (map (λ id. id.bytes) ids.now) (parent_seen p)) parent }
{
    match parent {
        None => None,
        Some(parent) => Some(above_in(ids, parent)),
    }
}

fn placed_row(ids: &[Id], row: ShapeRow) -> SlaveRow
    requires { length ids.now ≤ 256 }
    ensures { row_seen result ≡ placed_row (map (λ id. id.bytes) ids.now) (slave_seen row) }
{
    let above = above_if_any(ids, row.parent);
    SlaveRow {
        id: row.id,
        kind: row.kind,
        tp_ns: row.tp_ns,
        tf_ns: row.tf_ns,
        cable_ps: row.cable_ps,
        above,
        start: row.start,
        phase_fs: row.phase_fs,
        period_fs: row.period_fs,
        rates: row.rates,
        shift_ns: row.shift_ns,
        sync1_ns: row.sync1_ns,
    }
}

/// The rows of a shape, each hanging at the row of its parent. A parent that no row has is told as the
/// number of rows.
pub(crate) fn placed_rows(alloc: Global, rows: Vec<ShapeRow>) -> Result<Vec<SlaveRow>, AllocError>
    requires { length rows.items ≤ 256 }
    ensures { IfOk result (λ v. map row_seen v.items ≡ placed_rows (map slave_seen rows.items)) }
{
    let ids = ids_of(&rows);
    let mut placed = Vec::new(alloc);
    for row in rows {
        placed.push(placed_row(&ids, row))?;
    }
    Ok(placed)
}

fn tree_row(row: &SlaveRow) -> TreeRow
    requires { IsRow (tree_row (row_seen row.now)) }
    ensures { result ≡ tree_row (row_seen row.now) }
{
    TreeRow::new(row.above, row.tp_ns, row.tf_ns, row.cable_ps).unwrap()
}

/// The rows as a tree has them.
pub(crate) fn tree_rows(alloc: Global, rows: &[SlaveRow]) -> Result<Vec<TreeRow>, AllocError>
    requires { All (λ r. IsRow (tree_row (row_seen r))) rows.now }
    ensures { IfOk result (λ v. v.items ≡ tree_rows (map row_seen rows.now)) }
{
    let mut tree_rows = Vec::new(alloc);
    for row in rows {
        tree_rows.push(tree_row(row))?;
    }
    Ok(tree_rows)
}
