ghost use Rattle.std.specs.Prelude.{◌≡◌, ◌≤◌, [], IfOk, IfErr, length, map, option_map, codes, Ok};
ghost use Rattle.std.specs.List.{list_any};
ghost use Rattle.std.specs.Str.{bytes_eq};
ghost use Rattle.serde_json.specs.View.{view, items_view};
ghost use Rattle.segment_shape.specs.Rows.{rows_after};
ghost use Rattle.segment_shape.specs.Slaves.{slave_in};
ghost use Rattle.segment_shape.specs.Losses.{loss_in};
ghost use Rattle.segment_shape.specs.ShapeOf.{shape_of, file_of};
ghost use Rattle.segment_shape.specs.Twice.{first_again};
ghost use Rattle.segment_shape.specs.Seen.{row_seen, shape_seen};
ghost use Rattle.segment_shape.specs.Told.{IsFault, IsRefusal, IsShape, IsTold};

use crate::id::Id;
use crate::key::Key;
use crate::key_path::{loss_path, root_path, slave_path};
use crate::known_keys::are_head_keys;
use crate::loss_row::loss_in;
use crate::segment_head::{Head, head_of};
use crate::shape_error::ShapeError;
use crate::slave_row::{ShapeRow, slave_of};
use crate::value_at::{items_at, items_if_any};
use loss_list::LossList;
use serde_json::Value;
use std::alloc::Global;

/// What a segment file says, each number in its range and no id twice.
#[derive(Debug, Drop)]
pub struct Shape {
    pub head: Head,
    /// At most 256, in the order of the file.
    pub rows: Vec<ShapeRow>,
    /// At most 10,000, in the order of the file.
    pub losses: LossList,
}

fn rows_in(alloc: Global, values: &[Value], head: Head) -> Result<Vec<ShapeRow>, ShapeError>
    requires few { length values.now ≤ 256 }
    requires cycle { 1 ≤ head.cycle_ns }
    ensures ok { IfOk result (λ v. rows_after (codes "slaves") (slave_in head.version head.cycle_ns) [] (items_view values.now)
        ≡ Ok (map row_seen v.items)) }
    ensures err { IfErr result (IsFault (rows_after (codes "slaves") (slave_in head.version head.cycle_ns) [] (items_view values.now))) }
    ensures few { IfOk result (λ v. length v.items ≤ 256) }
{
    let mut rows = Vec::new(alloc);
    for value in values {
        match slave_of(value, head.version, head.cycle_ns) {
            Ok(row) => {
                if rows.push(row).is_err() {
                    return Err(ShapeError::NoMemory);
                }
            }
            Err(fault) => {
                return Err(ShapeError::Shape(slave_path(rows.len() as u8, fault)));
            }
        }
    }
    Ok(rows)
}

fn losses_in(alloc: Global, values: &[Value], slaves: u16) -> Result<LossList, ShapeError>
    requires { length values.now ≤ 10000 }
    ensures ok { IfOk result (λ l. rows_after (codes "losses") (loss_in slaves) [] (items_view values.now) ≡ Ok l) }
    ensures err { IfErr result (IsFault (rows_after (codes "losses") (loss_in slaves) [] (items_view values.now))) }
{
    let mut losses = LossList::new(alloc)?;
    for value in values {
        match loss_in(value, slaves, &losses) {
            Ok(row) => losses.push(row)?,
            Err(fault) => {
                return Err(ShapeError::Shape(loss_path(losses.len() as u16, fault)));
            }
        }
    }
    Ok(losses)
}

/// The shape of a file; two rows may still have one id.
#[tactic(auto, unfolding(crate::specs::ShapeOf::shape_of))]
fn shape_of(alloc: Global, value: &Value) -> Result<Shape, ShapeError>
    ensures ok { IfOk result (λ s. shape_of (view value.now) ≡ Ok (shape_seen s)) }
    ensures err { IfErr result (IsFault (shape_of (view value.now))) }
{
    let Some(members) = value.as_object() else {
        return Err(ShapeError::Shape(root_path()));
    };
    let head = head_of(value)?;
    let slaves = items_at(value, Key::Slaves, 256)?;
    let losses = items_if_any(value, Key::Losses, 10_000)?;
    if !are_head_keys(members) {
        return Err(ShapeError::Shape(root_path()));
    }
    let rows = rows_in(alloc, slaves, head)?;
    let losses = losses_in(alloc, losses, rows.len() as u16)?;
    Ok(Shape { head, rows, losses })
}

fn has_id(rows: &[ShapeRow], id: &Id) -> bool
    ensures { result ≡ list_any (bytes_eq id.now.bytes) (map (λ r. r.id.bytes) rows.now) }
{
    for row in rows {
        if id.as_str() == row.id.as_str() {
            return true;
        }
    }
    false
}

/// The id of the first row whose id an earlier row has.
#[tactic(auto, unfolding(crate::specs::Twice::first_again))]
fn first_again(rows: &[ShapeRow]) -> Option<Id>
    ensures { option_map (λ id. id.bytes) result ≡ first_again [] (map (λ r. r.id.bytes) rows.now) }
{
    for (i, row) in rows.iter().enumerate() {
        if has_id(&rows[..i], &row.id) {
            return Some(row.id);
        }
    }
    None
}

/// The shape of a file whose ids are distinct.
fn file_of(alloc: Global, value: &Value) -> Result<Shape, ShapeError>
    ensures ok { IfOk result (λ s. file_of (view value.now) ≡ Ok (shape_seen s)) }
    ensures err { IfErr result (IsRefusal (file_of (view value.now))) }
{
    let shape = shape_of(alloc, value)?;
    match first_again(&shape.rows) {
        None => Ok(shape),
        Some(id) => Err(ShapeError::Twice(id)),
    }
}

/// Reads the bytes of a segment file up to the ids of its rows.
///
/// The first check that fails is answered, in this order: the text, the shape of the file and the
/// ids. The shape is checked key by key: the head, then the slaves, then the losses, and in each
/// object the keys that are not known come last.
pub fn read_shape(alloc: Global, bytes: &[u8]) -> Result<Shape, ShapeError>
    ensures read { IfOk result (λ s. IsShape bytes.now (shape_seen s)) }
    ensures refused { IfErr result (IsTold bytes.now) }
{
    let value = match Value::from_slice(alloc, bytes) {
        Ok(value) => value,
        Err(error) => {
            return Err(if error.is_memory() {
                ShapeError::NoMemory
            } else {
                ShapeError::BadText
            });
        }
    };
    file_of(alloc, &value)
}
