ghost use Rattle.std.specs.Prelude.{◌<◌, length};

use crate::trees::rows::{refusal_told, tree};
use crate::words::{Words, place_told, port_number};
use cable_tree::{Port, Tree, TreeRow};
use dc_topology::{Shape, TopologyError, dl_status, topology};
use std::alloc::{AllocError, Global};

/// The statuses of slaves that hang so, and the tree that is found from them.
pub(crate) fn statuses_told(
    alloc: Global,
    words: &mut Words<'_>,
    told: &mut String,
) -> Result<(), AllocError> {
    let mut rows = Vec::new(alloc);
    for _row in 0..words.most() {
        if words.is_empty() {
            break;
        }
        match TreeRow::new(words.place(), 310, 300, 50_000) {
            Some(row) => rows.push(row)?,
            None => words.refuse(),
        }
    }
    match tree(alloc, words, &rows) {
        Ok(tree) => shown(alloc, words, &tree, told),
        Err(error) => refusal_told(error, told),
    }
}

// The status of each row, and what they list in frame order.
fn shown(
    alloc: Global,
    words: &mut Words<'_>,
    tree: &Tree,
    told: &mut String,
) -> Result<(), AllocError> {
    told.push_str("status")?;
    for row in 0..tree.len() as u16 {
        write!(told, " {:04x}", dl_status(tree, row))?;
    }
    told.push_str(" ")?;
    let mut statuses = Vec::new(alloc);
    for row in tree.order() {
        if usize::from(*row) >= tree.len() {
            words.refuse();
            return Ok(());
        }
        statuses.push(dl_status(tree, *row))?;
    }
    listed(words, &statuses, told)
}

/// The tree that statuses list.
pub(crate) fn shape_told(
    alloc: Global,
    words: &mut Words<'_>,
    told: &mut String,
) -> Result<(), AllocError> {
    let mut statuses = Vec::new(alloc);
    for _status in 0..words.most() {
        if words.is_empty() {
            break;
        }
        statuses.push(words.status())?;
    }
    listed(words, &statuses, told)
}

fn listed(words: &mut Words<'_>, statuses: &[u16], told: &mut String) -> Result<(), AllocError> {
    if statuses.len() > 256 {
        words.refuse();
        return Ok(());
    }
    // What stood there before is gone after a refusal.
    let mut shape = Shape::new();
    let _ = topology(&[0x5610], &mut shape);
    match topology(statuses, &mut shape) {
        Ok(()) => told.push_str("shape")?,
        Err(TopologyError::BadStatus(position)) => write!(told, "bad status {position}")?,
        Err(TopologyError::Surplus(position)) => write!(told, "surplus {position}")?,
        Err(TopologyError::Missing) => told.push_str("missing")?,
    }
    for position in 0..shape.len() as u16 {
        slave_told(&shape, position, told)?;
    }
    Ok(())
}

// Where a slave hangs, and behind a colon its connected ports.
fn slave_told(shape: &Shape, position: u16, told: &mut String) -> Result<(), AllocError>
    requires { position < length shape.now }
{
    told.push_str(" ")?;
    place_told(shape.above(position), told)?;
    told.push_str(":")?;
    for port in [Port::P3, Port::P1, Port::P2] {
        if shape.connected(position, port) {
            write!(told, "{}", port_number(port))?;
        }
    }
    Ok(())
}
