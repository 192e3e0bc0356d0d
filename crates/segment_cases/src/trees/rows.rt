ghost use Rattle.std.specs.Prelude.{◌<◌, length};

use crate::words::{Words, number_told, place_told};
use cable_tree::{Port, Tree, TreeError, TreeRow};
use std::alloc::{AllocError, Global};

/// Whether three numbers, tP, tF and the cable, are those of a row.
pub(crate) fn is_row(words: &mut Words<'_>, told: &mut String) -> Result<(), AllocError> {
    let tp_ns = words.number(0, 65_535) as u16;
    let tf_ns = words.number(0, 65_535) as u16;
    let cable_ps = words.number(0, 4_294_967_295) as u32;
    told.push_str(match TreeRow::new(None, tp_ns, tf_ns, cable_ps) {
        Some(_) => "yes",
        None => "no",
    })
}

/// What a tree answers.
pub(crate) fn tree_told(
    alloc: Global,
    words: &mut Words<'_>,
    told: &mut String,
) -> Result<(), AllocError> {
    let mut rows = Vec::new(alloc);
    for _row in 0..words.most() {
        if words.is_empty() {
            break;
        }
        match row(words) {
            Some(row) => rows.push(row)?,
            None => words.refuse(),
        }
    }
    match tree(alloc, words, &rows) {
        Ok(tree) => numbers_told(&tree, told),
        Err(error) => refusal_told(error, told),
    }
}

fn row(words: &mut Words<'_>) -> Option<TreeRow> {
    let above = words.place();
    let tp_ns = words.number(0, 65_535) as u16;
    let tf_ns = words.number(0, 65_535) as u16;
    let cable_ps = words.number(0, 4_294_967_295) as u32;
    TreeRow::new(above, tp_ns, tf_ns, cable_ps)
}

/// The tree of these rows, or why they are none. More than 256 are refused as words.
pub(crate) fn tree(
    alloc: Global,
    words: &mut Words<'_>,
    rows: &[TreeRow],
) -> Result<Tree, TreeError> {
    if rows.len() > 256 {
        words.refuse();
        return Err(TreeError::Empty);
    }
    Tree::new(alloc, rows)
}

/// Writes why rows are no tree.
pub(crate) fn refusal_told(error: TreeError, told: &mut String) -> Result<(), AllocError> {
    match error {
        TreeError::Empty => told.push_str("empty"),
        TreeError::NoParent(row) => write!(told, "no parent {row}"),
        TreeError::TwoRoots(row) => write!(told, "two roots {row}"),
        TreeError::PortTaken(row) => write!(told, "port taken {row}"),
        TreeError::Cycle(row) => write!(told, "cycle {row}"),
        TreeError::NoMemory => Err(AllocError),
    }
}

// The frame order, the round trip, and the numbers of each row.
fn numbers_told(tree: &Tree, told: &mut String) -> Result<(), AllocError> {
    told.push_str("order")?;
    for row in tree.order() {
        write!(told, " {row}")?;
    }
    write!(told, " trip {}", tree.round_trip())?;
    for row in 0..tree.len() as u16 {
        row_told(tree, row, told)?;
    }
    Ok(())
}

fn row_told(tree: &Tree, row: u16, told: &mut String) -> Result<(), AllocError>
    requires { row < length tree.now }
{
    let (position, span, arrive) = (tree.position(row), tree.span(row), tree.arrive(row));
    write!(told, " | {position} {span} {arrive}")?;
    for port in [Port::P3, Port::P1, Port::P2] {
        number_told(tree.port_time(row, port), told)?;
    }
    told.push_str(" ")?;
    place_told(tree.above(row), told)
}
