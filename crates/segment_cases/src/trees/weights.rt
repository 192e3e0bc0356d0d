ghost use Rattle.std.specs.Prelude.{◌≡◌, length};

use crate::trees::rows::{refusal_told, tree};
use crate::words::Words;
use cable_tree::{Tree, TreeRow};
use dc_bounds::{reference, unmeasurable, weight};
use std::alloc::{AllocError, Global};

/// The rows of a tree, with lists of which measure and which are clocks.
#[derive(Drop)]
struct Rows {
    rows: Vec<TreeRow>,
    measuring: Vec<bool>,
    timed: Vec<bool>,
}

impl Rows {
    // Adds the row that comes next in a case.
    fn push(&mut self, words: &mut Words<'_>) -> Result<(), AllocError> {
        match TreeRow::new(words.place(), 310, 300, 50_000) {
            Some(row) => self.rows.push(row)?,
            None => words.refuse(),
        }
        let (measures, is_clock) = words.flags();
        self.measuring.push(measures)?;
        self.timed.push(is_clock)?;
        Ok(())
    }
}

/// The reference, the slave that cannot be measured, and where there is none, the weight of each clock.
pub(crate) fn weights_told(
    alloc: Global,
    words: &mut Words<'_>,
    told: &mut String,
) -> Result<(), AllocError> {
    let mut listed = Rows {
        rows: Vec::new(alloc),
        measuring: Vec::new(alloc),
        timed: Vec::new(alloc),
    };
    for _row in 0..words.most() {
        if words.is_empty() {
            break;
        }
        listed.push(words)?;
    }
    match tree(alloc, words, &listed.rows) {
        Ok(tree) => flags_told(&tree, &listed.measuring, &listed.timed, told),
        Err(error) => refusal_told(error, told),
    }
}

fn flags_told(
    tree: &Tree,
    measuring: &[bool],
    timed: &[bool],
    told: &mut String,
) -> Result<(), AllocError> {
    if measuring.len() != tree.len() || timed.len() != tree.len() {
        return told.push_str("another number of rows");
    }
    told.push_str("reference")?;
    match reference(tree, timed) {
        Some(row) => write!(told, " {row}")?,
        None => told.push_str(" -")?,
    }
    match unmeasurable(tree, measuring) {
        Some(row) => write!(told, " unmeasurable {row}"),
        None => clocks_told(tree, measuring, timed, told),
    }
}

fn clocks_told(
    tree: &Tree,
    measuring: &[bool],
    timed: &[bool],
    told: &mut String,
) -> Result<(), AllocError>
    requires measuring { length measuring.now ≡ length tree.now }
    requires timed { length timed.now ≡ length tree.now }
{
    told.push_str(" weights")?;
    for row in 0..tree.len() as u16 {
        if timed[usize::from(row)] {
            write!(told, " {}", weight(tree, measuring, timed, row))?;
        } else {
            told.push_str(" -")?;
        }
    }
    Ok(())
}
