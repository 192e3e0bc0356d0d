//! Segment files.
//!
//! - `shape FILE` and `segment FILE` read a file, by `read_shape` or by `read_segment`: `ok`, or the
//!   refusal. The lines behind it speak of this file.
//! - `edit OLD|NEW|OLD|NEW..` reads it with each second text in place of the first place of the text
//!   before it.
//! - `many COUNT TEXT` reads it with so many zeros as elements behind the first place of a text.
//! - `head`, `row N`, `losses` write what the file says of the segment, of the slave at row N, and of
//!   lost frames.
//! - `numbers`, `flags`, `order`, `drift N`, `commission N` write what a segment makes of it: its counts and lock
//!   numbers, which rows are clocks and measure, the rows by position, and how many slaves a frame that is
//!   listed as lost reaches.
//! - Any other line, and one that changes a text which the file does not have: `unread`. A file that is refused
//!   answers its refusal to all lines that ask for a part of it.

mod refusals;
mod segments;
mod shapes;

use std::alloc::{AllocError, Global};

/// The answer to a line that says no case.
pub(crate) const UNREAD: &str = "unread";

/// The file that cases speak of.
#[derive(Drop)]
pub(crate) struct Cases {
    file: String,
    /// Whether it is read by `read_segment`, not by `read_shape` alone.
    is_segment: bool,
}

impl Cases {
    pub(crate) fn new(alloc: Global) -> Cases {
        Cases {
            file: String::new(alloc),
            is_segment: false,
        }
    }

    /// The answer to a case.
    pub(crate) fn answer(&mut self, alloc: Global, line: &str) -> Result<String, AllocError> {
        let mut told = String::new(alloc);
        let (word, rest) = line.split_once(' ').unwrap_or((line, ""));
        match word {
            "shape" | "segment" => {
                self.is_segment = word == "segment";
                self.file = String::from_str(alloc, rest)?;
                self.read(alloc, rest, &mut told)?;
            }
            "edit" | "many" => self.read_changed(alloc, (word, rest), &mut told)?,
            _ if self.is_segment => segments::tell(alloc, &self.file, (word, rest), &mut told)?,
            _ => shapes::tell(alloc, &self.file, (word, rest), &mut told)?,
        }
        Ok(told)
    }

    fn read(&self, alloc: Global, file: &str, told: &mut String) -> Result<(), AllocError> {
        if self.is_segment {
            segments::read(alloc, file, told)
        } else {
            shapes::read(alloc, file, told)
        }
    }

    fn read_changed(
        &self,
        alloc: Global,
        (word, how): (&str, &str),
        told: &mut String,
    ) -> Result<(), AllocError> {
        let mut file = self.file.clone()?;
        let is_changed = match word {
            "edit" => edit(alloc, &mut file, how)?,
            _ => lengthen(alloc, &mut file, how)?,
        };
        if is_changed {
            self.read(alloc, &file, told)
        } else {
            told.push_str(UNREAD)
        }
    }
}

// Puts each second text in place of the one before it; false where the file lacks one of these.
fn edit(alloc: Global, file: &mut String, edits: &str) -> Result<bool, AllocError> {
    let mut rest = edits;
    for _edit in 0..edits.len() {
        let Some((old, after)) = rest.split_once('|') else {
            return Ok(false);
        };
        if !file.contains(old) {
            return Ok(false);
        }
        let (new, later) = after.split_once('|').unwrap_or((after, ""));
        *file = file.replacen(alloc, old, new, 1)?;
        if later.is_empty() {
            return Ok(true);
        }
        rest = later;
    }
    Ok(false)
}

// Puts zeros behind a text; false where the file lacks this.
fn lengthen(alloc: Global, file: &mut String, how: &str) -> Result<bool, AllocError> {
    let Some((count, text)) = how.split_once(' ') else {
        return Ok(false);
    };
    let Ok(count) = count.parse::<u16>() else {
        return Ok(false);
    };
    if !file.contains(text) {
        return Ok(false);
    }
    let zeros = "0,".repeat(alloc, usize::from(count))?;
    let longer = format!(in alloc; "{text}{zeros}")?;
    *file = file.replacen(alloc, text, &longer, 1)?;
    Ok(true)
}
