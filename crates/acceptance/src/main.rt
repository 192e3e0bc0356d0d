//! Tables of cases over the top call, one case a line.
//!
//! - `table NAME`: the line itself. The lines that follow are cases of this table, and the module of its name says what they ask:
//!   `actions` or `commands`.
//! - Any other line: the answer to it.
//!
//! The stored tables and their stored answers show what no clause says: the numbers of worked rows, which numbers the texts of a file
//! have, that a file is refused for the reason that is meant, that the numbers of a report are those that the bench holds, and what the
//! frames of a run have written into the slaves.
#![tactic(auto)]

mod actions;
mod call;
mod commands;
mod each;
mod ends;
mod remade;
mod tables;

use std::io::{BufRead, BufReader};
use tables::Tables;

fn main(rt: HostRuntime) -> anyhow::Result<()> {
    let alloc = rt.alloc();
    let mut tables = Tables::new(alloc);
    for line in BufReader::new(alloc, rt.reader())?.lines(alloc) {
        let line = line?;
        println!(rt; "{}", tables.answer(alloc, line.as_str())?)?;
    }
    Ok(())
}
