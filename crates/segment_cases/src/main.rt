//! Tables of cases over segments, one case a line.
//!
//! - `table NAME`: the line itself. The lines that follow are cases of this table, and the module of its name says what they ask:
//!   `trees`, `files`, `losses`, `draws` or `reports`.
//! - Any other line: the answer to it.
//!
//! The stored tables and their stored answers show that the definitions are the ones that are meant.
#![tactic(auto)]

mod draws;
mod files;
mod losses;
mod reports;
mod tables;
mod trees;
mod words;

use std::io::{BufRead, BufReader};
use tables::Tables;

fn main(rt: HostRuntime) -> anyhow::Result<()> {
    let alloc = rt.alloc();
    let mut tables = Tables::new(alloc);
    for line in BufReader::new(alloc, rt.reader())?.lines(alloc) {
        let line = line?;
        println!(rt; "{}", tables.answer(alloc, line.as_str())?)?;
    }
    Ok(())
}
