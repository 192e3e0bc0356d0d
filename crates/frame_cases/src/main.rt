//! Tables of cases over frames and what sends and meets them, one case a line.
//!
//! - `table NAME`: the line itself. The lines that follow are cases of this table, and the module of its name says what they ask:
//!   `cases`, `wires` or `masters`.
//! - A line that begins with `#`: the line itself.
//! - Any other line: the answer to it, or `unread`.
//!
//! The stored tables and their stored answers show that the definitions are the ones that are meant.
#![tactic(auto)]

mod actions;
mod build;
mod cases;
mod clock_words;
mod latches;
mod links;
mod masters;
mod names;
mod oscillators;
mod read;
mod station;
mod tables;
mod wires;
mod words;

use std::io::{self, BufRead, BufReader};
use tables::Tables;

fn main(rt: HostRuntime) -> io::Result<()> {
    let alloc = rt.alloc();
    let mut tables = Tables::new();
    for line in BufReader::new(alloc, rt.reader())?.lines(alloc) {
        let line = line?;
        println!(rt; "{}", tables.answer(alloc, line.as_str())?)?;
    }
    Ok(())
}
