//! The work that the scripts in `measure/` time.
//!
//! - `advance FS TIMES` advances so many clocks from true time 0 by so many fs, while each works off a
//!   difference, and writes the sum of what they show.
//! - `edges FS` lets a unit raise its edges up to a true time, while its clock works off a difference,
//!   and writes how many edges there are of both signals, and when the last one is.
//! - `wire FRAMES CYCLE` lets so many frames, one each ms, visit 256 clocks that are armed with a cycle of so
//!   many ns, or with a cycle of 0 not armed, and writes the sum of what they show and of their edges.
//! - `trees TIMES` makes so many trees of 256 slaves, half of them a line and half of them with three
//!   children to a slave, and writes the sum of all their path sums.
#![tactic(auto)]

mod clocks;
mod trees;

use clocks::{advanced, raise, visited};
use std::alloc::Global;
use std::process::ExitCode;
use std::rt::Env;
use std::{env, io};
use sync_units::EdgeList;
use trees::path_sums;

fn main(rt: HostRuntime) -> ExitCode {
    match words(&rt) {
        Ok(words) => match run(&rt, &words) {
            Some(()) => ExitCode::SUCCESS,
            None => ExitCode::from(2),
        },
        Err(_) => ExitCode::from(9),
    }
}

// The words behind the program's name.
fn words<R: Env + AllocGlobal>(rt: &R) -> io::Result<Vec<String>> {
    let mut words = Vec::new(rt.alloc());
    for word in env::args(rt)?.skip(1) {
        words.push(word)?;
    }
    Ok(words)
}

fn run(rt: &HostRuntime, words: &[String]) -> Option<()> {
    let (what, numbers) = words.split_first()?;
    match (what.as_str(), numbers) {
        ("edges", [time_fs]) => edges(rt, time_fs.parse().ok()?),
        (what, numbers) => {
            let sum = sum_of(rt.alloc(), what, numbers)?;
            println!(rt; "{sum}").ok()
        }
    }
}

fn edges(rt: &HostRuntime, time_fs: u64) -> Option<()> {
    let mut list = EdgeList::new(rt.alloc(), 100_000).ok()?;
    raise(time_fs, &mut list)?;
    let last = list.edges().last()?;
    println!(rt; "{} {}", list.edges().len(), last.time_fs).ok()
}

fn sum_of(alloc: Global, what: &str, numbers: &[String]) -> Option<u64> {
    match (what, numbers) {
        ("advance", [time_fs, times]) => advanced(time_fs.parse().ok()?, times.parse().ok()?),
        ("wire", [frames, cycle]) => visited(alloc, frames.parse().ok()?, cycle.parse().ok()?),
        ("trees", [times]) => path_sums(alloc, times.parse().ok()?),
        _ => None,
    }
}
