//! Rows of the top call: what is done with it, one action a line.
//!
//! - `file JSON`: the input of the calls that follow.
//! - `blanks N`: so many blanks as the input.
//! - `chunk N`: the most bytes of one read and of one write from now on, 4096 before.
//! - `fails READS WRITES`: the numbers of the reads and of the writes that fail in the calls that follow, commas between them, and `-`
//!   for none.
//! - `call WORDS`: calls the top call. The status, with the line for standard error where there is one, and how many reads and writes
//!   have failed, where any did; the text that was written; and behind a run, whether `edge_report` makes the same text of the segment and
//!   of the bench alone.
//! - `read POSITION ADO SIZE`: what a frame would read of a slave of the bench that the last call has left, or `refused`.
//! - `each WORDS`: the call again and again, over ends of which one read fails, each in turn, and then one write. How many there
//!   were of both. Each such call has to answer 7 or 8, and to have written a front of the text.
//! - Any other line: the line itself, as `# a run with edge rows`.

use crate::call::{Called, call};
use crate::each::each;
use crate::ends::Ends;
use crate::remade::remakes;
use anyhow::{Context, bail};
use dc_bench::Bench;
use dc_top::Outcome;
use esc_regs::Access;
use std::alloc::{AllocError, Global};

/// The answer to an action.
pub(crate) fn answer(
    alloc: Global,
    ends: &mut Ends,
    bench: &mut Option<Bench>,
    line: &str,
) -> anyhow::Result<String> {
    let Some((what, rest)) = line.split_once(' ') else {
        return Ok(String::from_str(alloc, line)?);
    };
    match what {
        "file" => ends.input = Vec::from_slice(alloc, rest.as_bytes())?,
        "blanks" => ends.input = vec![in alloc; b' '; rest.parse()?]?,
        "chunk" => ends.chunk = rest.parse()?,
        "fails" => set_fails(alloc, ends, rest)?,
        "call" => return called(alloc, ends, bench, rest),
        "read" => return read(alloc, bench, rest),
        "each" => return each(alloc, &words_of(alloc, rest)?, ends),
        _ => return Ok(String::from_str(alloc, line)?),
    }
    Ok(String::from_str(alloc, what)?)
}

fn words_of(alloc: Global, text: &str) -> anyhow::Result<Vec<String>> {
    let mut words = Vec::new(alloc);
    for word in text.split(' ') {
        words.push(String::from_str(alloc, word)?)?;
    }
    Ok(words)
}

fn set_fails(alloc: Global, ends: &mut Ends, text: &str) -> anyhow::Result<()> {
    let (reads, writes) = text.split_once(' ').context("fails READS WRITES")?;
    ends.reads = numbers(alloc, reads)?;
    ends.writes = numbers(alloc, writes)?;
    Ok(())
}

fn numbers(alloc: Global, text: &str) -> anyhow::Result<Vec<u64>> {
    let mut numbers = Vec::new(alloc);
    if text == "-" {
        return Ok(numbers);
    }
    for number in text.split(',') {
        numbers.push(number.parse()?)?;
    }
    Ok(numbers)
}

fn called(
    alloc: Global,
    ends: &Ends,
    bench: &mut Option<Bench>,
    text: &str,
) -> anyhow::Result<String> {
    let words = words_of(alloc, text)?;
    let called = call(alloc, &words, ends)?;
    let remade = remakes(alloc, &words, &ends.input, &called)?;
    let mut told = String::new(alloc);
    call_told(&called, remade, &mut told)?;
    *bench = called.bench;
    Ok(told)
}

// What a call has answered and written, in lines.
fn call_told(called: &Called, remade: Option<bool>, told: &mut String) -> Result<(), AllocError> {
    end_told(called.outcome, called.faults, told)?;
    match std::str::from_utf8(&called.written) {
        Ok(written) => write!(told, "\n{written}")?,
        Err(_) => told.push_str("\nno text was written")?,
    }
    match remade {
        Some(true) => told.push_str("the same of segment and bench"),
        Some(false) => told.push_str("another one of segment and bench"),
        None => Ok(()),
    }
}

fn end_told(
    outcome: Outcome,
    (reads, writes): (u64, u64),
    told: &mut String,
) -> Result<(), AllocError> {
    write!(told, "{}", outcome.status())?;
    if outcome != Outcome::Done {
        write!(told, " {outcome}")?;
    }
    if reads > 0 || writes > 0 {
        write!(told, ", {reads} and {writes} failed")?;
    }
    Ok(())
}

fn read(alloc: Global, bench: &Option<Bench>, text: &str) -> anyhow::Result<String> {
    let (position, rest) = text.split_once(' ').context("read POSITION ADO SIZE")?;
    let (ado, size) = rest.split_once(' ').context("read POSITION ADO SIZE")?;
    let Some(bench) = bench else {
        bail!("no bench");
    };
    register(
        alloc,
        bench,
        position.parse()?,
        u16::from_str_radix(ado, 16)?,
        size.parse()?,
    )
}

fn register(
    alloc: Global,
    bench: &Bench,
    position: u16,
    ado: u16,
    size: usize,
) -> anyhow::Result<String> {
    let wire = bench.wire();
    if usize::from(position) >= wire.slaves() || size > 64 {
        bail!("no such slave, or too many bytes");
    }
    let mut room = [0; 64];
    match wire.register(position, ado, &mut room[..size]) {
        Access::Done => Ok(hex::encode(alloc, &room[..size])?),
        Access::Refused => Ok(format!(in alloc; "refused")?),
    }
}
