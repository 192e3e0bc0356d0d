//! Wires.
//!
//! - `segment JSON`: the wire of a segment file; how many slaves it has. The actions that follow are done with it.
//! - `send WAIT DATAGRAMS`: sends a frame after so many ns, and tells what comes back, or `lost`. A datagram is
//!   `COMMAND:ADP:ADO:DATA`, the numbers in hexadecimal digits, and comes back as `ADP:DATA:COUNTER`; commas stand
//!   between datagrams.
//! - `repeat TIMES WAIT DATAGRAMS`: sends the same frame so many times, and tells how many came back, and the last.
//! - `expect POSITION T`: an event comes at the latch input of a slave, in fs.
//! - `finish T`: advances all clocks.
//! - `read POSITION ADO SIZE`: what a frame would read, or `refused`.
//! - `edges POSITION`: the edges that are kept, as `0.3@1800`: signal, index and instant; `none` where there are none.
//! - `sent all`: how many frames were sent, and how many were lost.
//!
//! The answers were worked out by hand or by `tools/wire_cases.py`. They show that the definitions of `frame_pass` are the ones that are
//! meant.

mod datagrams;

use crate::station::edges_told;
use crate::wires::datagrams::{datagrams_told, frame};
use crate::words::{Words, bytes_told};
use ecat_frame::Frame;
use ecat_link::Link;
use esc_regs::Access;
use segment_file::read_segment;
use std::alloc::{AllocError, Global};
use wire_sim::Wire;

/// The answer to a case.
pub(crate) fn tell(
    alloc: Global,
    wire: &mut Option<Wire>,
    words: &mut Words<'_>,
    told: &mut String,
) -> Result<(), AllocError> {
    let what = words.next();
    if what == "segment" {
        *wire = build(alloc, words, told)?;
        return Ok(());
    }
    match wire {
        Some(wire) => act(alloc, wire, what, words, told),
        None => {
            words.refuse();
            Ok(())
        }
    }
}

// The wire of a file.
fn build(
    alloc: Global,
    words: &mut Words<'_>,
    told: &mut String,
) -> Result<Option<Wire>, AllocError> {
    let Ok(segment) = read_segment(alloc, words.last().as_bytes()) else {
        words.refuse();
        return Ok(None);
    };
    let Ok(wire) = Wire::build(alloc, &segment) else {
        return Err(AllocError);
    };
    write!(told, "slaves {}", wire.slaves())?;
    Ok(Some(wire))
}

fn act(
    alloc: Global,
    wire: &mut Wire,
    what: &str,
    words: &mut Words<'_>,
    told: &mut String,
) -> Result<(), AllocError> {
    match what {
        "send" => send(alloc, wire, words, told),
        "repeat" => repeat(alloc, wire, words, told),
        "finish" => {
            wire.finish(words.number(0, 8_000_000_000_000_000_000));
            told.push_str("-")
        }
        "expect" => expect(wire, words, told),
        "read" => read(wire, words, told),
        "edges" => edges(wire, words, told),
        "sent" => sent_told(wire, words, told),
        _ => {
            words.refuse();
            Ok(())
        }
    }
}

fn send(
    alloc: Global,
    wire: &mut Wire,
    words: &mut Words<'_>,
    told: &mut String,
) -> Result<(), AllocError> {
    let wait_ns = words.number(0, u64::MAX);
    let Some(mut frame) = frame(alloc, words)? else {
        return Ok(());
    };
    match wire.exchange(wait_ns, &mut frame) {
        Ok(()) => datagrams_told(&frame, told),
        Err(_lost) => told.push_str("lost"),
    }
}

fn repeat(
    alloc: Global,
    wire: &mut Wire,
    words: &mut Words<'_>,
    told: &mut String,
) -> Result<(), AllocError> {
    let times = words.number(0, 4_294_967_295) as u32;
    let wait_ns = words.number(0, u64::MAX);
    let Some(sent) = frame(alloc, words)? else {
        return Ok(());
    };
    let (came, last) = exchange(wire, times, wait_ns, &sent);
    if came == 0 {
        return told.push_str("lost");
    }
    write!(told, "{came} ")?;
    datagrams_told(&last, told)
}

// How many frames came back, and the last of them.
fn exchange(wire: &mut Wire, times: u32, wait_ns: u64, sent: &Frame) -> (u64, Frame) {
    let mut last = *sent;
    let mut came: u64 = 0;
    for _ in 0..times {
        let mut frame = *sent;
        if wire.exchange(wait_ns, &mut frame).is_ok() {
            came = came.saturating_add(1);
            last = frame;
        }
    }
    (came, last)
}

fn expect(wire: &mut Wire, words: &mut Words<'_>, told: &mut String) -> Result<(), AllocError> {
    let position = words.number(0, 255) as u16;
    let t = words.number(0, u64::MAX);
    if usize::from(position) >= wire.slaves() {
        words.refuse();
        return Ok(());
    }
    wire.expect_event(position, t);
    told.push_str("-")
}

fn read(wire: &Wire, words: &mut Words<'_>, told: &mut String) -> Result<(), AllocError> {
    let position = words.number(0, 255) as u16;
    let ado = words.digits();
    let size = words.number(0, 64) as usize;
    if usize::from(position) >= wire.slaves() {
        words.refuse();
        return Ok(());
    }
    let mut room = [0; 64];
    match wire.register(position, ado, &mut room[..size]) {
        Access::Done => bytes_told(&room[..size], told),
        Access::Refused => told.push_str("refused"),
    }
}

fn edges(wire: &Wire, words: &mut Words<'_>, told: &mut String) -> Result<(), AllocError> {
    let position = words.number(0, 255) as u16;
    if usize::from(position) >= wire.slaves() {
        words.refuse();
        return Ok(());
    }
    edges_told(wire.edges(position), "none", told)
}

fn sent_told(wire: &Wire, words: &mut Words<'_>, told: &mut String) -> Result<(), AllocError> {
    if words.next() != "all" {
        words.refuse();
    }
    write!(told, "sent {} lost {}", wire.sent(), wire.lost())
}
