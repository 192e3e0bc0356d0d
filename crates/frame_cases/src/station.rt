//! A clock with a SYNC unit and its list, and what is done with them:
//!
//! - `receive:D`, `reset:G`: `-`.
//! - `advance:T`: what the clock then shows, and what is left, as `70/-2`.
//! - `next`, `first:V`: when the next tick is, and the first at which the clock is not behind V.
//! - `arm:START:CYCLE:SYNC1`, SYNC1 being `-` where there is none, `disarm`, `clear`: `-`.
//! - `due`: when SYNC0 is next due.
//! - `edges:T:OFFSET`: raises the edges up to T and advances the clock there; `-`.
//! - `list`: the edges that are kept, as `0.3@1800`: signal, index and instant.

use crate::oscillators::oscillator;
use crate::words::Words;
use local_clock::LocalClock;
use std::alloc::{AllocError, Global};
use sync_units::{Edge, EdgeList, Signal, SyncUnit};
use wrap_time::{ClockWord, T32, T64};

/// What a clock of 32 or 64 bits answers.
pub(crate) fn clock(
    alloc: Global,
    words: &mut Words<'_>,
    told: &mut String,
) -> Result<(), AllocError> {
    match words.next() {
        "32" => actions::<T32>(alloc, words, told),
        "64" => actions::<T64>(alloc, words, told),
        _ => {
            words.refuse();
            Ok(())
        }
    }
}

fn actions<W: ClockWord>(
    alloc: Global,
    words: &mut Words<'_>,
    told: &mut String,
) -> Result<(), AllocError> {
    let Some(mut clock) = started::<W>(alloc, words)? else {
        return told.push_str("no oscillator");
    };
    let Ok(mut list) = EdgeList::new(alloc, words.number(0, 100_000) as u32) else {
        return Err(AllocError);
    };
    told.push_str("clock")?;
    act_all(words, &mut clock, &mut list, told)
}

/// The clock that comes next in a case, as it starts.
pub(crate) fn started<W: ClockWord>(
    alloc: Global,
    words: &mut Words<'_>,
) -> Result<Option<LocalClock<W>>, AllocError> {
    let Some(osc) = oscillator(alloc, words)? else {
        words.skip_all();
        return Ok(None);
    };
    let start = W::cut(words.number(0, u64::MAX));
    let speed = words.number(1, 255) as u8;
    Ok(Some(LocalClock::new(osc, start, speed)))
}

fn act_all<W: ClockWord>(
    words: &mut Words<'_>,
    clock: &mut LocalClock<W>,
    list: &mut EdgeList,
    told: &mut String,
) -> Result<(), AllocError> {
    let mut unit = SyncUnit::new();
    for _action in 0..words.most() {
        if words.is_empty() {
            break;
        }
        told.push_str(" ")?;
        act(words, clock, &mut unit, list, told)?;
    }
    Ok(())
}

fn act<W: ClockWord>(
    words: &mut Words<'_>,
    clock: &mut LocalClock<W>,
    unit: &mut SyncUnit<W>,
    list: &mut EdgeList,
    told: &mut String,
) -> Result<(), AllocError> {
    match words.next() {
        "receive" => clock.receive(words.difference()),
        "reset" => clock.reset(words.number(1, 255) as u8),
        "arm" => arm(words, unit),
        "disarm" => unit.disarm(),
        "edges" => raise(words, clock, unit, list),
        "clear" => list.clear(),
        asked => return tell(asked, words, clock, unit, list, told),
    }
    told.push_str("-")
}

fn tell<W: ClockWord>(
    asked: &str,
    words: &mut Words<'_>,
    clock: &mut LocalClock<W>,
    unit: &SyncUnit<W>,
    list: &EdgeList,
    told: &mut String,
) -> Result<(), AllocError> {
    match asked {
        "advance" => advance(words, clock, told),
        "next" => number_told(clock.next_tick(), told),
        "first" => first_told(words, clock, told),
        "due" => due_told(unit, told),
        "list" => edges_told(list.edges(), "empty", told),
        _ => {
            words.refuse();
            Ok(())
        }
    }
}

fn advance<W: ClockWord>(
    words: &mut Words<'_>,
    clock: &mut LocalClock<W>,
    told: &mut String,
) -> Result<(), AllocError> {
    clock.advance(words.number(clock.now(), u64::MAX));
    write!(told, "{}/{}", clock.reading().value(), clock.left())
}

fn first_told<W: ClockWord>(
    words: &mut Words<'_>,
    clock: &LocalClock<W>,
    told: &mut String,
) -> Result<(), AllocError> {
    let value = W::cut(words.number(0, u64::MAX));
    number_told(clock.first_reaching(value), told)
}

fn due_told<W: ClockWord>(unit: &SyncUnit<W>, told: &mut String) -> Result<(), AllocError> {
    match unit.next_due() {
        Some(due) => write!(told, "{}", due.value()),
        None => told.push_str("none"),
    }
}

fn number_told(number: Option<u64>, told: &mut String) -> Result<(), AllocError> {
    match number {
        Some(number) => write!(told, "{number}"),
        None => told.push_str("none"),
    }
}

fn arm<W: ClockWord>(words: &mut Words<'_>, unit: &mut SyncUnit<W>) {
    let start = W::cut(words.number(0, u64::MAX));
    let cycle = words.number(1_000, 4_294_967_295) as u32;
    match words.number_or_none() {
        None => unit.arm(start, cycle, None),
        Some(time) if 1 <= time && time < u64::from(cycle) => {
            unit.arm(start, cycle, Some(time as u32))
        }
        _ => words.refuse(),
    }
}

fn raise<W: ClockWord>(
    words: &mut Words<'_>,
    clock: &mut LocalClock<W>,
    unit: &mut SyncUnit<W>,
    list: &mut EdgeList,
) {
    let t = words.number(clock.now(), u64::MAX);
    let offset = W::cut(words.number(0, u64::MAX));
    unit.edges_until(clock, offset, t, list);
    clock.advance(t);
}

/// Writes edges, or this word where there are none.
pub(crate) fn edges_told(edges: &[Edge], none: &str, told: &mut String) -> Result<(), AllocError> {
    if edges.is_empty() {
        return told.push_str(none);
    }
    let mut comma = "";
    for edge in edges {
        told.push_str(comma)?;
        edge_told(edge, told)?;
        comma = ",";
    }
    Ok(())
}

fn edge_told(edge: &Edge, told: &mut String) -> Result<(), AllocError> {
    told.push_str(match edge.signal {
        Signal::Sync0 => "0.",
        Signal::Sync1 => "1.",
    })?;
    write!(told, "{}@{}", edge.index, edge.time_fs)
}
