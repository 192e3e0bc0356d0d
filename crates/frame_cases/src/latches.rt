//! A clock with the unit of latch input 0, and what is done with them:
//!
//! - `receive:D`, `expect:T`: `-`.
//! - `sample:T:OFFSET`: the stamp that the ticks up to T bring, or `none`; the clock is advanced there.

use crate::station::started;
use crate::words::Words;
use latch_unit::LatchUnit;
use local_clock::LocalClock;
use std::alloc::{AllocError, Global};
use wrap_time::{ClockWord, T32, T64};

/// What a latch input at a clock of 32 or 64 bits answers.
pub(crate) fn latch(
    alloc: Global,
    words: &mut Words<'_>,
    told: &mut String,
) -> Result<(), AllocError> {
    match words.next() {
        "32" => samples::<T32>(alloc, words, told),
        "64" => samples::<T64>(alloc, words, told),
        _ => {
            words.refuse();
            Ok(())
        }
    }
}

fn samples<W: ClockWord>(
    alloc: Global,
    words: &mut Words<'_>,
    told: &mut String,
) -> Result<(), AllocError> {
    let Some(mut clock) = started::<W>(alloc, words)? else {
        return told.push_str("no oscillator");
    };
    told.push_str("latch")?;
    act_all(words, &mut clock, told)
}

fn act_all<W: ClockWord>(
    words: &mut Words<'_>,
    clock: &mut LocalClock<W>,
    told: &mut String,
) -> Result<(), AllocError> {
    let mut unit = LatchUnit::new();
    for _action in 0..words.most() {
        if words.is_empty() {
            break;
        }
        told.push_str(" ")?;
        act(words, clock, &mut unit, told)?;
    }
    Ok(())
}

fn act<W: ClockWord>(
    words: &mut Words<'_>,
    clock: &mut LocalClock<W>,
    unit: &mut LatchUnit<W>,
    told: &mut String,
) -> Result<(), AllocError> {
    match words.next() {
        "receive" => clock.receive(words.difference()),
        "expect" => unit.expect(words.number(0, u64::MAX)),
        "sample" => return sample(words, clock, unit, told),
        _ => words.refuse(),
    }
    told.push_str("-")
}

fn sample<W: ClockWord>(
    words: &mut Words<'_>,
    clock: &mut LocalClock<W>,
    unit: &mut LatchUnit<W>,
    told: &mut String,
) -> Result<(), AllocError> {
    let t = words.number(clock.now(), u64::MAX);
    let offset = W::cut(words.number(0, u64::MAX));
    let stamp = unit.sample(clock, offset, t);
    clock.advance(t);
    match stamp {
        Some(stamp) => write!(told, "{}", stamp.value()),
        None => told.push_str("none"),
    }
}
