//! Frames, links, registers, clock words, clocks and latch inputs.
//!
//! A case is a word that says what is asked, and then words, which end at a space, a colon or a comma. Bytes are
//! hexadecimal digits, or the same ones a number of times, as `07*1486`, or `-` where there are none.
//! Addresses, ADP, ADO and working counters are hexadecimal digits, all other numbers decimal. The answers were
//! worked out by hand or by `tools/frame_cases.py`, `tools/register_cases.py` and `tools/clock_cases.py`.
//!
//! - `read BYTES`: the frame that these bytes are, or why they are none.
//! - `build COMMAND:INDEX:ADP:ADO:BYTES .. / CHANGE ..`: what each datagram of a builder is answered, and how
//!   many it has; then the frame of these datagrams after some changes, each `adp:K:ADP`, `wkc:K:COUNTER`,
//!   `data:K:BYTES`, `bytes:K:AT:BYTES` or `answer:K:ADP:COUNTER:BYTES` of datagram K.
//! - `differ BYTES BYTES`: the first byte at which the second frame differs from the first, or `-`.
//! - `link REPLY ..`: a frame for each reply, and two more, over a link that answers so: `lose`, `echo` or
//!   `give:ADO`. Each answer is followed by the ADO in the frame and the number of lost frames.
//! - `file KIND ACTION ..`: a register file as it starts, of kind `none`, `c32`, `c64` or `r32`, and then
//!   what is done with it, with a word for each action (`actions.rt`).
//! - `names`: the address and the bytes of each name.
//! - `moved WIDTH TIME NS`: the word of a time that is moved on by so many ns: its number, its low half, and
//!   how far it came.
//! - `moved_back WIDTH TIME NS`: the same, back.
//! - `ahead WIDTH TIME TIME`: how far the first word is ahead.
//! - `extend LOW TIME`: the low half made a time near another one.
//! - `ticks PHASE PERIOD RATES T ..`: how many ticks of an oscillator there are at or before each time. The
//!   phase and the period are in fs, and the rates as `10:10001000,50:9999000`; where there are none, `-` is for
//!   `Osc::new` and `none` for `Osc::with_rates`.
//! - `instants PHASE PERIOD RATES TICK ..`: when each tick is.
//! - `clock WIDTH PHASE PERIOD RATES START G KEEP ACTION ..`: a clock of 32 or 64 bits that starts so, with a
//!   SYNC unit that is not armed and a list that keeps so many edges, and then what is done with them, with
//!   a word for each action (`station.rt`).
//! - `latch WIDTH PHASE PERIOD RATES START G ACTION ..`: a clock that starts so, with a latch unit that expects
//!   nothing, and then what is done with them, with a word for each action (`latches.rt`).

use crate::actions::actions;
use crate::build::built;
use crate::clock_words::{ahead, extended, moved, moved_back};
use crate::latches::latch;
use crate::links::exchanges;
use crate::names::places_told;
use crate::oscillators::{instants, ticks};
use crate::read::{difference, read};
use crate::station::clock;
use crate::words::Words;
use std::alloc::{AllocError, Global};

/// The answer to a case.
pub(crate) fn tell(
    alloc: Global,
    words: &mut Words<'_>,
    told: &mut String,
) -> Result<(), AllocError> {
    match words.next() {
        "read" => read(alloc, words, told),
        "build" => built(alloc, words, told),
        "differ" => difference(alloc, words, told),
        "link" => exchanges(alloc, words, told),
        "file" => actions(alloc, words, told),
        "names" => places_told(told),
        what => tell_time(alloc, what, words, told),
    }
}

// The answer to a case of ticks, clocks or clock words.
fn tell_time(
    alloc: Global,
    what: &str,
    words: &mut Words<'_>,
    told: &mut String,
) -> Result<(), AllocError> {
    match what {
        "ticks" => ticks(alloc, words, told),
        "instants" => instants(alloc, words, told),
        "clock" => clock(alloc, words, told),
        "latch" => latch(alloc, words, told),
        "moved" => moved(words, told),
        "moved_back" => moved_back(words, told),
        "ahead" => ahead(words, told),
        "extend" => extended(words, told),
        _ => {
            words.refuse();
            Ok(())
        }
    }
}
