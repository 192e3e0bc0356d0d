use crate::words::Words;
use std::alloc::AllocError;
use wrap_time::{ClockWord, T32, T64, extend};

/// The word of a time that is moved on: its number, its low half, and how far it came.
pub(crate) fn moved(words: &mut Words<'_>, told: &mut String) -> Result<(), AllocError> {
    let (is_wide, time, ns) = question(words);
    if is_wide {
        moved_told(T64::cut(time), T64::cut(time).add(ns), told)
    } else {
        moved_told(T32::cut(time), T32::cut(time).add(ns), told)
    }
}

/// The same for a time that is moved back.
pub(crate) fn moved_back(words: &mut Words<'_>, told: &mut String) -> Result<(), AllocError> {
    let (is_wide, time, ns) = question(words);
    if is_wide {
        moved_told(T64::cut(time), T64::cut(time).sub(ns), told)
    } else {
        moved_told(T32::cut(time), T32::cut(time).sub(ns), told)
    }
}

/// How far the word of a time is ahead of that of another one.
pub(crate) fn ahead(words: &mut Words<'_>, told: &mut String) -> Result<(), AllocError> {
    let (is_wide, time, other) = question(words);
    if is_wide {
        write!(told, "{}", T64::cut(time).diff(T64::cut(other)))
    } else {
        write!(told, "{}", T32::cut(time).diff(T32::cut(other)))
    }
}

/// The time near another one that has this low half.
pub(crate) fn extended(words: &mut Words<'_>, told: &mut String) -> Result<(), AllocError> {
    let (low, near) = (words.number(0, u64::MAX), words.number(0, u64::MAX));
    write!(told, "{}", extend(T32::cut(low), near))
}

// Whether the words are wide, 64 and not 32, and two numbers.
fn question(words: &mut Words<'_>) -> (bool, u64, u64) {
    let is_wide = match words.next() {
        "32" => false,
        "64" => true,
        _ => {
            words.refuse();
            false
        }
    };
    let (time, number) = (words.number(0, u64::MAX), words.number(0, u64::MAX));
    (is_wide, time, number)
}

fn moved_told<W: ClockWord>(start: W, end: W, told: &mut String) -> Result<(), AllocError> {
    let (number, low, came) = (end.value(), end.low().value(), end.diff(start));
    write!(told, "{number} {low} {came}")
}
