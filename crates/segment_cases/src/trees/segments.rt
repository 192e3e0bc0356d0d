ghost use Rattle.std.specs.Prelude.{◌<◌, length};

use crate::words::Words;
use segment_bounds::{Signal, copy_bound, delay_bound, true_delay, window, window_between};
use segment_file::{Segment, has_clock, read_segment};
use std::alloc::{AllocError, Global};

/// The bounds of each row of a file, and its greatest window.
pub(crate) fn segment_told(
    alloc: Global,
    words: &mut Words<'_>,
    told: &mut String,
) -> Result<(), AllocError> {
    match read_segment(alloc, words.last().as_bytes()) {
        Ok(segment) => bounds_told(&segment, told),
        Err(_) => {
            words.refuse();
            Ok(())
        }
    }
}

fn bounds_told(segment: &Segment, told: &mut String) -> Result<(), AllocError> {
    write!(told, "window {}", window(segment))?;
    for (row, slave) in segment.rows().iter().enumerate() {
        if has_clock(slave.kind) {
            clock_told(segment, row as u16, told)?;
        } else {
            told.push_str(" -")?;
        }
    }
    Ok(())
}

fn clock_told(segment: &Segment, row: u16, told: &mut String) -> Result<(), AllocError>
    requires { row < length segment.now.rows }
{
    let (bound, delay) = (delay_bound(segment, row), true_delay(segment, row));
    write!(told, " {bound} {delay} {}", copy_bound(segment, row))
}

/// The window of two signals of a file.
pub(crate) fn between(
    alloc: Global,
    words: &mut Words<'_>,
    told: &mut String,
) -> Result<(), AllocError> {
    let (a, b) = (signal(words), signal(words));
    match read_segment(alloc, words.last().as_bytes()) {
        Ok(segment) => window_told(&segment, a, b, words, told),
        Err(_) => {
            words.refuse();
            Ok(())
        }
    }
}

fn signal(words: &mut Words<'_>) -> Signal {
    Signal {
        row: words.number(0, 255) as u16,
        shift_ns: words.number(0, 4_294_967_295) as u32,
    }
}

fn window_told(
    segment: &Segment,
    a: Signal,
    b: Signal,
    words: &mut Words<'_>,
    told: &mut String,
) -> Result<(), AllocError> {
    let slaves = segment.rows().len();
    if usize::from(a.row) >= slaves || usize::from(b.row) >= slaves {
        words.refuse();
        return Ok(());
    }
    write!(told, "{}", window_between(segment, a, b))
}
