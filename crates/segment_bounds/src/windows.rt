ghost use Rattle.std.specs.Prelude.{◌≡◌, ◌*◌, ◌<◌, ◌≤◌, length};
ghost use Rattle.std.specs.List.{All};
ghost use Rattle.segment_bounds.specs.Bounded.{IsSmall, bounded_window};
ghost use Rattle.segment_bounds.specs.Window.{greatest, greatest_with, window_between, window_of, window_within};

use crate::bounded::{Bounded, signals_of};
use crate::bounds::copy_bound;
use crate::signal::Signal;
use segment_file::Segment;

// W of two signals whose clocks have the copy bounds `x` and `y`, 0 for two of one slave.
fn window_within(ppm: u32, a: Signal, x: u128, b: Signal, y: u128) -> u128
    requires ppm { ppm ≤ 100 }
    requires bounds { (x ≤ 10000000000000) × (y ≤ 10000000000000) }
    ensures { result ≡ window_within ppm a x b y }
{
    if a.row == b.row {
        return 0;
    }
    dc_bounds::window(ppm, u64::from(a.shift_ns.abs_diff(b.shift_ns)), x, y)
}

/// W of two signals: how far apart their edges of one index can be, their shifts taken off, once the
/// clocks are together (fs). It is 0 for two signals of one slave.
pub fn window_between(segment: &Segment, a: Signal, b: Signal) -> u128
    requires rows { (a.row < length segment.now.rows) × (b.row < length segment.now.rows) }
    ensures { result ≡ window_between segment.now a b }
{
    let x = copy_bound(segment, a.row);
    let y = copy_bound(segment, b.row);
    window_within(segment.ppm(), a, x, b, y)
}

// The greatest window of a signal and some others.
#[tactic(auto, unfolding(crate::specs::Window::greatest_with))]
fn greatest_with(ppm: u32, signal: &Bounded, others: &[Bounded]) -> u128
    requires ppm { ppm ≤ 100 }
    requires signal { IsSmall signal.now }
    requires others { All IsSmall others.now }
    ensures { result ≡ greatest_with (bounded_window ppm) signal.now others.now }
{
    let mut greatest = 0;
    for other in others {
        let window = window_within(
            ppm,
            signal.signal,
            signal.bound_fs,
            other.signal,
            other.bound_fs,
        );
        greatest = window.max(greatest);
    }
    greatest
}

// The greatest window of all pairs.
#[tactic(auto, unfolding(crate::specs::Window::greatest))]
fn greatest(ppm: u32, signals: &[Bounded]) -> u128
    requires ppm { ppm ≤ 100 }
    requires signals { All IsSmall signals.now }
    ensures { result ≡ greatest (bounded_window ppm) signals.now }
{
    let mut greatest = 0;
    for (place, signal) in signals.iter().enumerate() {
        greatest = greatest_with(ppm, signal, &signals[place + 1..]).max(greatest);
    }
    greatest
}

/// The greatest W of two signals of different slaves (fs). It is 0 where no two slaves have a signal.
pub fn window(segment: &Segment) -> u128
    ensures { result ≡ window_of segment.now }
{
    greatest(segment.ppm(), &signals_of(segment))
}
