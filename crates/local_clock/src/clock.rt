ghost use Rattle.std.specs.Prelude.{◌≡◌, ℕ, ◌+◌, ◌^◌, ◌<◌, ◌≤◌, pos, ⊤, IfSome, unsigned_abs};
ghost use Rattle.local_clock.specs.Reading.{advanced, corrected, reset_to, started, steering_of, ticks_to};
ghost use Rattle.local_clock.specs.WorkedOff.{IsSteady};
ghost use Rattle.osc_clock.specs.Ticks.{IsRunning};
ghost use Rattle.local_clock.specs.FirstReaching.{IsFirstReaching, tick_after, within_time};

use crate::steps::{share, ticked, ticks_to_pass};
use osc_clock::{Osc, Ticker};
use std::alloc::AllocError;
use std::marker::Model;
use wrap_time::ClockWord;

/// A clock that an oscillator drives, standing at a true time. It is `Copy`, so that a caller may look
/// ahead on a copy of it.
#[derive(Copy)]
pub struct LocalClock<W: ClockWord> {
    ticker: Ticker,
    reading: W,
    // What is left of the received difference, in ns, and the ticks since the last correction.
    left: i64,
    count: u8,
    // How many ticks there are to a correction.
    g: u8,
    // What ticks are multiplied by, so that corrections are counted with no division by g.
    share: u64,
}

impl<W: ClockWord> Model for LocalClock<W> {
    ghost use Rattle.local_clock.specs.Reading.{Clock};
    ghost use Rattle.local_clock.specs.InsideClock.{value_of, inside_of, IsKept};

    ghost Value = { Clock };

    ghost view = { value_of W.number };

    ghost invariant = { IsKept W.number W.word };

    ghost inverse = { inside_of W.word };

    ghost use Rattle.std.proofs.Common.{ap₂, sym};

    ghost inverse_ok = { λ a h. ap₂ (λ r m. record a { reading = r; share = m }) h.3 (sym h.4) };
}

impl<W: ClockWord> Clone for LocalClock<W> {
    ghost is_clone = { λ x y. y ≡ x };

    ghost is_infallible = { λ _. ⊤ };

    fn clone(&self) -> Result<Self, AllocError> {
        Ok(*self)
    }
}

impl<W: ClockWord> LocalClock<W> {
    /// A clock at true time 0 that shows `start`, in ns, and has nothing to correct. `g` is how many ticks there are
    /// to a correction.
    pub fn new(osc: Osc, start: W, g: u8) -> Self
        requires { 1 ≤ g }
        ensures { result ≡ started osc (W.number start) g }
    {
        LocalClock {
            ticker: Ticker::new(osc),
            reading: start,
            left: 0,
            count: 0,
            g,
            share: share(g),
        }
    }

    /// The oscillator that drives it.
    pub fn osc(&self) -> &Osc
        ensures { result.now ≡ self.now.osc }
    {
        self.ticker.osc()
    }

    /// The true time at which it stands, in fs.
    pub fn now(&self) -> u64
        ensures { result ≡ self.now.instant }
    {
        self.ticker.now()
    }

    /// The local time, in ns.
    pub fn reading(&self) -> W
        ensures { W.number result ≡ self.now.reading }
    {
        self.reading
    }

    /// What is left of the received difference, in ns: above 0 while the clock is ahead and runs slower.
    pub fn left(&self) -> i64
        ensures { result ≡ self.now.left }
    {
        self.left
    }

    /// Nothing to run: it says for proofs in which ranges every clock stays.
    pub fn in_range(&self)
        ensures steady { IsSteady self.now.g (steering_of self.now) }
        ensures left { unsigned_abs self.now.left ≤ 2 ^ 31 }
        ensures word { self.now.reading < 2 ^ W.WIDTH }
        ensures running { IsRunning self.now.osc }
    {
        let _ = self.reading.value();
    }

    /// The true time of the next tick, in fs; `None` where that is above 2^64 - 1.
    pub fn next_tick(&self) -> Option<u64>
        ensures at { result ≡ within_time (tick_after self.now 1) }
        ensures later { IfSome result (λ t. self.now.instant < t) }
        ensures running { IsRunning self.now.osc }
    {
        self.instant_after(1)
    }

    /// How many ticks come after its instant and at or before the true time `t`, in fs.
    pub fn ticks_to(&self, t: u64) -> u64
        requires { self.now.instant ≤ t }
        ensures number { result ≡ ticks_to self.now t }
        ensures running { IsRunning self.now.osc }
    {
        self.ticker.ticks_to(t)
    }

    /// Takes the ticks after its instant and at or before the true time `t`, in fs, and stands at `t`.
    pub fn advance(&mut self, t: u64)
        requires { self.old.instant ≤ t }
        ensures is { self.new ≡ advanced W.WIDTH t self.old }
        ensures running { IsRunning self.new.osc }
    {
        self.advance_by(self.ticks_to(t), t);
    }

    /// The same, where the number of these ticks is known.
    pub fn advance_by(&mut self, ticks: u64, t: u64)
        requires later { self.old.instant ≤ t }
        requires number { ticks ≡ ticks_to self.old t }
        ensures is { self.new ≡ advanced W.WIDTH t self.old }
        ensures running { IsRunning self.new.osc }
    {
        let (elapsed, left, count) = ticked(self.left, self.count, self.g, self.share, ticks);
        self.reading = self.reading.add((elapsed % (1 << 64)) as u64);
        self.left = left;
        self.count = count;
        self.ticker.pass(ticks, t);
    }

    /// Begins to work off a difference, in ns: above 0 where the clock is ahead.
    pub fn receive(&mut self, difference: i32)
        ensures { self.new ≡ corrected difference self.old }
    {
        self.left = i64::from(difference);
        self.count = 0;
    }

    /// Drops what is left to correct, and sets how many ticks there are to a correction.
    pub fn reset(&mut self, g: u8)
        requires { 1 ≤ g }
        ensures { self.new ≡ reset_to g self.old }
    {
        self.left = 0;
        self.count = 0;
        self.g = g;
        self.share = share(g);
    }

    /// The true time, in fs, of the first tick from now at which the reading is not behind `v`, where
    /// nothing is received in between; `None` where that is above 2^64 - 1.
    pub fn first_reaching(&self, v: W) -> Option<u64>
        ensures at { (k : ℕ) × (IsFirstReaching W.WIDTH (W.number v) self.now k × (result ≡ within_time (tick_after self.now k))) }
        ensures later { IfSome result (λ t. self.now.instant < t) }
        ensures running { IsRunning self.now.osc }
    {
        let (step, _, _) = ticked(self.left, self.count, self.g, self.share, 1);
        let ahead = self.reading.add(step as u64).diff(v);
        if ahead >= 0 {
            return self.instant_after(1);
        }
        let gap = step as u64 + ahead.unsigned_abs();
        self.instant_after(ticks_to_pass(self.left, self.count, self.g, self.share, gap))
    }

    // The true time of the k-th tick from now, in fs; `None` where that is above 2^64 - 1.
    fn instant_after(&self, k: u64) -> Option<u64>
        requires { 1 ≤ k }
        ensures at { result ≡ within_time (tick_after self.now k) }
        ensures later { IfSome result (λ t. self.now.instant < t) }
        ensures running { IsRunning self.now.osc }
    {
        let tick = self.ticker.ticks().checked_add(k)?;
        u64::try_from(self.ticker.osc().instant_of(tick)).ok()
    }
}
