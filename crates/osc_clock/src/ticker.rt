ghost use Rattle.std.specs.Prelude.{◌≡◌, ◌+◌, ◌/◌, ◌≤◌};
ghost use Rattle.osc_clock.specs.Ticks.{IsRunning, instant, ticks};
ghost use Rattle.osc_clock.specs.Standing.{ticks_to, share_of};

use crate::osc::Osc;
use std::marker::Model;

/// An oscillator that stands at a true time, from which it counts its next ticks. Mostly they are a period
/// apart: then its rows are not gone over, and nothing is divided.
#[derive(Clone, Copy, Debug, PartialEq, Eq)]
pub struct Ticker {
    osc: Osc,
    // The true time at which it stands, in fs.
    instant: u64,
    // The number of the last tick until the instant, 0 where there is none, and the time since then, in fs.
    tick: u64,
    since: u64,
    // The time from that tick to the next, in fs. So many ticks from it on have the same one after them.
    period: u64,
    steady: u64,
    // What times are multiplied by in place of a division by the period.
    share: u64,
}

impl Model for Ticker {
    ghost use Rattle.osc_clock.specs.Standing.{Standing};

    ghost Value = { Standing };

    ghost use Rattle.osc_clock.specs.InsideTicker.{value_of, inside_of, IsKept, inside_of-value_of};

    ghost view = { value_of };

    ghost invariant = { IsKept };

    ghost inverse = { inside_of };

    ghost inverse_ok = { inside_of-value_of };
}

impl Ticker {
    /// The oscillator at true time 0.
    pub fn new(osc: Osc) -> Ticker
        ensures { result ≡ record { osc = osc; instant = 0 } }
    {
        let phase = osc.phase();
        Ticker {
            osc,
            instant: 0,
            tick: 0,
            since: 0,
            period: phase,
            steady: 1,
            share: share(phase),
        }
    }

    /// The oscillator that ticks.
    pub fn osc(&self) -> &Osc
        ensures { result.now ≡ self.now.osc }
    {
        &self.osc
    }

    /// The true time at which it stands, in fs.
    pub fn now(&self) -> u64
        ensures { result ≡ self.now.instant }
    {
        self.instant
    }

    /// How many ticks are at or before its instant.
    pub fn ticks(&self) -> u64
        ensures { result ≡ ticks self.now.osc self.now.instant }
    {
        self.tick
    }

    /// How many ticks come after its instant and at or before the true time `t`, in fs.
    pub fn ticks_to(&self, t: u64) -> u64
        requires { self.now.instant ≤ t }
        ensures number { result ≡ ticks_to self.now t }
        ensures running { IsRunning self.now.osc }
    {
        let ticks = periods_in(self.since + (t - self.instant), self.period, self.share);
        if ticks < self.steady {
            ticks
        } else {
            self.count_to(t)
        }
    }

    // The same, whatever the periods.
    #[cold]
    #[inline(never)]
    fn count_to(&self, t: u64) -> u64
        requires { self.now.instant ≤ t }
        ensures { result ≡ ticks_to self.now t }
    {
        self.osc.ticks_until(t) - self.tick
    }

    /// Stands at the true time `t`, in fs, from now on, where the number of the ticks until then is known.
    pub fn pass(&mut self, ticks: u64, t: u64)
        requires later { self.old.instant ≤ t }
        requires number { ticks ≡ ticks_to self.old t }
        ensures { self.new ≡ record self.old { instant = t } }
    {
        if ticks < self.steady {
            self.since = self.since + (t - self.instant) - ticks * self.period;
            self.instant = t;
            self.tick += ticks;
            self.steady -= ticks;
        } else {
            let tick = self.tick + ticks;
            self.stand_at(tick, t);
        }
    }

    // The same, where this tick is the last one until then, and the period may be another one.
    #[cold]
    #[inline(never)]
    fn stand_at(&mut self, tick: u64, t: u64)
        requires some { 1 ≤ tick }
        requires last { tick ≡ ticks self.old.osc t }
        ensures { self.new ≡ record self.old { instant = t } }
    {
        let (period, until) = self.osc.steady_from(tick);
        self.steady = until.saturating_sub(tick);
        self.since = since(&self.osc, tick, t);
        self.instant = t;
        self.tick = tick;
        self.period = period;
        self.share = share(period);
    }
}

// The time from a tick to the true time `t`, in fs.
fn since(osc: &Osc, tick: u64, t: u64) -> u64
    requires some { 1 ≤ tick }
    requires before { instant osc.now tick ≤ t }
    ensures { instant osc.now tick + result ≡ t }
{
    t - osc.instant_of(tick) as u64
}

// What times, in fs, are multiplied by in place of a division by a period.
fn share(period: u64) -> u64
    requires { 1 ≤ period }
    ensures { result ≡ share_of period }
{
    u64::MAX / period
}

// How many whole periods a time has.
fn periods_in(time: u64, period: u64, share: u64) -> u64
    requires some { 1 ≤ period }
    requires share { share ≡ share_of period }
    ensures { result ≡ time / period }
{
    // The rounding of the share takes off one at most.
    let least = (u128::from(time) * u128::from(share) / (1 << 64)) as u64;
    if time - least * period < period {
        least
    } else {
        least + 1
    }
}
