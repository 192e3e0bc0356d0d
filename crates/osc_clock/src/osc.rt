ghost use Rattle.std.specs.Prelude.{◌≡◌, ℕ, ◌+◌, ◌*◌, ◌^◌, ◌<◌, ◌≤◌, ◌⊎◌, ◌↔◌, [], length, IsNone, IfSome, IsSome};
ghost use Rattle.osc_clock.specs.Ticks.{Oscillator, AreRising, IsRunning, gap, instant, ticks};
ghost use Rattle.osc_clock.specs.Standing.{steady_until};

use crate::rate_row::{MAX_RATES, RateRow, are_rising, in_array};
use std::marker::Model;

/// An oscillator: its first tick, the time between ticks, and how that time changes. Times are true times, in fs.
// Behind its rows the array has zeros, so that equal oscillators are equal arrays.
#[derive(Clone, Copy, Debug, PartialEq, Eq)]
pub struct Osc {
    phase: u64,
    period: u64,
    rows: [RateRow; MAX_RATES],
    count: usize,
}

impl Model for Osc {
    ghost use Rattle.osc_clock.specs.Ticks.{Oscillator};
    ghost use Rattle.osc_clock.specs.InsideOsc.{value_of, inside_of, IsKept, inside_of-value_of};

    ghost Value = { Oscillator };

    ghost view = { value_of };

    ghost invariant = { IsKept };

    ghost inverse = { inside_of };

    ghost inverse_ok = { inside_of-value_of };
}

impl Osc {
    /// The oscillator with its first tick at `phase` and another one each `period`, both in fs. None
    /// where it would not tick first within its first period.
    pub fn new(phase: u64, period: u64) -> Option<Osc>
        ensures none { IsNone result ↔ ((phase ≡ 0) ⊎ (period < phase)) }
        ensures some { IfSome result (λ o. o ≡ record { phase = phase; period = period; rates = [] }) }
    {
        Osc::with_rates(phase, period, &[])
    }

    /// The same, with a period that changes. None also where there are more than 64 rows, a row's
    /// tick is 0 or not above that of the row before, or a row's period is 0.
    pub fn with_rates(phase: u64, period: u64, rates: &[RateRow]) -> Option<Osc>
        ensures none { IsNone result
            ↔ ((phase ≡ 0) ⊎ (period < phase) ⊎ (64 < length rates.now) ⊎ ¬ AreRising 0 rates.now) }
        ensures running { IsSome result
            ↔ IsRunning (record { phase = phase; period = period; rates = rates.now }) }
        ensures some { IfSome result
            (λ o. o ≡ record { phase = phase; period = period; rates = rates.now }) }
    {
        if phase == 0 || phase > period || rates.len() > MAX_RATES || !are_rising(rates) {
            return None;
        }
        Some(Osc {
            phase,
            period,
            rows: in_array(rates),
            count: rates.len(),
        })
    }

    /// How many ticks are at or before the true time `t`, in fs. It goes over the rows, and divides
    /// once for each.
    pub fn ticks_until(&self, t: u64) -> u64
        ensures number { result ≡ ticks self.now t }
        ensures running { IsRunning self.now }
    {
        if t < self.phase {
            return 0;
        }
        // `left` is the time from tick `tick` to `t`. A row's time is computed only where its tick is
        // reached, so that it fits 64 bits.
        let mut left = t - self.phase;
        let mut tick = 1;
        let mut period = self.period;
        for row in &self.rows[..self.count] {
            let reached = tick + left / period;
            if reached < row.tick {
                return reached;
            }
            left -= (row.tick - tick) * period;
            tick = row.tick;
            period = row.period_fs;
        }
        tick + left / period
    }

    /// The true time of a tick, in fs; the first has number 1. It goes over the rows, and multiplies
    /// once for each.
    pub fn instant_of(&self, tick: u64) -> u128
        requires { 1 ≤ tick }
        ensures { result ≡ instant self.now tick }
    {
        let mut at = u128::from(self.phase);
        let mut reached = 1;
        let mut period = self.period;
        for row in &self.rows[..self.count] {
            if tick < row.tick {
                break;
            }
            at = after(at, row.tick - reached, period);
            reached = row.tick;
            period = row.period_fs;
        }
        after(at, tick - reached, period)
    }

    /// The true time of the first tick, in fs.
    pub(crate) fn phase(&self) -> u64
        ensures is { result ≡ self.now.phase }
        ensures running { IsRunning self.now }
    {
        self.phase
    }

    /// The time from a tick to the next, in fs, and the tick of the row that comes then: before it the times stay
    /// so. Where no row comes, that is 2^64 - 1.
    pub(crate) fn steady_from(&self, tick: u64) -> (u64, u64)
        requires { 1 ≤ tick }
        ensures period { result.0 ≡ gap self.now tick }
        ensures until { result.1 ≡ steady_until self.now tick }
    {
        let mut period = self.period;
        for row in &self.rows[..self.count] {
            if tick < row.tick {
                return (period, row.tick);
            }
            period = row.period_fs;
        }
        (period, u64::MAX)
    }
}

/// The instant so many ticks after `at`, all a period apart, in fs.
fn after(at: u128, ticks: u64, period: u64) -> u128
    requires { at + ticks * period < 2 ^ 128 }
    ensures { result ≡ at + ticks * period }
{
    at + u128::from(ticks) * u128::from(period)
}
