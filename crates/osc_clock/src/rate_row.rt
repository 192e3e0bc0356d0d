ghost use Rattle.std.specs.Prelude.{◌≡◌, ◌≤◌, ◌↔◌, length, IsTrue};
ghost use Rattle.osc_clock.specs.Ticks.{AreRising};
ghost use Rattle.osc_clock.specs.InsideOsc.{in_array};

use arrayvec::ArrayVec;
use std::marker::Model;

/// The most changes of period that an oscillator has.
pub(crate) const MAX_RATES: usize = 64;

/// The changes of an oscillator's period, in the order of their ticks.
pub type RateList = ArrayVec<RateRow, MAX_RATES>;

/// A change of an oscillator's period: each tick after number `tick` comes `period_fs` after the one
/// before, until the next row. Contracts see it as the `Rate` of `specs/Ticks.antt`.
#[derive(Clone, Copy, Debug, Default, PartialEq, Eq)]
pub struct RateRow {
    /// The number of the tick: from 1 on, and above that of the row before.
    pub tick: u64,
    /// The period from there on, in fs; not 0.
    pub period_fs: u64,
}

impl Model for RateRow {
    ghost use Rattle.osc_clock.specs.Ticks.{Rate};

    ghost Value = { Rate };

    ghost view = { λ a. record { tick = a.tick; period = a.period_fs } };

    ghost inverse = { λ r. record { tick = r.tick; period_fs = r.period } };
}

/// Whether each row has a period, and a tick after that of the row before; the first is after 0.
pub(crate) fn are_rising(rates: &[RateRow]) -> bool
    ensures { IsTrue result ↔ AreRising 0 rates.now }
{
    let mut tick = 0;
    for row in rates {
        if row.tick <= tick || row.period_fs == 0 {
            return false;
        }
        tick = row.tick;
    }
    true
}

/// The rows in an array, with zeros behind them.
pub(crate) fn in_array(rates: &[RateRow]) -> [RateRow; MAX_RATES]
    requires { length rates.now ≤ 64 }
    ensures { result ≡ in_array rates.now }
{
    let none = RateRow {
        tick: 0,
        period_fs: 0,
    };
    let mut rows = [none; MAX_RATES];
    rows[..rates.len()].copy_from_slice(rates);
    rows
}
