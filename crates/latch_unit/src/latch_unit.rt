ghost use Rattle.std.specs.Prelude.{◌≡◌, ◌≤◌, ⊤, Some, None, if◌then◌else◌};
ghost use Rattle.std.specs.Option.{option_map};
ghost use Rattle.latch_unit.specs.Stamp.{is_taken, taken_at, stamp_by, expected_after};

use local_clock::LocalClock;
use osc_clock::Osc;
use std::alloc::AllocError;
use std::marker::{Model, PhantomData};
use wrap_time::ClockWord;

/// The unit that stamps the positive edge of latch input 0 (ESC data sheet, Section I, distributed
/// clocks). It is `Copy`, as its clock is.
#[derive(Copy)]
pub struct LatchUnit<W: ClockWord> {
    expected: Option<u64>,
    stamp: PhantomData<W>,
}

impl<W: ClockWord> Model for LatchUnit<W> {
    ghost use Rattle.std.specs.Prelude.{Option, ℕ};

    ghost Value = { Option ℕ };

    ghost view = { λ a. a.expected };

    ghost inverse = { λ e. record { expected = e; stamp = record {} } };
}

impl<W: ClockWord> Clone for LatchUnit<W> {
    ghost is_clone = { λ x y. y ≡ x };

    ghost is_infallible = { λ _. ⊤ };

    fn clone(&self) -> Result<Self, AllocError> {
        Ok(*self)
    }
}

impl<W: ClockWord> LatchUnit<W> {
    /// A unit that expects no event.
    pub fn new() -> Self
        ensures { result ≡ None }
    {
        LatchUnit {
            expected: None,
            stamp: PhantomData,
        }
    }

    /// Expects an event at the true time `t`, in fs, in place of what was expected.
    pub fn expect(&mut self, t: u64)
        ensures { self.new ≡ Some t }
    {
        self.expected = Some(t);
    }

    /// The stamp of the expected event, in ns, where the clock's ticks after its instant and at or before
    /// `t`, in fs, take it. `offset` is the system time offset, in ns, which makes the local time the local
    /// copy. Nothing else may happen to the clock until `t`; the caller advances it to `t` afterwards.
    pub fn sample(&mut self, clock: &LocalClock<W>, offset: W, t: u64) -> Option<W>
        requires { clock.now.instant ≤ t }
        ensures stamp { option_map W.number result ≡ stamp_by W.WIDTH clock.now (W.number offset) t self.old }
        ensures expected { self.new ≡ expected_after clock.now t self.old }
    {
        let taken = taken_by(clock, t, self.expected?)?;
        let mut clock = *clock;
        clock.advance(taken);
        self.expected = None;
        Some(clock.reading().add(offset.value()))
    }
}

// When the clock's ticks after its instant and at or before `t` take the event.
fn taken_by<W: ClockWord>(clock: &LocalClock<W>, t: u64, event: u64) -> Option<u64>
    ensures { result ≡ (if is_taken clock.now t event then Some (taken_at clock.now.osc event) else None) }
{
    let taken = taken_at(clock.osc(), event);
    if u128::from(clock.now()) < taken && taken <= u128::from(t) {
        Some(taken as u64)
    } else {
        None
    }
}

// The first tick at or after the event.
#[tactic(auto, unfolding(crate::specs::Stamp::taken_at))]
fn taken_at(osc: &Osc, event: u64) -> u128
    ensures { result ≡ taken_at osc.now event }
{
    let tick = osc.ticks_until(event.saturating_sub(1)) + 1;
    osc.instant_of(tick)
}
