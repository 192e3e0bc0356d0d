//! Laws over the definitions alone, for proofs of the layers above.

ghost use Rattle.std.specs.Prelude.{◌≡◌, ℕ, ◌≤◌, Option, None, IsSome};
ghost use Rattle.std.specs.Option.{option_or};
ghost use Rattle.osc_clock.specs.Ticks.{Oscillator, IsRunning};
ghost use Rattle.local_clock.specs.Reading.{Clock, advanced};
ghost use Rattle.latch_unit.specs.Stamp.{first_tick_from, IsFirstTickFrom, stamp_by, expected_after};

/// The tick that takes an event is the first one at or after it.
pub fn first_ticks()
    ensures { (o : Oscillator) (t : ℕ) → IsRunning o → IsFirstTickFrom o t (first_tick_from o t) }
{}

/// A clock that is sampled at s, goes there, and is then sampled at t gives what one sample at t would
/// have given; what is expected afterwards is the same too, also where the clock was corrected in between.
/// A stamp that was given is not given again, by whatever clock.
pub fn samples_in_turn()
    ensures stamp { (w offset s t : ℕ) (c : Clock) (expected : Option ℕ) → IsRunning c.osc → c.instant ≤ s → s ≤ t
        → option_or (stamp_by w c offset s expected) (stamp_by w (advanced w s c) offset t (expected_after c s expected))
        ≡ stamp_by w c offset t expected }
    ensures expected { (s t : ℕ) (c d : Clock) (expected : Option ℕ) → d.osc ≡ c.osc → d.instant ≡ s → c.instant ≤ s → s ≤ t
        → expected_after d t (expected_after c s expected) ≡ expected_after c t expected }
    ensures once { (w v offset other t u : ℕ) (c d : Clock) (expected : Option ℕ) → IsSome (stamp_by w c offset t expected)
        → stamp_by v d other u (expected_after c t expected) ≡ None }
{}
