//! Laws over the definitions alone, for proofs of the layers above.

ghost use Rattle.std.specs.Prelude.{◌≡◌, ℕ, suc, ◌+◌, ◌*◌, ◌<◌, ◌≤◌, []};
ghost use Rattle.std.specs.List.{All};
ghost use Rattle.osc_clock.specs.Ticks.{Oscillator, IsRunning, instant, ticks_among, ticks};
ghost use Rattle.osc_clock.specs.IntervalTicks.{HasGaps};

/// Ticks and instants turn each other round: a tick is among those counted by t exactly where its
/// instant is at or before t. Both rise, and in one fs at most one tick comes.
pub fn ticks_and_instants()
    ensures reached { (o : Oscillator) (t k : ℕ) → IsRunning o → instant o k ≤ t → k ≤ ticks o t }
    ensures not_after { (o : Oscillator) (t k : ℕ) → IsRunning o → k ≤ ticks o t → instant o k ≤ t }
    ensures ticks_at { (o : Oscillator) (k : ℕ) → IsRunning o → ticks o (instant o k) ≡ k }
    ensures counted { (o : Oscillator) (t n : ℕ) → IsRunning o → t ≤ n → ticks_among o t n ≡ ticks o t }
    ensures ticks_rise { (o : Oscillator) (s t : ℕ) → IsRunning o → s ≤ t → ticks o s ≤ ticks o t }
    ensures instants_rise { (o : Oscillator) (j k : ℕ) → IsRunning o → j < k → instant o j < instant o k }
    ensures one_at_a_time { (o : Oscillator) (t : ℕ) → IsRunning o → ticks o (suc t) ≤ suc (ticks o t) }
{}

/// Where the gaps lie between two bounds, they bound the time from one tick to another and the number
/// of ticks in an interval, which is open at its beginning and closed at its end. They lie there where
/// the periods do.
pub fn interval_ticks()
    ensures gaps { (o : Oscillator) (low high : ℕ) → o.phase ≤ high → low ≤ o.period → o.period ≤ high
        → All (λ rate. (low ≤ rate.period) × (rate.period ≤ high)) o.rates → HasGaps low high o }
    ensures spaced { (o : Oscillator) (low high a k : ℕ) → HasGaps low high o → 0 < a
        → (instant o a + k * low ≤ instant o (a + k)) × (instant o (a + k) ≤ instant o a + k * high) }
    ensures not_too_many { (o : Oscillator) (low high a b k : ℕ) → IsRunning o → HasGaps low high o
        → a ≤ b → ticks o a + suc k ≡ ticks o b → a + k * low < b }
    ensures not_too_few { (o : Oscillator) (low high a b k : ℕ) → IsRunning o → HasGaps low high o
        → a ≤ b → ticks o a + k ≡ ticks o b → b < a + suc k * high }
{}

/// Without rows the ticks come a period apart.
pub fn steady_period()
    ensures { (o : Oscillator) (k : ℕ) → o.rates ≡ [] → instant o (suc k) ≡ o.phase + k * o.period }
{}
