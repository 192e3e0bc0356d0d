//! Laws over the definitions alone, for proofs of the layers above.

ghost use Rattle.std.specs.Prelude.{◌≡◌, ℕ, suc, ◌+◌, ◌-◌, ◌*◌, ◌/◌, ◌%◌, ◌^◌, ◌<◌, ◌≤◌, ◌+ℤ◌, pos, ℤ};
ghost use Rattle.std.specs.Prelude.{List, [], ◌∷◌, ◌++◌, min, nat_lt, unsigned_abs};
ghost use Rattle.std.specs.List.{All};
ghost use Rattle.wrap_time.specs.NearNumbers.{AreNear};
ghost use Rattle.wrap_time.specs.WordLess.{word_less};
ghost use Rattle.osc_clock.specs.Ticks.{Oscillator, IsRunning, ticks};
ghost use Rattle.local_clock.specs.StepRule.{Steering, next, step, steered, elapsed};
ghost use Rattle.local_clock.specs.WorkedOff.{IsSteady, IsTowardZero};
ghost use Rattle.local_clock.specs.Reading.{Clock, started, steering_of, ticks_to, reading_after, advanced};
ghost use Rattle.local_clock.specs.Reading.{Happening, IsPossible, after_event, clock_at, reading_at, AreUntil, AreInOrder};
ghost use Rattle.local_clock.specs.LocalTime.{whole_clock_at, local_time, cut_to};
ghost use Rattle.local_clock.specs.FirstReaching.{is_behind, tick_after};
ghost use Rattle.local_clock.specs.Since.{IsSince};

/// The reading less what is left rises by exactly 10 ns at every tick, whether it corrects or not.
/// So k ticks after a received d, with no other event, it has risen by 10·k - d + left.
pub fn balance()
    ensures tick { (g : ℕ) → (s : Steering) → pos (step g s) +ℤ s.left ≡ pos 10 +ℤ (next g s).left }
    ensures ticks { (g k : ℕ) → (s : Steering) → pos (elapsed g k s) +ℤ s.left ≡ pos (10 * k) +ℤ (steered g k s).left }
{}

/// Of a received d, `min(|d|, k / g)` ns are worked off in k ticks; what is left has the sign of d or
/// is 0.
pub fn correction()
    ensures size { (d : ℤ) → (g k : ℕ) → 0 < g
        → unsigned_abs (steered g k (record { left = d; count = 0 })).left ≡ unsigned_abs d - min (unsigned_abs d) (k / g) }
    ensures sign { (d : ℤ) → (g k : ℕ) → 0 < g → IsTowardZero d (steered g k (record { left = d; count = 0 })).left }
{}

/// How fast a clock can be: a tick takes 9 to 11 ns, and k ticks, from whatever is left to correct,
/// take 10·k ns but for at most `k / g + 1`.
pub fn speed()
    ensures slowest { (g j k : ℕ) → (s : Steering) → elapsed g j s + 9 * k ≤ elapsed g (j + k) s }
    ensures fastest { (g j k : ℕ) → (s : Steering) → elapsed g (j + k) s ≤ elapsed g j s + 11 * k }
    ensures most { (g k : ℕ) → (s : Steering) → IsSteady g s → elapsed g k s ≤ 10 * k + (k / g + 1) }
    ensures least { (g k : ℕ) → (s : Steering) → IsSteady g s → 10 * k ≤ elapsed g k s + (k / g + 1) }
{}

/// Many ticks are the first of them and then the others.
pub fn ticks_in_turn()
    ensures elapsed { (g j k : ℕ) → (s : Steering) → elapsed g (j + k) s ≡ elapsed g j s + elapsed g k (steered g j s) }
    ensures steered { (g j k : ℕ) → (s : Steering) → steered g (j + k) s ≡ steered g k (steered g j s) }
{}

/// A clock that is advanced twice stands where one advance takes it, and shows and does from there
/// what it would have shown and done. To where it stands it is not moved.
pub fn advances_in_turn()
    ensures here { (w : ℕ) → (c : Clock) → c.reading < 2 ^ w → advanced w c.instant c ≡ c }
    ensures twice { (w s t : ℕ) → (c : Clock) → IsRunning c.osc → c.instant ≤ s → s ≤ t → advanced w t (advanced w s c) ≡ advanced w t c }
    ensures reading { (w t k : ℕ) → (c : Clock) → reading_after w (advanced w t c) k ≡ reading_after w c (ticks_to c t + k) }
    ensures tick { (w t k : ℕ) → (c : Clock) → IsRunning c.osc → c.instant ≤ t
        → tick_after (advanced w t c) k ≡ tick_after c (ticks_to c t + k) }
    ensures count { (c : Clock) → (k : ℕ) → IsRunning c.osc → ticks_to c (tick_after c k) ≡ k }
{}

/// A steering stays steady, so no correction takes more ticks than g: through ticks, and through every
/// history whose resets leave at least one tick to a correction. A new clock is steady.
pub fn steady()
    ensures ticks { (g k : ℕ) → (s : Steering) → IsSteady g s → IsSteady g (steered g k s) }
    ensures new { (osc : Oscillator) → (start g : ℕ) → 1 ≤ g → IsSteady g (steering_of (started osc start g)) }
    ensures history { (w t : ℕ) → (c : Clock) → (events : List Happening) → IsSteady c.g (steering_of c)
        → All (λ h. IsPossible h.event) events
        → IsSteady (clock_at w c events t).g (steering_of (clock_at w c events t)) }
{}

/// With nothing left to correct, ticks take 10 ns each and change nothing, whatever was counted.
pub fn nothing_left()
    ensures steered { (g k count : ℕ) → steered g k (record { left = pos 0; count = count }) ≡ record { left = pos 0; count = count } }
    ensures elapsed { (g k count : ℕ) → elapsed g k (record { left = pos 0; count = count }) ≡ 10 * k }
{}

/// A clock by its history is what the calls make of it, however often it is advanced in between; the
/// last event comes after all that was before it, and at its own instant it is all that happens; events
/// after t are none yet. What it shows is below 2^w.
pub fn history()
    ensures in_turn { (w s t : ℕ) → (c : Clock) → (before later : List Happening) → IsRunning c.osc → c.instant ≤ s → s ≤ t
        → AreUntil s before → AreInOrder s later → clock_at w (clock_at w c before s) later t ≡ clock_at w c (before ++ later) t }
    ensures one_more { (w t : ℕ) → (c : Clock) → (events : List Happening) → (h : Happening) → AreUntil h.instant events → h.instant ≤ t
        → clock_at w c (events ++ h ∷ []) t ≡ advanced w t (after_event h.event (clock_at w c events h.instant)) }
    ensures at_once { (w : ℕ) → (c : Clock) → (events : List Happening) → (h : Happening) → AreUntil h.instant events
        → clock_at w c (events ++ h ∷ []) h.instant ≡ after_event h.event (clock_at w c events h.instant) }
    ensures not_yet { (w t : ℕ) → (c : Clock) → (before later : List Happening) → AreInOrder (t + 1) later
        → clock_at w c (before ++ later) t ≡ clock_at w c before t }
    ensures stands { (w t : ℕ) → (c : Clock) → (events : List Happening)
        → ((clock_at w c events t).instant ≡ t) × ((clock_at w c events t).osc ≡ c.osc) }
    ensures fits { (w t : ℕ) → (c : Clock) → (events : List Happening) → reading_at w c events t < 2 ^ w }
{}

/// What a clock of w bits shows is the cut of its local time without wrap, and all else of it is the same.
/// That time goes on in turn as a clock does, and rises by 9 to 11 ns at every tick.
pub fn local_time_is_cut()
    ensures clock { (w t : ℕ) → (c : Clock) → (events : List Happening) → clock_at w c events t ≡ cut_to w (whole_clock_at c events t) }
    ensures reading { (w t : ℕ) → (c : Clock) → (events : List Happening) → reading_at w c events t ≡ local_time c events t % 2 ^ w }
    ensures in_turn { (s t : ℕ) → (c : Clock) → (before later : List Happening) → IsRunning c.osc → c.instant ≤ s → s ≤ t
        → AreUntil s before → AreInOrder s later
        → whole_clock_at (whole_clock_at c before s) later t ≡ whole_clock_at c (before ++ later) t }
    ensures slowest { (s t k : ℕ) → (c : Clock) → (events : List Happening) → IsRunning c.osc → c.instant ≤ s → s ≤ t
        → AreInOrder c.instant events
        → ticks c.osc s + k ≡ ticks c.osc t → local_time c events s + 9 * k ≤ local_time c events t }
    ensures fastest { (s t k : ℕ) → (c : Clock) → (events : List Happening) → IsRunning c.osc → c.instant ≤ s → s ≤ t
        → AreInOrder c.instant events
        → ticks c.osc s + k ≡ ticks c.osc t → local_time c events t ≤ local_time c events s + 11 * k }
{}

/// Two words of a clock are as far apart as its local times, where these are less than the range apart.
/// An offset that makes its word n at s makes it n and the local time since then at t.
pub fn words_of_local_time()
    ensures apart { (w s t : ℕ) → (c : Clock) → (events : List Happening) → local_time c events s ≤ local_time c events t
        → local_time c events t < local_time c events s + 2 ^ w
        → word_less w (reading_at w c events t) (reading_at w c events s) ≡ local_time c events t - local_time c events s }
    ensures offset { (w n s t : ℕ) → (c : Clock) → (events : List Happening) → local_time c events s ≤ local_time c events t
        → (reading_at w c events t + word_less w n (reading_at w c events s)) % 2 ^ w
        ≡ (n + (local_time c events t - local_time c events s)) % 2 ^ w }
{}

/// Since a clock received a difference d, with no other event, its local time has gone on by 10 ns a tick
/// and by what is left of d, less d. Of d as much is worked off as the ticks since then allow, and no more.
pub fn times_since_receipts()
    ensures { (c : Clock) (events : List Happening) (at : ℕ) (d : ℤ) (t : ℕ) → IsRunning c.osc → c.instant ≤ at → at ≤ t
        → AreUntil at events
        → 0 < (whole_clock_at c events at).g → IsSince c events at d t }
{}

/// Of the words of numbers less than half of the range apart, that of the lesser number is behind.
pub fn behind_of_near_numbers()
    ensures { (w u v : ℕ) → 0 < w → AreNear w u v → is_behind w (u % 2 ^ w) (v % 2 ^ w) ≡ nat_lt u v }
{}
