//! Laws over the definitions alone, for proofs of the layers above.

ghost use Rattle.std.specs.Prelude.{◌≡◌, ◌↔◌, ℕ, suc, ◌+◌, ◌-◌, ◌*◌, ◌/◌, ◌^◌, ◌<◌, ◌≤◌, min, ◌⊎◌, Bool, true, Some, None, List, length};
ghost use Rattle.std.specs.Prelude.{ℤ, pos, ◌+ℤ◌, ◌-ℤ◌, ◌≤ℤ◌, unsigned_abs};
ghost use Rattle.std.specs.List.{All};
ghost use Rattle.osc_clock.specs.Ticks.{Oscillator, IsRunning, ticks};
ghost use Rattle.cable_tree.specs.PathSums.{arrive};
ghost use Rattle.cable_tree.specs.Row.{Row, IsRow};
ghost use Rattle.cable_tree.specs.Segment.{IsSegment, IsTree};
ghost use Rattle.dc_bounds.specs.TickBounds.{tick_fs, tick_gap, count_gap, least_ticks, jump};
ghost use Rattle.dc_bounds.specs.TickFacts.{AreTicksOf, IsNear, IsWithin};
ghost use Rattle.dc_bounds.specs.LockNumbers.{lock_count, lock_falls, lock_step, period_fs, reach_fs, silence_fs, sure_fall, ticks_to_correction};
ghost use Rattle.dc_bounds.specs.Drawing.{IsDrawn};
ghost use Rattle.dc_bounds.specs.Weight.{reference, weight, weight_below};
ghost use Rattle.dc_bounds.specs.DelayBound.{delay_bound};
ghost use Rattle.dc_bounds.specs.CopyBound.{copy_bound, window};
ghost use Rattle.dc_bounds.specs.RunNumbers.{lead_ns, run_time_ns, run_frames, start_ns};

/// The ticks in an interval that is open at its beginning and closed at its end, 10 ns each, are as far
/// from its length as G and as H say, and their number is nmin or more: for every oscillator whose gaps
/// lie within the ppm, whether they change or not.
pub fn ticks_in_interval()
    ensures { (o : Oscillator) (ppm a b k : ℕ) → IsRunning o → ppm ≤ 100 → IsWithin ppm o → a ≤ b
        → ticks o a + k ≡ ticks o b → AreTicksOf ppm (b - a) k }
{}

/// Two clocks that do not correct differ over equal lengths by at most Q.
pub fn two_clocks()
    ensures { (ppm l j k : ℕ) → AreTicksOf ppm l j → AreTicksOf ppm l k → IsNear (10 * j) (10 * k) (jump ppm l) }
{}

/// G, H, Q and nmin do not fall where their argument grows.
pub fn bounds_rise()
    ensures tick_gap { (ppm l m : ℕ) → ppm ≤ 100 → l ≤ m → tick_gap ppm l ≤ tick_gap ppm m }
    ensures count_gap { (ppm j k : ℕ) → j ≤ k → count_gap ppm j ≤ count_gap ppm k }
    ensures jump { (ppm l m : ℕ) → ppm ≤ 100 → l ≤ m → jump ppm l ≤ jump ppm m }
    ensures least_ticks { (ppm l m : ℕ) → l ≤ m → least_ticks ppm l ≤ least_ticks ppm m }
{}

/// What is used of the sizes of G and Q: Q is the greatest number of ns within 2·G, and G is little more
/// than a tick.
pub fn sizes()
    ensures within { (ppm l : ℕ) → 1000000 * jump ppm l ≤ 2 * tick_gap ppm l }
    ensures greatest { (ppm l x : ℕ) → 1000000 * x ≤ 2 * tick_gap ppm l → x ≤ jump ppm l }
    ensures small { (ppm l : ℕ) → ppm ≤ 100 → 9999 * tick_gap ppm l ≤ l + 9999 * 10002000 }
{}

/// The drift of a clock over as many as 784 periods and its copy bound are together at most a quarter of
/// a frame period, wherever the round trip is shorter than that period and the weight at most 1024.
pub fn quarter_period()
    ensures { (ppm frame_ns loss_run weight round_trip delay l : ℕ) → ppm ≤ 100 → 50000 ≤ frame_ns → loss_run ≤ 15
        → weight ≤ 1024 → round_trip < period_fs frame_ns → delay ≤ round_trip → l ≤ 784 * period_fs frame_ns
        → 4 * (tick_gap ppm l + copy_bound ppm frame_ns loss_run (delay_bound ppm weight round_trip) delay) ≤ period_fs frame_ns }
{}

/// In a segment of at most 256 slaves no way down weighs more than 512, and no slave more than 1024,
/// whatever slaves measure and are clocks.
pub fn weights_are_few()
    ensures way { (rows : List Row) (measures : ℕ → Bool) (c r : ℕ) → IsSegment rows → r < length rows
        → weight_below rows measures c r ≤ 512 }
    ensures weight { (rows : List Row) (measures timed : ℕ → Bool) (r : ℕ) → IsSegment rows → r < length rows
        → weight rows measures timed r ≤ 1024 }
{}

/// The weight and the delay bound are 0 at the reference, and at no other row: for all rows, whatever
/// slaves measure and are clocks, at every ppm and round trip. Without a clock every weight is 0.
pub fn reference_has_no_weight()
    ensures weight { (rows : List Row) (measures timed : ℕ → Bool) (q r : ℕ) → reference rows timed ≡ Some q
        → (weight rows measures timed r ≡ 0) ↔ (r ≡ q) }
    ensures bound { (ppm : ℕ) (rows : List Row) (measures timed : ℕ → Bool) (q r round_trip : ℕ) → reference rows timed ≡ Some q
        → (delay_bound ppm (weight rows measures timed r) round_trip ≡ 0) ↔ (r ≡ q) }
    ensures no_clock { (rows : List Row) (measures timed : ℕ → Bool) (r : ℕ) → reference rows timed ≡ None
        → weight rows measures timed r ≡ 0 }
{}

/// The reference is a slave of the tree, and a clock, and a frame arrives at no clock before it.
pub fn reference_comes_first()
    ensures clock { (rows : List Row) → IsTree rows → All IsRow rows → (timed : ℕ → Bool) (q : ℕ) → reference rows timed ≡ Some q
        → (q < length rows) × (timed q ≡ true) }
    ensures arrives { (rows : List Row) → IsTree rows → All IsRow rows → (timed : ℕ → Bool) (q : ℕ) → reference rows timed ≡ Some q
        → (r : ℕ) → r < length rows → timed r ≡ true → arrive rows q ≤ arrive rows r }
{}

/// Where μ is above 0, the corrections that are sure in 1 to `loss_run` + 1 periods make up for the drift
/// of these periods, and for μ more.
pub fn corrections_are_sure()
    ensures some { (ppm frame_ns speed loss_run : ℕ) → pos 1 ≤ℤ lock_step ppm frame_ns speed loss_run
        → 1 ≤ sure_fall ppm frame_ns speed loss_run }
    ensures is { (ppm frame_ns speed loss_run : ℕ) → pos 1 ≤ℤ lock_step ppm frame_ns speed loss_run
        → lock_step ppm frame_ns speed loss_run ≡ pos (sure_fall ppm frame_ns speed loss_run) }
    ensures sure { (ppm frame_ns speed loss_run k : ℕ) → pos 1 ≤ℤ lock_step ppm frame_ns speed loss_run → 1 ≤ k → k ≤ loss_run + 1
        → sure_fall ppm frame_ns speed loss_run + jump ppm (k * period_fs frame_ns)
        ≤ least_ticks ppm (k * period_fs frame_ns) / ticks_to_correction speed }
{}

/// How wide the differences are on the way to lock-in: Q(Z) is at most Q of `loss_run` + 1 periods and N
/// times μ, at least that Q, and at most 3,104,400 ns.
pub fn drifts_are_few()
    ensures falls { (ppm frame_ns speed loss_run reach : ℕ) → pos 1 ≤ℤ lock_step ppm frame_ns speed loss_run
        → jump ppm reach ≤ jump ppm (silence_fs loss_run frame_ns)
        + lock_falls ppm frame_ns speed loss_run reach * sure_fall ppm frame_ns speed loss_run }
    ensures longer { (ppm measuring clocks loss_run frame_ns : ℕ) → ppm ≤ 100
        → jump ppm (silence_fs loss_run frame_ns) ≤ jump ppm (reach_fs measuring clocks loss_run frame_ns) }
    ensures few { (ppm measuring clocks loss_run frame_ns : ℕ) → ppm ≤ 100 → measuring ≤ 256 → clocks ≤ 256 → loss_run ≤ 15
        → frame_ns ≤ 10000000 → jump ppm (reach_fs measuring clocks loss_run frame_ns) ≤ 3104400 }
{}

/// Lock-in, of the sizes of differences alone. A difference d is received, and the next one k periods
/// later: where the corrections between have taken from d what is sure, or all of it, and the clocks have
/// drifted apart by Q of these periods at most, the next difference is within Q of `loss_run` + 1 periods,
/// or smaller than d by μ (`next`). So a list of such differences, the first of which is within the drift
/// of the reach, is within the greater of that Q and the drift less μ at each one (`after`); and those that
/// come with frames numbered above K are within that Q, where the first frame has a number of at most
/// `loss_run` + 1, and each further one is at most that much later (`locked`).
pub fn differences_fall()
    ensures next { (ppm frame_ns speed loss_run k d left next : ℕ) → ppm ≤ 100 → pos 1 ≤ℤ lock_step ppm frame_ns speed loss_run
        → 1 ≤ k → k ≤ loss_run + 1
        → left + min d (least_ticks ppm (k * period_fs frame_ns) / ticks_to_correction speed) ≤ d
        → next ≤ left + jump ppm (k * period_fs frame_ns)
        → (next ≤ jump ppm (silence_fs loss_run frame_ns)) ⊎ (next + sure_fall ppm frame_ns speed loss_run ≤ d) }
    ensures after { (ppm frame_ns speed loss_run reach : ℕ) (size : ℕ → ℕ) (count : ℕ) → size 0 ≤ jump ppm reach
        → ((j : ℕ) → suc j < count → (size (suc j) ≤ jump ppm (silence_fs loss_run frame_ns))
        ⊎ (size (suc j) + sure_fall ppm frame_ns speed loss_run ≤ size j))
        → (j : ℕ) → j < count → (size j ≤ jump ppm (silence_fs loss_run frame_ns))
        ⊎ (size j + j * sure_fall ppm frame_ns speed loss_run ≤ jump ppm reach) }
    ensures locked { (ppm frame_ns speed loss_run reach : ℕ) (frame size : ℕ → ℕ) (count : ℕ)
        → pos 1 ≤ℤ lock_step ppm frame_ns speed loss_run
        → frame 0 ≤ loss_run + 1 → ((j : ℕ) → suc j < count → frame (suc j) ≤ frame j + (loss_run + 1))
        → size 0 ≤ jump ppm reach
        → ((j : ℕ) → suc j < count → (size (suc j) ≤ jump ppm (silence_fs loss_run frame_ns))
        ⊎ (size (suc j) + sure_fall ppm frame_ns speed loss_run ≤ size j))
        → (j : ℕ) → j < count → lock_count ppm frame_ns speed loss_run reach < frame j → size j ≤ jump ppm (silence_fs loss_run frame_ns) }
{}

/// The same, one difference at a time: of the first one (`first`), of each further one, by the one before it
/// (`next`), and what follows of one that comes after frame K (`locked`), and, where Q of `loss_run` + 1 periods is at
/// most Q of the reach, of every one (`within`).
pub fn clocks_are_drawn()
    ensures first { (ppm frame_ns speed loss_run reach frame size : ℕ) → frame ≤ loss_run + 1 → size ≤ jump ppm reach
        → IsDrawn ppm frame_ns speed loss_run reach 0 frame size }
    ensures next { (ppm frame_ns speed loss_run reach before frame size k left more : ℕ) → ppm ≤ 100
        → pos 1 ≤ℤ lock_step ppm frame_ns speed loss_run → 1 ≤ k → k ≤ loss_run + 1
        → IsDrawn ppm frame_ns speed loss_run reach before frame size
        → left + min size (least_ticks ppm (k * period_fs frame_ns) / ticks_to_correction speed) ≤ size
        → more ≤ left + jump ppm (k * period_fs frame_ns)
        → IsDrawn ppm frame_ns speed loss_run reach (before + 1) (frame + k) more }
    ensures locked { (ppm frame_ns speed loss_run reach before frame size : ℕ) → pos 1 ≤ℤ lock_step ppm frame_ns speed loss_run
        → IsDrawn ppm frame_ns speed loss_run reach before frame size → lock_count ppm frame_ns speed loss_run reach < frame
        → size ≤ jump ppm (silence_fs loss_run frame_ns) }
    ensures within { (ppm frame_ns speed loss_run reach before frame size : ℕ) → jump ppm (silence_fs loss_run frame_ns) ≤ jump ppm reach
        → IsDrawn ppm frame_ns speed loss_run reach before frame size → size ≤ jump ppm reach }
{}

/// From one difference to the next, of numbers alone: after one length, with n ticks here and m at the
/// reference, the two clocks are apart by at most what is left of the difference, and Q of the length
/// (`drift`). What is left and the corrections of nmin ticks are together at most the difference (`left`).
pub fn next_differences()
    ensures drift { (ppm l here there n m : ℕ) (left : ℤ) → AreTicksOf ppm l n → AreTicksOf ppm l m
        → pos here ≡ pos (there + 10 * n) +ℤ left
        → unsigned_abs (pos here -ℤ pos (there + 10 * m)) ≤ unsigned_abs left + jump ppm l }
    ensures left { (ppm l n g : ℕ) (received left : ℤ) → 0 < g → least_ticks ppm l ≤ n
        → unsigned_abs left + min (unsigned_abs received) (n / g) ≡ unsigned_abs received
        → unsigned_abs left + min (unsigned_abs received) (least_ticks ppm l / g) ≤ unsigned_abs received }
{}

/// X, of numbers alone: two copies that were `received` when the last frame came are near each other after
/// the ticks of a length of at most `loss_run` + 1 periods here, and of that and the true delay d there.
/// What is left of the difference, ahead or behind, is within Q of these periods, and the delay was
/// measured within its bound.
pub fn copies_stay_near()
    ensures { (ppm frame_ns loss_run bound d l ticks_here ticks_there received ahead behind delay here there : ℕ) → ppm ≤ 100
        → l ≤ silence_fs loss_run frame_ns → AreTicksOf ppm l ticks_here → AreTicksOf ppm (l + d) ticks_there
        → IsNear (1000000 * delay) d bound
        → ahead ≤ jump ppm (silence_fs loss_run frame_ns) → behind ≤ jump ppm (silence_fs loss_run frame_ns)
        → here + behind ≡ received + 10 * ticks_here + ahead + delay → there ≡ received + 10 * ticks_there
        → IsNear (1000000 * here) (1000000 * there) (copy_bound ppm frame_ns loss_run bound d) }
{}

/// W, of numbers alone: edges of one index are apart by their shifts, and by at most W beside. At the first
/// edge the reference's copy is `copy`, at the second one k ticks `later`, and each is at most a tick above
/// the due value, and x or y off; the due values differ as the shifts do, which are at most `shift` apart.
pub fn edges_stay_near()
    ensures { (ppm shift x y first second due other copy later k l : ℕ) → IsNear first second shift
        → 1000000 * due ≤ 1000000 * copy + x → 1000000 * copy ≤ 1000000 * due + tick_fs + x
        → 1000000 * other ≤ 1000000 * later + y → 1000000 * later ≤ 1000000 * other + tick_fs + y
        → other + first ≡ due + second → later ≡ copy + 10 * k → IsNear (tick_fs * k) l (count_gap ppm k)
        → IsNear (l + 1000000 * first) (1000000 * second) (window ppm shift x y) }
{}

/// The start of the units lies behind r by more than the lead, and by at most a cycle more (`after`,
/// `soon`). The lead is the periods in which every try of arming is over, and two more (`lead`). So where k
/// ticks of the reference are those from the last time that came back to an arming, its copy at that
/// instant, and x more, is below r and the lead (`ahead`); and the first due value of a signal is less
/// than 2 s ahead of a copy that is at most x behind r, where a file keeps to what it may ask for
/// (`not_far`). The start fits 63 bits, where r is the epoch and the ticks of at most 100,000 periods, 10 ns
/// each, and the numbers are those that a file may have (`fits`).
pub fn start_lies_ahead()
    ensures after { (r lead cycle_ns : ℕ) → 1 ≤ cycle_ns → r + lead < start_ns r lead cycle_ns }
    ensures soon { (r lead cycle_ns : ℕ) → start_ns r lead cycle_ns ≤ r + lead + cycle_ns }
    ensures lead { (clocks loss_run frame_ns : ℕ)
        → 1000000 * lead_ns clocks loss_run frame_ns ≡ (3 * clocks + loss_run) * period_fs frame_ns + 2 * period_fs frame_ns }
    ensures ahead { (ppm clocks loss_run frame_ns l d k x : ℕ) → AreTicksOf ppm l k
        → l ≤ (3 * clocks + loss_run) * period_fs frame_ns + d → d < period_fs frame_ns
        → 4 * (tick_gap ppm l + x) ≤ period_fs frame_ns → tick_fs * k + x < 1000000 * lead_ns clocks loss_run frame_ns }
    ensures not_far { (r clocks loss_run frame_ns cycle_ns shift copy x : ℕ) → shift + 2 ≤ 2 * cycle_ns
        → 1000000 * r ≤ 1000000 * copy + x → 4 * x ≤ period_fs frame_ns
        → lead_ns clocks loss_run frame_ns + 2 * frame_ns + 3 * cycle_ns < 2000000000
        → start_ns r (lead_ns clocks loss_run frame_ns) cycle_ns + shift < copy + 2000000000 }
    ensures fits { (ppm clocks loss_run frame_ns cycle_ns epoch l k : ℕ) → ppm ≤ 100 → clocks ≤ 256 → loss_run ≤ 15
        → frame_ns ≤ 10000000 → cycle_ns ≤ 500000000 → epoch ≤ 4000000000000000000
        → AreTicksOf ppm l k → l ≤ 100000 * period_fs frame_ns
        → start_ns (epoch + 10 * k) (lead_ns clocks loss_run frame_ns) cycle_ns < 2 ^ 63 }
{}

/// A run is long enough: its frames take U, a thousandth of it and two periods (`frames`); in these
/// periods and one more a clock has the ticks of U, and x more (`ticks`); and U reaches past the last edge
/// of every signal (`edges`).
pub fn run_is_long_enough()
    ensures frames { (clocks loss_run frame_ns cycle_ns cycles : ℕ) → 1 ≤ frame_ns
        → run_time_ns clocks loss_run frame_ns cycle_ns cycles + run_time_ns clocks loss_run frame_ns cycle_ns cycles / 1000 + 1
        + 2 * frame_ns
        ≤ run_frames clocks loss_run frame_ns cycle_ns cycles * frame_ns }
    ensures ticks { (ppm clocks loss_run frame_ns cycle_ns cycles k x : ℕ) → ppm ≤ 100 → 50000 ≤ frame_ns
        → AreTicksOf ppm ((run_frames clocks loss_run frame_ns cycle_ns cycles + 1) * period_fs frame_ns) k
        → 4 * x ≤ period_fs frame_ns → 1000000 * run_time_ns clocks loss_run frame_ns cycle_ns cycles + x ≤ tick_fs * k }
    ensures edges { (r clocks loss_run frame_ns cycle_ns cycles shift k : ℕ) → shift + 2 ≤ 2 * cycle_ns → k < cycles
        → start_ns r (lead_ns clocks loss_run frame_ns) cycle_ns + shift + k * cycle_ns + 2
        ≤ r + run_time_ns clocks loss_run frame_ns cycle_ns cycles }
{}
