//! Laws over the definitions alone, for proofs of the layers above.

ghost use Rattle.std.specs.Prelude.{◌≡◌, ℕ, ◌+◌, ◌*◌, ◌^◌, ◌<◌, ◌≤◌, List, [], ◌++◌, take, Option, Some, None};
ghost use Rattle.osc_clock.specs.Ticks.{Oscillator, IsRunning, ticks, instant};
ghost use Rattle.sync_units.specs.declared.edge.Edge.{Edge};
ghost use Rattle.sync_units.specs.declared.edge.Signal.{Signal};
ghost use Rattle.sync_units.specs.SyncRule.{Armed, armed_by, after_ticks, ticks_edges, unit_after, unit_edges};
ghost use Rattle.local_clock.specs.Reading.{Clock, advanced, ticks_to};
ghost use Rattle.sync_units.specs.ClockCopy.{copy_of};
ghost use Rattle.sync_units.specs.Interval.{unit_at, edges_to};
ghost use Rattle.sync_units.specs.Quiet.{AreQuiet, spare_of};
ghost use Rattle.sync_units.specs.KeptEdges.{Kept, empty_list, put_all};
ghost use Rattle.sync_units.specs.Edges.{EdgeAt, AreEdges, start_of, edges_of, first_edges};
ghost use Rattle.sync_units.specs.Calls.{Call, AreInTurn, ticks_of_calls, copy_in, unit_after_calls, list_after_calls};
ghost use Rattle.sync_units.specs.Rising.{AreRising, AreWordsOf, RaisesAt};

/// The edges of j + k ticks are those of j ticks, and then those of k ticks from the unit that they
/// leave. A list takes edges one after the other.
pub fn ticks_in_turn()
    ensures unit { (w : ℕ) (copy : ℕ → ℕ) (j k : ℕ) (unit : Option Armed)
        → unit_after w copy (j + k) unit ≡ unit_after w (λ i. copy (j + i)) k (unit_after w copy j unit) }
    ensures edges { (w : ℕ) (copy time : ℕ → ℕ) (j k : ℕ) (unit : Option Armed)
        → unit_edges w copy time (j + k) unit
        ≡ unit_edges w copy time j unit ++ unit_edges w (λ i. copy (j + i)) (λ i. time (j + i)) k (unit_after w copy j unit) }
    ensures list { (es fs : List Edge) (l : Kept) → put_all (es ++ fs) l ≡ put_all fs (put_all es l) }
{}

/// Ticks at which nothing is due leave a unit as it is, and raise nothing.
pub fn quiet_ticks()
    ensures unit { (w : ℕ) (copy : ℕ → ℕ) (k : ℕ) (a : Armed) → AreQuiet w copy k a → after_ticks w copy k a ≡ a }
    ensures edges { (w : ℕ) (copy time : ℕ → ℕ) (k : ℕ) (a : Armed) → AreQuiet w copy k a → ticks_edges w copy time k a ≡ [] }
{}

/// Ticks that a unit can spare leave it as it is, and raise nothing; behind them it can spare what is left of them.
pub fn spare_ticks()
    ensures unit { (w offset t : ℕ) (c : Clock) (unit : Option Armed)
        → ticks_to c t ≤ spare_of w (copy_of w c offset) unit → unit_at w c offset t unit ≡ unit }
    ensures edges { (w offset t : ℕ) (c : Clock) (unit : Option Armed)
        → ticks_to c t ≤ spare_of w (copy_of w c offset) unit → edges_to w c offset t unit ≡ [] }
    ensures left { (w offset t : ℕ) (c : Clock) (unit : Option Armed)
        → spare_of w (copy_of w c offset) unit ≤ ticks_to c t + spare_of w (copy_of w (advanced w t c) offset) unit }
{}

/// A unit that was armed raises, up to tick n, exactly the edges of the definition, each once and in
/// the order of their indices, whatever the copies are.
pub fn exact_edges()
    ensures edges { (w : ℕ) (copy time : ℕ → ℕ) (n start cycle v : ℕ) (sync1 : Option ℕ) (signal : Signal)
        → start_of w start sync1 signal ≡ Some v → v < 2 ^ w
        → AreEdges w copy time cycle v signal n (edges_of signal (ticks_edges w copy time n (armed_by w start cycle sync1))) }
    ensures none { (w : ℕ) (copy time : ℕ → ℕ) (n start cycle : ℕ) (sync1 : Option ℕ) (signal : Signal)
        → start_of w start sync1 signal ≡ None → edges_of signal (ticks_edges w copy time n (armed_by w start cycle sync1)) ≡ [] }
    ensures once { (w : ℕ) (copy : ℕ → ℕ) (cycle v k m n : ℕ)
        → EdgeAt w copy cycle v k m → EdgeAt w copy cycle v k n → m ≡ n }
{}

/// An empty list keeps of them the first `keep` of each signal, in the order in which they were raised.
pub fn kept_edges()
    ensures order { (w : ℕ) (copy time : ℕ → ℕ) (n v cycle : ℕ) (sync1 : Option ℕ) (keep : ℕ) → keep ≤ 2 ^ 32
        → (put_all (ticks_edges w copy time n (armed_by w v cycle sync1)) (empty_list keep)).edges
        ≡ first_edges keep (ticks_edges w copy time n (armed_by w v cycle sync1)) }
    ensures each { (w : ℕ) (copy time : ℕ → ℕ) (n v cycle : ℕ) (sync1 : Option ℕ) (keep : ℕ) (signal : Signal) → v < 2 ^ w → keep ≤ 2 ^ 32
        → edges_of signal (put_all (ticks_edges w copy time n (armed_by w v cycle sync1)) (empty_list keep)).edges
        ≡ take keep (edges_of signal (ticks_edges w copy time n (armed_by w v cycle sync1))) }
{}

/// Calls one after the other, each with a clock that stands where the call before it ended, give what
/// one call over all of their ticks would, also where the clock was corrected in between.
pub fn calls_in_turn()
    ensures unit { (w : ℕ) (o : Oscillator) (t : ℕ) (cs : List Call) (unit : Option Armed) → IsRunning o → AreInTurn o t cs
        → unit_after_calls w cs unit ≡ unit_after w (copy_in w cs) (ticks_of_calls o t cs) unit }
    ensures list { (w : ℕ) (o : Oscillator) (t : ℕ) (cs : List Call) (unit : Option Armed) (l : Kept) → IsRunning o → AreInTurn o t cs
        → list_after_calls w cs unit l
        ≡ put_all (unit_edges w (copy_in w cs) (λ k. instant o (ticks o t + k)) (ticks_of_calls o t cs) unit) l }
{}

/// Where the copies at n ticks are the words of numbers that rise by at most 11 a tick, the first due value
/// is ahead by less than 2^31, and the cycle is from 11 to 2^31 - 1, edge k is raised at one of these ticks
/// if the numbers come to what is then due; there the number is at most 10 above that.
pub fn edges_of_rising_copies()
    ensures { (w : ℕ) (whole copy : ℕ → ℕ) (n cycle v k : ℕ) → 32 ≤ w → AreRising whole n → AreWordsOf w whole copy n
        → whole 0 < v → v < whole 0 + 2 ^ 31 → 11 ≤ cycle → cycle < 2 ^ 31 → v + k * cycle ≤ whole n
        → (m : ℕ) × (m ≤ n) × RaisesAt w whole copy cycle v k m }
{}
