//! Laws over the definitions alone, for proofs of the layers above.

ghost use Rattle.std.specs.Prelude.{◌≡◌, ◌↔◌, ℕ, ◌+◌, ◌*◌, ◌<◌, ◌≤◌, ◌⊎◌, Some, true, length, slice_index_or};
ghost use Rattle.cable_tree.specs.PathSums.{arrive};
ghost use Rattle.dc_bounds.specs.LockNumbers.{period_fs};
ghost use Rattle.dc_bounds.specs.TickBounds.{tick_gap};
ghost use Rattle.segment_file.specs.Legal.{IsLegal};
ghost use Rattle.segment_file.specs.Segment.{SegmentValue, clock_at, reference_row, signals, tree_rows};
ghost use Rattle.segment_bounds.specs.Bounds.{copy_bound_at, wire_delay_at, delay_bound_at, reference_row_of, weight_at};
ghost use Rattle.segment_bounds.specs.Window.{signals_from, window_between, window_of};
ghost use Rattle.segment_bounds.specs.declared.signal.Signal.{Signal};

/// The drift of a clock over as many as 784 frame periods and its copy bound are together at most a
/// quarter of a frame period.
pub fn quarter_period()
    ensures { (s : SegmentValue) (r l : ℕ) → IsLegal s → r < length s.rows → l ≤ 784 * period_fs s.head.frame_ns
        → 4 * (tick_gap s.head.ppm l + copy_bound_at s r) ≤ period_fs s.head.frame_ns }
{}

/// There is a reference. At it, and at no other row, the weight, the delay bound and the copy bound are 0;
/// so is the true delay at it.
pub fn nothing_at_the_reference()
    ensures row { (s : SegmentValue) → IsLegal s → reference_row s.rows ≡ Some (reference_row_of s) }
    ensures weight { (s : SegmentValue) (r : ℕ) → IsLegal s → (weight_at s r ≡ 0) ↔ (r ≡ reference_row_of s) }
    ensures delay_bound { (s : SegmentValue) (r : ℕ) → IsLegal s → (delay_bound_at s r ≡ 0) ↔ (r ≡ reference_row_of s) }
    ensures copy_bound { (s : SegmentValue) (r : ℕ) → (copy_bound_at s r ≡ 0) ↔ (r ≡ reference_row_of s) }
    ensures delay { (s : SegmentValue) → wire_delay_at s (reference_row_of s) ≡ 0 }
{}

/// The window of a segment is that of two of its signals, or 0, and no two of its signals have a greater
/// one; which of two signals comes first makes no difference.
pub fn the_window_is_the_greatest()
    ensures pairs { (s : SegmentValue) (i j : ℕ) (d : Signal) → i < j → j < length (signals_from 0 s.rows)
        → window_between s (slice_index_or (signals_from 0 s.rows) i d) (slice_index_or (signals_from 0 s.rows) j d) ≤ window_of s }
    ensures one { (s : SegmentValue) (d : Signal) → (window_of s ≡ 0) ⊎ ((i j : ℕ) × (i < j) × (j < length (signals_from 0 s.rows))
        × (window_of s ≡ window_between s (slice_index_or (signals_from 0 s.rows) i d) (slice_index_or (signals_from 0 s.rows) j d))) }
    ensures either_order { (s : SegmentValue) (a b : Signal) → window_between s a b ≡ window_between s b a }
{}

/// A frame reaches a clock by the true delay after the reference, and the true delay at a row is less than a
/// frame period.
pub fn delays_lie_within_a_period()
    ensures arrivals { (s : SegmentValue) (r : ℕ) → IsLegal s → r < length s.rows → clock_at s.rows r ≡ true
        → arrive (tree_rows s.rows) (reference_row_of s) + wire_delay_at s r ≡ arrive (tree_rows s.rows) r }
    ensures short { (s : SegmentValue) (r : ℕ) → IsLegal s → r < length s.rows → wire_delay_at s r < period_fs s.head.frame_ns }
{}

/// A legal segment has as many signals as its count says.
pub fn signals_are_listed()
    ensures { (s : SegmentValue) → IsLegal s → length (signals_from 0 s.rows) ≡ signals s.rows }
{}
