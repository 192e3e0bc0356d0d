//! Laws over the definitions alone, for proofs of the layers above. Most speak of any legal segment.

ghost use Rattle.std.specs.Prelude.{◌≡◌, ℕ, ◌+◌, ◌*◌, ◌^◌, ◌<◌, ◌≤◌, List, None, Some, false, pos, ◌≤ℤ◌};
ghost use Rattle.std.specs.List.{All};
ghost use Rattle.cable_tree.specs.FrameOrder.{order};
ghost use Rattle.cable_tree.specs.PathSums.{round_trip};
ghost use Rattle.dc_bounds.specs.LockNumbers.{period_fs};
ghost use Rattle.dc_bounds.specs.Measurable.{unmeasurable};
ghost use Rattle.dc_bounds.specs.RunNumbers.{lead_ns, start_ns};
ghost use Rattle.dc_bounds.specs.TickFacts.{AreTicksOf};
ghost use Rattle.loss_list.specs.Losses.{loss_at};
ghost use Rattle.loss_list.specs.LossTable.{IsNumber};
ghost use Rattle.loss_list.specs.declared.loss_row.Phase.{Phase};
ghost use Rattle.segment_file.specs.Failed.{Failed, failed_by};
ghost use Rattle.segment_file.specs.Faults.{ahead_ns, most_frames, step_of};
ghost use Rattle.segment_file.specs.Legal.{IsLegal, KeepsTime};
ghost use Rattle.segment_file.specs.Runs.{is_lost};
ghost use Rattle.segment_file.specs.Segment.{SegmentValue, clocks, counts_of, measures_at, reference_row, signals, tree_rows};
ghost use Rattle.segment_file.specs.Told.{IsFileOf, IsSegmentText, IsTold};
ghost use Rattle.segment_file.specs.Written.{segment_data, segment_text};
ghost use Rattle.segment_file.specs.declared.seg_error.SegError.{SegError as Error};
ghost use Rattle.segment_file.specs.declared.seg_error.SegError.TheVariants.{NoMemory};

/// A text is that of one segment at most, and then of no refused file; and a refused file has one refusal,
/// but for want of memory.
pub fn one_answer()
    ensures segment { (bytes : List ℕ) (s t : SegmentValue) → IsSegmentText bytes s → IsSegmentText bytes t → s ≡ t }
    ensures legal { (bytes : List ℕ) (s : SegmentValue) (e : Error) → IsSegmentText bytes s → IsTold bytes e → e ≡ NoMemory }
    ensures refusal { (bytes : List ℕ) (e f : Error) (a b : Failed) → IsTold bytes e → IsTold bytes f
        → failed_by e ≡ Some a → failed_by f ≡ Some b → a ≡ b }
{}

/// A segment is legal exactly where some text says it and passes all checks: what such a text says has the
/// facts that make a segment legal, and with them a JSON value says it, and the text of its written file.
pub fn legal_by_facts()
    ensures facts { (bytes : List ℕ) (s : SegmentValue) → IsSegmentText bytes s → IsLegal s }
    ensures value { (s : SegmentValue) → IsLegal s → IsFileOf (segment_data s) s }
    ensures text { (s : SegmentValue) → IsLegal s → IsSegmentText (segment_text s) s }
{}

/// The oscillator of each measuring slave runs, and every gap between its ticks is within the ppm of 10 ns.
pub fn clocks_keep_time()
    ensures { (s : SegmentValue) → IsLegal s → All (KeepsTime s.head.ppm) s.rows }
{}

/// There is a reference, and every slave that measures can be measured.
pub fn slaves_are_measurable()
    ensures reference { (s : SegmentValue) → IsLegal s → (r : ℕ) × (reference_row s.rows ≡ Some r) }
    ensures measurable { (s : SegmentValue) → IsLegal s
        → unmeasurable (tree_rows s.rows) (measures_at s.rows) (order (tree_rows s.rows)) ≡ None }
{}

/// A frame comes back within a frame period, the fall μ from one drift frame that comes to the next is 1 ns
/// or more, and the lead with two periods and three cycles is less than 2 s. Where the reference's time in
/// the last settle frame that came back is the epoch and 10 ns for each of its ticks since the latch, the
/// start of the units fits 63 bits.
pub fn times_fit()
    ensures trip { (s : SegmentValue) → IsLegal s → round_trip (tree_rows s.rows) < period_fs s.head.frame_ns }
    ensures step { (s : SegmentValue) → IsLegal s → pos 1 ≤ℤ step_of s.head }
    ensures start { (s : SegmentValue) → IsLegal s → ahead_ns s.head (counts_of s.rows) < 2000000000 }
    ensures fits { (s : SegmentValue) (l k : ℕ) → IsLegal s → AreTicksOf s.head.ppm l k → l ≤ 100000 * period_fs s.head.frame_ns
        → start_ns (s.head.epoch_ns + 10 * k) (lead_ns (clocks s.rows) s.head.loss_run s.head.frame_ns) s.head.cycle_ns < 2 ^ 63 }
{}

/// Of `loss_run` + 1 drift frames in a row one is not listed as lost, and none is listed whose number is not
/// 1 to 100,000.
pub fn frames_come()
    ensures run { (s : SegmentValue) → IsLegal s → (first : ℕ)
        → (number : ℕ) × (first ≤ number) × (number ≤ first + s.head.loss_run) × (is_lost s.losses number ≡ false) }
    ensures outside { (s : SegmentValue) → IsLegal s → (phase : Phase) (number : ℕ) → (IsNumber number → ⊥)
        → loss_at s.losses phase number ≡ None }
{}

/// The frames of a run, with three tries of each exchange, are at most 100,000, and its edges at most 200,000.
pub fn runs_are_short()
    ensures frames { (s : SegmentValue) → IsLegal s → most_frames s.head (counts_of s.rows) ≤ 100000 }
    ensures edges { (s : SegmentValue) → IsLegal s → s.head.cycles * signals s.rows ≤ 200000 }
{}
