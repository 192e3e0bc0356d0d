//! From one frame over clocks that correct nothing, over the commissioning of a legal segment, to its delays.

ghost use Rattle.std.specs.Prelude.{ℕ, List, ◌≡◌, Some, slice_get, Option, None, Ok};
ghost use Rattle.cable_tree.specs.Row.{Row};
ghost use Rattle.cable_tree.specs.declared.port.Port.{Port};
ghost use Rattle.delay_law.specs.AtRest.{AreLatchedAtRest};
ghost use Rattle.dc_delay.specs.LatchLaw.{AreOfClock};
ghost use Rattle.ecat_frame.specs.FrameGrammar.{FrameValue};
ghost use Rattle.frame_pass.specs.SegmentState.{SegmentState, leaves_at, segment_step};
ghost use Rattle.master_script.specs.Frames.{latch_datagrams};
ghost use Rattle.segment_file.specs.Legal.{IsLegal};
ghost use Rattle.segment_file.specs.Segment.{SegmentValue, row_at, tree_rows};
ghost use Rattle.segment_start.specs.Start.{started_segment, visits_of};
ghost use Rattle.delay_law.specs.Far.{AreFar};
ghost use Rattle.delay_law.specs.HeldTimes.{AllHold};
ghost use Rattle.delay_law.specs.OfFile.{IsOfFile};
ghost use Rattle.delay_law.specs.Resting.{AllRest};
ghost use Rattle.frame_pass.specs.SlaveState.{Slave};
ghost use Rattle.run_of_file.specs.Commissioned.{IsCommissioned, words_after};
ghost use Rattle.run_of_file.specs.RunOfFile.{RunEnd, commissioned, master_after, run_of};
ghost use Rattle.delay_law.specs.ToldTimes.{AreTold, latch_sent};
ghost use Rattle.delay_law.specs.NearDelays.{AreNear};

/// A segment stays that of its file, whatever frames are sent.
pub fn segments_stay()
    ensures start { (s : SegmentValue) → IsLegal s → IsOfFile s (started_segment s) }
    ensures step { (s : SegmentValue) (t : SegmentState) (wait_ns : ℕ) (f : FrameValue) → IsLegal s → IsOfFile s t
        → IsOfFile s (segment_step t wait_ns f).0 }
{}

/// At the start no clock has anything to correct, and none gets anything from a frame that does not write the low half of
/// the system time (0x0910): so each goes on counting 10 ns a tick from its start.
pub fn clocks_stay_at_rest()
    ensures start { (s : SegmentValue) → IsLegal s → AllRest s (started_segment s).slaves }
    ensures step { (s : SegmentValue) (t : SegmentState) (wait_ns : ℕ) (f : FrameValue) → IsLegal s → IsOfFile s t
        → AreFar 0x0910 4 f.datagrams
        → AllRest s t.slaves → AllRest s (segment_step t wait_ns f).0.slaves }
{}

/// Receive times stay where a frame does not write them (0x0900), lost or not. A Latch that comes back leaves in each
/// measuring slave what its clock, at rest, showed at the visits of that frame.
pub fn receive_times_are_of_the_latch()
    ensures kept { (s : SegmentValue) (t : SegmentState) (sent wait_ns : ℕ) (f : FrameValue) → IsLegal s → IsOfFile s t
        → AreFar 0x0900 4 f.datagrams
        → AllHold s sent t.slaves → AllHold s sent (segment_step t wait_ns f).0.slaves }
    ensures latched { (s : SegmentValue) (t : SegmentState) (wait_ns : ℕ) (f g : FrameValue) → IsLegal s → IsOfFile s t
        → f.datagrams ≡ latch_datagrams
        → (segment_step t wait_ns f).1 ≡ Some g → AllRest s t.slaves → AllHold s (leaves_at t wait_ns) (segment_step t wait_ns f).0.slaves }
{}

/// When commissioning has ended, with Ok or refused, no clock has anything to correct: each has counted 10 ns a tick from its start.
pub fn clocks_rest()
    ensures { (s : SegmentValue) (run : RunEnd) → IsLegal s → commissioned s ≡ Some run → AllRest s run.state.slaves }
{}

/// Where commissioning ends with Ok, every measuring slave holds what its clock showed at the visits of the Latch that came
/// back, whichever tries were lost before and after it; and so the master was told. That Latch was sent at its number times
/// the frame period, and visits each slave by the path sums of the tree.
pub fn times_of_the_latch()
    ensures held { (s : SegmentValue) (run : RunEnd) → IsCommissioned s run
        → AllHold s (latch_sent s (words_after s run)) run.state.slaves }
    ensures told { (s : SegmentValue) (run : RunEnd) → IsCommissioned s run
        → AreTold s (latch_sent s (words_after s run)) (words_after s run).latches }
    ensures visits { (s : SegmentValue) (run : RunEnd) (p : ℕ) (v : Slave) → IsLegal s → commissioned s ≡ Some run
        → slice_get run.state.slaves p ≡ Some v
        → v.visits ≡ visits_of (tree_rows s.rows) (row_at s p) }
{}

/// A clock with nothing left to correct counts 10 ns a tick, whatever its count and its width. So the low words
/// that it shows when a frame arrives at its slave, and when the frame comes back into a port, are readings of a
/// clock that does not correct.
pub fn clocks_at_rest_latch()
    ensures { (rows : List Row) (ppm r : ℕ) (laps : ℕ → Port → ℕ) → AreLatchedAtRest rows ppm r laps → AreOfClock rows ppm r laps }
{}

/// Once commissioning has ended with Ok, each measured delay lies within the delay bound of the true one: after it, and at the
/// end of the run, however that ends.
pub fn delays_are_near()
    ensures commissioned { (s : SegmentValue) (run : RunEnd) → IsLegal s → commissioned s ≡ Some run → run.answer ≡ Ok tt
        → AreNear s (master_after s None run.exchanges).delays }
    ensures later { (s : SegmentValue) (first run : RunEnd) (frames : Option ℕ) → IsLegal s → commissioned s ≡ Some first
        → first.answer ≡ Ok tt → run_of s ≡ Some run
        → AreNear s (master_after s frames run.exchanges).delays }
    ensures whole { (s : SegmentValue) (run : RunEnd) (frames : Option ℕ) → IsLegal s → run_of s ≡ Some run → run.answer ≡ Ok tt
        → AreNear s (master_after s frames run.exchanges).delays }
{}
