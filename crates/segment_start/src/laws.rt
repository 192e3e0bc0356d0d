//! What a legal segment is before its first frame, and what every frame keeps of it.

ghost use Rattle.std.specs.Prelude.{◌≡◌, ℕ, ◌+◌, ◌*◌, ◌<◌, ◌≤◌, ◌^◌, List, [], length, Some, IfSome, slice_get};
ghost use Rattle.ecat_frame.specs.FrameGrammar.{FrameValue};
ghost use Rattle.osc_clock.specs.Ticks.{IsRunning};
ghost use Rattle.segment_file.specs.Segment.{SegmentValue, row_at, row_of, tree_rows};
ghost use Rattle.segment_file.specs.Legal.{IsLegal};
ghost use Rattle.dc_topology.specs.Status.{status_of};
ghost use Rattle.frame_pass.specs.SlaveState.{Slave, Timing, width};
ghost use Rattle.frame_pass.specs.SegmentState.{leaves_at, SegmentState, segment_step, finished};
ghost use Rattle.frame_pass.specs.Invariants.{IsSoundSegment, IsUnsent, after_frames};
ghost use Rattle.frame_pass.specs.ClockHistory.{HasHistory};
ghost use Rattle.frame_pass.specs.ReceiveTimes.{AreInTurn};
ghost use Rattle.segment_start.specs.Start.{registers_of, visits_of, timing_by, slave_of, started_segment};
ghost use Rattle.segment_start.specs.Numbered.{AreNumberedSlaves};

/// The slaves are in frame order, one for each row.
pub fn slaves_in_frame_order()
    ensures count { (s : SegmentValue) → IsLegal s → length (started_segment s).slaves ≡ length s.rows }
    ensures each { (s : SegmentValue) (p : ℕ) → IsLegal s → p < length s.rows
        → slice_get (started_segment s).slaves p ≡ Some (slave_of s (row_at s p)) }
{}

/// What is at a position: the row there in frame order, and by that row when a frame visits the slave, its registers,
/// and its clock with the unit and the edges.
pub fn slave_at_position()
    ensures row { (s : SegmentValue) (p : ℕ) (v : Slave) → IsLegal s → slice_get (started_segment s).slaves p ≡ Some v
        → row_at s p < length s.rows }
    ensures visits { (s : SegmentValue) (p : ℕ) (v : Slave) → IsLegal s → slice_get (started_segment s).slaves p ≡ Some v
        → v.visits ≡ visits_of (tree_rows s.rows) (row_at s p) }
    ensures registers { (s : SegmentValue) (p : ℕ) (v : Slave) → IsLegal s → slice_get (started_segment s).slaves p ≡ Some v
        → v.registers ≡ registers_of (row_of s (row_at s p)).kind (status_of (tree_rows s.rows) (row_at s p)) }
    ensures clock { (s : SegmentValue) (p : ℕ) (v : Slave) → IsLegal s → slice_get (started_segment s).slaves p ≡ Some v
        → let row = row_of s (row_at s p) in v.timing ≡ timing_by row.kind s.head.cycles row }
{}

/// A frame visits each slave in turn: it arrives, and then comes back into the ports 3, 1 and 2, as far as they are
/// connected.
pub fn visits_in_turn()
    ensures row { (s : SegmentValue) (r : ℕ) → IsLegal s → r < length s.rows → AreInTurn (slave_of s r).visits }
    ensures position { (s : SegmentValue) (p : ℕ) (v : Slave) → IsLegal s → slice_get (started_segment s).slaves p ≡ Some v
        → AreInTurn v.visits }
{}

/// The clock of each measuring slave begins without a history, shows a word of its width, and runs.
pub fn clocks_begin()
    ensures { (s : SegmentValue) (r : ℕ) → IsLegal s → r < length s.rows
        → IfSome (slave_of s r).timing
        (λ m. HasHistory (width (slave_of s r).registers.kind) m.clock [] (slave_of s r) × IsRunning m.clock.osc × (m.clock.instant ≡ 0)) }
{}

/// Nothing was sent yet, and every slave is at true time 0, with 4096 bytes of registers and visits within the
/// round trip. So time goes on from there (the law of `frame_pass` on times).
pub fn starts_in_order()
    ensures timely { (s : SegmentValue) → IsLegal s → IsSoundSegment (started_segment s) }
    ensures unsent { (s : SegmentValue) → IsUnsent (started_segment s) }
{}

/// Where each frame of a legal segment is sent a frame period after the one before, sending s leaves at s periods.
pub fn sending_times()
    ensures { (s : SegmentValue) (fs : List FrameValue) → IsLegal s → length fs < 1000000
        → leaves_at (after_frames s.head.frame_ns fs (started_segment s)) s.head.frame_ns ≡ (length fs + 1) * (1000000 * s.head.frame_ns) }
{}

/// The edges that each slave keeps of each signal are numbered 0, 1, 2 and so on: so it is where a legal segment begins,
/// and every sending and every finish leaves it so.
pub fn edges_are_numbered()
    ensures start { (s : SegmentValue) → IsLegal s → AreNumberedSlaves (started_segment s).slaves }
    ensures step { (s : SegmentState) (wait_ns : ℕ) (f : FrameValue) → AreNumberedSlaves s.slaves
        → AreNumberedSlaves (segment_step s wait_ns f).0.slaves }
    ensures finish { (t : ℕ) (s : SegmentState) → AreNumberedSlaves s.slaves → AreNumberedSlaves (finished t s).slaves }
{}
