//! The start of the units, what arming leaves in them, and the edges that they raise.

ghost use Rattle.std.specs.Prelude.{◌≡◌, ℕ, ◌+◌, ◌*◌, ◌<◌, true, length, Some, Ok, slice_get};
ghost use Rattle.copy_law.specs.Drawn.{arrives_at};
ghost use Rattle.copy_law.specs.History.{history_from};
ghost use Rattle.copy_law.specs.Receipts.{IsReference};
ghost use Rattle.copy_law.specs.WholeTimes.{reference_time};
ghost use Rattle.dc_bounds.specs.LockNumbers.{period_fs};
ghost use Rattle.delay_law.specs.Resting.{row_there};
ghost use Rattle.edge_law.specs.InWindow.{AreEdgesWithin};
ghost use Rattle.edge_law.specs.RunEdges.{IsRaised};
ghost use Rattle.edge_report.specs.Edges.{HasSignal};
ghost use Rattle.run_counts.specs.Transmissions.{settling_sends};
ghost use Rattle.sync_units.specs.declared.edge.Signal.{Signal};
ghost use Rattle.edge_law.specs.ArmedUnits.{IsArmedSince};
ghost use Rattle.edge_law.specs.ToldStart.{KnowsTime, start_from};
ghost use Rattle.esc_regs.specs.Kinds.{has_clock};
ghost use Rattle.frame_pass.specs.SlaveState.{Slave, Timing};
ghost use Rattle.honest_slaves.specs.FileSlaves.{kind_at};
ghost use Rattle.master_script.specs.Words.{start_at};
ghost use Rattle.run_of_file.specs.Commissioned.{IsCommissioned, words_after};
ghost use Rattle.run_of_file.specs.MasterOfFile.{master_of};
ghost use Rattle.run_of_file.specs.RunOfFile.{RunEnd, ran, run_of, settled};
ghost use Rattle.segment_file.specs.Legal.{IsLegal};
ghost use Rattle.segment_file.specs.Segment.{SegmentValue};
ghost use Rattle.segment_start.specs.Start.{started_segment};

/// The time that the master knows after settling is whole: it is what the reference has counted, from the epoch on, until the last settle
/// frame that came back arrived there. That is one of the last `loss_run` + 1 of them. The start of the units is the first whole number of
/// cycles after that time and the lead, and no word cuts it.
pub fn reference_times_are_whole()
    ensures time { (s : SegmentValue) (first run : RunEnd) (r : ℕ) → IsCommissioned s first → settled s ≡ Some run → run.answer ≡ Ok tt
        → IsReference s r
        → KnowsTime s first r (words_after s run) }
    ensures start { (s : SegmentValue) (first run : RunEnd) (r : ℕ) → IsCommissioned s first → settled s ≡ Some run → run.answer ≡ Ok tt
        → IsReference s r
        → (knows : KnowsTime s first r (words_after s run))
        → start_at (master_of s) (words_after s run)
        ≡ start_from s (reference_time s (words_after s first) r (arrives_at s first knows.frame r)) }
{}

/// Where a run is not refused, each clock was armed by the try of its Arm that came back, with the start that the master computed at the
/// end of settling. Its unit and its kept edges are what that arming and the calls since then have made: when the last frame was sent,
/// and at the end of the run, to which every clock goes on.
pub fn units_are_armed()
    ensures ran { (s : SegmentValue) (first before run : RunEnd) (p : ℕ) (v : Slave) → IsCommissioned s first → settled s ≡ Some before
        → ran s ≡ Some run → run.answer ≡ Ok tt → slice_get run.state.slaves p ≡ Some v → has_clock (kind_at s p) ≡ true
        → IsArmedSince s first p (start_at (master_of s) (words_after s before))
        (history_from (started_segment s) run.exchanges p) v }
    ensures whole { (s : SegmentValue) (first before run : RunEnd) (p : ℕ) (v : Slave) → IsCommissioned s first → settled s ≡ Some before
        → run_of s ≡ Some run → run.answer ≡ Ok tt → slice_get run.state.slaves p ≡ Some v → has_clock (kind_at s p) ≡ true
        → IsArmedSince s first p (start_at (master_of s) (words_after s before))
        (history_from (started_segment s) run.exchanges p) v }
{}

/// Where a run is not refused, each signal of the file raises an edge of each index below `cycles`, after the last arming and at or before
/// the end of the run. It is at a tick at which the whole copy of the clock has come to what is due, and is at most 10 ns above. The list of
/// the signal's edges keeps it at the place of its index.
pub fn edges_are_raised()
    ensures { (s : SegmentValue) (first before run : RunEnd) (p k : ℕ) (v : Slave) (m : Timing) (signal : Signal) → IsCommissioned s first
        → settled s ≡ Some before → run_of s ≡ Some run → run.answer ≡ Ok tt → slice_get run.state.slaves p ≡ Some v
        → v.timing ≡ Some m → has_clock (kind_at s p) ≡ true → HasSignal (row_there s p) signal → k < s.head.cycles
        → (frame : ℕ) × (u : ℕ) × (settling_sends s < frame)
        × IsRaised s (words_after s first) p signal (start_at (master_of s) (words_after s before)) k (arrives_at s first frame p)
        ((length run.exchanges + 1) * period_fs s.head.frame_ns) u (history_from (started_segment s) run.exchanges p) m.edges.edges }
{}

/// Where a run is not refused, each signal of the file has an edge of each index below `cycles`, and the edges of one index of two signals
/// are as far apart as their shifts say, but for at most the window W of these signals.
pub fn edges_are_in_the_window()
    ensures { (s : SegmentValue) (run : RunEnd) → IsLegal s → run_of s ≡ Some run → run.answer ≡ Ok tt
        → AreEdgesWithin s run.state.slaves }
{}
