//! What stays in the slaves of a legal segment after commissioning, what commissioning has left there, and what drift
//! frames bring.

ghost use Rattle.std.specs.Prelude.{◌++◌, ◌≡◌, ℕ, Some, ◌≢◌, ◌+◌, ◌*◌, ◌<◌, ◌≤◌, [], ◌∷◌, true, length, slice_get, if◌then◌else◌, ◌%◌, ◌^◌};
ghost use Rattle.copy_law.specs.Speeds.{AllCorrect};
ghost use Rattle.copy_law.specs.Untouched.{AreLasting, CorrectAlike, HoldAlike, IsUntouched, WriteNone};
ghost use Rattle.frame_pass.specs.SegmentState.{phase_of, SegmentState, leaves_at, segment_step};
ghost use Rattle.master_script.specs.Config.{ConfigValue};
ghost use Rattle.master_script.specs.Steps.{datagrams_of};
ghost use Rattle.master_script.specs.Words.{Words, delay_at, offset_at};
ghost use Rattle.master_script.specs.declared.step.Step.{Step};
ghost use Rattle.run_of_file.specs.RunOfFile.{RunEnd, armed, commissioned, ran, run_of, settled};
ghost use Rattle.segment_file.specs.Legal.{IsLegal};
ghost use Rattle.segment_file.specs.Segment.{SegmentValue, clock_at, clocks, measuring, oscillator, row_at, tree_rows};
ghost use Rattle.cable_tree.specs.Positions.{position_of};
ghost use Rattle.dc_bounds.specs.TickFacts.{IsWithin};
ghost use Rattle.osc_clock.specs.Ticks.{IsRunning};
ghost use Rattle.segment_bounds.specs.Bounds.{reference_row_of};
ghost use Rattle.loss_list.specs.declared.loss_row.Phase.TheVariants as phase;
ghost use Rattle.frame_pass.specs.ReceiveTimes.{IsReceiveTime};
ghost use Rattle.copy_law.specs.DriftFrames.{IsDriftFrame, brought, sent_at};
ghost use Rattle.copy_law.specs.Receipts.{IsReference, receipt, receives};
ghost use Rattle.ecat_link.specs.Exchanges.{Exchange};
ghost use Rattle.frame_pass.specs.SlaveState.{Slave, Timing, offset as held_offset, width};
ghost use Rattle.honest_slaves.specs.FileSlaves.{kind_at};
ghost use Rattle.esc_regs.specs.Kinds.{has_clock};
ghost use Rattle.frame_pass.specs.Advancing.{measuring_at};
ghost use Rattle.frame_pass.specs.LiveRegisters.{system_time};
ghost use Rattle.frame_pass.specs.Copies.{copy_at};
ghost use Rattle.master_script.specs.Offset.{offset};
ghost use Rattle.segment_start.specs.Start.{started_segment};
ghost use Rattle.run_of_file.specs.Commissioned.{IsCommissioned, words_after};
ghost use Rattle.run_of_file.specs.MasterOfFile.{master_of};
ghost use Rattle.delay_law.specs.Resting.{row_there, shown_at};
ghost use Rattle.copy_law.specs.HeldOffsets.{AreSet, HoldsSet};
ghost use Rattle.copy_law.specs.Drifting.{IsBehind, StandsBehind};
ghost use Rattle.copy_law.specs.Drawn.{IsDrawing};
ghost use Rattle.copy_law.specs.Together.{AreCopiesNear, AreLocked};
ghost use Rattle.copy_law.specs.History.{clock_of, copy_of_run, history_from};
ghost use Rattle.copy_law.specs.WholeTimes.{reference_time, whole_copy};
ghost use Rattle.frame_pass.specs.ClockHistory.{HasHistory};
ghost use Rattle.copy_law.specs.SinceLatch.{IsSinceLatch, counted_ns, latch_arrival};

/// A drift frame of the script writes the system time, and the activation, the start time and the cycle times of a SYNC unit, and
/// nothing else.
pub fn drift_frames_write_little()
    ensures frames { (cfg : ConfigValue) (w : Words) (step : Step) (at n : ℕ) → phase_of (datagrams_of cfg w step) ≡ phase.Drift
        → IsUntouched at n → WriteNone at n (datagrams_of cfg w step) }
    ensures offset { IsUntouched 0x0920 8 }
    ensures delay { IsUntouched 0x0928 4 }
    ensures speed { IsUntouched 0x0930 2 }
    ensures receive_times { (at n : ℕ) → IsReceiveTime at n → IsUntouched at n }
{}

/// After commissioning, to the end of each later phase and of the whole run, each slave of a legal segment holds what it then held in its
/// receive times, and in the registers that no drift frame writes and that it does not set itself, as the offset, the delay and the speed.
pub fn registers_stay()
    ensures settled { (s : SegmentValue) (first run : RunEnd) (at n : ℕ) → IsLegal s → commissioned s ≡ Some first → settled s ≡ Some run
        → AreLasting at n → HoldAlike at n first.state.slaves run.state.slaves }
    ensures armed { (s : SegmentValue) (first run : RunEnd) (at n : ℕ) → IsLegal s → commissioned s ≡ Some first → armed s ≡ Some run
        → AreLasting at n → HoldAlike at n first.state.slaves run.state.slaves }
    ensures ran { (s : SegmentValue) (first run : RunEnd) (at n : ℕ) → IsLegal s → commissioned s ≡ Some first → ran s ≡ Some run
        → AreLasting at n → HoldAlike at n first.state.slaves run.state.slaves }
    ensures whole { (s : SegmentValue) (first run : RunEnd) (at n : ℕ) → IsLegal s → commissioned s ≡ Some first → run_of s ≡ Some run
        → AreLasting at n → HoldAlike at n first.state.slaves run.state.slaves }
    ensures offset { AreLasting 0x0920 8 }
    ensures delay { AreLasting 0x0928 4 }
    ensures speed { AreLasting 0x0930 2 }
{}

/// After commissioning, to the end of each later phase and of the whole run, the clock of each slave takes as many ticks to a correction
/// (g, by the speed at 0x0930) as it then took.
pub fn corrections_stay()
    ensures settled { (s : SegmentValue) (first run : RunEnd) → IsLegal s → commissioned s ≡ Some first → settled s ≡ Some run
        → CorrectAlike first.state.slaves run.state.slaves }
    ensures armed { (s : SegmentValue) (first run : RunEnd) → IsLegal s → commissioned s ≡ Some first → armed s ≡ Some run
        → CorrectAlike first.state.slaves run.state.slaves }
    ensures ran { (s : SegmentValue) (first run : RunEnd) → IsLegal s → commissioned s ≡ Some first → ran s ≡ Some run
        → CorrectAlike first.state.slaves run.state.slaves }
    ensures whole { (s : SegmentValue) (first run : RunEnd) → IsLegal s → commissioned s ≡ Some first → run_of s ≡ Some run
        → CorrectAlike first.state.slaves run.state.slaves }
{}

/// Where commissioning ends with Ok, each clock holds the offset and the measured delay that the master computes from the receive
/// times that it was told, and every other slave holds 0 and 0, as all did at the start. So it stays after each later phase, and
/// to the end of the run, however that ends.
pub fn offsets_are_set()
    ensures start { (s : SegmentValue) (p : ℕ) (v : Slave) → IsLegal s → slice_get (started_segment s).slaves p ≡ Some v
        → HoldsSet 0 0 v.registers }
    ensures commissioned { (s : SegmentValue) (run : RunEnd) → IsCommissioned s run → AreSet s (words_after s run) run.state.slaves }
    ensures settled { (s : SegmentValue) (first run : RunEnd) → IsCommissioned s first → settled s ≡ Some run
        → AreSet s (words_after s first) run.state.slaves }
    ensures armed { (s : SegmentValue) (first run : RunEnd) → IsCommissioned s first → armed s ≡ Some run
        → AreSet s (words_after s first) run.state.slaves }
    ensures ran { (s : SegmentValue) (first run : RunEnd) → IsCommissioned s first → ran s ≡ Some run
        → AreSet s (words_after s first) run.state.slaves }
    ensures whole { (s : SegmentValue) (first run : RunEnd) → IsCommissioned s first → run_of s ≡ Some run
        → AreSet s (words_after s first) run.state.slaves }
{}

/// The offset of a clock is the epoch and the measured delay, less what the clock showed when the Latch that came back arrived at
/// it, as a word of the clock's width. The reference has the delay 0.
pub fn offsets_come_of_readings()
    ensures offset { (s : SegmentValue) (run : RunEnd) (p : ℕ) → IsCommissioned s run → p < length s.rows
        → clock_at s.rows (row_at s p) ≡ true
        → offset_at (master_of s) (words_after s run) p
        ≡ offset (width (row_there s p).kind) s.head.epoch_ns (delay_at (master_of s) (words_after s run) p)
        (shown_at (row_there s p) (latch_arrival s (words_after s run) p)) }
    ensures reference { (s : SegmentValue) (run : RunEnd) (r : ℕ) → IsCommissioned s run → (words_after s run).reference ≡ Some r
        → delay_at (master_of s) (words_after s run) r ≡ 0 }
{}

/// After commissioning, and as long as no frame brings a clock anything, its local copy is the epoch, its measured delay, and 10 ns
/// for each of its ticks since the Latch that came back arrived at it. Its system time is the same without the delay. Both are words
/// of the clock's width.
pub fn system_times_begin_at_the_epoch()
    ensures copy { (s : SegmentValue) (run : RunEnd) (p : ℕ) (v : Slave) (m : Timing) (t : ℕ) → IsCommissioned s run
        → IsSinceLatch s run p v m t
        → copy_at (width (row_there s p).kind) m.clock [] (held_offset v.registers) t
        ≡ (s.head.epoch_ns + delay_at (master_of s) (words_after s run) p + counted_ns s (words_after s run) p t)
        % 2 ^ width (row_there s p).kind }
    ensures time { (s : SegmentValue) (run : RunEnd) (p : ℕ) (v : Slave) (m : Timing) (t : ℕ) → IsCommissioned s run
        → IsSinceLatch s run p v m t
        → system_time (measuring_at t (record { registers = v.registers; timing = m }))
        ≡ (s.head.epoch_ns + counted_ns s (words_after s run) p t) % 2 ^ width (row_there s p).kind }
{}

/// The reference of a file, the first of its clocks in frame order, is the one that the master finds in commissioning, and the one
/// that the bounds take. Its slave has a clock, which runs within the file's ppm, and its measured delay is 0.
pub fn references_are_told()
    ensures told { (s : SegmentValue) (run : RunEnd) (r : ℕ) → IsCommissioned s run → IsReference s r
        → (words_after s run).reference ≡ Some r }
    ensures bounds { (s : SegmentValue) (r : ℕ) → IsLegal s → IsReference s r → position_of (tree_rows s.rows) (reference_row_of s) ≡ r }
    ensures low { (s : SegmentValue) (r : ℕ) → IsLegal s → IsReference s r → r < length s.rows }
    ensures clock { (s : SegmentValue) (r : ℕ) → IsLegal s → IsReference s r → has_clock (kind_at s r) ≡ true }
    ensures delay { (s : SegmentValue) (run : RunEnd) (r : ℕ) → IsCommissioned s run → IsReference s r
        → delay_at (master_of s) (words_after s run) r ≡ 0 }
    ensures time { (s : SegmentValue) (r : ℕ) → IsLegal s → IsReference s r
        → IsRunning (oscillator (row_there s r)) × IsWithin s.head.ppm (oscillator (row_there s r)) }
    ensures counts { (s : SegmentValue) (run : RunEnd) (r : ℕ) (v : Slave) → IsCommissioned s run → IsReference s r
        → slice_get run.state.slaves r ≡ Some v → (m : Timing) × (v.timing ≡ Some m) }
{}

/// After the Latch that came back commissioning sends at most three frames for each slave that measures, which is asked its Times, and
/// three for each clock, whose offset and delay are Set. So the clocks were latched at most so many frame periods before its end.
pub fn few_follow_the_latch()
    ensures some { (s : SegmentValue) (run : RunEnd) → IsCommissioned s run → 0 < (words_after s run).latched }
    ensures within { (s : SegmentValue) (run : RunEnd) → IsCommissioned s run → (words_after s run).latched ≤ length run.exchanges }
    ensures few { (s : SegmentValue) (run : RunEnd) → IsCommissioned s run
        → length run.exchanges ≤ (words_after s run).latched + 3 * measuring s.rows + 3 * clocks s.rows }
{}

/// Where commissioning ends with Ok, each clock takes as many ticks to a correction as the file's speed says, and so after each later
/// phase and to the end of the run. A slave that only measures receive times refuses the speed, and nothing is said of it.
pub fn speeds_are_set()
    ensures commissioned { (s : SegmentValue) (run : RunEnd) → IsCommissioned s run → AllCorrect s run.state.slaves }
    ensures settled { (s : SegmentValue) (first run : RunEnd) → IsCommissioned s first → settled s ≡ Some run
        → AllCorrect s run.state.slaves }
    ensures armed { (s : SegmentValue) (first run : RunEnd) → IsCommissioned s first → armed s ≡ Some run → AllCorrect s run.state.slaves }
    ensures ran { (s : SegmentValue) (first run : RunEnd) → IsCommissioned s first → ran s ≡ Some run → AllCorrect s run.state.slaves }
    ensures whole { (s : SegmentValue) (first run : RunEnd) → IsCommissioned s first → run_of s ≡ Some run → AllCorrect s run.state.slaves }
{}

/// In the run of a file a clock other than the reference receives a difference from drift frame k exactly where that frame comes to it: the
/// file does not list k among the drift frames, or lists it as lost behind the clock's position. It receives it at C + k frame periods and
/// the frame's way to the clock, and it is the difference of two system times, of which the low halves count: the clock's then, and the
/// reference's when the frame arrived there. No other slave receives anything. So of `loss_run` + 1 drift frames in a row each such clock
/// receives from one, and it comes after the reference in frame order.
pub fn drift_frames_bring_times()
    ensures sent { (s : SegmentValue) (k : ℕ) (t : SegmentState) (e : Exchange) → IsLegal s → (frame : IsDriftFrame s k t e)
        → leaves_at t e.wait_ns ≡ sent_at s frame.first k }
    ensures receipts { (s : SegmentValue) (k p r : ℕ) (t : SegmentState) (e : Exchange) (v reference : Slave) → IsLegal s
        → (frame : IsDriftFrame s k t e) → IsReference s r
        → slice_get t.slaves p ≡ Some v → slice_get t.slaves r ≡ Some reference
        → brought t e p v ≡ (if receives s r k p then receipt (sent_at s frame.first k) v reference ∷ [] else []) }
    ensures often { (s : SegmentValue) (first p r : ℕ) → IsLegal s → has_clock (kind_at s p) ≡ true → p ≢ r
        → (k : ℕ) × (first ≤ k) × (k ≤ first + s.head.loss_run) × (receives s r k p ≡ true) }
    ensures behind { (s : SegmentValue) (p r : ℕ) → IsLegal s → IsReference s r → p < length s.rows → has_clock (kind_at s p) ≡ true → p ≢ r
        → r < p }
{}

/// The states after drift frames: there is one after none, where commissioning ended, and one before each drift frame that the run
/// sends. Each is what the frame makes of the one before, and the last is that in which the run ends. After k of them there is only
/// one.
pub fn drift_frames_follow()
    ensures begins { (s : SegmentValue) (first : RunEnd) → IsCommissioned s first → IsBehind s 0 first.state }
    ensures frame { (s : SegmentValue) (first run : RunEnd) (k : ℕ) → IsCommissioned s first → ran s ≡ Some run
        → length first.exchanges + k < length run.exchanges
        → (t : SegmentState) × (e : Exchange) × IsBehind s k t × IsDriftFrame s (k + 1) t e }
    ensures next { (s : SegmentValue) (k : ℕ) (t : SegmentState) (e : Exchange) → IsLegal s → IsDriftFrame s (k + 1) t e
        → IsBehind s k t × IsBehind s (k + 1) (segment_step t e.wait_ns e.sent).0 }
    ensures last { (s : SegmentValue) (first run : RunEnd) (k : ℕ) → IsCommissioned s first → ran s ≡ Some run
        → length first.exchanges + k ≡ length run.exchanges → IsBehind s k run.state }
    ensures one { (s : SegmentValue) (k : ℕ) (t u : SegmentState) → IsBehind s k t → IsBehind s k u → t ≡ u }
{}

/// What holds of the segment of a legal file after k drift frames. Its slaves are those of the file, sound, and each has its station
/// address. C + k frames were sent, where commissioning sent C, and k of them are drift frames. The last one left at C + k frame
/// periods, and the next one leaves a period later. Each clock holds the offset and the delay that commissioning left, and corrects
/// by the file's speed.
pub fn states_stand()
    ensures { (s : SegmentValue) (k : ℕ) (t : SegmentState) → IsLegal s → (behind : IsBehind s k t) → StandsBehind s behind.first k t }
{}

/// After any number of drift frames the told clock of a slave is that of its history: its start by the file, and what each frame
/// since the first one of the run brought it.
pub fn clocks_have_histories()
    ensures { (s : SegmentValue) (k p : ℕ) (t : SegmentState) (v : Slave) → IsLegal s → (behind : IsBehind s k t)
        → slice_get t.slaves p ≡ Some v → has_clock (kind_at s p) ≡ true
        → HasHistory (width (kind_at s p)) (clock_of (row_there s p))
        (history_from (started_segment s) (behind.first.exchanges ++ behind.before) p) v }
{}

/// From the arrival of the Latch that came back on, the local copy of a clock in a run is the word of a whole number: the epoch, what
/// the clock has counted since that arrival by its history, and its measured delay. Of the reference this number is the epoch and 10
/// ns for each of its ticks.
pub fn copies_are_whole()
    ensures copy { (s : SegmentValue) (first run : RunEnd) (p t : ℕ) → IsCommissioned s first → ran s ≡ Some run → p < length s.rows
        → has_clock (kind_at s p) ≡ true → latch_arrival s (words_after s first) p ≤ t
        → copy_of_run s run p t
        ≡ whole_copy s (words_after s first) p (history_from (started_segment s) run.exchanges p) t % 2 ^ width (kind_at s p) }
    ensures reference { (s : SegmentValue) (first run : RunEnd) (r t : ℕ) → IsCommissioned s first → ran s ≡ Some run → IsReference s r
        → whole_copy s (words_after s first) r (history_from (started_segment s) run.exchanges r) t
        ≡ reference_time s (words_after s first) r t }
{}

/// After k drift frames each clock other than the reference has received nothing yet, or it is drawn by the last frame that came to it:
/// its time is the reference's at that frame's arrival there, 10 ns for each of its own ticks since, and what is left of the difference
/// that it then received. That difference is as small as the frames before have made it.
pub fn clocks_are_drawn_in_runs()
    ensures { (s : SegmentValue) (k r p : ℕ) (t : SegmentState) → IsLegal s → (behind : IsBehind s k t) → IsReference s r
        → p < length s.rows → has_clock (kind_at s p) ≡ true → p ≢ r
        → IsDrawing s behind.first k r p (history_from (started_segment s) (behind.first.exchanges ++ behind.before) p) }
{}

/// After K drift frames every difference that one of them brings a clock is at most Q of `loss_run` + 1 frame periods in size, and each
/// difference before is at most Q of the reach.
pub fn differences_are_locked()
    ensures { (s : SegmentValue) → IsLegal s → AreLocked s }
{}

/// From the round trip of a frame after the last frame of settling on, to a period after the last frame of the run, the local copy of
/// each clock is within X of that of the reference.
pub fn copies_are_near()
    ensures { (s : SegmentValue) → IsLegal s → AreCopiesNear s }
{}
