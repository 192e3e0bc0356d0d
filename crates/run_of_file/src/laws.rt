//! Laws over the definitions alone, for proofs of the layers above. They speak of any legal segment.

ghost use Rattle.std.specs.Prelude.{◌≡◌, ℕ, ◌<◌, ◌≤◌, [], Option, Some, None, IsSome, Ok, Err, length};
ghost use Rattle.master_script.specs.Scripted.{AreScripted};
ghost use Rattle.ecat_link.specs.Exchanges.{Runs};
ghost use Rattle.ecat_link.specs.Serves.{Serves};
ghost use Rattle.master_script.specs.Kept.{Kept, StandsFor, Ends};
ghost use Rattle.master_script.specs.Script.{Answer, Commission, Settle, Arm, Run, script};
ghost use Rattle.frame_pass.specs.Invariants.{IsSoundSegment};
ghost use Rattle.frame_pass.specs.SegmentState.{SegmentState, segment_step, finished};
ghost use Rattle.segment_start.specs.Start.{started_segment};
ghost use Rattle.segment_file.specs.Segment.{SegmentValue};
ghost use Rattle.segment_file.specs.Legal.{IsLegal};
ghost use Rattle.run_of_file.specs.MasterOfFile.{master_of};
ghost use Rattle.master_script.specs.declared.step.MasterError.{MasterError};
ghost use Rattle.run_of_file.specs.RunOfFile.{RunEnd, commissioned, settled, armed, ran, run_of, end_of_run, commissioned_from, settled_from, armed_from, ran_from, run_from, frames_given, master_after};
ghost use Rattle.run_of_file.specs.AtEnd.{IsAtEnd};

/// The master of a legal segment is told of each slave once, and its numbers lie in their ranges.
pub fn masters_are_in_range()
    ensures kinds { (s : SegmentValue) → IsLegal s → length (master_of s).kinds ≡ length s.rows }
    ensures plans { (s : SegmentValue) → IsLegal s → length (master_of s).plans ≡ length s.rows }
    ensures some { (s : SegmentValue) → IsLegal s → 0 < length s.rows }
    ensures few { (s : SegmentValue) → IsLegal s → length s.rows ≤ 256 }
    ensures lock_in { (s : SegmentValue) → IsLegal s → (master_of s).lock_in ≤ 100000 }
    ensures frames { (s : SegmentValue) → IsLegal s → frames_given s ≤ 100000 }
{}

/// Every legal segment has a run, and each phase of it has an end. So does a run from any sound state of the segment on.
pub fn runs_end()
    ensures commissioned { (s : SegmentValue) → IsLegal s → IsSome (commissioned s) }
    ensures settled { (s : SegmentValue) → IsLegal s → IsSome (settled s) }
    ensures armed { (s : SegmentValue) → IsLegal s → IsSome (armed s) }
    ensures ran { (s : SegmentValue) → IsLegal s → IsSome (ran s) }
    ensures whole { (s : SegmentValue) → IsLegal s → IsSome (run_of s) }
    ensures from { (s : SegmentValue) → IsLegal s → (start : SegmentState) → IsSoundSegment start → IsSome (run_from s start) }
{}

/// The exchanges of a run are those that the script wants, in each phase, and time never goes back in it.
pub fn runs_follow_the_script()
    ensures commissioned { (s : SegmentValue) (run : RunEnd) → IsLegal s → commissioned s ≡ Some run
        → AreScripted (master_of s) (frames_given s) run.exchanges × IsSoundSegment run.state }
    ensures settled { (s : SegmentValue) (run : RunEnd) → IsLegal s → settled s ≡ Some run
        → AreScripted (master_of s) (frames_given s) run.exchanges × IsSoundSegment run.state }
    ensures armed { (s : SegmentValue) (run : RunEnd) → IsLegal s → armed s ≡ Some run
        → AreScripted (master_of s) (frames_given s) run.exchanges × IsSoundSegment run.state }
    ensures ran { (s : SegmentValue) (run : RunEnd) → IsLegal s → ran s ≡ Some run
        → AreScripted (master_of s) (frames_given s) run.exchanges × IsSoundSegment run.state }
{}

/// The exchanges of a run are those that the segment makes of its frames, from its start on, and they are few.
pub fn runs_are_the_segments()
    ensures commissioned { (s : SegmentValue) (run : RunEnd) → commissioned s ≡ Some run
        → Runs segment_step (Some (started_segment s)) run.exchanges (Some run.state) }
    ensures settled { (s : SegmentValue) (run : RunEnd) → settled s ≡ Some run
        → Runs segment_step (Some (started_segment s)) run.exchanges (Some run.state) }
    ensures armed { (s : SegmentValue) (run : RunEnd) → armed s ≡ Some run
        → Runs segment_step (Some (started_segment s)) run.exchanges (Some run.state) }
    ensures ran { (s : SegmentValue) (run : RunEnd) → ran s ≡ Some run
        → Runs segment_step (Some (started_segment s)) run.exchanges (Some run.state) }
    ensures few { (s : SegmentValue) (run : RunEnd) → IsLegal s → ran s ≡ Some run → run.state.sent ≤ 203097 }
{}

/// A phase that ends in a refusal ends the run; one that ends with Ok goes on, and behind the last one every clock goes on to
/// the end of the run.
pub fn refusals_end_the_run()
    ensures commissioned { (s : SegmentValue) (state : SegmentState) (m : Kept) (e : MasterError)
        → IsAtEnd s None (commissioned s) state m (Err e) → IsAtEnd s None (run_of s) state m (Err e) }
    ensures settled { (s : SegmentValue) (state : SegmentState) (m : Kept) (e : MasterError) → IsAtEnd s None (settled s) state m (Err e)
        → IsAtEnd s None (run_of s) state m (Err e) }
    ensures armed { (s : SegmentValue) (state : SegmentState) (m : Kept) (e : MasterError) → IsAtEnd s None (armed s) state m (Err e)
        → IsAtEnd s None (run_of s) state m (Err e) }
    ensures ran { (s : SegmentValue) (frames : Option ℕ) (state : SegmentState) (m : Kept) (e : MasterError)
        → IsAtEnd s frames (ran s) state m (Err e) → IsAtEnd s frames (run_of s) state m (Err e) }
    ensures whole { (s : SegmentValue) (frames : Option ℕ) (state : SegmentState) (m : Kept) → IsAtEnd s frames (ran s) state m (Ok tt)
        → IsAtEnd s frames (run_of s) (finished (end_of_run s state) state) m (Ok tt) }
{}

/// A master that calls over a segment's step makes the run of the file: what each call leaves is the end of the run up to
/// that phase. `Serves` and `Ends` are what a master's contract says of a call.
pub fn calls_make_the_run()
    ensures commission { (s : SegmentValue) → IsLegal s → (m : Kept) → m ≡ master_after s None [] → (later : SegmentState) (n : Kept)
        → n.config ≡ m.config
        → (answer : Answer) → Serves segment_step (script m.config Commission) (StandsFor None m) (Some (started_segment s)) (Some later)
        (Ends m.config Commission n answer)
        → IsAtEnd s None (commissioned s) later n answer }
    ensures settle { (s : SegmentValue) → IsLegal s → (state : SegmentState) (m : Kept) → IsAtEnd s None (commissioned s) state m (Ok tt)
        → (later : SegmentState) (n : Kept) → n.config ≡ m.config → (answer : Answer)
        → Serves segment_step (script m.config Settle) (StandsFor None m) (Some state) (Some later) (Ends m.config Settle n answer)
        → IsAtEnd s None (settled s) later n answer }
    ensures arm { (s : SegmentValue) → IsLegal s → (state : SegmentState) (m : Kept) → IsAtEnd s None (settled s) state m (Ok tt)
        → (later : SegmentState) (n : Kept) → n.config ≡ m.config → (answer : Answer)
        → Serves segment_step (script m.config Arm) (StandsFor None m) (Some state) (Some later) (Ends m.config Arm n answer)
        → IsAtEnd s None (armed s) later n answer }
    ensures run { (s : SegmentValue) → IsLegal s → (state : SegmentState) (m : Kept) → IsAtEnd s None (armed s) state m (Ok tt)
        → (later : SegmentState) (n : Kept) → n.config ≡ m.config → (answer : Answer)
        → Serves segment_step (script m.config (Run (frames_given s))) (StandsFor None m) (Some state) (Some later)
        (Ends m.config (Run (frames_given s)) n answer)
        → IsAtEnd s (Some (frames_given s)) (ran s) later n answer }
{}

/// The same from any sound state of the segment on, such as one in which a latch input expects an event.
pub fn calls_make_runs_from()
    ensures commission { (s : SegmentValue) → IsLegal s → (start : SegmentState) (m : Kept) → m ≡ master_after s None []
        → (later : SegmentState) (n : Kept) → n.config ≡ m.config
        → (answer : Answer) → Serves segment_step (script m.config Commission) (StandsFor None m) (Some start) (Some later)
        (Ends m.config Commission n answer)
        → IsAtEnd s None (commissioned_from s start) later n answer }
    ensures settle { (s : SegmentValue) → IsLegal s → (start : SegmentState) → IsSoundSegment start
        → (state : SegmentState) (m : Kept) → IsAtEnd s None (commissioned_from s start) state m (Ok tt)
        → (later : SegmentState) (n : Kept) → n.config ≡ m.config → (answer : Answer)
        → Serves segment_step (script m.config Settle) (StandsFor None m) (Some state) (Some later) (Ends m.config Settle n answer)
        → IsAtEnd s None (settled_from s start) later n answer }
    ensures arm { (s : SegmentValue) → IsLegal s → (start : SegmentState) → IsSoundSegment start
        → (state : SegmentState) (m : Kept) → IsAtEnd s None (settled_from s start) state m (Ok tt)
        → (later : SegmentState) (n : Kept) → n.config ≡ m.config → (answer : Answer)
        → Serves segment_step (script m.config Arm) (StandsFor None m) (Some state) (Some later) (Ends m.config Arm n answer)
        → IsAtEnd s None (armed_from s start) later n answer }
    ensures run { (s : SegmentValue) → IsLegal s → (start : SegmentState) → IsSoundSegment start
        → (state : SegmentState) (m : Kept) → IsAtEnd s None (armed_from s start) state m (Ok tt)
        → (later : SegmentState) (n : Kept) → n.config ≡ m.config → (answer : Answer)
        → Serves segment_step (script m.config (Run (frames_given s))) (StandsFor None m) (Some state) (Some later)
        (Ends m.config (Run (frames_given s)) n answer)
        → IsAtEnd s (Some (frames_given s)) (ran_from s start) later n answer }
{}

/// A run from any state of the segment on is ended by a refusal as the run of a file is, and after a last phase that ends
/// with Ok every clock goes on to the end of the run.
pub fn refusals_end_runs_from()
    ensures commissioned { (s : SegmentValue) (start state : SegmentState) (m : Kept) (e : MasterError)
        → IsAtEnd s None (commissioned_from s start) state m (Err e) → IsAtEnd s None (run_from s start) state m (Err e) }
    ensures settled { (s : SegmentValue) (start state : SegmentState) (m : Kept) (e : MasterError)
        → IsAtEnd s None (settled_from s start) state m (Err e) → IsAtEnd s None (run_from s start) state m (Err e) }
    ensures armed { (s : SegmentValue) (start state : SegmentState) (m : Kept) (e : MasterError)
        → IsAtEnd s None (armed_from s start) state m (Err e) → IsAtEnd s None (run_from s start) state m (Err e) }
    ensures ran { (s : SegmentValue) (start state : SegmentState) (m : Kept) (frames : Option ℕ) (e : MasterError)
        → IsAtEnd s frames (ran_from s start) state m (Err e) → IsAtEnd s frames (run_from s start) state m (Err e) }
    ensures whole { (s : SegmentValue) (start state : SegmentState) (m : Kept) (frames : Option ℕ)
        → IsAtEnd s frames (ran_from s start) state m (Ok tt)
        → IsAtEnd s frames (run_from s start) (finished (end_of_run s state) state) m (Ok tt) }
{}

/// The run of a file is the run from the state in which its segment begins.
pub fn runs_begin_at_the_start()
    ensures commissioned { (s : SegmentValue) → commissioned s ≡ commissioned_from s (started_segment s) }
    ensures settled { (s : SegmentValue) → settled s ≡ settled_from s (started_segment s) }
    ensures armed { (s : SegmentValue) → armed s ≡ armed_from s (started_segment s) }
    ensures ran { (s : SegmentValue) → ran s ≡ ran_from s (started_segment s) }
    ensures whole { (s : SegmentValue) → run_of s ≡ run_from s (started_segment s) }
{}
