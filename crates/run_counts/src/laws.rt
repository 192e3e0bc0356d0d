//! From the number of one frame up to the count of a whole run. The laws on tries ask for no file; all others speak of
//! any legal segment.

ghost use Rattle.std.specs.Prelude.{List, Some, ◌≡◌, ℕ, ◌+◌, Bool, ◌∷◌, None, is_none, ◌*◌, ◌≤◌, ◌++◌, length, Ok, Err, true, false, map, [], Option};
ghost use Rattle.ecat_link.specs.Exchanges.{Exchange, Runs, lost_among};
ghost use Rattle.frame_pass.specs.SegmentState.{SegmentState, segment_step};
ghost use Rattle.master_script.specs.Progress.{progress, Arming, Commissioning, Progress, Settling, after, beginning};
ghost use Rattle.master_script.specs.Scripted.{AreScripted};
ghost use Rattle.run_counts.specs.OnTheWay.{StandsAfter};
ghost use Rattle.run_of_file.specs.MasterOfFile.{master_of};
ghost use Rattle.run_of_file.specs.RunOfFile.{frames_given, RunEnd, armed, commissioned, ran, settled, master_after, run_of};
ghost use Rattle.segment_file.specs.Legal.{IsLegal};
ghost use Rattle.segment_file.specs.Segment.{SegmentValue, clocks, measuring, clock_at, tree_rows};
ghost use Rattle.segment_start.specs.Start.{started_segment};
ghost use Rattle.master_script.specs.Config.{ConfigValue, settle_frames};
ghost use Rattle.master_script.specs.Slaves.{SlaveWords};
ghost use Rattle.master_script.specs.declared.step.Step.{Step};
ghost use Rattle.run_counts.specs.Arming.{StandsArming};
ghost use Rattle.run_counts.specs.Commissioning.{Asks, Stands};
ghost use Rattle.run_counts.specs.Reached.{Reached};
ghost use Rattle.run_counts.specs.Settling.{Settles, StandsSettling};
ghost use Rattle.lost_step.specs.LostStep.{arm_steps, asked, clock_positions, commission_steps, measuring_positions, loses, lost_step_of};
ghost use Rattle.run_counts.specs.Numbers.{IsLostAt, lost_numbers};
ghost use Rattle.loss_list.specs.declared.loss_row.Phase.TheVariants as phase;
ghost use Rattle.run_counts.specs.Answers.{answer_for};
ghost use Rattle.std.specs.Option.{is_some};
ghost use Rattle.cable_tree.specs.FrameOrder.{order};
ghost use Rattle.master_script.specs.Kept.{Kept};
ghost use Rattle.master_script.specs.Script.{Answer};
ghost use Rattle.run_counts.specs.Numbered.{AreNumbered};
ghost use Rattle.run_counts.specs.Phases.{Phases};
ghost use Rattle.run_counts.specs.Transmissions.{AreCounted, HasCounted, commissioning_sends};
ghost use Rattle.run_of_file.specs.AtEnd.{IsAtEnd};

/// Wherever scripted exchanges have led the segment, its numbers are those of the script, and each sending was at its number times the
/// frame period.
pub fn segments_keep_step()
    ensures { (s : SegmentValue) (es : List Exchange) (t : SegmentState) → IsLegal s → AreScripted (master_of s) (frames_given s) es
        → Runs segment_step (Some (started_segment s)) es (Some t)
        → StandsAfter s (progress (master_of s) es).sent (progress (master_of s) es).drifts t }
{}

/// Of m + 1 drift numbers in a row one is not listed as lost, so its frame comes back.
pub fn drift_frames_come()
    ensures { (s : SegmentValue) (first : ℕ) → IsLegal s
        → (number : ℕ) × (first ≤ number) × (number ≤ first + s.head.loss_run) × (loses s phase.Drift number ≡ false) }
{}

/// In a legal segment the positions of the slaves that measure, and of the clocks, are as many as their rows.
pub fn positions_are_counted()
    ensures measuring { (s : SegmentValue) → IsLegal s → length (measuring_positions s) ≡ measuring s.rows }
    ensures clocks { (s : SegmentValue) → IsLegal s → length (clock_positions s) ≡ clocks s.rows }
{}

/// Commissioning of a legal segment has n + N_m + N_c + 3 steps, and arming N_c.
pub fn steps_are_counted()
    ensures commissioning { (s : SegmentValue) → IsLegal s
        → length (commission_steps s) ≡ length s.rows + measuring s.rows + clocks s.rows + 3 }
    ensures arming { (s : SegmentValue) → IsLegal s → length (arm_steps s) ≡ clocks s.rows }
{}

/// Exchanges that all come back use one to three numbers each: one for the try that comes, and one for each that is lost. Those after
/// them begin at the next number. Where an exchange does not come back, all before it do, and its three tries are lost.
pub fn exchanges_use_numbers()
    ensures few { (lost : ℕ → Bool) (a b : ℕ) (steps : List Step) → asked lost a steps ≡ Ok b
        → (a + length steps ≤ b) × (b ≤ a + 3 * length steps) }
    ensures used { (lost : ℕ → Bool) (a used : ℕ) (steps : List Step) → asked lost a steps ≡ Ok (a + used)
        → used ≡ length steps + lost_numbers lost a used }
    ensures behind { (lost : ℕ → Bool) (a b : ℕ) (steps others : List Step) → asked lost a steps ≡ Ok b
        → asked lost a (steps ++ others) ≡ asked lost b others }
    ensures lost { (lost : ℕ → Bool) (a : ℕ) (steps : List Step) (step : Step) → asked lost a steps ≡ Err step
        → IsLostAt lost a steps step }
{}

/// Commissioning stands where the commission frames that are lost leave it, at its start and after each exchange: at a try of a step, past
/// all steps, or refused with the step whose three tries are lost.
pub fn commissioning_follows_losses()
    ensures begins { (lost : ℕ → Bool) (cfg : ConfigValue) → Stands lost cfg (beginning cfg) }
    ensures next { (lost : ℕ → Bool) (cfg : ConfigValue) (p : Progress) (e : Exchange) (step : Step) (rest : List Step) → p.refused ≡ None
        → p.phase ≡ Commissioning
        → p.todo ≡ step ∷ rest → Asks lost cfg p → lost (p.sent + 1) ≡ is_none e.back → Stands lost cfg (after cfg p e) }
{}

/// Settling knows the reference's time after each exchange, or all its drift frames were lost.
pub fn settling_follows_losses()
    ensures next { (lost : ℕ → Bool) (cfg : ConfigValue) (slaves : List SlaveWords) (p : Progress) (e : Exchange) → p.refused ≡ None
        → p.phase ≡ Settling
        → Settles lost cfg slaves p → lost (p.drifts + 1) ≡ is_none e.back → StandsSettling lost cfg slaves (after cfg p e) }
{}

/// Arming stands where the drift frames that are lost leave it, after each exchange: at a try of a step, past all steps, or refused with
/// the step whose three tries are lost.
pub fn arming_follows_losses()
    ensures next { (lost : ℕ → Bool) (begin : ℕ) (all : List Step) (cfg : ConfigValue) (p : Progress) (e : Exchange) (step : Step)
        (rest : List Step) → p.refused ≡ None
        → p.phase ≡ Arming → p.todo ≡ step ∷ rest → Reached lost begin all p.todo (p.drifts + 1) p.tries
        → lost (p.drifts + 1) ≡ is_none e.back
        → StandsArming lost begin all (after cfg p e) }
{}

/// The list of losses alone tells how each phase of a run ends, and the whole run: it is refused with the first step of commissioning, or
/// after it of arming, that loses its three tries, and else it ends with Ok.
pub fn losses_tell_the_answer()
    ensures commissioned { (s : SegmentValue) (run : RunEnd) → IsLegal s → commissioned s ≡ Some run
        → run.answer ≡ answer_for (lost_step_of s false) }
    ensures settled { (s : SegmentValue) (run : RunEnd) → IsLegal s → settled s ≡ Some run
        → run.answer ≡ answer_for (lost_step_of s false) }
    ensures armed { (s : SegmentValue) (run : RunEnd) → IsLegal s → armed s ≡ Some run → run.answer ≡ answer_for (lost_step_of s true) }
    ensures ran { (s : SegmentValue) (run : RunEnd) → IsLegal s → ran s ≡ Some run → run.answer ≡ answer_for (lost_step_of s true) }
    ensures whole { (s : SegmentValue) (run : RunEnd) → IsLegal s → run_of s ≡ Some run → run.answer ≡ answer_for (lost_step_of s true) }
{}

/// Where no loss is listed, no step loses its tries.
pub fn runs_without_losses()
    ensures { (s : SegmentValue) (with_arming : Bool) → s.losses ≡ [] → lost_step_of s with_arming ≡ None }
{}

/// After a run that ended with Ok the master keeps a delay for the position of each clock of the file, and for no other, as after its
/// commissioning.
pub fn delays_stay()
    ensures ran { (s : SegmentValue) (run : RunEnd) → IsLegal s → ran s ≡ Some run → run.answer ≡ Ok tt
        → map is_some (master_after s (Some (frames_given s)) run.exchanges).delays ≡ map (clock_at s.rows) (order (tree_rows s.rows)) }
    ensures whole { (s : SegmentValue) (run : RunEnd) → IsLegal s → run_of s ≡ Some run → run.answer ≡ Ok tt
        → map is_some (master_after s (Some (frames_given s)) run.exchanges).delays ≡ map (clock_at s.rows) (order (tree_rows s.rows)) }
{}

/// A phase that ends with Ok has sent so many frames: commissioning and arming one to three for each of their exchanges, settling
/// K + m + 1, and running as many as it is given.
pub fn phases_send_so_many()
    ensures commissioned { (s : SegmentValue) (run : RunEnd) → IsLegal s → commissioned s ≡ Some run → run.answer ≡ Ok tt
        → (length (commission_steps s) ≤ length run.exchanges) × (length run.exchanges ≤ 3 * length (commission_steps s)) }
    ensures settled { (s : SegmentValue) (first run : RunEnd) → IsLegal s → commissioned s ≡ Some first → settled s ≡ Some run
        → run.answer ≡ Ok tt
        → length run.exchanges ≡ length first.exchanges + settle_frames (master_of s) }
    ensures armed { (s : SegmentValue) (first run : RunEnd) → IsLegal s → settled s ≡ Some first → armed s ≡ Some run → run.answer ≡ Ok tt
        → (length first.exchanges + length (clock_positions s) ≤ length run.exchanges)
        × (length run.exchanges ≤ length first.exchanges + 3 * length (clock_positions s)) }
    ensures ran { (s : SegmentValue) (first run : RunEnd) → IsLegal s → armed s ≡ Some first → ran s ≡ Some run → run.answer ≡ Ok tt
        → length run.exchanges ≡ length first.exchanges + frames_given s }
{}

/// The frames of commissioning are commission frames, numbered from 1; those of settling, arming and running are drift frames, numbered
/// from 1 again. So commission number k is transmission k, and drift number k is transmission C + k, with C those of commissioning. A frame
/// does not come back exactly where the file lists its number in its phase.
pub fn frames_are_numbered()
    ensures commission { (s : SegmentValue) (run : RunEnd) → IsLegal s → commissioned s ≡ Some run
        → AreNumbered s phase.Commission 1 run.exchanges }
    ensures settled { (s : SegmentValue) (first run : RunEnd) → IsLegal s → commissioned s ≡ Some first → settled s ≡ Some run
        → (more : List Exchange) × (run.exchanges ≡ first.exchanges ++ more) × AreNumbered s phase.Drift 1 more }
    ensures armed { (s : SegmentValue) (first run : RunEnd) → IsLegal s → commissioned s ≡ Some first → armed s ≡ Some run
        → (more : List Exchange) × (run.exchanges ≡ first.exchanges ++ more) × AreNumbered s phase.Drift 1 more }
    ensures ran { (s : SegmentValue) (first run : RunEnd) → IsLegal s → commissioned s ≡ Some first → ran s ≡ Some run
        → (more : List Exchange) × (run.exchanges ≡ first.exchanges ++ more) × AreNumbered s phase.Drift 1 more }
{}

/// A run that is not refused sends n + N_m + N_c + 3 frames and the lost ones in commissioning, where that of `delays` ends, then
/// K + m + 1 in settling, N_c and the lost ones in arming, and those of the run phase.
pub fn transmissions_are_told()
    ensures delays { (s : SegmentValue) (run : RunEnd) → IsLegal s → commissioned s ≡ Some run → run.answer ≡ Ok tt
        → length run.exchanges ≡ commissioning_sends s + lost_among run.exchanges }
    ensures ran { (s : SegmentValue) (run : RunEnd) → IsLegal s → ran s ≡ Some run → run.answer ≡ Ok tt
        → (phases : Phases s run) × AreCounted s run phases }
    ensures whole { (s : SegmentValue) (run : RunEnd) → IsLegal s → run_of s ≡ Some run → run.answer ≡ Ok tt
        → (phases : Phases s run) × AreCounted s run phases }
{}

/// No run sends more than 100,000 frames, whether it is refused or not.
pub fn transmissions_are_few()
    ensures commissioned { (s : SegmentValue) (run : RunEnd) → IsLegal s → commissioned s ≡ Some run → length run.exchanges ≤ 100000 }
    ensures settled { (s : SegmentValue) (run : RunEnd) → IsLegal s → settled s ≡ Some run → length run.exchanges ≤ 100000 }
    ensures armed { (s : SegmentValue) (run : RunEnd) → IsLegal s → armed s ≡ Some run → length run.exchanges ≤ 100000 }
    ensures ran { (s : SegmentValue) (run : RunEnd) → IsLegal s → ran s ≡ Some run → length run.exchanges ≤ 100000 }
    ensures whole { (s : SegmentValue) (run : RunEnd) → IsLegal s → run_of s ≡ Some run → length run.exchanges ≤ 100000 }
{}

/// What a master counts is what the run has sent. After a commissioning that ended with Ok it has counted n + N_m + N_c + 3 sendings and
/// one more for each loss. After a run that ended with Ok it has counted the sendings of all phases, and each frame that did not come
/// back as one loss; of these, the frames of commissioning and arming were sent once more, and those of settling and of the run phase were
/// not. At the end of commissioning and of the run, refused or not, it has counted at most 100,000 sendings.
pub fn masters_count_transmissions()
    ensures delays { (s : SegmentValue) (state : SegmentState) (m : Kept) → IsLegal s → IsAtEnd s None (commissioned s) state m (Ok tt)
        → m.sent ≡ commissioning_sends s + m.lost }
    ensures ran { (s : SegmentValue) (frames : Option ℕ) (state : SegmentState) (m : Kept) → IsLegal s
        → (at : IsAtEnd s frames (ran s) state m (Ok tt))
        → (phases : Phases s at.end) × HasCounted s m at.end phases }
    ensures whole { (s : SegmentValue) (frames : Option ℕ) (state : SegmentState) (m : Kept) → IsLegal s
        → (at : IsAtEnd s frames (run_of s) state m (Ok tt))
        → (phases : Phases s at.end) × HasCounted s m at.end phases }
    ensures few_in_commissioning { (s : SegmentValue) (frames : Option ℕ) (state : SegmentState) (m : Kept) (answer : Answer) → IsLegal s
        → IsAtEnd s frames (commissioned s) state m answer → m.sent ≤ 100000 }
    ensures few_in_all { (s : SegmentValue) (frames : Option ℕ) (state : SegmentState) (m : Kept) (answer : Answer) → IsLegal s
        → IsAtEnd s frames (run_of s) state m answer → m.sent ≤ 100000 }
{}
