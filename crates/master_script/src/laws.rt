//! Laws over the definitions alone, for proofs of the layers above. That exchanges follow the script is a
//! matter of claims that depend on values, which no law can take: there the lemmas of `proofs/Asks.antt`,
//! `proofs/Drifts.antt` and `proofs/Ends.antt` are what a layer above cites.

ghost use Rattle.std.specs.Prelude.{option_map, ◌≡◌, ◌≢◌, ◌↔◌, ℕ, ◌+◌, ◌*◌, ◌<◌, ◌≤◌, List, [], ◌∷◌, ◌++◌, length, map, Option, Some, None, Ok, Err, IsSome, slice_get, slice_index_or, true};
ghost use Rattle.dc_bounds.specs.Weight.{flag};
ghost use Rattle.dc_delay.specs.Refusals.{first_unmeasurable};
ghost use Rattle.dc_topology.specs.Listed.{Lists, Place};
ghost use Rattle.dc_topology.specs.Refusals.{IsRefused};
ghost use Rattle.dc_topology.specs.declared.error.TopologyError.{TopologyError};
ghost use Rattle.ecat_frame.specs.Built.{built, size_of};
ghost use Rattle.ecat_frame.specs.Difference.{first_difference};
ghost use Rattle.ecat_frame.specs.FrameGrammar.{DatagramValue, FrameValue, IsFrame};
ghost use Rattle.ecat_frame.specs.declared.command.Command.TheVariants.{Frmw};
ghost use Rattle.ecat_link.specs.Drive.{drive};
ghost use Rattle.ecat_link.specs.Exchanges.{Exchange, StepOf, lost_among};
ghost use Rattle.ecat_link.specs.Serves.{End, Send, Sends};
ghost use Rattle.master_script.specs.Begins.{Begins};
ghost use Rattle.master_script.specs.Config.{ConfigValue, settle_frames, slaves};
ghost use Rattle.master_script.specs.Frames.{drift_datagram};
ghost use Rattle.master_script.specs.Judged.{IsFirstMiscount, counters, judged};
ghost use Rattle.master_script.specs.ReplyFaults.{refused_at, reply_fault};
ghost use Rattle.master_script.specs.Kept.{Kept, StandsFor, kept_after, resting};
ghost use Rattle.master_script.specs.ListedTree.{tree_of};
ghost use Rattle.master_script.specs.Progress.{Arming, Commissioning, Running, Settling, arm_steps, progress};
ghost use Rattle.master_script.specs.Script.{Arm, Call, Commission, Run, Settle, script};
ghost use Rattle.master_script.specs.Scripted.{AreScripted, IsLimited};
ghost use Rattle.master_script.specs.Slaves.{SlaveWords, clocks, is_clock, is_measuring, judgement, measuring, tree_told};
ghost use Rattle.master_script.specs.Stages.{HasDrifts};
ghost use Rattle.master_script.specs.StaysKept.{StaysKept};
ghost use Rattle.master_script.specs.Steps.{datagrams_of, frame_of};
ghost use Rattle.master_script.specs.Words.{Words, reference_of};
ghost use Rattle.master_script.specs.declared.step.Refusal.TheVariants.{Counter, NoReference, Reply, Topology, Unmeasurable};
ghost use Rattle.master_script.specs.declared.step.Stage.TheVariants.{Armed, Commissioned, Fresh, Settled, Spent};
ghost use Rattle.master_script.specs.declared.step.Step.{Step};

/// What a master keeps between two calls tells how far the script has come, whatever the exchanges were: no
/// two lists of exchanges that are kept alike go on differently. A master that has sent nothing stands for
/// no exchanges.
pub fn kept_tells_progress()
    ensures fresh { (m : Kept) (frames : Option ℕ) (es : List Exchange) → StandsFor frames m es → m.sent ≡ 0 → es ≡ [] }
    ensures commissioned { (m : Kept) (es : List Exchange) → StandsFor None m es → m.stage ≡ Commissioned
        → progress m.config es ≡ resting m Settling [] }
    ensures settled { (m : Kept) (es : List Exchange) → StandsFor None m es → m.stage ≡ Settled → m.drifts ≡ settle_frames m.config
        → progress m.config es ≡ resting m Arming (arm_steps m.words.slaves) }
    ensures armed { (m : Kept) (es : List Exchange) → StandsFor None m es → m.stage ≡ Armed
        → progress m.config es ≡ resting m Running [] }
{}

/// What a master keeps stays kept, whatever exchanges follow: no step changes what an earlier one taught.
pub fn kept_stays_kept()
    ensures { (cfg : ConfigValue) (frames : Option ℕ) (es fs : List Exchange) → 0 < slaves cfg
        → StaysKept (kept_after cfg frames es) (kept_after cfg frames (es ++ fs)) }
{}

/// What the stage says of the rest that is kept. A master is spent exactly where it was refused. Behind
/// commissioning there are a reference and an entry of the delays for each position. Where there are delays,
/// those of the clocks are known and no others. The start is there from the first frame of arming on.
pub fn stages_tell_the_rest()
    ensures spent { (cfg : ConfigValue) (frames : Option ℕ) (es : List Exchange)
        → ((kept_after cfg frames es).stage ≡ Spent) ↔ IsSome (kept_after cfg frames es).refusal }
    ensures reference { (cfg : ConfigValue) (frames : Option ℕ) (es : List Exchange) → 0 < slaves cfg
        → (kept_after cfg frames es).stage ≢ Fresh → (kept_after cfg frames es).stage ≢ Spent
        → IsSome (kept_after cfg frames es).words.reference }
    ensures delays { (cfg : ConfigValue) (frames : Option ℕ) (es : List Exchange) → 0 < slaves cfg
        → (kept_after cfg frames es).stage ≢ Fresh → (kept_after cfg frames es).stage ≢ Spent
        → length (kept_after cfg frames es).delays ≡ slaves cfg }
    ensures entries { (cfg : ConfigValue) (frames : Option ℕ) (es : List Exchange) (position : ℕ) → 0 < slaves cfg
        → (kept_after cfg frames es).delays ≢ []
        → IsSome (slice_index_or (kept_after cfg frames es).delays position None)
        ↔ (flag (map is_clock (kept_after cfg frames es).words.slaves) position ≡ true) }
    ensures drifts { (cfg : ConfigValue) (frames : Option ℕ) (es : List Exchange) → 0 < slaves cfg
        → HasDrifts cfg (kept_after cfg frames es).drifts (kept_after cfg frames es).stage }
    ensures start { (cfg : ConfigValue) (frames : Option ℕ) (es : List Exchange)
        → IsSome (kept_after cfg frames es).start ↔ (settle_frames cfg < (kept_after cfg frames es).drifts) }
{}

/// The numbers of sendings and of losses that are kept are those of the exchanges.
pub fn counts_are_of_the_exchanges()
    ensures sent { (cfg : ConfigValue) (frames : Option ℕ) (es : List Exchange) → (kept_after cfg frames es).sent ≡ length es }
    ensures lost { (cfg : ConfigValue) (frames : Option ℕ) (es : List Exchange) → (kept_after cfg frames es).lost ≡ lost_among es }
{}

/// The exchanges of calls, one after another, are scripted.
pub fn calls_are_scripted()
    ensures none { (cfg : ConfigValue) (frames : ℕ) → AreScripted cfg frames [] }
    ensures then { (cfg : ConfigValue) (frames : ℕ) (call : Call) (before es : List Exchange) → AreScripted cfg frames before
        → IsLimited frames call → Sends (script cfg call) before es → AreScripted cfg frames (before ++ es) }
{}

/// All calls together send at most 9 (n + 1) frames in commissioning, K + m + 1 in settling, 3 n in arming
/// and those of `run`: with the greatest configuration 103,097 and those of `run`.
pub fn sendings_are_few()
    ensures few { (cfg : ConfigValue) (frames : ℕ) (es : List Exchange) → 0 < slaves cfg → AreScripted cfg frames es
        → length es ≤ 9 + 12 * slaves cfg + settle_frames cfg + frames }
    ensures greatest { (cfg : ConfigValue) (frames : ℕ) (es : List Exchange) → 0 < slaves cfg → slaves cfg ≤ 256
        → cfg.lock_in ≤ 100000 → cfg.loss_run ≤ 15 → AreScripted cfg frames es → length es ≤ 103097 + frames }
{}

/// Every call ends, whatever comes back: its run has an ending in any more turns than that.
pub fn calls_end<S>()
    ensures { (step : StepOf S) (cfg : ConfigValue) (frames : ℕ) (call : Call) (turns : ℕ) (before : List Exchange) (s : S)
        → 0 < slaves cfg → IsLimited frames call → AreScripted cfg frames before
        → 9 + 12 * slaves cfg + settle_frames cfg + frames < length before + turns
        → IsSome (drive step (script cfg call) turns before s) }
{}

/// A call that ends with Ok has sent so many frames, and there the next phase begins. A lost frame of settle and
/// run counts as sent, and of commission and arm each is sent again.
pub fn calls_that_end_with_ok()
    ensures fresh { (cfg : ConfigValue) → Begins cfg Commissioning (progress cfg []) }
    ensures commission { (cfg : ConfigValue) (es : List Exchange) → Sends (script cfg Commission) [] es
        → script cfg Commission es ≡ End (Ok tt)
        → Begins cfg Settling (progress cfg es)
        × (length es ≡ slaves cfg + length (measuring (progress cfg es).words.slaves) + length (clocks (progress cfg es).words.slaves) + 3
        + lost_among es) }
    ensures settle { (cfg : ConfigValue) (before es : List Exchange) → Begins cfg Settling (progress cfg before)
        → Sends (script cfg Settle) before es → script cfg Settle (before ++ es) ≡ End (Ok tt)
        → Begins cfg Arming (progress cfg (before ++ es)) × (length es ≡ settle_frames cfg) }
    ensures arm { (cfg : ConfigValue) (before es : List Exchange) → Begins cfg Arming (progress cfg before)
        → Sends (script cfg Arm) before es → script cfg Arm (before ++ es) ≡ End (Ok tt)
        → Begins cfg Running (progress cfg (before ++ es))
        × (length es ≡ length (clocks (progress cfg before).words.slaves) + lost_among es) }
    ensures run { (cfg : ConfigValue) (frames : ℕ) (before es : List Exchange) → Begins cfg Running (progress cfg before)
        → Sends (script cfg (Run frames)) before es → script cfg (Run frames) (before ++ es) ≡ End (Ok tt) → length es ≡ frames }
{}

/// The frame of each step has a datagram or more, and without padding at most 98 bytes, so a builder has
/// room for it. Each frame that the script wants is one of a step, one period after the one before, and
/// is of the grammar.
pub fn frames_are_of_the_grammar()
    ensures some { (cfg : ConfigValue) (w : Words) (step : Step) → 0 < length (datagrams_of cfg w step) }
    ensures fits { (cfg : ConfigValue) (w : Words) (step : Step) → 16 + size_of (datagrams_of cfg w step) ≤ 98 }
    ensures built { (cfg : ConfigValue) (w : Words) (step : Step) → frame_of cfg w step ≡ built (datagrams_of cfg w step) }
    ensures of_step { (cfg : ConfigValue) (call : Call) (es : List Exchange) (wait_ns : ℕ) (frame : FrameValue) → 0 < slaves cfg
        → script cfg call es ≡ Send wait_ns frame → (step : Step) × (frame ≡ frame_of cfg (progress cfg es).words step) }
    ensures wait { (cfg : ConfigValue) (call : Call) (es : List Exchange) (wait_ns : ℕ) (frame : FrameValue) → 0 < slaves cfg
        → script cfg call es ≡ Send wait_ns frame → wait_ns ≡ cfg.frame_ns }
    ensures valid { (cfg : ConfigValue) (call : Call) (es : List Exchange) (wait_ns : ℕ) (frame : FrameValue) → 0 < slaves cfg
        → slaves cfg ≤ 256 → script cfg call es ≡ Send wait_ns frame → IsFrame frame }
{}

/// Every frame after commissioning is a drift frame: its first datagram is that of Drift, to the reference.
/// No frame of commissioning is one.
pub fn drift_frames_follow_commissioning()
    ensures commission { (cfg : ConfigValue) (es : List Exchange) (wait_ns : ℕ) (frame : FrameValue) → 0 < slaves cfg
        → script cfg Commission es ≡ Send wait_ns frame
        → (first : DatagramValue) × (slice_get frame.datagrams 0 ≡ Some first) × (first.head.command ≢ Frmw) }
    ensures drift { (cfg : ConfigValue) (call : Call) (es : List Exchange) (wait_ns : ℕ) (frame : FrameValue) → 0 < slaves cfg
        → call ≢ Commission → script cfg call es ≡ Send wait_ns frame
        → slice_get frame.datagrams 0 ≡ Some (drift_datagram (reference_of (progress cfg es).words)) }
{}

/// `Reply` comes exactly where the reply differs from what was sent in a byte that may not, and names the
/// first such byte. `Counter` comes exactly where there is none, and names the first counter that is not the
/// expected one. Both name the step. A reply is accepted exactly where it has neither. What is wrong with it is the same
/// without a step (`fault`).
pub fn replies_are_judged()
    ensures reply { (step named : Step) (expected : List ℕ) (sent reply : FrameValue) (at : ℕ)
        → (judged step expected sent reply ≡ Some (Reply named at)) ↔ ((named ≡ step) × (first_difference sent reply ≡ Some at)) }
    ensures counter { (step named : Step) (expected : List ℕ) (sent reply : FrameValue) (e k : ℕ)
        → (judged step expected sent reply ≡ Some (Counter named e k))
        ↔ ((named ≡ step) × (first_difference sent reply ≡ None) × IsFirstMiscount expected (counters reply) e k) }
    ensures accepted { (step : Step) (expected : List ℕ) (sent reply : FrameValue) → length expected ≡ length reply.datagrams
        → (judged step expected sent reply ≡ None) ↔ ((first_difference sent reply ≡ None) × (counters reply ≡ expected)) }
    ensures fault { (step : Step) (expected : List ℕ) (sent reply : FrameValue)
        → judged step expected sent reply ≡ option_map (refused_at step) (reply_fault expected sent reply) }
{}

/// The tree of statuses is the one that they list, and its refusal is theirs.
pub fn trees_are_listed()
    ensures ok { (statuses : List ℕ) (hung : List Place) → tree_of statuses ≡ Ok hung → Lists statuses hung }
    ensures refused { (statuses : List ℕ) (e : TopologyError) → tree_of statuses ≡ Err e → IsRefused statuses e }
{}

/// After the last Identify it is judged in this order whether the statuses list a tree, whether there is a
/// clock, and whether each measuring slave can be measured. Where nothing is refused, the reference is the
/// first clock. Each answer comes exactly where its cause is.
pub fn slaves_are_judged()
    ensures topology { (ss : List SlaveWords) (e : TopologyError) → (judgement ss ≡ Err (Topology e)) ↔ (tree_told ss ≡ Err e) }
    ensures no_reference { (ss : List SlaveWords) (hung : List Place) → tree_told ss ≡ Ok hung
        → (judgement ss ≡ Err NoReference) ↔ (clocks ss ≡ []) }
    ensures unmeasurable { (ss : List SlaveWords) (hung : List Place) (k : ℕ) → tree_told ss ≡ Ok hung
        → (judgement ss ≡ Err (Unmeasurable k)) ↔ ((clocks ss ≢ []) × (first_unmeasurable hung (flag (map is_measuring ss)) ≡ Some k)) }
    ensures reference { (ss : List SlaveWords) (r : ℕ)
        → (judgement ss ≡ Ok r) ↔ ((hung : List Place) × (rest : List ℕ) × (tree_told ss ≡ Ok hung) × (clocks ss ≡ r ∷ rest)
        × (first_unmeasurable hung (flag (map is_measuring ss)) ≡ None)) }
    ensures within { (ss : List SlaveWords) (r : ℕ) → judgement ss ≡ Ok r → r < length ss }
{}
