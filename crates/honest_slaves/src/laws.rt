//! From one datagram up to the run of a legal segment: what slaves keep, who answers, which replies the script gets, why a
//! phase is refused, and which signals are armed.

ghost use Rattle.std.specs.Prelude.{◌≡◌, ◌⊎◌, ℕ, Bool, suc, ◌+◌, ◌<◌, ◌≤◌, List, ◌∷◌, length, true, false, Some, slice_get, take, nat_lt, [], None, map, filter, Ok, Err, slice_index_or};
ghost use Rattle.std.specs.List.{sum_by};
ghost use Rattle.ecat_frame.specs.FrameGrammar.{DatagramValue, FrameValue};
ghost use Rattle.ecat_frame.specs.declared.command.Command.TheVariants.{Fprd, Fpwr};
ghost use Rattle.esc_regs.specs.RegisterAccess.{is_refused};
ghost use Rattle.esc_regs.specs.declared.clock_kind.ClockKind.{ClockKind};
ghost use Rattle.frame_pass.specs.SlaveState.{Slave};
ghost use Rattle.frame_pass.specs.DatagramAtSlave.{slave_after, datagram_after};
ghost use Rattle.frame_pass.specs.FramePass.{datagrams_behind};
ghost use Rattle.frame_pass.specs.Invariants.{IsSoundSegment};
ghost use Rattle.frame_pass.specs.Reach.{reach_of};
ghost use Rattle.frame_pass.specs.SegmentState.{SegmentState, segment_step};
ghost use Rattle.frame_pass.specs.Aside.{HaveSize};
ghost use Rattle.frame_pass.specs.Counters.{gains};
ghost use Rattle.frame_pass.specs.Stations.{slave_found, BringsBack};
ghost use Rattle.honest_slaves.specs.Standing.{IsSlave, Stands, AreStanding};
ghost use Rattle.honest_slaves.specs.Mindful.{Names, AreMindful, IsMindful};
ghost use Rattle.honest_slaves.specs.Broadcasts.{asks_all, accepting};
ghost use Rattle.honest_slaves.specs.Addressed.{ByStation};
ghost use Rattle.ecat_frame.specs.Difference.{first_difference};
ghost use Rattle.master_script.specs.Config.{ConfigValue};
ghost use Rattle.master_script.specs.Frames.{count_datagrams, identify_datagrams};
ghost use Rattle.master_script.specs.Judged.{counters, judged};
ghost use Rattle.master_script.specs.Steps.{datagrams_of, expected, expected_fourth, identified};
ghost use Rattle.master_script.specs.Words.{Words};
ghost use Rattle.master_script.specs.declared.step.Step.{Step};
ghost use Rattle.honest_slaves.specs.Told.{AreInOrder, IsMeant, IsNear, Knows, counts_of, word_of, words_of};
ghost use Rattle.std.specs.Option.{is_some};
ghost use Rattle.cable_tree.specs.FrameOrder.{order};
ghost use Rattle.dc_delay.specs.ShapeRows.{positions};
ghost use Rattle.master_script.specs.Slaves.{clocks, judgement, measuring};
ghost use Rattle.master_script.specs.Progress.{progress};
ghost use Rattle.master_script.specs.declared.step.MasterError.{MasterError};
ghost use Rattle.master_script.specs.declared.step.MasterError.TheVariants.{Refused};
ghost use Rattle.master_script.specs.declared.step.Refusal.TheVariants.{Lost};
ghost use Rattle.segment_file.specs.Segment.{SegmentValue, clock_at, measures_at, row_at, tree_rows};
ghost use Rattle.segment_file.specs.Legal.{IsLegal};
ghost use Rattle.segment_start.specs.Start.{started_segment};
ghost use Rattle.run_of_file.specs.MasterOfFile.{master_of};
ghost use Rattle.run_of_file.specs.RunOfFile.{RunEnd, commissioned, settled, armed, ran, master_after, run_of};
ghost use Rattle.honest_slaves.specs.FileSlaves.{kind_at, status_at};
ghost use Rattle.honest_slaves.specs.OwnSignals.{AllKeepTo, signals_at};
ghost use Rattle.honest_slaves.specs.Planned.{ArePlanned, plans_sync1};

/// What a slave is, every datagram leaves, whatever it writes. A mindful one leaves it standing at its position, and stays
/// mindful on its way to the next.
pub fn datagrams_leave_slaves()
    ensures slave { (kind : ClockKind) (status : ℕ) (s : Slave) (d : DatagramValue) → IsSlave kind status s
        → IsSlave kind status (slave_after s d) }
    ensures stands { (kind : ClockKind) (status : ℕ) (named : Bool) (q : ℕ) (s : Slave) (d : DatagramValue) → q < 256 → IsMindful q d
        → Stands kind status named q s
        → Stands kind status named q (slave_after s d) }
    ensures mindful { (q : ℕ) (s : Slave) (d : DatagramValue) → length s.registers.bytes ≡ 4096 → IsMindful q d
        → IsMindful (suc q) (datagram_after s d) }
{}

/// A mindful frame leaves the slaves standing at their positions, whether it comes back or is lost on its way. One that
/// begins with the datagram that names the next slave leaves one more named, where it reaches it.
pub fn frames_leave_slaves()
    ensures standing { (kinds : ℕ → ClockKind) (statuses : ℕ → ℕ) (named : ℕ) (s : SegmentState) (wait_ns : ℕ) (f : FrameValue)
        → s.sent < 1000000 → IsSoundSegment s → length s.slaves ≤ 256
        → AreMindful 0 f.datagrams → AreStanding kinds statuses named s.slaves
        → AreStanding kinds statuses named (segment_step s wait_ns f).0.slaves }
    ensures naming { (kinds : ℕ → ClockKind) (statuses : ℕ → ℕ) (p : ℕ) (s : SegmentState) (wait_ns : ℕ) (f : FrameValue)
        (d : DatagramValue) (ds : List DatagramValue) → s.sent < 1000000
        → IsSoundSegment s → length s.slaves ≤ 256 → f.datagrams ≡ d ∷ ds → AreMindful 0 (d ∷ ds) → Names p 0 d → p < reach_of s f
        → AreStanding kinds statuses p s.slaves
        → AreStanding kinds statuses (suc p) (segment_step s wait_ns f).0.slaves }
{}

/// Each datagram of a mindful frame finds the slaves standing, and behind the one that names a slave finds that slave named.
pub fn datagrams_find_slaves()
    ensures standing { (kinds : ℕ → ClockKind) (statuses : ℕ → ℕ) (named k q sent : ℕ) (ss : List Slave) (ds : List DatagramValue)
        (s : Slave) → length ss ≤ 256
        → AreStanding kinds statuses named ss → AreMindful 0 ds → q < length ss → slice_get ss q ≡ Some s
        → Stands (kinds q) (statuses q) (nat_lt q named) q (slave_found k q sent ss ds s) }
    ensures named { (kinds : ℕ → ClockKind) (statuses : ℕ → ℕ) (named k p sent : ℕ) (ss : List Slave) (d : DatagramValue)
        (ds : List DatagramValue) (s : Slave) → length ss ≤ 256
        → AreStanding kinds statuses named ss → AreMindful 0 (d ∷ ds) → Names p 0 d → slice_get ss p ≡ Some s
        → Stands (kinds p) (statuses p) true p (slave_found (suc k) p sent ss (d ∷ ds) s) }
{}

/// A broadcast that reads or writes, and FRMW, gains at the first h slaves as many as do not refuse it.
pub fn broadcasts_count()
    ensures { (k h sent : ℕ) (ss : List Slave) (ds : List DatagramValue) (d : DatagramValue) → HaveSize ss → slice_get ds k ≡ Some d
        → asks_all d.head.command ≡ true
        → gains k h sent ss ds ≡ sum_by (accepting d.head.ado (length d.payload)) (take h ss) }
{}

/// A read or a write by the station address of a named slave is answered by that slave alone: it counts 1, and a read brings
/// what the slave holds; where the slave refuses it, it counts 0. The datagram that names a slave counts 1.
pub fn stations_answer()
    ensures naming { (p sent : ℕ) (ss : List Slave) (d : DatagramValue) (ds : List DatagramValue) (s : Slave) (e : DatagramValue)
        → length ss ≤ 256 → slice_get ss p ≡ Some s → Names p 0 d
        → d.wkc ≡ 0 → slice_get (datagrams_behind (length ss) sent ss (d ∷ ds)) 0 ≡ Some e → e.wkc ≡ 1 }
    ensures read { (kinds : ℕ → ClockKind) (statuses : ℕ → ℕ) (named k p sent : ℕ) (ss : List Slave) (ds : List DatagramValue)
        (d e : DatagramValue) (s : Slave)
        → ByStation kinds statuses named k p sent ss ds d s → d.head.command ≡ Fprd
        → is_refused (kinds p) d.head.ado (length d.payload) ≡ false
        → slice_get (datagrams_behind (length ss) sent ss ds) k ≡ Some e → (e.wkc ≡ 1) × BringsBack d (slave_found k p sent ss ds s) e }
    ensures written { (kinds : ℕ → ClockKind) (statuses : ℕ → ℕ) (named k p sent : ℕ) (ss : List Slave) (ds : List DatagramValue)
        (d e : DatagramValue) (s : Slave)
        → ByStation kinds statuses named k p sent ss ds d s → d.head.command ≡ Fpwr
        → is_refused (kinds p) d.head.ado (length d.payload) ≡ false
        → slice_get (datagrams_behind (length ss) sent ss ds) k ≡ Some e → e.wkc ≡ 1 }
    ensures refused { (kinds : ℕ → ClockKind) (statuses : ℕ → ℕ) (named k p sent : ℕ) (ss : List Slave) (ds : List DatagramValue)
        (d e : DatagramValue) (s : Slave)
        → ByStation kinds statuses named k p sent ss ds d s → (d.head.command ≡ Fprd) ⊎ (d.head.command ≡ Fpwr)
        → is_refused (kinds p) d.head.ado (length d.payload) ≡ true
        → slice_get (datagrams_behind (length ss) sent ss ds) k ≡ Some e → e.wkc ≡ 0 }
{}

/// Every frame of a script is mindful: it gives no slave a station address but its own.
pub fn frames_are_mindful()
    ensures { (cfg : ConfigValue) (w : Words) (step : Step) → IsNear step → AreMindful 0 (datagrams_of cfg w step) }
{}

/// A frame that comes back of slaves at their positions has the counters that the master expects: Count whoever is named, and
/// each step after the judgement where all are.
pub fn counters_are_expected()
    ensures count { (kinds : ℕ → ClockKind) (statuses : ℕ → ℕ) (n named sent : ℕ) (ss : List Slave) → AreInOrder kinds statuses n named ss
        → counts_of (datagrams_behind (length ss) sent ss count_datagrams) ≡ n ∷ [] }
    ensures later { (kinds : ℕ → ClockKind) (statuses : ℕ → ℕ) (n r sent : ℕ) (ss : List Slave) → AreInOrder kinds statuses n n ss
        → (cfg : ConfigValue) (w : Words) → Knows kinds statuses n r w
        → (step : Step) → IsMeant kinds n step → (f : FrameValue)
        → counts_of (datagrams_behind (length ss) sent ss (datagrams_of cfg w step)) ≡ expected cfg w step f }
{}

/// Identify of the first slave that has no station address comes back with what that slave is, and with the counters that the
/// master expects of such a slave.
pub fn slaves_are_identified()
    ensures tells { (kinds : ℕ → ClockKind) (statuses : ℕ → ℕ) (n p sent : ℕ) (ss : List Slave) → AreInOrder kinds statuses n p ss → p < n
        → (f : FrameValue)
        → f.datagrams ≡ datagrams_behind (length ss) sent ss (identify_datagrams p) → identified f ≡ word_of (kinds p) (statuses p) }
    ensures counts { (kinds : ℕ → ClockKind) (statuses : ℕ → ℕ) (n p sent : ℕ) (ss : List Slave) → AreInOrder kinds statuses n p ss → p < n
        → (f : FrameValue)
        → f.datagrams ≡ datagrams_behind (length ss) sent ss (identify_datagrams p)
        → counts_of (datagrams_behind (length ss) sent ss (identify_datagrams p)) ≡ 1 ∷ 1 ∷ 1 ∷ expected_fourth (identified f) ∷ [] }
{}

/// A reply that differs in nothing that it may not, and has the expected counters, is not refused.
pub fn replies_are_accepted()
    ensures { (step : Step) (xs : List ℕ) (sent reply : FrameValue) → first_difference sent reply ≡ None → counters reply ≡ xs
        → judged step xs sent reply ≡ None }
{}

/// The slaves of a legal segment begin at their positions, none of them with a station address; and what they tell of
/// themselves lists a tree, with a reference, in which every measuring slave can be measured.
pub fn slaves_begin()
    ensures order { (s : SegmentValue) → IsLegal s → AreInOrder (kind_at s) (status_at s) (length s.rows) 0 (started_segment s).slaves }
    ensures judged { (s : SegmentValue) → IsLegal s → (r : ℕ) × (judgement (words_of (kind_at s) (status_at s) (length s.rows)) ≡ Ok r) }
{}

/// The positions of the slaves that measure, and of the clocks, as the master is told them, are those of the file's rows.
pub fn kinds_are_told()
    ensures measuring { (s : SegmentValue) → IsLegal s
        → measuring (words_of (kind_at s) (status_at s) (length s.rows))
        ≡ filter (λ p. measures_at s.rows (row_at s p)) (positions (length s.rows)) }
    ensures clocks { (s : SegmentValue) → IsLegal s
        → clocks (words_of (kind_at s) (status_at s) (length s.rows))
        ≡ filter (λ p. clock_at s.rows (row_at s p)) (positions (length s.rows)) }
{}

/// In the run of a legal segment every transmission that comes back is accepted, and the slaves are judged well: so each
/// phase ends with an error only where no try of a step came back.
pub fn errors_are_losses()
    ensures commissioned { (s : SegmentValue) (run : RunEnd) (e : MasterError) → IsLegal s → commissioned s ≡ Some run → run.answer ≡ Err e
        → (step : Step) × (e ≡ Refused (Lost step)) }
    ensures settled { (s : SegmentValue) (run : RunEnd) (e : MasterError) → IsLegal s → settled s ≡ Some run → run.answer ≡ Err e
        → (step : Step) × (e ≡ Refused (Lost step)) }
    ensures armed { (s : SegmentValue) (run : RunEnd) (e : MasterError) → IsLegal s → armed s ≡ Some run → run.answer ≡ Err e
        → (step : Step) × (e ≡ Refused (Lost step)) }
    ensures ran { (s : SegmentValue) (run : RunEnd) (e : MasterError) → IsLegal s → ran s ≡ Some run → run.answer ≡ Err e
        → (step : Step) × (e ≡ Refused (Lost step)) }
{}

/// Once the slaves are judged, the master was told of each what it is, whether commissioning ended with Ok or not. Where it did,
/// every slave has its station address, there is a reference, and the master keeps a delay for the position of each clock, and
/// for no other.
pub fn commissioning_tells_all()
    ensures named { (s : SegmentValue) (run : RunEnd) → IsLegal s → commissioned s ≡ Some run → run.answer ≡ Ok tt
        → AreInOrder (kind_at s) (status_at s) (length s.rows) (length s.rows) run.state.slaves }
    ensures told { (s : SegmentValue) (run : RunEnd) (r : ℕ) → IsLegal s → commissioned s ≡ Some run
        → (progress (master_of s) run.exchanges).words.reference ≡ Some r
        → (progress (master_of s) run.exchanges).words.slaves ≡ words_of (kind_at s) (status_at s) (length s.rows) }
    ensures reference { (s : SegmentValue) (run : RunEnd) → IsLegal s → commissioned s ≡ Some run → run.answer ≡ Ok tt
        → (r : ℕ) × ((progress (master_of s) run.exchanges).words.reference ≡ Some r) }
    ensures whole { (s : SegmentValue) (run : RunEnd) → IsLegal s → commissioned s ≡ Some run → run.answer ≡ Ok tt
        → map is_some (master_after s None run.exchanges).delays ≡ map (clock_at s.rows) (order (tree_rows s.rows)) }
    ensures delays { (s : SegmentValue) (run : RunEnd) (p : ℕ) → IsLegal s → commissioned s ≡ Some run → run.answer ≡ Ok tt
        → p < length s.rows
        → is_some (slice_index_or (master_after s None run.exchanges).delays p None) ≡ clock_at s.rows (row_at s p) }
    ensures past { (s : SegmentValue) (run : RunEnd) (p : ℕ) → IsLegal s → commissioned s ≡ Some run → run.answer ≡ Ok tt
        → length s.rows ≤ p
        → slice_index_or (master_after s None run.exchanges).delays p None ≡ None }
{}

/// Each datagram of every frame of a script writes no activation, or brings one to a single slave, with SYNC1 only where the
/// plan of that slave has it.
pub fn activations_are_planned()
    ensures { (cfg : ConfigValue) (w : Words) (step : Step) → ArePlanned (plans_sync1 cfg) (datagrams_of cfg w step) }
{}

/// In the run of a legal segment each slave keeps to the signals that it has by the file: its unit is armed with no other,
/// and each edge that it keeps is of one of them. So it is from the start on, after each phase, and at the end.
pub fn signals_are_those_of_the_file()
    ensures start { (s : SegmentValue) → AllKeepTo (signals_at s) (started_segment s).slaves }
    ensures commissioned { (s : SegmentValue) (run : RunEnd) → IsLegal s → commissioned s ≡ Some run
        → AllKeepTo (signals_at s) run.state.slaves }
    ensures settled { (s : SegmentValue) (run : RunEnd) → IsLegal s → settled s ≡ Some run → AllKeepTo (signals_at s) run.state.slaves }
    ensures armed { (s : SegmentValue) (run : RunEnd) → IsLegal s → armed s ≡ Some run → AllKeepTo (signals_at s) run.state.slaves }
    ensures ran { (s : SegmentValue) (run : RunEnd) → IsLegal s → ran s ≡ Some run → AllKeepTo (signals_at s) run.state.slaves }
    ensures whole { (s : SegmentValue) (run : RunEnd) → IsLegal s → run_of s ≡ Some run → AllKeepTo (signals_at s) run.state.slaves }
{}
