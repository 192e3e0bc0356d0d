//! What follows from the definitions of a frame's pass: of a sending, of the registers of one slave, of a datagram on its
//! way, of a clock, of a drift frame, and of a SYNC unit, in this order.

ghost use Rattle.std.specs.Prelude.{◌≡◌, ℕ, ◌+◌, ◌*◌, ◌<◌, ◌≤◌, ◌^◌, List, [], ◌++◌, false, if◌then◌else◌, length, drop, Option, Some, None, IfSome, IsSome, option_map, slice_get, ◌≢◌, ◌⊎◌, ◌-◌, ◌%◌, ◌==◌, ◌∷◌, true, pos, take};
ghost use Rattle.std.specs.List.{AllByRecursion, sum_by};
ghost use Rattle.dc_base.specs.Causes.{raised};
ghost use Rattle.osc_clock.specs.Ticks.{Oscillator, IsRunning};
ghost use Rattle.local_clock.specs.Reading.{Clock, Happening, received, advanced, clock_at, reading_at};
ghost use Rattle.sync_units.specs.Calls.{Call};
ghost use Rattle.sync_units.specs.KeptEdges.{Kept, empty_list};
ghost use Rattle.sync_units.specs.SyncRule.{Armed};
ghost use Rattle.ecat_frame.specs.Difference.{first_difference};
ghost use Rattle.ecat_frame.specs.FrameGrammar.{DatagramValue, FrameValue};
ghost use Rattle.ecat_link.specs.Exchanges.{Exchange, Runs};
ghost use Rattle.esc_regs.specs.RegisterWrite.{written};
ghost use Rattle.loss_list.specs.Losses.{loss_at};
ghost use Rattle.frame_pass.specs.SlaveState.{Slave, Timing, width, holds, fixed_part, station};
ghost use Rattle.frame_pass.specs.DatagramTable.{writes, Passes, Reads, Writes, reads, merges, gain, raises_adp, raised_by};
ghost use Rattle.frame_pass.specs.DatagramAtSlave.{doing, slave_after, is_refused_by, datagram_after};
ghost use Rattle.frame_pass.specs.Advancing.{advanced_to, measuring_at};
ghost use Rattle.frame_pass.specs.FramePass.{slaves_passed, slave_passed, slave_behind, datagrams_behind, are_latching, at_arrival, end_of, datagrams_after};
ghost use Rattle.frame_pass.specs.SegmentState.{SegmentState, segment_step, leaves_at, finished, expected_at, phase_of, number_of};
ghost use Rattle.frame_pass.specs.Reach.{reach_of};
ghost use Rattle.frame_pass.specs.Replies.{unanswered};
ghost use Rattle.frame_pass.specs.Invariants.{IsSound, IsSoundSegment, IsSameSegment, IsOnTime, IsNumbered, IsUnsent, after_frames};
ghost use Rattle.frame_pass.specs.ClockHistory.{HasHistory, events_passed, events_by};
ghost use Rattle.frame_pass.specs.UnitHistory.{HasRun, calls_to, calls_passed, are_activating};
ghost use Rattle.frame_pass.specs.PlainRegisters.{IsPlain, AreLeft};
ghost use Rattle.ecat_frame.specs.declared.command.Command.TheVariants.{Fprd, Fpwr};
ghost use Rattle.esc_regs.specs.RegisterBytes.{number_at, AreApart};
ghost use Rattle.esc_regs.specs.RegisterAccess.{is_refused};
ghost use Rattle.esc_regs.specs.declared.clock_kind.ClockKind.TheVariants as ClockKind;
ghost use Rattle.frame_pass.specs.LiveRegisters.{system_time};
ghost use Rattle.frame_pass.specs.WriteEffects.{difference, arms};
ghost use Rattle.esc_regs.specs.RegisterTable.{held};
ghost use Rattle.frame_pass.specs.Stored.{is_stored};
ghost use Rattle.frame_pass.specs.Aside.{AreAside, HaveSize};
ghost use Rattle.frame_pass.specs.Rest.{AreResets};
ghost use Rattle.frame_pass.specs.Stations.{slave_found, IsAlone, BringsBack, IsReceived};
ghost use Rattle.frame_pass.specs.Arming.{armed_from, Activates};
ghost use Rattle.frame_pass.specs.Copies.{HasCopies, time_at};
ghost use Rattle.frame_pass.specs.Counters.{slave_before, doing_in, gains, AreDoing};
ghost use Rattle.frame_pass.specs.Drift.{IsDrift, time_in, first_behind, Brings, AreOthersThan};
ghost use Rattle.frame_pass.specs.ReceiveTimes.{IsReceiveTime, IsBefore, AreReceiveTimes};

/// What a slave is never changes: when a frame visits it, its kind, its oscillator, whether it has a clock, and how many
/// edges it keeps. Nor do the round trip and the losses of the segment.
pub fn fixed_parts()
    ensures frame { (sent : ℕ) (end : Option ℕ) (s : Slave) (ds : List DatagramValue)
        → fixed_part (slave_passed sent end s ds) ≡ fixed_part s }
    ensures time { (t : ℕ) (s : Slave) → fixed_part (advanced_to t s) ≡ fixed_part s }
    ensures step { (s : SegmentState) (wait_ns : ℕ) (f : FrameValue) → IsSameSegment s (segment_step s wait_ns f).0 }
    ensures finish { (t : ℕ) (s : SegmentState) → IsSameSegment s (finished t s) }
    ensures expect { (position t : ℕ) (s : SegmentState) → IsSameSegment s (expected_at position t s) }
{}

/// Slaves stay sound, and no slave's present time is past the time before which no frame leaves: a sending, a finish
/// and an expected event keep it so, and the next frame leaves at that time or later. So time never goes back.
pub fn times_in_order()
    ensures step { (s : SegmentState) (wait_ns : ℕ) (f : FrameValue) → IsSoundSegment s → IsSoundSegment (segment_step s wait_ns f).0 }
    ensures finish { (s : SegmentState) (t : ℕ) → IsSoundSegment s → IsSoundSegment (finished t s) }
    ensures expect { (s : SegmentState) (position t : ℕ) → IsSoundSegment s → IsSoundSegment (expected_at position t s) }
    ensures next { (s : SegmentState) (wait_ns : ℕ) → s.free ≤ leaves_at s wait_ns }
{}

/// A frame comes back exactly where it is not listed as lost; after 1,000,000 sendings none does, and nothing else is
/// changed than the count of lost ones.
pub fn frames_come_back()
    ensures back { (s : SegmentState) (wait_ns : ℕ) (f : FrameValue) → s.sent < 1000000
        → loss_at s.losses (phase_of f.datagrams) (number_of (phase_of f.datagrams) s + 1) ≡ None
        → IsSome (segment_step s wait_ns f).1 × ((segment_step s wait_ns f).0.lost ≡ s.lost) }
    ensures lost { (s : SegmentState) (wait_ns : ℕ) (f : FrameValue) (h : ℕ) → s.sent < 1000000
        → loss_at s.losses (phase_of f.datagrams) (number_of (phase_of f.datagrams) s + 1) ≡ Some h
        → ((segment_step s wait_ns f).1 ≡ None) × ((segment_step s wait_ns f).0.lost ≡ raised s.lost) }
    ensures unsent { (s : SegmentState) (wait_ns : ℕ) (f : FrameValue) → 1000000 ≤ s.sent
        → ((segment_step s wait_ns f).1 ≡ None) × ((segment_step s wait_ns f).0 ≡ record s { lost = raised s.lost }) }
    ensures numbered { (s : SegmentState) (wait_ns : ℕ) (f : FrameValue) → IsNumbered s → IsNumbered (segment_step s wait_ns f).0 }
{}

/// A frame that reaches h slaves passes each of them as those before it leave it, and the others stay as they were.
pub fn slaves_in_turn()
    ensures reached { (h sent : ℕ) (end : Option ℕ) (ss : List Slave) (ds : List DatagramValue) (p : ℕ) (s : Slave) → p < h
        → slice_get ss p ≡ Some s
        → slice_get (slaves_passed h sent end ss ds) p ≡ Some (slave_passed sent end s (datagrams_behind p sent ss ds)) }
    ensures stays { (h sent : ℕ) (end : Option ℕ) (ss : List Slave) (ds : List DatagramValue) (p : ℕ) → h ≤ p
        → slice_get (slaves_passed h sent end ss ds) p ≡ slice_get ss p }
    ensures unreached { (h sent : ℕ) (end : Option ℕ) (ss : List Slave) (ds : List DatagramValue)
        → drop h (slaves_passed h sent end ss ds) ≡ drop h ss }
    ensures count { (h sent : ℕ) (end : Option ℕ) (ss : List Slave) (ds : List DatagramValue)
        → length (slaves_passed h sent end ss ds) ≡ length ss }
{}

/// What a sending and a finish make of the slave at a position.
pub fn slaves_at_positions()
    ensures reached { (s : SegmentState) (wait_ns : ℕ) (f : FrameValue) (p : ℕ) (v : Slave) → s.sent < 1000000 → p < reach_of s f
        → slice_get s.slaves p ≡ Some v
        → slice_get (segment_step s wait_ns f).0.slaves p
        ≡ Some (slave_passed (leaves_at s wait_ns) (end_of (reach_of s f) s.slaves) v
        (datagrams_behind p (leaves_at s wait_ns) s.slaves f.datagrams)) }
    ensures stays { (s : SegmentState) (wait_ns : ℕ) (f : FrameValue) (p : ℕ) → s.sent < 1000000 → reach_of s f ≤ p
        → slice_get (segment_step s wait_ns f).0.slaves p ≡ slice_get s.slaves p }
    ensures finish { (s : SegmentState) (t p : ℕ) → slice_get (finished t s).slaves p ≡ option_map (advanced_to t) (slice_get s.slaves p) }
    ensures unlatched { (sent : ℕ) (end : Option ℕ) (s : Slave) (ds : List DatagramValue) → are_latching (at_arrival sent s) ds ≡ false
        → slave_passed sent end s ds ≡ slave_behind (at_arrival sent s) ds }
{}

/// Where each frame is sent a wait after the one before, and comes back within it, sending s leaves at s waits: step by
/// step (`IsOnTime`), over exchanges, and from the start.
pub fn sending_times()
    ensures step { (s : SegmentState) (wait_ns : ℕ) (f : FrameValue) → wait_ns ≤ 10000000 → s.round_trip ≤ 1000000 * wait_ns
        → s.sent < 1000000
        → IsOnTime (1000000 * wait_ns) s → IsOnTime (1000000 * wait_ns) (segment_step s wait_ns f).0 }
    ensures next { (s : SegmentState) (wait_ns : ℕ) → wait_ns ≤ 10000000 → IsOnTime (1000000 * wait_ns) s
        → leaves_at s wait_ns ≡ (s.sent + 1) * (1000000 * wait_ns) }
    ensures runs { (es : List Exchange) (s t : SegmentState) (wait_ns : ℕ) → Runs segment_step (Some s) es (Some t)
        → AllByRecursion (λ (e : Exchange). e.wait_ns ≡ wait_ns) es
        → wait_ns ≤ 10000000 → s.round_trip ≤ 1000000 * wait_ns → s.sent + length es ≤ 1000000 → IsOnTime (1000000 * wait_ns) s
        → IsOnTime (1000000 * wait_ns) t × (t.sent ≡ s.sent + length es) × (t.round_trip ≡ s.round_trip) }
    ensures start { (s : SegmentState) (wait_ns : ℕ) (fs : List FrameValue) → IsUnsent s → wait_ns ≤ 10000000
        → s.round_trip ≤ 1000000 * wait_ns
        → length fs < 1000000 → leaves_at (after_frames wait_ns fs s) wait_ns ≡ (length fs + 1) * (1000000 * wait_ns) }
{}

/// A frame that comes back is the frame that was sent, but for the ADP, the data and the working counter of its
/// datagrams. So no master sees a difference between them.
pub fn replies()
    ensures same { (s : SegmentState) (wait_ns : ℕ) (f : FrameValue) → IsSoundSegment s
        → IfSome (segment_step s wait_ns f).1 (λ g. unanswered g ≡ unanswered f) }
    ensures undisturbed { (s : SegmentState) (wait_ns : ℕ) (f : FrameValue) → IsSoundSegment s
        → IfSome (segment_step s wait_ns f).1 (λ g. first_difference f g ≡ None) }
{}

/// A datagram that a slave writes, and that has the first m bytes of a register that writes store, as far as the slave has
/// them, leaves the number that it brings there.
pub fn stored_numbers()
    ensures { (addr n m : ℕ) (s : Slave) (d : DatagramValue) → length s.registers.bytes ≡ 4096 → is_stored addr n ≡ true
        → m ≤ held s.registers.kind n → IsPlain addr m
        → writes (doing s d) ≡ true → d.head.ado ≤ addr → addr + m ≤ d.head.ado + length d.payload
        → holds m addr (slave_after s d).registers ≡ number_at m (addr - d.head.ado) d.payload }
{}

/// What a datagram reads: the numbers that the slave shows. Those of 0x0910 and 0x0990 apart, these are the numbers that
/// it holds; at 0x0910 it is the system time, here its low half.
pub fn read_numbers()
    ensures held { (s : Slave) (d : DatagramValue) (j k : ℕ) → length s.registers.bytes ≡ 4096 → reads (doing s d) ≡ true
        → merges d.head.command ≡ false → j + k ≤ length d.payload
        → AreApart 0x0910 8 (d.head.ado + j) k → AreApart 0x0990 8 (d.head.ado + j) k
        → number_at k j (datagram_after s d).payload ≡ holds k (d.head.ado + j) s.registers }
    ensures system_time { (s : Slave) (m : Timing) (d : DatagramValue) → length s.registers.bytes ≡ 4096 → s.timing ≡ Some m
        → reads (doing s d) ≡ true → merges d.head.command ≡ false
        → d.head.ado ≡ 0x0910 → 4 ≤ length d.payload
        → number_at 4 0 (datagram_after s d).payload ≡ system_time (record { registers = s.registers; timing = m }) % 2 ^ 32 }
    ensures size { (s : Slave) (d : DatagramValue) → length s.registers.bytes ≡ 4096 → reads (doing s d) ≡ true
        → merges d.head.command ≡ false
        → length (datagram_after s d).payload ≡ length d.payload }
{}

/// Of the registers that a slave does not set itself, a datagram changes what it stores, and nothing else changes
/// them: no time, and no port that latches.
pub fn plain_registers()
    ensures datagram { (at n : ℕ) (s : Slave) (d : DatagramValue) → IsPlain at n → length s.registers.bytes ≡ 4096
        → holds n at (slave_after s d).registers
        ≡ holds n at (if writes (doing s d) then written s.registers d.head.ado d.payload else s.registers) }
    ensures time { (at n t : ℕ) (s : Slave) → IsPlain at n → length s.registers.bytes ≡ 4096
        → holds n at (advanced_to t s).registers ≡ holds n at s.registers }
    ensures frame { (at n sent trip limit : ℕ) (end : Option ℕ) (s : Slave) (ds : List DatagramValue) → IsPlain at n → sent + trip ≤ limit
        → IsSound trip limit s
        → holds n at (slave_passed sent end s ds).registers ≡ holds n at (slave_behind (at_arrival sent s) ds).registers }
    ensures left { (at n sent trip limit : ℕ) (end : Option ℕ) (s : Slave) (ds : List DatagramValue) → IsPlain at n → sent + trip ≤ limit
        → IsSound trip limit s
        → AreLeft at n (at_arrival sent s) ds → holds n at (slave_passed sent end s ds).registers ≡ holds n at s.registers }
{}

/// Datagram k of a frame behind the first h slaves. Its command, index and ADO are as they were; its ADP is h more in 16
/// bits where the command raises it, and else as it was; its working counter is the sum of what each slave gains more; its
/// data are those behind the first j slaves, where no later one reads.
pub fn datagrams_on_their_way()
    ensures at { (k : ℕ) (s : Slave) (ds : List DatagramValue)
        → slice_get (datagrams_after s ds) k ≡ option_map (datagram_after (slave_before k s ds)) (slice_get ds k) }
    ensures same { (k h sent : ℕ) (ss : List Slave) (ds : List DatagramValue) (d e : DatagramValue) → slice_get ds k ≡ Some d
        → slice_get (datagrams_behind h sent ss ds) k ≡ Some e
        → (e.head.command ≡ d.head.command) × (e.head.index ≡ d.head.index) × (e.head.ado ≡ d.head.ado) }
    ensures raised { (k h sent : ℕ) (ss : List Slave) (ds : List DatagramValue) (d e : DatagramValue) → slice_get ds k ≡ Some d
        → slice_get (datagrams_behind h sent ss ds) k ≡ Some e
        → h ≤ length ss → d.head.adp < 2 ^ 16 → raises_adp d.head.command ≡ true → e.head.adp ≡ raised_by h d.head.adp }
    ensures kept { (k h sent : ℕ) (ss : List Slave) (ds : List DatagramValue) (d e : DatagramValue) → slice_get ds k ≡ Some d
        → slice_get (datagrams_behind h sent ss ds) k ≡ Some e
        → raises_adp d.head.command ≡ false → e.head.adp ≡ d.head.adp }
    ensures counter { (k h sent : ℕ) (ss : List Slave) (ds : List DatagramValue) (d e : DatagramValue) → slice_get ds k ≡ Some d
        → slice_get (datagrams_behind h sent ss ds) k ≡ Some e
        → d.wkc < 2 ^ 16 → e.wkc ≡ raised_by (gains k h sent ss ds) d.wkc }
    ensures data { (k j h sent : ℕ) (ss : List Slave) (ds : List DatagramValue) (d e : DatagramValue) → j ≤ h
        → slice_get (datagrams_behind j sent ss ds) k ≡ Some d
        → slice_get (datagrams_behind h sent ss ds) k ≡ Some e → AreDoing (λ x. reads x ≡ false) k j h sent ss ds → e.payload ≡ d.payload }
{}

/// What counters gain: the sum of what each slave is told to gain, and where one slave alone does not pass a datagram on,
/// what that slave gains. FPRD and FPWR are passed on by every slave of another station address, and read or written by one
/// of that address that does not refuse.
pub fn counters()
    ensures sum { (k h sent : ℕ) (g : Slave → ℕ) (ss : List Slave) (ds : List DatagramValue)
        → ((i : ℕ) (s : Slave) → i < h → slice_get ss i ≡ Some s
        → gain (doing_in k (at_arrival sent s) (datagrams_behind i sent ss ds)) ≡ g s)
        → gains k h sent ss ds ≡ sum_by g (take h ss) }
    ensures one { (k h sent q : ℕ) (ss : List Slave) (ds : List DatagramValue) (s : Slave) → q < h → slice_get ss q ≡ Some s
        → ((i : ℕ) (v : Slave) → i < h → slice_get ss i ≡ Some v → i ≢ q
        → doing_in k (at_arrival sent v) (datagrams_behind i sent ss ds) ≡ Passes)
        → gains k h sent ss ds ≡ gain (doing_in k (at_arrival sent s) (datagrams_behind q sent ss ds)) }
    ensures other { (s : Slave) (d : DatagramValue) → (d.head.command ≡ Fprd) ⊎ (d.head.command ≡ Fpwr)
        → (d.head.adp == station s.registers) ≡ false → doing s d ≡ Passes }
    ensures read { (s : Slave) (d : DatagramValue) → d.head.command ≡ Fprd → is_refused_by s d ≡ false
        → (d.head.adp == station s.registers) ≡ true → doing s d ≡ Reads }
    ensures written { (s : Slave) (d : DatagramValue) → d.head.command ≡ Fpwr → is_refused_by s d ≡ false
        → (d.head.adp == station s.registers) ≡ true → doing s d ≡ Writes }
    ensures refused { (s : Slave) (d : DatagramValue) → is_refused_by s d ≡ true → doing s d ≡ Passes }
{}

/// A datagram of a frame that reads or writes one slave by its station address, which no other of the first h slaves has when
/// the datagram comes to it, nor refuses the slave it.
pub fn by_station()
    ensures read { (k q h sent : ℕ) (ss : List Slave) (ds : List DatagramValue) (d e : DatagramValue) (s : Slave) → q < h
        → slice_get ss q ≡ Some s → slice_get ds k ≡ Some d
        → d.head.command ≡ Fprd → d.wkc < 2 ^ 16 → IsAlone d.head.adp k q h sent ss ds
        → length (slave_found k q sent ss ds s).registers.bytes ≡ 4096
        → (d.head.adp == station (slave_found k q sent ss ds s).registers) ≡ true
        → is_refused (slave_found k q sent ss ds s).registers.kind d.head.ado (length d.payload) ≡ false
        → slice_get (datagrams_behind h sent ss ds) k ≡ Some e → BringsBack d (slave_found k q sent ss ds s) e }
    ensures written { (k q h sent : ℕ) (ss : List Slave) (ds : List DatagramValue) (d e g : DatagramValue) (s : Slave) → q < h
        → slice_get ss q ≡ Some s → slice_get ds k ≡ Some d
        → d.head.command ≡ Fpwr → d.wkc < 2 ^ 16 → IsAlone d.head.adp k q h sent ss ds
        → (d.head.adp == station (slave_found k q sent ss ds s).registers) ≡ true
        → is_refused (slave_found k q sent ss ds s).registers.kind d.head.ado (length d.payload) ≡ false
        → slice_get (datagrams_behind q sent ss ds) k ≡ Some g → slice_get (datagrams_behind h sent ss ds) k ≡ Some e
        → IsReceived d (slave_found k q sent ss ds s) g e }
{}

/// Which registers a frame leaves can be seen as it is sent. Datagrams that are aside of a place at a slave of a station
/// address stay so behind slaves; where they also leave the station address, the slave writes nothing at the place, and each
/// datagram finds that address. A frame that writes nothing at 0x0900 to 0x0903 does not latch, and one that writes nothing
/// at 0x0981 does not activate.
pub fn frames_aside()
    ensures behind { (at n own p sent : ℕ) (ss : List Slave) (ds : List DatagramValue) → HaveSize ss → AreAside at n own ds
        → AreAside at n own (datagrams_behind p sent ss ds) }
    ensures left { (at n own : ℕ) (s : Slave) (ds : List DatagramValue) → length s.registers.bytes ≡ 4096 → station s.registers ≡ own
        → AreAside at n own ds → AreAside 0x0010 2 own ds
        → AreLeft at n s ds }
    ensures found { (k own : ℕ) (s : Slave) (ds : List DatagramValue) → length s.registers.bytes ≡ 4096 → station s.registers ≡ own
        → AreAside 0x0010 2 own ds
        → (station (slave_before k s ds).registers ≡ own) × (length (slave_before k s ds).registers.bytes ≡ 4096) }
    ensures unlatched { (s : Slave) (ds : List DatagramValue) → AreLeft 0x0900 4 s ds → are_latching s ds ≡ false }
    ensures inactive { (s : Slave) (ds : List DatagramValue) → AreLeft 0x0981 1 s ds → are_activating s ds ≡ false }
{}

/// The told clock of a slave is that of its history: its start, the differences that it received and the resets, each
/// at its instant.
pub fn clocks_by_history()
    ensures start { (w : ℕ) (s : Slave) (t : Timing) → s.timing ≡ Some t → width s.registers.kind ≡ w → t.clock.reading < 2 ^ w
        → HasHistory w t.clock [] s }
    ensures frame { (w : ℕ) (c : Clock) (events : List Happening) (sent : ℕ) (end : Option ℕ) (s : Slave) (ds : List DatagramValue)
        → IsRunning c.osc
        → HasHistory w c events s → HasHistory w c (events ++ events_passed sent s ds) (slave_passed sent end s ds) }
    ensures time { (w : ℕ) (c : Clock) (events : List Happening) (t : ℕ) (s : Slave) → IsRunning c.osc
        → HasHistory w c events s → HasHistory w c events (advanced_to t s) }
{}

/// The system time of a slave at an instant: the local time of the clock's history, the held offset, and less the held delay.
pub fn system_times()
    ensures { (w : ℕ) (c : Clock) (events : List Happening) (t : ℕ) (s : Slave) (m : Timing) → IsRunning c.osc → s.timing ≡ Some m
        → length s.registers.bytes ≡ 4096
        → m.clock.instant ≤ t → HasHistory w c events s
        → system_time (measuring_at t (record { registers = s.registers; timing = m })) ≡ time_at w c events s t }
{}

/// A frame with a datagram that makes a measuring slave latch leaves in its receive times what the clock of its history
/// shows at the frame's visits; where the frame does not come back into a port, the port's stays. What it shows later than
/// the arrival, the clock that stood there shows when it is advanced. A frame that has no such datagram leaves the receive
/// times, and so does time.
pub fn receive_times()
    ensures latched { (w : ℕ) (c : Clock) (events : List Happening) (sent : ℕ) (end : Option ℕ) (s : Slave) (m : Timing)
        (ds : List DatagramValue) → IsRunning c.osc
        → s.timing ≡ Some m → IsBefore sent s → HasHistory w c events s → are_latching (at_arrival sent s) ds ≡ true
        → AreReceiveTimes (reading_at w c (events ++ events_passed sent s ds)) sent end s.visits s.registers
        (slave_passed sent end s ds).registers }
    ensures later { (w : ℕ) (c : Clock) (events : List Happening) (sent u : ℕ) (s : Slave) (m : Timing) (ds : List DatagramValue)
        → IsRunning c.osc → s.timing ≡ Some m
        → length s.registers.bytes ≡ 4096 → m.clock.instant ≤ sent + s.visits.arrive → HasHistory w c events s → sent + s.visits.arrive ≤ u
        → reading_at w c (events ++ events_passed sent s ds) u
        ≡ (advanced w u (clock_at w c (events ++ events_passed sent s ds) (sent + s.visits.arrive))).reading }
    ensures left { (at n sent : ℕ) (end : Option ℕ) (s : Slave) (ds : List DatagramValue) → IsReceiveTime at n
        → length s.registers.bytes ≡ 4096
        → are_latching (at_arrival sent s) ds ≡ false → holds n at (slave_passed sent end s ds).registers ≡ holds n at s.registers }
    ensures time { (at n t : ℕ) (s : Slave) → IsReceiveTime at n → length s.registers.bytes ≡ 4096
        → holds n at (advanced_to t s).registers ≡ holds n at s.registers }
{}

/// A frame none of whose datagrams writes the system time brings a clock no difference, but resets at most; and a clock that
/// begins with nothing left to correct, and receives none, has nothing left at any time.
pub fn clocks_at_rest()
    ensures frame { (sent : ℕ) (s : Slave) (ds : List DatagramValue) → AreLeft 0x0910 4 (at_arrival sent s) ds
        → AreResets (events_passed sent s ds) }
    ensures joined { (events more : List Happening) → AreResets events → AreResets more → AreResets (events ++ more) }
    ensures rests { (w t : ℕ) (c : Clock) (events : List Happening) → AreResets events → c.left ≡ pos 0
        → (clock_at w c events t).left ≡ pos 0 }
{}

/// What the datagram of a drift frame (FRMW of four bytes at 0x0910) does at one slave: where it is not addressed, the clock
/// receives the difference of its system time and the time that the datagram brings, and the data go on as they are;
/// where it is, the slave is left, and the data are the low half of its system time. A refusal leaves slave and data.
pub fn drift_at_slave()
    ensures receives { (s : Slave) (m : Timing) (d : DatagramValue) → length s.registers.bytes ≡ 4096 → s.timing ≡ Some m → IsDrift d
        → is_refused_by s d ≡ false
        → (d.head.adp == station s.registers) ≡ false
        → events_by s d ≡ record {
          instant = m.clock.instant;
          event = received
              (difference (record { registers = s.registers; timing = m }) (time_in d));
        } ∷ [] }
    ensures unaddressed { (s : Slave) (d : DatagramValue) → IsDrift d → (d.head.adp == station s.registers) ≡ false
        → (datagram_after s d).payload ≡ d.payload }
    ensures tells { (s : Slave) (m : Timing) (d : DatagramValue) → length s.registers.bytes ≡ 4096 → s.timing ≡ Some m → IsDrift d
        → is_refused_by s d ≡ false
        → (d.head.adp == station s.registers) ≡ true
        → time_in (datagram_after s d) ≡ system_time (record { registers = s.registers; timing = m }) % 2 ^ 32 }
    ensures addressed { (s : Slave) (d : DatagramValue) → IsDrift d → (d.head.adp == station s.registers) ≡ true
        → (slave_after s d ≡ s) × (events_by s d ≡ []) }
    ensures refused { (s : Slave) (d : DatagramValue) → is_refused_by s d ≡ true
        → (slave_after s d ≡ s) × (events_by s d ≡ []) × ((datagram_after s d).payload ≡ d.payload) }
    ensures kinds { (is_refused ClockKind.None 0x0910 4 ≡ true) × (is_refused ClockKind.R32 0x0910 4 ≡ true)
        × (is_refused ClockKind.C32 0x0910 4 ≡ false) × (is_refused ClockKind.C64 0x0910 4 ≡ false) }
{}

/// What a drift frame brings a slave, whose other datagrams write neither the system time nor the speed: one difference at
/// its arrival, by the system time at that instant, where the slave is not the addressed one, and there nothing. Any frame
/// none of whose datagrams writes these brings nothing.
pub fn drift_frames()
    ensures receives { (sent : ℕ) (s : Slave) (m : Timing) (d : DatagramValue) (ds : List DatagramValue) → length s.registers.bytes ≡ 4096
        → s.timing ≡ Some m
        → m.clock.instant ≤ sent + s.visits.arrive → IsDrift d → is_refused_by s d ≡ false → (d.head.adp == station s.registers) ≡ false
        → AreLeft 0x0910 4 (slave_after (at_arrival sent s) d) ds → AreLeft 0x0930 2 (slave_after (at_arrival sent s) d) ds
        → events_passed sent s (d ∷ ds)
        ≡ record {
          instant = sent + s.visits.arrive;
          event = received
              (difference (measuring_at (sent + s.visits.arrive) (record { registers = s.registers; timing = m })) (time_in d));
        } ∷ [] }
    ensures addressed { (sent : ℕ) (s : Slave) (d : DatagramValue) (ds : List DatagramValue) → length s.registers.bytes ≡ 4096 → IsDrift d
        → (d.head.adp == station s.registers) ≡ true
        → AreLeft 0x0910 4 (at_arrival sent s) ds → AreLeft 0x0930 2 (at_arrival sent s) ds → events_passed sent s (d ∷ ds) ≡ [] }
    ensures quiet { (sent : ℕ) (s : Slave) (ds : List DatagramValue) → AreLeft 0x0910 4 (at_arrival sent s) ds
        → AreLeft 0x0930 2 (at_arrival sent s) ds
        → events_passed sent s ds ≡ [] }
{}

/// What the datagram of a drift frame, which is the first of its frame, brings behind h slaves, of which the one at position
/// q is addressed and no other: the low half of that slave's system time at its own arrival.
pub fn drift_is_carried()
    ensures first { (h sent : ℕ) (ss : List Slave) (d : DatagramValue) (ds : List DatagramValue)
        → slice_get (datagrams_behind h sent ss (d ∷ ds)) 0 ≡ Some (first_behind h sent ss d) }
    ensures time { (h sent q : ℕ) (ss : List Slave) (d : DatagramValue) (s : Slave) (m : Timing) → q < h → slice_get ss q ≡ Some s
        → s.timing ≡ Some m → length s.registers.bytes ≡ 4096
        → IsDrift d → is_refused_by s d ≡ false → (d.head.adp == station s.registers) ≡ true → AreOthersThan q d.head.adp h ss
        → Brings (system_time (measuring_at (sent + s.visits.arrive) (record { registers = s.registers; timing = m })) % 2 ^ 32) d
        (first_behind h sent ss d) }
{}

/// A write of the activation arms the unit by the registers as they then stand, and clears the kept edges, or disarms it,
/// and leaves them. A frame that does not latch, whose last write of the activation arms, leaves the unit so at its arrival:
/// from there its calls run.
pub fn arming()
    ensures arms { (byte : ℕ) (s : Slave) (m : Timing) (d : DatagramValue) → s.timing ≡ Some m → Activates byte s d
        → arms byte (slave_after s d).registers ≡ true
        → IfSome (slave_after s d).timing
        (λ n. (n.unit ≡ Some (armed_from byte (slave_after s d).registers)) × (n.edges ≡ empty_list m.edges.keep)) }
    ensures disarms { (byte : ℕ) (s : Slave) (m : Timing) (d : DatagramValue) → s.timing ≡ Some m → Activates byte s d
        → arms byte (slave_after s d).registers ≡ false
        → IfSome (slave_after s d).timing (λ n. (n.unit ≡ None) × (n.edges ≡ m.edges)) }
    ensures frame { (byte sent : ℕ) (end : Option ℕ) (s : Slave) (m : Timing) (before : List DatagramValue) (d : DatagramValue)
        (later : List DatagramValue) → s.timing ≡ Some m
        → length s.registers.bytes ≡ 4096 → m.clock.instant ≤ sent + s.visits.arrive
        → are_latching (at_arrival sent s) (before ++ d ∷ later) ≡ false
        → Activates byte (slave_behind (at_arrival sent s) before) d
        → are_activating (slave_after (slave_behind (at_arrival sent s) before) d) later ≡ false
        → arms byte (slave_after (slave_behind (at_arrival sent s) before) d).registers ≡ true
        → HasRun (width s.registers.kind) m.clock.osc (sent + s.visits.arrive)
        (Some (armed_from byte (slave_after (slave_behind (at_arrival sent s) before) d).registers)) (empty_list m.edges.keep) []
        (slave_passed sent end s (before ++ d ∷ later)) }
{}

/// The told unit of a slave, and the edges that are kept, are those of the calls that time made since some instant,
/// such as an arming, while no frame writes the activation. (What calls in turn raise is a law of `sync_units`.)
pub fn units_by_calls()
    ensures start { (w : ℕ) (s : Slave) (t : Timing) → s.timing ≡ Some t → width s.registers.kind ≡ w
        → HasRun w t.clock.osc t.clock.instant t.unit t.edges [] s }
    ensures frame { (w : ℕ) (o : Oscillator) (start : ℕ) (unit : Option Armed) (edges : Kept) (calls : List Call) (sent : ℕ)
        (end : Option ℕ) (s : Slave) (ds : List DatagramValue)
        → are_activating (at_arrival sent s) ds ≡ false → HasRun w o start unit edges calls s
        → HasRun w o start unit edges (calls ++ calls_passed sent end s ds) (slave_passed sent end s ds) }
    ensures time { (w : ℕ) (o : Oscillator) (start : ℕ) (unit : Option Armed) (edges : Kept) (calls : List Call) (t : ℕ) (s : Slave)
        → HasRun w o start unit edges calls s → HasRun w o start unit edges (calls ++ calls_to t s) (advanced_to t s) }
{}

/// The local copies at the ticks of a unit's calls are those of the clock's history with the held offset, while no frame
/// writes the offset: from a start on, over frames, and as time goes on.
pub fn copies_by_history()
    ensures start { (w : ℕ) (c : Clock) (events : List Happening) (s : Slave) (m : Timing) → s.timing ≡ Some m
        → HasCopies w c events m.clock.instant [] s }
    ensures frame { (w : ℕ) (c : Clock) (events : List Happening) (start : ℕ) (calls : List Call) (sent : ℕ) (end : Option ℕ) (s : Slave)
        (m : Timing) (ds : List DatagramValue) → IsRunning c.osc
        → s.timing ≡ Some m → length s.registers.bytes ≡ 4096 → m.clock.instant ≤ sent + s.visits.arrive
        → AreLeft 0x0920 8 (at_arrival sent s) ds
        → HasHistory w c events s → HasCopies w c events start calls s
        → HasCopies w c (events ++ events_passed sent s ds) start (calls ++ calls_passed sent end s ds) (slave_passed sent end s ds) }
    ensures time { (w : ℕ) (c : Clock) (events : List Happening) (start : ℕ) (calls : List Call) (t : ℕ) (s : Slave) (m : Timing)
        → IsRunning c.osc → s.timing ≡ Some m
        → length s.registers.bytes ≡ 4096 → HasHistory w c events s → HasCopies w c events start calls s
        → HasCopies w c events start (calls ++ calls_to t s) (advanced_to t s) }
{}
