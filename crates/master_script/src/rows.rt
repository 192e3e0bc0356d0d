//! Worked rows as laws, by computation of the definitions: what the script wants after the exchanges of
//! `specs/Rows.antt`.

ghost use Rattle.std.specs.Prelude.{◌≡◌, true, [], ◌∷◌, Some, None, Ok, Err};
ghost use Rattle.byteorder.specs.Endian.{little_bytes};
ghost use Rattle.dc_topology.specs.declared.error.TopologyError.TheVariants.{BadStatus, Missing, Surplus};
ghost use Rattle.ecat_frame.specs.Built.{built};
ghost use Rattle.ecat_frame.specs.declared.command.Command.TheVariants.{Brd, Bwr};
ghost use Rattle.ecat_link.specs.Serves.{End, Send};
ghost use Rattle.master_script.specs.Frames.{arm_datagrams, count_datagrams, set_datagrams};
ghost use Rattle.master_script.specs.Kept.{kept_after};
ghost use Rattle.master_script.specs.Rows.{base, branches, commissions, counts, echo, four_kinds, identifies_none, losing, lost, measures, other, settles, settles_losing, statuses};
ghost use Rattle.master_script.specs.Script.{Arm as ArmCall, Commission, script};
ghost use Rattle.master_script.specs.declared.step.MasterError.TheVariants.{Refused};
ghost use Rattle.master_script.specs.declared.step.Refusal.TheVariants.{Counter, Lost, NoReference, Reply, Topology, Unmeasurable};
ghost use Rattle.master_script.specs.declared.step.Step.TheVariants.{Count};

/// A first frame that comes back as it was sent, and one that is lost three times.
pub fn scripted_replies()
    ensures begins { script base Commission [] ≡ Send 1000000 (built count_datagrams) }
    ensures echoed { script base Commission (echo count_datagrams ∷ []) ≡ End (Err (Refused (Counter Count 2 0))) }
    ensures lost_twice { script base Commission (lost count_datagrams ∷ lost count_datagrams ∷ []) ≡ Send 1000000 (built count_datagrams) }
    ensures lost_thrice { script base Commission (lost count_datagrams ∷ lost count_datagrams ∷ lost count_datagrams ∷ [])
        ≡ End (Err (Refused (Lost Count))) }
{}

/// Replies that no slave gives, and segments that are refused.
pub fn dishonest_replies()
    ensures as_bwr { (kept_after base None (other Bwr 0 2 ∷ [])).refusal ≡ Some (Reply Count 16) }
    ensures with_index_1 { (kept_after base None (other Brd 1 2 ∷ [])).refusal ≡ Some (Reply Count 17) }
    ensures as_bwr_with_counter_9 { (kept_after base None (other Bwr 0 9 ∷ [])).refusal ≡ Some (Reply Count 16) }
    ensures with_counter_3 { (kept_after base None (other Brd 0 3 ∷ [])).refusal ≡ Some (Counter Count 2 3) }
    ensures surplus { (kept_after base None (statuses 0x5610 0x5610)).refusal ≡ Some (Topology (Surplus 1)) }
    ensures missing { (kept_after base None (statuses 0x5A30 0x5A30)).refusal ≡ Some (Topology Missing) }
    ensures bad_status { (kept_after base None (statuses 0x5A30 0x0000)).refusal ≡ Some (Topology (BadStatus 1)) }
    ensures no_clock { (kept_after base None (counts 2 ∷ identifies_none 0 0x5A30 ∷ identifies_none 1 0x5610 ∷ [])).refusal
        ≡ Some NoReference }
    ensures behind_a_branch { (kept_after four_kinds None branches).refusal ≡ Some (Unmeasurable 2) }
    ensures wrapped { (kept_after base None (measures 0xFFFFFFFF 0xFFFFFFFE)).delays ≡ Some 0 ∷ Some 2147483647 ∷ [] }
    ensures first_set { script base Commission (measures 0xFFFFFFFF 0xFFFFFFFE)
        ≡ Send 1000000 (built (set_datagrams 0 true 800000000000000000 0)) }
{}

/// Two clocks in a line are commissioned, settle, and are armed.
pub fn run_with_edge_rows()
    ensures measured { (kept_after base None settles).delays ≡ Some 0 ∷ Some 360 ∷ [] }
    ensures ends { script base Commission commissions ≡ End (Ok tt) }
    ensures starts { script base ArmCall settles ≡ Send 1000000 (built (arm_datagrams 0 0 true 1000000 None 800000000016000000)) }
    ensures start_bytes { little_bytes 8 800000000016000000 ≡ 0x00 ∷ 0x24 ∷ 0x44 ∷ 0xed ∷ 0xc2 ∷ 0x2b ∷ 0x1a ∷ 0x0b ∷ [] }
{}

/// The time of the reference is that of the last settle frame that came back.
pub fn drift_losses_in_a_row()
    ensures { script losing ArmCall settles_losing ≡ Send 1000000 (built (arm_datagrams 0 0 true 1000000 None 800000000017000000)) }
{}
