//! What the slaves of a file answer to the frames of a script, and what these frames leave of them. Laws about
//! definitions; there is nothing to run here.
//!
//! The laws go from one datagram up to the run of a legal file, and are read in this order.
//!
//! **Slaves keep what they are.** No datagram changes a slave's kind, its features (ESC data sheet, 0x0008) or its
//! DL status (0x0110). Its station address (0x0010) is 0 until the master gives it its own, 0x1001 and the
//! position. A datagram is mindful where it gives no slave another one ([`laws::datagrams_leave_slaves`]). A
//! frame of mindful datagrams leaves all slaves at their positions, whether it comes back or is lost
//! ([`laws::frames_leave_slaves`]), and each of its datagrams finds them so ([`laws::datagrams_find_slaves`]).
//!
//! **Who answers.** A broadcast, and FRMW, counts each slave that does not refuse it ([`laws::broadcasts_count`]); a
//! read or a write by station address is answered by one slave ([`laws::stations_answer`]; ETG.1000.4, section 5.4).
//!
//! **The replies to the script.** Every frame of the script is mindful ([`laws::frames_are_mindful`]). So over slaves
//! at their positions it comes back with the working counters that the master expects
//! ([`laws::counters_are_expected`]), and Identify brings what the slave is ([`laws::slaves_are_identified`]). Such a
//! reply is not refused ([`laws::replies_are_accepted`]). Up to here no file and no run is known.
//!
//! **The run of a legal file.** Its slaves begin at their positions, and what they tell of themselves is judged well
//! ([`laws::slaves_begin`]); those that measure, and the clocks, are the file's ([`laws::kinds_are_told`]). So a
//! phase is refused only where no try of a step came back ([`laws::errors_are_losses`]), and after a commissioning
//! that ends with Ok the master keeps a delay for each clock, and for no other slave
//! ([`laws::commissioning_tells_all`]).
//!
//! **Its SYNC signals.** A unit is armed by a write of its activation (0x0981), with SYNC1 where bit 2 is set. The
//! script writes it to single slaves, and that bit only where it is planned ([`laws::activations_are_planned`]). So
//! each edge that is kept is of a signal that its slave has by the file ([`laws::signals_are_those_of_the_file`]).
#![tactic(auto)]

pub mod laws;
