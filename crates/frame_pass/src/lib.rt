//! What one frame does to a segment of slaves: definitions, and laws about them. There is nothing to run here.
//!
//! `specs/` reads from the bottom up: what a slave keeps (`SlaveState`) and shows (`LiveRegisters`), what a write
//! does to it (`WriteEffects`), what it does for a datagram (`DatagramTable`, `DatagramAtSlave`; ETG.1000.4,
//! section 5.4), what time does to it (`Advancing`), how a frame goes through the slaves (`FramePass`, which draws
//! its times), and what one sending makes of a segment (`SegmentState`). The wire in memory follows these
//! definitions, and so do the laws on runs. The other files have the words of the laws, which are read in this order.
//!
//! **A sending.** What a slave is never changes ([`laws::fixed_parts`]), and time never goes back
//! ([`laws::times_in_order`]). A frame comes back exactly where it is not listed as lost
//! ([`laws::frames_come_back`]). It passes the slaves one after another, each as those before it leave it
//! ([`laws::slaves_in_turn`]), so the slave at each position is known after a sending
//! ([`laws::slaves_at_positions`]). With equal waits sending s leaves at s waits ([`laws::sending_times`]). What
//! comes back is what was sent, but for ADP, data and working counter ([`laws::replies`]).
//!
//! **Registers of one slave.** A datagram that is written leaves its number there ([`laws::stored_numbers`]), and one
//! that reads brings the number that the slave shows ([`laws::read_numbers`]). Nothing but datagrams changes the
//! registers that a slave does not set itself ([`laws::plain_registers`]).
//!
//! **A datagram on its way.** What becomes of its head, its counter and its data over h slaves
//! ([`laws::datagrams_on_their_way`]); what the counter gains ([`laws::counters`]); what one slave makes of it
//! that is addressed by its station address ([`laws::by_station`]); and that frames which write elsewhere leave a
//! place, as can be seen when they are sent ([`laws::frames_aside`]).
//!
//! **A clock.** It is the clock of its history of differences and resets ([`laws::clocks_by_history`]). Its
//! system time follows from it ([`laws::system_times`]), and so do the receive times after a frame that latches (ESC
//! data sheet, 0x0900; [`laws::receive_times`]). Where no frame writes the system time, a clock with nothing left to
//! correct goes on so ([`laws::clocks_at_rest`]).
//!
//! **A drift frame.** FRMW of the system time (0x0910) at one slave ([`laws::drift_at_slave`]), what a frame
//! that begins with it brings a clock ([`laws::drift_frames`]), and that it carries the time of the addressed
//! slave ([`laws::drift_is_carried`]).
//!
//! **A SYNC unit.** A write of the activation (0x0981) arms it or disarms it ([`laws::arming`]). While no frame writes
//! the activation again, its edges are those of calls in turn ([`laws::units_by_calls`]); while none writes the
//! offset, the local copy at their ticks is that of the clock's history ([`laws::copies_by_history`]).
#![tactic(auto)]

pub mod laws;
