//! The clocks of a run after commissioning: what they hold, what they show, and what drift frames bring them. Laws
//! about definitions; there is nothing to run here.
//!
//! They speak of the run of any legal file, refused later or not, and are read in this order.
//!
//! **What stays.** Every frame after commissioning is a drift frame. It writes the system time (ESC data sheet,
//! 0x0910), and the registers that arm a SYNC unit, and nothing else ([`laws::drift_frames_write_little`]). So
//! offsets, delays, speeds and receive times stay as commissioning left them ([`laws::registers_stay`]), and each
//! clock takes as many ticks to a correction as then ([`laws::corrections_stay`]).
//!
//! **What commissioning leaves.** Set writes a clock its offset and its delay (0x0920 and 0x0928), and no other frame
//! of a master writes these. So where commissioning ends with Ok, each clock holds what the master has computed from
//! the receive times that it was told, and every other slave 0 and 0, to the end of the run
//! ([`laws::offsets_are_set`]). The offset is the epoch and the delay, less what the clock showed when the Latch that
//! came back arrived ([`laws::offsets_come_of_readings`]). Until a frame brings the clock anything, its system time
//! is therefore the epoch, and 10 ns for each of its ticks since that arrival
//! ([`laws::system_times_begin_at_the_epoch`]).
//!
//! **How it leaves them.** The reference of a file, the first of its clocks in frame order, is the one that the master
//! finds, and has no delay ([`laws::references_are_told`]). After the Latch that came back at most three frames follow
//! for each slave that measures, and three for each clock ([`laws::few_follow_the_latch`]). And each clock takes as
//! many ticks to a correction as the file's speed says, to the end of the run ([`laws::speeds_are_set`]).
//!
//! **What drift frames bring.** Each drift frame that comes to a clock which is not the reference brings it the
//! difference of two system times: its own and the reference's, each at the frame's arrival there. It brings no
//! other slave anything, and of `loss_run` + 1 in a row one comes to each such clock
//! ([`laws::drift_frames_bring_times`]).
//!
//! **Where drift frames lead.** There is one state of the segment behind each number of drift frames that a run sends: the
//! next frame finds it, and makes the next state of it, and the last is that in which the run ends
//! ([`laws::drift_frames_follow`]). In each of them the slaves are those of the file, each frame so far left at its period,
//! and each clock holds the offset and the delay that commissioning left, and corrects by the file's speed
//! ([`laws::states_stand`]).
//! Its told clock is that of its history since the start of the file ([`laws::clocks_have_histories`]). So its local
//! copy is at any time, as a word, the epoch, what the clock has counted by that history since the Latch that came back
//! arrived at it, and its delay; of the reference that is the epoch and 10 ns for each tick
//! ([`laws::copies_are_whole`]).
//!
//! **How near the clocks come, and stay.** The time of a clock is at any moment that of the reference at the last receipt, 10 ns
//! for each of its own ticks since, and what is left of the difference that it then received; and each difference is smaller than
//! the one before by what was corrected meanwhile, less what has come up anew ([`laws::clocks_are_drawn_in_runs`]). So after K
//! compensation frames every difference is at most Q of `loss_run` + 1 frame periods ([`laws::differences_are_locked`]), and from the end
//! of settling on each local copy is within X of that of the reference ([`laws::copies_are_near`]).
//!
//! A law on the edges of a run goes into the crate above this one, `edge_law`.
#![tactic(auto)]

pub mod laws;
