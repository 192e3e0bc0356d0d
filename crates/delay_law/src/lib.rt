//! That in the run of a legal file each measured delay is near the true one. Laws about definitions; there is nothing
//! to run here.
//!
//! A delay is computed from receive times, so the laws follow these from the clocks that show them to the master
//! that is told them. They are read in this order.
//!
//! **One frame.** A segment stays that of its file, whatever frames are sent: the visits, the oscillator and the
//! kind of each slave are those of its row ([`laws::segments_stay`]). A clock that receives no difference counts
//! 10 ns a tick from its start on, so what it shows at an instant is a formula of its row. It goes on so over each
//! frame that does not write the system time (ESC data sheet, 0x0910; [`laws::clocks_stay_at_rest`]). The receive
//! times (0x0900 to 0x090F and 0x0918) change by a Latch alone, and one that comes back leaves in each measuring
//! slave what its clock showed at the visits of that frame ([`laws::receive_times_are_of_the_latch`]).
//!
//! **Commissioning.** No frame of it writes the system time, so at its end no clock has anything to correct, be it
//! refused or not ([`laws::clocks_rest`]). Where it ends with Ok, the slaves hold the receive times of the Latch that
//! came back, whichever tries were lost before and after it, and the master was told these
//! ([`laws::times_of_the_latch`]).
//!
//! **Delays.** The words that such a clock latches are readings of an oscillator at 10 ns a tick, as the bound on
//! delays asks (`dc_delay`; [`laws::clocks_at_rest_latch`], which knows trees and clocks, and no frame). So each
//! measured delay lies within the delay bound of the true one, once commissioning has ended with Ok: then, and at
//! the end of the run, however that ends ([`laws::delays_are_near`]).
#![tactic(auto)]

pub mod laws;
