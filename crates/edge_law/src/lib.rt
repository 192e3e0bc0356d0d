//! The SYNC units and the edges of a run. Laws about definitions; there is nothing to run here.
//!
//! They speak of the run of a legal file that is not refused, and are read in this order.
//!
//! **When the units start.** The time of the reference that a master knows after settling is whole: what the reference has
//! counted, from the epoch on, until the last settle frame that came back arrived there, and that is one of the last
//! `loss_run` + 1 of them. The start is the first whole number of cycles after that time and the lead
//! ([`laws::reference_times_are_whole`]).
//!
//! **What arming leaves.** After settling a master arms the units of the clocks, one after another. Each frame of Arm
//! carries the start, the cycle and the SYNC1 time of one clock (ESC data sheet, 0x0990, 0x09A0, 0x09A4), and then its
//! activation (0x0981). It is sent again until it comes back, and a try that was lost may have armed the unit before.
//! The try that came back armed it last: with the start that the master has computed, the shift, the cycle and the
//! SYNC1 time of the file, and no edge kept. From its arrival on, the unit and the kept edges are those of the unit's
//! calls, and the copies at their ticks are those of the clock's history ([`laws::units_are_armed`]).
//!
//! **When the edges are.** Each signal raises an edge of each index below `cycles`, after the last arming and before the
//! run ends, at a tick at which the copy of its clock, as a whole number, has come to what is due
//! ([`laws::edges_are_raised`]). As the copies of the clocks are near that of the reference, two edges of one index are as
//! far apart as their shifts say, but for at most the window W of their signals ([`laws::edges_are_in_the_window`]).
#![tactic(auto)]

pub mod laws;
