//! How many frames the run of a legal file sends, which of them are lost, and how each phase ends: by the file
//! alone. Laws about definitions; there is nothing to run here.
//!
//! A run is a script (`master_script`) over a segment (`frame_pass`) that loses the frames that its file lists by
//! their numbers. The laws are read in this order.
//!
//! **The numbers of a segment.** Script and segment count alike, all frames and those of each kind, so frame s
//! leaves at s frame periods ([`laws::segments_keep_step`]), and a frame that the script numbers is lost exactly
//! where the file lists that number. Of `loss_run` + 1 drift frames in a row one comes back
//! ([`laws::drift_frames_come`]). Of the contents of frames nothing is known here but whether they begin with FRMW.
//!
//! **The steps and their tries.** A file has as many measuring slaves and clocks in frame order as rows of them
//! ([`laws::positions_are_counted`]), so the steps of commissioning and of arming are counted
//! ([`laws::steps_are_counted`]). An exchange of a step uses one to three numbers ([`laws::exchanges_use_numbers`]).
//! Which step a script has come to, and at which it gives up, follows from the numbers that are lost
//! ([`laws::commissioning_follows_losses`], [`laws::settling_follows_losses`], [`laws::arming_follows_losses`]);
//! these three know no file, no segment and no instant, and say nothing of a refusal for another reason.
//!
//! **How a run ends.** The list of losses alone tells how each phase answers, and the whole run
//! ([`laws::losses_tell_the_answer`]): slaves are honest (`honest_slaves`), so nothing else can refuse it. Where
//! nothing is listed, no step loses its tries ([`laws::runs_without_losses`]). The master keeps a delay for each
//! clock, and for no other slave, to the end of a run that ends with Ok ([`laws::delays_stay`]).
//!
//! **How many frames it sends.** Each phase that ends with Ok has sent so many ([`laws::phases_send_so_many`]). The
//! frames of commissioning are commission frames, all later ones drift frames, each kind numbered from 1
//! ([`laws::frames_are_numbered`]). A run that ends with Ok has sent a number of frames that follows from the file and
//! from what was lost ([`laws::transmissions_are_told`]), and no run sends more than 100,000
//! ([`laws::transmissions_are_few`]). What the master counts is what was sent ([`laws::masters_count_transmissions`]).
#![tactic(auto)]

pub mod laws;
