// A frame that is sent until it comes back, at most three times.
ghost use Rattle.std.specs.Prelude.{◌≡◌, ◌≤◌, ℕ, None};
ghost use Rattle.ecat_frame.specs.FrameGrammar.{IsFrame};
ghost use Rattle.ecat_link.specs.Exchanges.{Runs};
ghost use Rattle.ecat_link.specs.RoseBy.{RoseBy};
ghost use Rattle.ecat_link.specs.Tries.{AreTries, tries};

use crate::{Link, Lost};
use ecat_frame::Frame;

/// Sends a frame after a wait, up to three times, and answers what came back. None where all three are lost.
/// It says nothing of the reply: a caller judges it.
pub fn try_frame<L: Link>(link: &mut L, wait_ns: u64, sent: &Frame) -> Option<Frame>
    ensures tried { (lost : ℕ) × AreTries lost result
        × Runs L.step (L.state link.old) (tries wait_ns sent.now lost result) (L.state link.new) }
    ensures later { L.lost link.old ≤ L.lost link.new }
    ensures lost { result ≡ None → RoseBy 3 (L.lost link.old) (L.lost link.new) }
    ensures valid { IsFrame sent.now }
{
    sent.in_grammar();
    for _try in 0..3u8 {
        let mut frame = *sent;
        match link.exchange(wait_ns, &mut frame) {
            Ok(()) => return Some(frame),
            Err(Lost) => {}
        }
    }
    None
}
