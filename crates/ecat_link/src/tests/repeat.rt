ghost use Rattle.std.specs.Prelude.{◌≡◌, ℕ, nat_lt, if◌then◌else◌, List, [], length};
ghost use Rattle.ecat_link.specs.Exchanges.{Exchange, lost_among};
ghost use Rattle.ecat_link.specs.RoseBy.{RoseBy};
ghost use Rattle.ecat_link.specs.Serves.{Next, Send, End, Serves};

use crate::{Link, Lost};
use ecat_frame::Frame;

/// Sends a frame `times` times, and answers how often it was lost.
pub(super) fn repeat<L: Link>(link: &mut L, wait_ns: u64, frame: &Frame, times: u32) -> u32
    ensures serves { let next : List Exchange → Next ℕ =
        λ es. if nat_lt (length es) times then Send wait_ns frame.now else End (lost_among es) in
        Serves L.step next (λ before. before ≡ []) (L.state link.old) (L.state link.new) (λ after. next after ≡ End result) }
    ensures cause { RoseBy result (L.lost link.old) (L.lost link.new) }
{
    let mut lost = 0;
    for _sent in 0..times {
        let mut frame = *frame;
        match link.exchange(wait_ns, &mut frame) {
            Ok(()) => {}
            Err(Lost) => lost += 1,
        }
    }
    lost
}
