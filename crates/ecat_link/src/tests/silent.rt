ghost use Rattle.std.specs.Prelude.{None};

use crate::{Link, Lost};
use ecat_frame::Frame;

/// A link that loses every frame, and tells nothing of a segment.
#[derive(Drop)]
pub(super) struct SilentLink {
    pub(super) lost: u64,
}

impl Link for SilentLink {
    type State = ();

    ghost lost = { λ s. s.lost };

    ghost state = { λ _. None };

    ghost step = { λ s _ _. (s, None) };

    fn exchange(&mut self, _wait_ns: u64, frame: &mut Frame) -> Result<(), Lost> {
        self.lost = self.lost.saturating_add(1);
        frame.in_grammar();
        Err(Lost)
    }
}
