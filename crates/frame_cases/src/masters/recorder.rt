use ecat_frame::Frame;
use ecat_link::{Link, Lost};

/// A link around another one, which keeps what was sent over it, and after which waits.
#[derive(Drop)]
pub(crate) struct Recorder<L> {
    pub(crate) inner: L,
    pub(crate) sent: Vec<(u64, Frame)>,
}

impl<L: Link> Link for Recorder<L> {
    type State = L::State;

    ghost lost = { λ s. L.lost s.inner };

    ghost state = { λ s. L.state s.inner };

    ghost step = { L.step };

    // Where memory is wanting, a frame is not kept, and the answer shows it.
    fn exchange(&mut self, wait_ns: u64, frame: &mut Frame) -> Result<(), Lost> {
        let _ = self.sent.push((wait_ns, *frame));
        self.inner.exchange(wait_ns, frame)
    }
}
