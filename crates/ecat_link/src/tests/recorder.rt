use crate::{Link, Lost};
use ecat_frame::Frame;

/// A link around another one, which keeps the waits that were asked of it.
#[derive(Drop)]
pub(super) struct Recorder<L> {
    pub(super) inner: L,
    pub(super) waits_ns: Vec<u64>,
}

impl<L: Link> Link for Recorder<L> {
    type State = L::State;

    ghost lost = { λ s. L.lost s.inner };

    ghost state = { λ s. L.state s.inner };

    ghost step = { L.step };

    fn exchange(&mut self, wait_ns: u64, frame: &mut Frame) -> Result<(), Lost> {
        let _ = self.waits_ns.push(wait_ns);
        self.inner.exchange(wait_ns, frame)
    }
}
