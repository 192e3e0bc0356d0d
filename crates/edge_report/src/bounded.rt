use segment_bounds::Signal;

/// A signal with X of its clock, which is computed once for all its pairs.
#[derive(Clone, Copy, Debug)]
pub(crate) struct Bounded {
    pub(crate) signal: Signal,
    pub(crate) bound_fs: u128,
}
