/// How long a slave keeps a frame, in ns.
#[derive(Clone, Copy, Debug, PartialEq, Eq)]
pub struct Kind {
    /// From port 0 in to the first port out.
    pub tp_ns: u16,
    /// At every later forwarding.
    pub tf_ns: u16,
}
