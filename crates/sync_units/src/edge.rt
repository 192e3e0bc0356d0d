/// One of the two SYNC signals of a slave.
#[derive(Clone, Copy, Debug, PartialEq, Eq)]
pub enum Signal {
    /// The cyclic one.
    Sync0,
    /// The one that follows SYNC0 by a given time.
    Sync1,
}

/// An edge of a signal.
#[derive(Clone, Copy, Debug, PartialEq, Eq)]
pub struct Edge {
    /// The signal that has it.
    pub signal: Signal,
    /// Its number since the unit was armed, from 0.
    pub index: u32,
    /// The true time of its tick, in fs.
    pub time_fs: u64,
}
