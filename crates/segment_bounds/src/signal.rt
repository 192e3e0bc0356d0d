/// A SYNC signal of a clock.
#[derive(Clone, Copy, Debug, Default)]
pub struct Signal {
    /// The row of the clock.
    pub row: u16,
    /// The total shift against the cycle (ns): the slave's shift for SYNC0, and that with the SYNC1 time
    /// on top for SYNC1.
    pub shift_ns: u32,
}
