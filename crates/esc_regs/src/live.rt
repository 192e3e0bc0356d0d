/// What a slave shows at an instant in place of what it holds, in ns; None: what it holds. A clock that
/// does not have 64 bits shows the lower half alone.
#[derive(Clone, Copy, Debug, PartialEq, Eq)]
pub struct Live {
    /// The system time, at 0x0910.
    pub system_time: Option<u64>,
    /// The time of the next SYNC0 signal, at 0x0990.
    pub next_due: Option<u64>,
}
