use dc_delay::Kind;
use master_script::SyncPlan;

/// What a master is given. Both lists have an entry for each slave, in frame order.
#[derive(Debug, Drop)]
pub struct Config {
    /// How long each slave keeps a frame.
    pub kinds: Vec<Kind>,
    /// What the SYNC signals of each slave are to do.
    pub plans: Vec<SyncPlan>,
    /// The frame period, in ns.
    pub frame_ns: u32,
    /// The start of the speed counter (ESC data sheet, 0x0930).
    pub speed: u16,
    /// How many drift frames may be lost in a row.
    pub loss_run: u8,
    /// The system time that the receive time of the latch is to become, in ns.
    pub epoch_ns: u64,
    /// How many drift frames bring the clocks together.
    pub lock_in: u32,
    /// The SYNC0 cycle, in ns.
    pub cycle_ns: u32,
}
