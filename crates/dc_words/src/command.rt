/// What the words of the command line ask for.
#[derive(Clone, Copy, Debug, PartialEq, Eq)]
pub enum Command {
    /// `run`, with the edge rows where `--edges` was given.
    Run { edges: bool },
    /// `delays`
    Delays,
    /// `check`
    Check,
    /// `show`
    Show,
    /// `gen N SEED`: the number of slaves, from 1 to 256, and the seed.
    Gen { slaves: u16, seed: u64 },
    /// `drill N SEED`: the number of slaves, from 1 to 256, and the seed.
    Drill { slaves: u16, seed: u64 },
    /// `migrate`
    Migrate,
    /// `trace`
    Trace,
    /// `audit`
    Audit,
    /// `again`
    Again,
    /// `latch P T`: the position of a slave, from 0 to 255, and the true time of an event (fs).
    Latch { position: u16, time_fs: u64 },
    /// `rate`
    Rate,
}
