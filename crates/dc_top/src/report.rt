/// What is written of a run.
#[derive(Clone, Copy, Debug)]
pub enum Report {
    /// The table of delays, after commissioning alone.
    Delays,
    /// The report of a whole run, with the rows of its edges where they are asked for.
    Run { edges: bool },
    /// The report of a whole run without the lines of the slaves.
    Drill,
}
