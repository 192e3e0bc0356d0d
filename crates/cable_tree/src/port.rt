/// A port of a slave that another slave may hang at. Port 0 is the one towards the master.
#[derive(Clone, Copy, Debug, PartialEq, Eq)]
pub enum Port {
    /// Port 1.
    P1,
    /// Port 2.
    P2,
    /// Port 3.
    P3,
}

/// Where a slave hangs: its parent's row, and the port there.
#[derive(Clone, Copy, Debug, PartialEq, Eq)]
pub struct Above {
    /// The row of the parent.
    pub row: u16,
    /// The port of the parent.
    pub port: Port,
}
