use sync_units::Edge;

/// An edge of a SYNC signal, with the slave that raised it.
#[derive(Clone, Copy, Debug, PartialEq, Eq)]
pub struct SlaveEdge {
    /// The place of the slave in frame order, from 0.
    pub position: u16,
    /// Its signal, index and true time (fs).
    pub edge: Edge,
}
