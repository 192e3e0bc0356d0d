/// Why statuses list no tree, with the position of the slave, counted from 0.
#[derive(Clone, Copy, Debug, PartialEq, Eq)]
pub enum TopologyError {
    /// The first status at which port 0 is not connected, or another port is neither connected nor
    /// closed.
    BadStatus(u16),
    /// The slaves before this one are a tree without a connected port that is free for it.
    Surplus(u16),
    /// A connected port has no slave, or there are no statuses.
    Missing,
}
