/// The kinds of frames, each of which is numbered on its own.
#[derive(Clone, Copy, Debug, PartialEq, Eq)]
pub enum Phase {
    /// Frames whose first datagram is no FRMW.
    Commission,
    /// Frames whose first datagram is a FRMW: those that compensate the drift.
    Drift,
}

/// A frame that is listed as lost.
#[derive(Clone, Copy, Debug, PartialEq, Eq)]
pub struct LossRow {
    pub phase: Phase,
    /// Of the frame in its phase, 1 to 100,000.
    pub number: u32,
    /// How many slaves the frame reached before, at most as many as there are.
    pub after: u16,
}
