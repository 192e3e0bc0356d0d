use wrap_time::T32;

/// Whether a slave did what a datagram asked; a refused access leaves everything as it was.
#[derive(Clone, Copy, Debug, PartialEq, Eq)]
pub enum Access {
    Done,
    Refused,
}

/// What a write answers, and what the slave has to carry out for it, in this order. A refused write
/// tells nothing.
#[derive(Clone, Copy, Debug, PartialEq, Eq)]
pub struct Written {
    pub access: Access,
    /// Latch the receive times.
    pub latched: bool,
    /// Compare this system time with the slave's own.
    pub received: Option<T32>,
    /// Reset the difference, and correct the clock by this rate from now on: the speed counter's
    /// start divided by 64.
    pub rate: Option<u8>,
    /// Arm or disarm the sync signals by this activation byte.
    pub activation: Option<u8>,
}

impl Written {
    /// What a refused write tells.
    pub(crate) const REFUSED: Written = Written {
        access: Access::Refused,
        latched: false,
        received: None,
        rate: None,
        activation: None,
    };
}
