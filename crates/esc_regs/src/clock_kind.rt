ghost use Rattle.std.specs.Prelude.{◌≡◌};
ghost use Rattle.esc_regs.specs.Kinds.{measures, has_clock, greatest_start};

/// What a slave has of distributed clocks.
#[derive(Clone, Copy, Debug, PartialEq, Eq)]
pub enum ClockKind {
    /// Nothing: it refuses every register of distributed clocks.
    None,
    /// A clock of 32 bits.
    C32,
    /// A clock of 64 bits.
    C64,
    /// Receive times of 32 bits alone, and no clock behind them that could be set.
    R32,
}

/// Whether a slave of this kind takes receive times.
pub fn measures(kind: ClockKind) -> bool
    ensures { result ≡ measures kind }
{
    match kind {
        ClockKind::None => false,
        ClockKind::C32 | ClockKind::C64 | ClockKind::R32 => true,
    }
}

/// Whether a slave of this kind is a clock: it has a system time.
pub fn has_clock(kind: ClockKind) -> bool
    ensures { result ≡ has_clock kind }
{
    match kind {
        ClockKind::None | ClockKind::R32 => false,
        ClockKind::C32 | ClockKind::C64 => true,
    }
}

/// The greatest local time that a slave of this kind has room for; of one without a local time, that of 32 bits.
pub fn greatest_start(kind: ClockKind) -> u64
    ensures { result ≡ greatest_start kind }
{
    match kind {
        ClockKind::None | ClockKind::C32 | ClockKind::R32 => 4_294_967_295,
        ClockKind::C64 => u64::MAX,
    }
}
