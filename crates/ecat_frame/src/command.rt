ghost use Rattle.std.specs.Prelude.{◌≡◌, slice_get};
ghost use Rattle.ecat_frame.specs.Commands.{code_of, commands};

/// What a datagram asks of the slaves that it passes (ETG.1000.4, section 5.4). Each has its number
/// there, from 0 in this order.
#[derive(Clone, Copy, Debug, PartialEq, Eq)]
pub enum Command {
    /// No operation.
    Nop,
    /// Auto-increment address: read.
    Aprd,
    /// Auto-increment address: write.
    Apwr,
    /// Auto-increment address: read and write.
    Aprw,
    /// Configured address: read.
    Fprd,
    /// Configured address: write.
    Fpwr,
    /// Configured address: read and write.
    Fprw,
    /// Broadcast: read.
    Brd,
    /// Broadcast: write.
    Bwr,
    /// Broadcast: read and write.
    Brw,
    /// Logical address: read.
    Lrd,
    /// Logical address: write.
    Lwr,
    /// Logical address: read and write.
    Lrw,
    /// Auto-increment address: one slave reads, all others write.
    Armw,
    /// Configured address: one slave reads, all others write.
    Frmw,
}

const COMMANDS: [Command; 15] = [
    Command::Nop,
    Command::Aprd,
    Command::Apwr,
    Command::Aprw,
    Command::Fprd,
    Command::Fpwr,
    Command::Fprw,
    Command::Brd,
    Command::Bwr,
    Command::Brw,
    Command::Lrd,
    Command::Lwr,
    Command::Lrw,
    Command::Armw,
    Command::Frmw,
];

impl Command {
    /// The number that stands in a datagram.
    pub(crate) fn code(self) -> u8
        ensures { result ≡ code_of self }
    {
        self as u8
    }

    /// The command of this number; None above 14.
    pub(crate) fn from_code(code: u8) -> Option<Command>
        ensures { result ≡ slice_get commands code }
    {
        COMMANDS.get(usize::from(code)).copied()
    }
}
