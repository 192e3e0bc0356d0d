//! What a slave does for a datagram, by its command (ETG.1000.4, section 5.4).

ghost use Rattle.std.specs.Prelude.{◌≡◌};
ghost use Rattle.frame_pass.specs.DatagramTable.{doing_by, raises_adp, merges, reads, writes, gain};
ghost use Rattle.wire_sim.specs.Seen.{doing_seen};

use ecat_frame::Command;

/// What a slave does for a datagram.
#[derive(Clone, Copy, PartialEq, Eq)]
pub(crate) enum Doing {
    /// It passes the datagram on.
    Passes,
    Reads,
    Writes,
    /// It reads, and then writes what the datagram brought.
    ReadsWrites,
}

impl Doing {
    /// What a command asks of a slave, by whether the ADP is 0 where it arrives, and whether it is the slave's
    /// station address.
    #[tactic(auto, unfolding(frame_pass::specs::DatagramTable::doing_by))]
    pub(crate) fn by(command: Command, is_zero: bool, is_own: bool) -> Doing
        ensures { doing_seen result ≡ doing_by command is_zero is_own }
    {
        match command {
            Command::Brd => Doing::Reads,
            Command::Bwr => Doing::Writes,
            Command::Brw => Doing::ReadsWrites,
            Command::Aprd if is_zero => Doing::Reads,
            Command::Apwr if is_zero => Doing::Writes,
            Command::Aprw if is_zero => Doing::ReadsWrites,
            Command::Armw if is_zero => Doing::Reads,
            Command::Fprd if is_own => Doing::Reads,
            Command::Fpwr if is_own => Doing::Writes,
            Command::Fprw if is_own => Doing::ReadsWrites,
            Command::Frmw if is_own => Doing::Reads,
            Command::Armw | Command::Frmw => Doing::Writes,
            _ => Doing::Passes,
        }
    }

    pub(crate) fn reads(self) -> bool
        ensures { result ≡ reads (doing_seen self) }
    {
        matches!(self, Doing::Reads | Doing::ReadsWrites)
    }

    pub(crate) fn writes(self) -> bool
        ensures { result ≡ writes (doing_seen self) }
    {
        matches!(self, Doing::Writes | Doing::ReadsWrites)
    }

    /// What the working counter gains.
    pub(crate) fn gain(self) -> u16
        ensures { result ≡ gain (doing_seen self) }
    {
        match self {
            Doing::Passes => 0,
            Doing::Reads | Doing::Writes => 1,
            Doing::ReadsWrites => 3,
        }
    }
}

/// Whether every slave raises the ADP.
#[tactic(auto, unfolding(frame_pass::specs::DatagramTable::raises_adp))]
pub(crate) fn raises_adp(command: Command) -> bool
    ensures { result ≡ raises_adp command }
{
    matches!(
        command,
        Command::Aprd
            | Command::Apwr
            | Command::Aprw
            | Command::Brd
            | Command::Bwr
            | Command::Brw
            | Command::Armw
    )
}

/// Whether what is read is added to the data bit by bit.
#[tactic(auto, unfolding(frame_pass::specs::DatagramTable::merges))]
pub(crate) fn merges(command: Command) -> bool
    ensures { result ≡ merges command }
{
    matches!(command, Command::Brd | Command::Brw)
}
