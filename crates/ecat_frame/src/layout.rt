//! The numbers of a frame's layout (ETG.1000.4, sections 5.3 and 5.4).

/// The most bytes that a frame has.
pub const MAX_LENGTH: usize = 1514;

/// The least bytes that Ethernet carries. A shorter frame is padded to them.
pub(crate) const MIN_LENGTH: usize = 60;

/// Where the header word of a frame stands.
pub(crate) const HEADER: usize = 14;

/// Where the first datagram of a frame begins.
pub(crate) const FIRST: usize = 16;

/// The most bytes that the datagrams of a frame have.
pub(crate) const MAX_DATAGRAMS: usize = MAX_LENGTH - FIRST;

/// The bits of the header word or of a length word that are a length.
pub(crate) const LENGTH_BITS: u16 = 0x07FF;

/// What the type counts for in the header word: it is its bits 12 to 15.
pub(crate) const TYPE_UNIT: u16 = 0x1000;

/// The type of a header word that datagrams follow.
pub(crate) const DATAGRAMS: u16 = 1;

/// The number of the last command.
pub(crate) const LAST_COMMAND: u16 = 14;

// The fields of a datagram, from its first byte on.
pub(crate) const INDEX: usize = 1;

pub(crate) const ADP: usize = 2;

pub(crate) const ADO: usize = 4;

pub(crate) const LENGTH_WORD: usize = 6;

pub(crate) const IRQ: usize = 8;

pub(crate) const PAYLOAD: usize = 10;

/// The bytes of a datagram beside its data: ten before it, and the working counter.
pub(crate) const OVERHEAD: usize = 12;

/// The bit of a length word that says that the frame has circulated once.
pub(crate) const CIRCULATING: u16 = 0x4000;

/// The bit of a length word that says that another datagram follows.
pub(crate) const MORE: u16 = 0x8000;
