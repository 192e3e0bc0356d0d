ghost use Rattle.std.specs.Prelude.{◌≡◌};
ghost use Rattle.segment_shape.specs.declared.row_fault.RowFault.TheVariants.{At};
ghost use Rattle.segment_shape.specs.declared.slave_fault.SlaveFault.TheVariants.{Own};

use crate::key::Key;
use crate::row_fault::RowFault;

/// What is wrong with a slave row.
#[derive(Clone, Copy)]
pub(crate) enum SlaveFault {
    /// The row itself.
    Own(RowFault),
    /// The rate row at this place of its list.
    Rate(u8, RowFault),
}

impl From<Key> for SlaveFault {
    ghost from_gives = { λ key fault. fault ≡ Own (At key) };

    fn from(key: Key) -> SlaveFault {
        SlaveFault::Own(RowFault::At(key))
    }
}
