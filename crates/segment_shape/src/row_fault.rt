ghost use Rattle.std.specs.Prelude.{◌≡◌};
ghost use Rattle.segment_shape.specs.declared.row_fault.RowFault.TheVariants.{At};

use crate::key::Key;

/// What is wrong with a row.
#[derive(Clone, Copy)]
pub(crate) enum RowFault {
    /// It is no object, or has a key that is not known.
    Row,
    /// The value at this key.
    At(Key),
}

impl From<Key> for RowFault {
    ghost from_gives = { λ key fault. fault ≡ At key };

    fn from(key: Key) -> RowFault {
        RowFault::At(key)
    }
}
