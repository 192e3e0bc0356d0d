ghost use Rattle.std.specs.Prelude.{◌≡◌};
ghost use Rattle.segment_shape.specs.KeyNames.{name_of};
ghost use Rattle.segment_shape.specs.Told.{IsAt};
ghost use Rattle.segment_shape.specs.declared.shape_error.ShapeError.TheVariants.{NoMemory};

use crate::id::Id;
use crate::key::Key;
use crate::key_path::{KeyPath, key_path};
use std::alloc::AllocError;

/// Why bytes are no segment file, by the first check that fails.
#[derive(Clone, Copy, Debug, PartialEq, Eq)]
pub enum ShapeError {
    /// They are no JSON text.
    BadText,
    /// The value at this path is missing, of a wrong type or out of its range, or has a key that is
    /// not known.
    Shape(KeyPath),
    /// Two rows have this id; it is that of the first row whose id an earlier one has.
    Twice(Id),
    /// Memory was refused.
    NoMemory,
}

impl From<Key> for ShapeError {
    ghost from_gives = { λ key e. IsAt (name_of key) e };

    fn from(key: Key) -> ShapeError {
        ShapeError::Shape(key_path(key))
    }
}

impl From<AllocError> for ShapeError {
    ghost from_gives = { λ _ e. e ≡ NoMemory };

    fn from(_: AllocError) -> ShapeError {
        ShapeError::NoMemory
    }
}
