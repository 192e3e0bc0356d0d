//! Why a file is no legal segment: the way from one bad value to the line that `dc` prints.
//!
//! ```text
//!  Key -> RowFault -> SlaveFault -> KeyPath -> ShapeError -+-> SegError -+-> SegFault -> Outcome::BadSegment -+-> line
//!                              TreeError -> ShapeTree -----+             |                                    |
//!                  checks of clocks, times and frames -----+             +-> BadText, NoMemory -> Outcome ----+
//! ```
//!
//! On the right is what each step says of `examples/refused/missing-port.json`, where slave 1 has a parent and no port:
//!
//! ```text
//!  Key         segment_shape/src/value_at.rt, slave_row.rt   Port: the value is missing, or of a wrong type or range
//!  RowFault    segment_shape/src/row_fault.rt                At(Port); Row: the row is no object, or has an unknown key,
//!              segment_shape/src/known_keys.rt               which is looked at last: a key that is missing goes first
//!  SlaveFault  segment_shape/src/slave_fault.rt              Own(At(Port)); Rate: of a row of the slave's rates
//!  KeyPath     segment_shape/src/key_path.rt                 slaves[1].port; keys of the head, and losses, come here at once
//!  ShapeError  segment_shape/src/shape_error.rt, shape.rt    Shape(slaves[1].port); also BadText, Twice and NoMemory
//!  TreeError   cable_tree/src/error.rt, checks.rt            the rows are no tree
//!  ShapeTree   here, by checks.rt                            the same, less NoMemory
//!  checks      clock_checks.rt, time_checks.rt,
//!              frame_checks.rt                               Rate to TooMuch, in the order of `SegError`
//!  SegError    here, by segment.rt                           Shape(slaves[1].port): the first check that fails
//!  SegFault    dc_top/src/seg_fault.rt                       the same, less BadText and NoMemory; its text is the end of the line
//!  Outcome     dc_top/src/outcome.rt                         BadSegment(..): status 4, and the line
//!  line        dc_cli/src/main.rt                            dc: segment: shape slaves[1].port
//! ```

ghost use Rattle.std.specs.Prelude.{◌≡◌};
ghost use Rattle.segment_file.specs.declared.seg_error.SegError.TheVariants.{NoMemory};
ghost use Rattle.segment_file.specs.ErrorOf.{shape_error_of, tree_error_of};

use cable_tree::TreeError;
use segment_shape::{Id, KeyPath, ShapeError};
use std::alloc::AllocError;

/// Why the rows of a file are no tree of slaves. Rows are counted from 0, in the order of the file.
#[derive(Clone, Copy, Debug, PartialEq, Eq)]
pub enum ShapeTree {
    /// There are no rows.
    Empty,
    /// The first row whose parent no row is.
    NoParent(u16),
    /// The second row without a parent.
    TwoRoots(u16),
    /// The first row whose parent and port are those of an earlier row.
    PortTaken(u16),
    /// The first row from which the parents never lead to a root.
    Cycle(u16),
}

/// Why a file is no legal segment: the first check that fails, in this order.
#[derive(Clone, Copy, Debug, PartialEq, Eq)]
pub enum SegError {
    /// The bytes are no JSON text.
    BadText,
    /// The value at this path is missing, of a wrong type or out of its range, does not belong there, or has
    /// a key that is not known.
    Shape(KeyPath),
    /// The id of the first row whose id an earlier row has.
    Twice(Id),
    /// The rows are no tree.
    Tree(ShapeTree),
    /// The first measuring slave in the file that has a period outside 10 ns by more than ppm, or whose
    /// first tick comes after its first period.
    Rate(Id),
    /// No slave is a clock.
    NoReference,
    /// The first slave in frame order that measures and cannot be measured.
    Unmeasurable(Id),
    /// A frame does not come back within a frame period.
    TooSlow,
    /// The clocks need not come together.
    NoLock,
    /// A start may lie too far ahead for a 32-bit clock. All clocks are held to it, whatever their kinds.
    Lead,
    /// More drift frames than `loss_run` are lost in a row, the first time from this one on.
    LossRun(u32),
    /// A run may have more than 100,000 frames or 200,000 edges.
    TooMuch,
    /// Memory was refused.
    NoMemory,
}

impl From<ShapeError> for SegError {
    ghost from_gives = { λ error e. e ≡ shape_error_of error };

    fn from(error: ShapeError) -> SegError {
        match error {
            ShapeError::BadText => SegError::BadText,
            ShapeError::Shape(path) => SegError::Shape(path),
            ShapeError::Twice(id) => SegError::Twice(id),
            ShapeError::NoMemory => SegError::NoMemory,
        }
    }
}

impl From<TreeError> for SegError {
    ghost from_gives = { λ error e. e ≡ tree_error_of error };

    fn from(error: TreeError) -> SegError {
        match error {
            TreeError::Empty => SegError::Tree(ShapeTree::Empty),
            TreeError::NoParent(row) => SegError::Tree(ShapeTree::NoParent(row)),
            TreeError::TwoRoots(row) => SegError::Tree(ShapeTree::TwoRoots(row)),
            TreeError::PortTaken(row) => SegError::Tree(ShapeTree::PortTaken(row)),
            TreeError::Cycle(row) => SegError::Tree(ShapeTree::Cycle(row)),
            TreeError::NoMemory => SegError::NoMemory,
        }
    }
}

impl From<AllocError> for SegError {
    ghost from_gives = { λ _ e. e ≡ NoMemory };

    fn from(_: AllocError) -> SegError {
        SegError::NoMemory
    }
}
