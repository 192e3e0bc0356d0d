use segment_file::{Id, KeyPath, ShapeTree};
use std::fmt;

/// Why an input is no legal segment file: the first check that it fails, in this order.
#[derive(Clone, Copy, Debug, PartialEq, Eq)]
pub enum SegFault {
    /// The value at this path is missing, of a wrong type or out of its range, stands at a key that does not belong there, or has a
    /// key that is not known; it is a list with too many entries, a loss that is listed twice, or a tick that is not above the one
    /// before.
    Shape(KeyPath),
    /// The id of the first row whose id an earlier row has.
    Twice(Id),
    /// The rows are no tree.
    Tree(ShapeTree),
    /// The first measuring slave in the file that has a period outside 10 ns by more than ppm, or whose first tick comes after its first
    /// period.
    Rate(Id),
    /// No slave is a clock.
    NoReference,
    /// The first slave in frame order that measures and cannot be measured.
    Unmeasurable(Id),
    /// A frame does not come back in less than a frame period.
    TooSlow,
    /// The clocks need not come together.
    NoLock,
    /// A start may lie too far ahead for a 32-bit clock, whatever the kinds of the clocks.
    Lead,
    /// More drift frames than `loss_run` are lost in a row, the first time from this one on.
    LossRun(u32),
    /// A run may have more than 100,000 frames or 200,000 edges.
    TooMuch,
}

impl fmt::Display for SegFault {
    ghost use Rattle.std.specs.Prelude.{Some};
    ghost use Rattle.dc_top.specs.SegFaults.{segment_text};

    ghost output = { λ fault. Some (segment_text fault) };

    fn fmt<W: fmt::Write>(&self, f: &mut fmt::Formatter<W>) -> fmt::Result {
        match self {
            SegFault::Shape(path) => write!(f, "shape {path}"),
            SegFault::Twice(id) => write!(f, "twice {id}"),
            SegFault::Tree(ShapeTree::Empty) => write!(f, "tree empty"),
            SegFault::Tree(ShapeTree::NoParent(row)) => write!(f, "tree no parent {row}"),
            SegFault::Tree(ShapeTree::TwoRoots(row)) => write!(f, "tree two roots {row}"),
            SegFault::Tree(ShapeTree::PortTaken(row)) => write!(f, "tree port taken {row}"),
            SegFault::Tree(ShapeTree::Cycle(row)) => write!(f, "tree cycle {row}"),
            SegFault::Rate(id) => write!(f, "rate {id}"),
            SegFault::NoReference => write!(f, "no reference"),
            SegFault::Unmeasurable(id) => write!(f, "unmeasurable {id}"),
            SegFault::TooSlow => write!(f, "too slow"),
            SegFault::NoLock => write!(f, "no lock"),
            SegFault::Lead => write!(f, "lead"),
            SegFault::LossRun(number) => write!(f, "loss run {number}"),
            SegFault::TooMuch => write!(f, "too much"),
        }
    }
}
