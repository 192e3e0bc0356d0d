use segment_file::{SegError, ShapeTree};
use segment_shape::ShapeError;
use std::alloc::AllocError;

/// Writes a refusal of a shape, as the program does.
pub(crate) fn shape_told(error: &ShapeError, told: &mut String) -> Result<(), AllocError> {
    match error {
        ShapeError::BadText => told.push_str("not JSON"),
        ShapeError::Shape(path) => write!(told, "shape {path}"),
        ShapeError::Twice(id) => write!(told, "twice {id}"),
        ShapeError::NoMemory => told.push_str("no memory"),
    }
}

/// Writes a refusal of a segment.
pub(crate) fn segment_told(error: &SegError, told: &mut String) -> Result<(), AllocError> {
    match error {
        SegError::BadText => told.push_str("not JSON"),
        SegError::Shape(path) => write!(told, "shape {path}"),
        SegError::Twice(id) => write!(told, "twice {id}"),
        SegError::Tree(tree) => tree_told(*tree, told),
        SegError::Rate(id) => write!(told, "rate {id}"),
        SegError::NoReference => told.push_str("no reference"),
        SegError::Unmeasurable(id) => write!(told, "unmeasurable {id}"),
        SegError::TooSlow => told.push_str("too slow"),
        SegError::NoLock => told.push_str("no lock"),
        SegError::Lead => told.push_str("lead"),
        SegError::LossRun(number) => write!(told, "loss run {number}"),
        SegError::TooMuch => told.push_str("too much"),
        SegError::NoMemory => told.push_str("no memory"),
    }
}

fn tree_told(tree: ShapeTree, told: &mut String) -> Result<(), AllocError> {
    match tree {
        ShapeTree::Empty => told.push_str("tree empty"),
        ShapeTree::NoParent(row) => write!(told, "tree no parent {row}"),
        ShapeTree::TwoRoots(row) => write!(told, "tree two roots {row}"),
        ShapeTree::PortTaken(row) => write!(told, "tree port taken {row}"),
        ShapeTree::Cycle(row) => write!(told, "tree cycle {row}"),
    }
}
