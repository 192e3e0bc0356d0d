ghost use Rattle.std.specs.Prelude.{◌≡◌, ◌<◌, ◌≤◌, [], Some, None, length, slice_index_or};
ghost use Rattle.std.specs.List.{list_any};
ghost use Rattle.cable_tree.specs.FrameOrder.{is_at};

use arrayvec::ArrayVec;
use cable_tree::{Above, Port};
use std::marker::Model;

/// A tree of at most 256 slaves, by where each of them hangs, in frame order.
#[derive(Debug, Drop)]
pub struct Shape {
    pub(crate) places: ArrayVec<Option<Above>, 256>,
}

impl Model for Shape {
    ghost use Rattle.std.specs.Prelude.{List};
    ghost use Rattle.dc_topology.specs.Listed.{Place};

    ghost Value = { List Place };

    ghost view = { λ a. a.places.items };
}

impl Shape {
    /// A shape without slaves.
    pub fn new() -> Shape
        ensures { result ≡ [] }
    {
        Shape {
            places: ArrayVec::new(),
        }
    }

    /// The number of slaves.
    pub fn len(&self) -> usize
        ensures is { result ≡ length self.now }
        ensures few { result ≤ 256 }
    {
        self.places.len()
    }

    /// The position of the slave above, and the port there; `None` at the first slave.
    pub fn above(&self, position: u16) -> Option<Above>
        requires { position < length self.now }
        ensures { result ≡ slice_index_or self.now position None }
    {
        self.places[usize::from(position)]
    }

    /// Whether a slave hangs at this port.
    pub fn connected(&self, position: u16, port: Port) -> bool
        requires { position < length self.now }
        ensures { result ≡ list_any (is_at position port) self.now }
    {
        self.places.iter().any(|place| *place
            == Some(Above {
                row: position,
                port,
            }))
    }
}
