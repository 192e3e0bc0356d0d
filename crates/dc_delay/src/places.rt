ghost use Rattle.dc_delay.specs.ShapeRows.{hanging};

use cable_tree::{Above, Port};
use dc_bounds::Topology;
use dc_topology::Shape;

// A shape as the climb to the measuring parent reads it.
#[derive(Drop)]
pub(crate) struct Places<'a> {
    pub(crate) shape: &'a Shape,
}

impl Topology for Places<'_> {
    ghost rows = { λ places. hanging places.shape.now };

    fn count(&self) -> usize {
        self.shape.len()
    }

    fn parent(&self, row: u16) -> Option<Above> {
        if usize::from(row) < self.shape.len() {
            self.shape.above(row)
        } else {
            None
        }
    }

    fn is_connected(&self, row: u16, port: Port) -> bool {
        self.shape.connected(row, port)
    }
}
