ghost use Rattle.std.specs.Prelude.{◌≡◌, ℕ, ◌<◌, Bool, List, length};
ghost use Rattle.cable_tree.specs.Row.{Row, above};
ghost use Rattle.dc_bounds.specs.Weight.{is_connected};

use cable_tree::{Above, Port, Tree};

/// Slaves by where they hang, which is all that the way to the measuring parent asks of them. A slave
/// has a number, which is its row or its position.
pub trait Topology {
    /// The slaves as rows, of which only `above` counts.
    ghost rows: { Self → List Row };

    /// The number of slaves.
    fn count(&self) -> usize
        ensures { result ≡ length (rows self.now) };

    /// The slave above, and its port on the way. None where a slave hangs nowhere or is not there.
    fn parent(&self, row: u16) -> Option<Above>
        ensures { result ≡ above (rows self.now) row };

    /// Whether a slave hangs at this port.
    fn is_connected(&self, row: u16, port: Port) -> bool
        requires { row < length (rows self.now) }
        ensures { result ≡ is_connected (rows self.now) row port };
}

impl Topology for Tree {
    ghost rows = { λ rows. rows };

    fn count(&self) -> usize {
        self.len()
    }

    fn parent(&self, row: u16) -> Option<Above> {
        if usize::from(row) < self.len() {
            self.above(row)
        } else {
            None
        }
    }

    fn is_connected(&self, row: u16, port: Port) -> bool {
        self.port_time(row, port).is_some()
    }
}
