ghost use Rattle.std.specs.Prelude.{◌≡◌, ◌<◌, ◌≤◌, length};
ghost use Rattle.std.specs.Option.{is_some};
ghost use Rattle.cable_tree.specs.FrameOrder.{child};
ghost use Rattle.dc_topology.specs.Status.{port_bits, status_of};

use cable_tree::{Port, Tree};

/// The DL status of the slave at a row (ESC data sheet, 0x0110): what its register holds from the start.
#[tactic(auto, using(crate::proofs::Bits::first_most, crate::proofs::Bits::second_most, crate::proofs::Bits::third_most), unfolding(crate::specs::Status::status_of))]
pub fn dl_status(tree: &Tree, row: u16) -> u16
    requires { row < length tree.now }
    ensures { result ≡ status_of tree.now row }
{
    port_bits(true, 0)
        + port_bits(has_slave(tree, row, Port::P1), 1)
        + port_bits(has_slave(tree, row, Port::P2), 2)
        + port_bits(has_slave(tree, row, Port::P3), 3)
}

// Whether a slave hangs at a port.
#[tactic(auto, using(crate::proofs::Bits::comes_back))]
fn has_slave(tree: &Tree, row: u16, port: Port) -> bool
    requires { row < length tree.now }
    ensures { result ≡ is_some (child tree.now row port) }
{
    tree.port_time(row, port).is_some()
}

// The bits of a port: link (4 + port), loop closed (8 + 2 * port), communication (9 + 2 * port).
fn port_bits(connected: bool, port: u32) -> u16
    requires { port ≤ 3 }
    ensures { result ≡ port_bits connected port }
{
    if connected {
        (1 << (4 + port)) + (1 << (9 + 2 * port))
    } else {
        1 << (8 + 2 * port)
    }
}
