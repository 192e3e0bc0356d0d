//! What the slaves of a tree show, and that it lists the tree. A law about the whole tree asks that the rows are
//! a tree, and that each is a row that [`TreeRow::new`](cable_tree::TreeRow::new) makes.

ghost use Rattle.std.specs.Prelude.{◌≡◌, ℕ, ◌+◌, ◌*◌, ◌<◌, true, false, not, List, length};
ghost use Rattle.std.specs.List.{All};
ghost use Rattle.std.specs.Option.{is_some};
ghost use Rattle.cable_tree.specs.FrameOrder.{child};
ghost use Rattle.cable_tree.specs.Positions.{places, position_of, renumbered};
ghost use Rattle.cable_tree.specs.Row.{Row, IsRow};
ghost use Rattle.cable_tree.specs.Segment.{IsTree};
ghost use Rattle.cable_tree.specs.declared.port.Port.{Port};
ghost use Rattle.dc_topology.specs.DlStatus.{bit, is_connected, is_closed, is_formed};
ghost use Rattle.dc_topology.specs.Listed.{Lists, port_number};
ghost use Rattle.dc_topology.specs.Status.{status_of, statuses};

/// A status is well formed. Port 0 is connected in it, and another port exactly where a slave hangs there;
/// every other port is closed, and has no link. The bits 0 to 3 are 0.
pub fn status_tells_ports()
    ensures formed { (rows : List Row) (r : ℕ) → is_formed (status_of rows r) ≡ true }
    ensures master { (rows : List Row) (r : ℕ) → is_connected (status_of rows r) 0 ≡ true }
    ensures connected { (rows : List Row) (r : ℕ) (p : Port) → is_connected (status_of rows r) (port_number p) ≡ is_some (child rows r p) }
    ensures closed { (rows : List Row) (r : ℕ) (p : Port) → is_closed (status_of rows r) (port_number p) ≡ not (is_some (child rows r p)) }
    ensures bits { (rows : List Row) (r : ℕ) (p : Port)
        → (bit (status_of rows r) (4 + port_number p) ≡ is_some (child rows r p))
        × (bit (status_of rows r) (9 + 2 * port_number p) ≡ is_some (child rows r p))
        × (bit (status_of rows r) (8 + 2 * port_number p) ≡ not (is_some (child rows r p))) }
    ensures low { (rows : List Row) (r : ℕ) (place : ℕ) → place < 4 → bit (status_of rows r) place ≡ false }
{}

/// The statuses of a tree in frame order list that tree, by positions: so `topology` over them answers Ok,
/// and exactly where each slave hangs.
pub fn statuses_list_the_tree()
    ensures { (rows : List Row) → IsTree rows → All IsRow rows → Lists (statuses rows) (places rows) }
{}

/// The rows in frame order, with parents by position, show the same statuses at the positions of the slaves.
pub fn renumbered_shows_the_same()
    ensures { (rows : List Row) → IsTree rows → All IsRow rows → (r : ℕ) → r < length rows
        → status_of (renumbered rows) (position_of rows r) ≡ status_of rows r }
{}
