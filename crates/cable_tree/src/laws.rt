//! Laws over the definitions alone, for proofs of the layers above. Their premises are that the rows
//! are a tree and, where that matters, that each is a row that [`TreeRow::new`](crate::TreeRow::new)
//! makes: then every slave keeps a frame for 1 ns at least.

ghost use Rattle.std.specs.Prelude.{◌≡◌, ℕ, ◌+◌, ◌*◌, ◌<◌, ◌≤◌, List, ◌∷◌, ◌++◌, drop, length, map, slice_index, Some, take};
ghost use Rattle.std.specs.List.{All, Contains, range_with_len};
ghost use Rattle.std.specs.Option.{option_map};
ghost use Rattle.cable_tree.specs.FrameOrder.{behind, child, order, root, subtree};
ghost use Rattle.cable_tree.specs.Hops.{forwarding, lap, lap_before, last_port, previous};
ghost use Rattle.cable_tree.specs.PathSums.{arrive, port_time, round_trip, span};
ghost use Rattle.cable_tree.specs.Positions.{places, position_of, renumbered, renumbered_row};
ghost use Rattle.cable_tree.specs.Row.{Row, IsRow, above, cable, row_at, tf, tp};
ghost use Rattle.cable_tree.specs.Segment.{IsRoot, IsTree};
ghost use Rattle.cable_tree.specs.declared.port.Above.{Above};
ghost use Rattle.cable_tree.specs.declared.port.Port.{Port};
ghost use Rattle.cable_tree.specs.declared.port.Port.TheVariants.{P1, P2, P3};

/// The frame order lists every row once, and nothing else.
pub fn order_lists_each_row_once()
    ensures whole { (rows : List Row) → IsTree rows → All IsRow rows → length (order rows) ≡ length rows }
    ensures every { (rows : List Row) → IsTree rows → (r : ℕ) → r < length rows → Contains (order rows) r }
    ensures rows { (rows : List Row) → IsTree rows → All IsRow rows → (i : ℕ) → i < length (order rows)
        → slice_index (order rows) i < length rows }
    ensures once { (rows : List Row) → IsTree rows → All IsRow rows → (i j : ℕ) → i < j → j < length (order rows)
        → slice_index (order rows) i ≡ slice_index (order rows) j → ⊥ }
{}

/// The frame order begins with the root, and a child comes after its parent.
pub fn parents_come_first()
    ensures root { (rows : List Row) → IsTree rows → (root rows < length rows) × IsRoot rows (root rows) }
    ensures first { (rows : List Row) → IsTree rows → slice_index (order rows) 0 ≡ root rows }
    ensures parents { (rows : List Row) → IsTree rows → All IsRow rows → (i : ℕ) (a : Above) → i < length (order rows)
        → above rows (slice_index (order rows) i) ≡ Some a
        → (j : ℕ) × (j < i) × (slice_index (order rows) j ≡ a.row) }
{}

/// A row is the child at the port of the parent that was given for it, and nowhere else.
pub fn children_hang_at_their_parents()
    ensures found { (rows : List Row) → IsTree rows → (k : ℕ) (a : Above) → k < length rows → above rows k ≡ Some a
        → child rows a.row a.port ≡ Some k }
    ensures hangs { (rows : List Row) → (r : ℕ) (p : Port) (k : ℕ) → child rows r p ≡ Some k
        → (k < length rows) × (above rows k ≡ Some (record { row = r; port = p })) }
{}

/// From one connected port of a slave to the next: the frame is forwarded, goes through the cable,
/// the child's subtree and the cable again.
pub fn laps_of_a_slave()
    ensures lap { (rows : List Row) (r : ℕ) (p : Port) (k : ℕ) → child rows r p ≡ Some k
        → lap rows r p ≡ lap_before rows r (previous rows r p) + forwarding rows r (previous rows r p) + 2 * cable rows k + span rows k }
    ensures arrival { (rows : List Row) (r : ℕ) → IsTree rows → (p : Port) (k : ℕ) → child rows r p ≡ Some k
        → arrive rows k ≡ arrive rows r + lap_before rows r (previous rows r p) + forwarding rows r (previous rows r p) + cable rows k }
    ensures back { (rows : List Row) (r : ℕ) → IsTree rows → (p : Port) (k : ℕ) → child rows r p ≡ Some k
        → port_time rows r p ≡ Some (arrive rows r + lap rows r p) }
    ensures end { (rows : List Row) (r : ℕ) → IsTree rows → (q : Port) → r < length rows → last_port rows r ≡ Some q
        → span rows r ≡ lap rows r q + tf rows r }
    ensures rise { (rows : List Row) (r : ℕ) → IsTree rows → All IsRow rows → (p : Port) (k : ℕ) → r < length rows
        → child rows r p ≡ Some k → lap_before rows r (previous rows r p) < lap rows r p }
{}

/// Twice the arrival at a child with its span, by the two laps at its port; past a slave with one
/// child alone the same number moves by tP less tF.
pub fn hops()
    ensures place { (rows : List Row) (r : ℕ) → IsTree rows → (p : Port) (k : ℕ) → child rows r p ≡ Some k
        → 2 * arrive rows k + span rows k
        ≡ 2 * arrive rows r + lap_before rows r (previous rows r p) + forwarding rows r (previous rows r p) + lap rows r p }
    ensures pass { (rows : List Row) (r : ℕ) → IsTree rows → (p : Port) (k : ℕ) → r < length rows → child rows r p ≡ Some k
        → ((q : Port) (j : ℕ) → child rows r q ≡ Some j → q ≡ p)
        → 2 * arrive rows k + span rows k + tf rows r ≡ 2 * arrive rows r + tp rows r + span rows r }
{}

/// Every slave is reached, and left for good, while the frame is behind the root's cable. The frame comes back into
/// a port, and is forwarded, within the span of its slave. So arrivals, laps and port times lie within the round trip.
pub fn inside_the_round_trip()
    ensures slave { (rows : List Row) → IsTree rows → All IsRow rows → (r : ℕ) → r < length rows
        → arrive rows r + span rows r + cable rows (root rows) ≤ round_trip rows }
    ensures span { (rows : List Row) → IsTree rows → (r : ℕ) (p : Port) (k : ℕ) → r < length rows → child rows r p ≡ Some k
        → lap rows r p + tf rows r ≤ span rows r }
    ensures lap { (rows : List Row) → IsTree rows → All IsRow rows → (r : ℕ) (p : Port) (k : ℕ) → r < length rows → child rows r p ≡ Some k
        → arrive rows r + lap rows r p + tf rows r + cable rows (root rows) ≤ round_trip rows }
    ensures port_time { (rows : List Row) → IsTree rows → All IsRow rows → (r : ℕ) (p : Port) → r < length rows
        → (t : ℕ) → port_time rows r p ≡ Some t
        → (arrive rows r ≤ t) × (t + tf rows r + cable rows (root rows) ≤ round_trip rows) }
{}

/// Arrivals rise strictly along the frame order.
pub fn arrivals_rise()
    ensures { (rows : List Row) → IsTree rows → All IsRow rows → (i j : ℕ) → i < j → j < length (order rows)
        → arrive rows (slice_index (order rows) i) < arrive rows (slice_index (order rows) j) }
{}

/// The position of a row is its place in the frame order.
pub fn positions()
    ensures position { (rows : List Row) → IsTree rows → All IsRow rows → (i : ℕ) → i < length (order rows)
        → position_of rows (slice_index (order rows) i) ≡ i }
    ensures within { (rows : List Row) → IsTree rows → All IsRow rows → (r : ℕ) → r < length rows → position_of rows r < length rows }
    ensures row { (rows : List Row) → IsTree rows → All IsRow rows → (r : ℕ) → r < length rows
        → slice_index (order rows) (position_of rows r) ≡ r }
{}

/// The subtree of a slave stands in the frame order as one piece, which begins at the position of the slave:
/// the slave, and then the subtrees at its ports 3, 1 and 2.
pub fn subtrees_stand_together()
    ensures piece { (rows : List Row) → IsTree rows → All IsRow rows → (r : ℕ) → r < length rows
        → take (length (subtree rows r)) (drop (position_of rows r) (order rows)) ≡ subtree rows r }
    ensures parts { (rows : List Row) → IsTree rows → (r : ℕ) → r < length rows
        → subtree rows r
        ≡ r ∷ (behind (subtree rows) (child rows r P3) ++ behind (subtree rows) (child rows r P1)
        ++ behind (subtree rows) (child rows r P2)) }
{}

/// The rows in frame order, with parents by position, are a tree again, with the same children, times and laps
/// at the positions of the slaves. Its frame order is 0, 1, 2, ..
pub fn renumbered_is_the_same_tree()
    ensures tree { (rows : List Row) → IsTree rows → All IsRow rows → IsTree (renumbered rows) }
    ensures slaves { (rows : List Row) → IsTree rows → All IsRow rows → All IsRow (renumbered rows) }
    ensures whole { (rows : List Row) → IsTree rows → All IsRow rows → length (renumbered rows) ≡ length rows }
    ensures rows { (rows : List Row) → IsTree rows → All IsRow rows → (r : ℕ) → r < length rows
        → row_at (renumbered rows) (position_of rows r) ≡ renumbered_row rows r }
    ensures places { (rows : List Row) → map (λ row. row.above) (renumbered rows) ≡ places rows }
    ensures order { (rows : List Row) → IsTree rows → All IsRow rows → order (renumbered rows) ≡ range_with_len 0 (length rows) }
    ensures children { (rows : List Row) → IsTree rows → All IsRow rows → (r : ℕ) → r < length rows → (p : Port)
        → child (renumbered rows) (position_of rows r) p ≡ option_map (position_of rows) (child rows r p) }
    ensures span { (rows : List Row) → IsTree rows → All IsRow rows → (r : ℕ) → r < length rows
        → span (renumbered rows) (position_of rows r) ≡ span rows r }
    ensures arrive { (rows : List Row) → IsTree rows → All IsRow rows → (r : ℕ) → r < length rows
        → arrive (renumbered rows) (position_of rows r) ≡ arrive rows r }
    ensures port_time { (rows : List Row) → IsTree rows → All IsRow rows → (r : ℕ) → r < length rows → (p : Port)
        → port_time (renumbered rows) (position_of rows r) p ≡ port_time rows r p }
    ensures lap { (rows : List Row) → IsTree rows → All IsRow rows → (r : ℕ) → r < length rows → (p : Port)
        → lap (renumbered rows) (position_of rows r) p ≡ lap rows r p }
    ensures round_trip { (rows : List Row) → IsTree rows → All IsRow rows → round_trip (renumbered rows) ≡ round_trip rows }
{}
