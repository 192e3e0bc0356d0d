//! Laws that tell a tree by positions in the frame order in place of rows, as a master knows it.

ghost use Rattle.std.specs.Prelude.{◌≡◌, ℕ, ◌<◌, Bool, List, length};
ghost use Rattle.std.specs.List.{All};
ghost use Rattle.std.specs.Option.{option_map};
ghost use Rattle.cable_tree.specs.FrameOrder.{order};
ghost use Rattle.cable_tree.specs.Positions.{IsByPosition, by_position, position_of, renumbered};
ghost use Rattle.cable_tree.specs.Row.{Row, IsRow};
ghost use Rattle.cable_tree.specs.Segment.{IsTree};
ghost use Rattle.dc_bounds.specs.Measurable.{is_measurable, unmeasurable};
ghost use Rattle.dc_bounds.specs.Weight.{measuring_parent, reference, weight};

/// The rows in frame order have, at the positions of the slaves, the measuring parents of the rows that were
/// given, and the same slaves can be measured; so they have the same first one that cannot.
pub fn measured_by_position()
    ensures parent { (rows : List Row) → IsTree rows → All IsRow rows → (measures there : ℕ → Bool) → IsByPosition rows measures there
        → (r : ℕ) → r < length rows
        → measuring_parent (renumbered rows) there (position_of rows r) ≡ by_position rows (measuring_parent rows measures r) }
    ensures measurable { (rows : List Row) → IsTree rows → All IsRow rows → (measures there : ℕ → Bool) → IsByPosition rows measures there
        → (r : ℕ) → r < length rows
        → is_measurable (renumbered rows) there (position_of rows r) ≡ is_measurable rows measures r }
    ensures unmeasurable { (rows : List Row) → IsTree rows → All IsRow rows → (measures there : ℕ → Bool) → IsByPosition rows measures there
        → unmeasurable (renumbered rows) there (order (renumbered rows))
        ≡ option_map (position_of rows) (unmeasurable rows measures (order rows)) }
{}

/// They have the same reference, and the same weights.
pub fn weights_by_position()
    ensures reference { (rows : List Row) → IsTree rows → All IsRow rows → (timed there : ℕ → Bool) → IsByPosition rows timed there
        → reference (renumbered rows) there ≡ option_map (position_of rows) (reference rows timed) }
    ensures weight { (rows : List Row) → IsTree rows → All IsRow rows
        → (measures there : ℕ → Bool) → IsByPosition rows measures there → (timed clocks : ℕ → Bool) → IsByPosition rows timed clocks
        → (r : ℕ) → r < length rows → weight (renumbered rows) there clocks (position_of rows r) ≡ weight rows measures timed r }
{}
