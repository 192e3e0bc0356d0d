//! Laws that join the delays of a shape, which a master computes by positions, to the rows of the true tree.

ghost use Rattle.std.specs.Prelude.{◌≡◌, ℕ, ◌+◌, ◌-◌, ◌*◌, ◌/◌, ◌<◌, ◌≤◌, ◌^◌, Bool, true, Some, None, List, length, slice_index_or};
ghost use Rattle.std.specs.List.{All};
ghost use Rattle.std.specs.Option.{option_map};
ghost use Rattle.cable_tree.specs.FrameOrder.{order};
ghost use Rattle.cable_tree.specs.PathSums.{arrive, round_trip};
ghost use Rattle.cable_tree.specs.Positions.{IsByPosition, places, position_of, renumbered};
ghost use Rattle.cable_tree.specs.Row.{Row, IsRow};
ghost use Rattle.cable_tree.specs.Segment.{IsTree};
ghost use Rattle.cable_tree.specs.declared.port.Port.{Port};
ghost use Rattle.dc_bounds.specs.DelayBound.{delay_bound};
ghost use Rattle.dc_bounds.specs.Measurable.{unmeasurable};
ghost use Rattle.dc_bounds.specs.TickFacts.{IsNear};
ghost use Rattle.dc_bounds.specs.Weight.{reference, weight};
ghost use Rattle.dc_delay.specs.LatchLaw.{AreLatched, AreOfClock};
ghost use Rattle.dc_delay.specs.MeasuredDelay.{delay_list};
ghost use Rattle.dc_delay.specs.Refusals.{IsRefused, first_timed, first_unmeasurable};
ghost use Rattle.dc_delay.specs.ShapeRows.{kinds_of, positions, rows_of};
ghost use Rattle.dc_delay.specs.declared.error.DelayError.{DelayError};

/// The shape of a tree has its reference, and its first slave that cannot be measured, at their positions. So
/// where there is a reference and no such slave, nothing is refused.
pub fn judged_by_position()
    ensures reference { (rows : List Row) → IsTree rows → All IsRow rows → (timed clocks : ℕ → Bool) → IsByPosition rows timed clocks
        → first_timed (places rows) clocks ≡ option_map (position_of rows) (reference rows timed) }
    ensures unmeasurable { (rows : List Row) → IsTree rows → All IsRow rows → (measures there : ℕ → Bool) → IsByPosition rows measures there
        → first_unmeasurable (places rows) there ≡ option_map (position_of rows) (unmeasurable rows measures (order rows)) }
    ensures accepted { (rows : List Row) → IsTree rows → All IsRow rows
        → (measures there : ℕ → Bool) → IsByPosition rows measures there → (timed clocks : ℕ → Bool) → IsByPosition rows timed clocks
        → (first : ℕ) → reference rows timed ≡ Some first → unmeasurable rows measures (order rows) ≡ None
        → (e : DelayError) → ¬ IsRefused (places rows) there clocks e }
{}

/// The list that [`delays`](crate::delays) answers over the shape of a tree, where the latched times of each measuring
/// slave are within `g` fs of its laps, and so is each difference of two of them, by whatever clocks: at the position of
/// each clock is a delay, and it is within half of its row's weight times `g`, and half a nanosecond, of the true one.
pub fn delays_by_latches_are_near()
    ensures { (rows : List Row) → IsTree rows → All IsRow rows
        → (measures there : ℕ → Bool) → IsByPosition rows measures there → (timed clocks : ℕ → Bool) → IsByPosition rows timed clocks
        → unmeasurable rows measures (order rows) ≡ None → ((r : ℕ) → r < length rows → timed r ≡ true → measures r ≡ true)
        → (first : ℕ) → reference rows timed ≡ Some first
        → (laps : ℕ → Port → ℕ) (g : ℕ)
        → ((r : ℕ) → r < length rows → measures r ≡ true → AreLatched (renumbered rows) g (position_of rows r) laps)
        → (r : ℕ) → r < length rows → timed r ≡ true
        → (d : ℕ) × (slice_index_or (delay_list (rows_of (places rows) (kinds_of (renumbered rows))) there clocks laps
        (positions (length (places rows)))) (position_of rows r) None ≡ Some d)
        × IsNear (1000000 * d) (arrive rows r - arrive rows first) ((weight rows measures timed r * g + 1000000) / 2) }
{}

/// The list that [`delays`](crate::delays) answers over the shape of a tree, where the latched times are those of
/// clocks that do not correct: at the position of each clock stands a delay, and it is within the delay bound of
/// the clock's row of the true one.
pub fn delays_of_a_tree_are_near()
    ensures { (rows : List Row) → IsTree rows → All IsRow rows
        → (measures there : ℕ → Bool) → IsByPosition rows measures there → (timed clocks : ℕ → Bool) → IsByPosition rows timed clocks
        → unmeasurable rows measures (order rows) ≡ None → ((r : ℕ) → r < length rows → timed r ≡ true → measures r ≡ true)
        → (first : ℕ) → reference rows timed ≡ Some first
        → (laps : ℕ → Port → ℕ) (ppm : ℕ) → ppm ≤ 100 → round_trip rows < 10 ^ 13
        → ((r : ℕ) → r < length rows → measures r ≡ true → AreOfClock (renumbered rows) ppm (position_of rows r) laps)
        → (r : ℕ) → r < length rows → timed r ≡ true
        → (d : ℕ) × (slice_index_or (delay_list (rows_of (places rows) (kinds_of (renumbered rows))) there clocks laps
        (positions (length (places rows)))) (position_of rows r) None ≡ Some d)
        × IsNear (1000000 * d) (arrive rows r - arrive rows first) (delay_bound ppm (weight rows measures timed r) (round_trip rows)) }
{}
