//! Laws over the definitions alone, for proofs of the layers above. They stand over the rows of the
//! true tree, with its cables. What is known of latched times enters by the latch law alone (`AreLatched`
//! of `specs/LatchLaw.antt`), whose bound `g` of one difference of two latches is a parameter: so the
//! laws hold too where slaves only measure, and where clocks correct while they are measured.

ghost use Rattle.std.specs.Prelude.{◌≡◌, ℕ, ◌+◌, ◌-◌, ◌*◌, ◌/◌, ◌<◌, ◌≤◌, ◌^◌, Bool, true, false, Some, None, List, length, slice_index_or};
ghost use Rattle.std.specs.List.{All};
ghost use Rattle.cable_tree.specs.FrameOrder.{order};
ghost use Rattle.cable_tree.specs.PathSums.{arrive, round_trip, span};
ghost use Rattle.cable_tree.specs.Row.{Row, IsRow};
ghost use Rattle.cable_tree.specs.Segment.{IsTree};
ghost use Rattle.cable_tree.specs.declared.port.Port.{Port};
ghost use Rattle.osc_clock.specs.Ticks.{Oscillator, IsRunning};
ghost use Rattle.dc_bounds.specs.DelayBound.{delay_bound};
ghost use Rattle.dc_bounds.specs.Measurable.{unmeasurable};
ghost use Rattle.dc_bounds.specs.TickBounds.{tick_gap};
ghost use Rattle.dc_bounds.specs.TickFacts.{IsNear, IsWithin};
ghost use Rattle.dc_bounds.specs.Weight.{hops_within, is_over, reference, weight, weight_below};
ghost use Rattle.dc_delay.specs.LatchLaw.{AreAllLatched, AreLatched, AreMeasurable, AreReadings};
ghost use Rattle.dc_delay.specs.MeasuredDelay.{ahead, back, delay, delay_list, turn};
ghost use Rattle.dc_delay.specs.ShapeRows.{hanging, kinds_of, places_of, positions, rows_of};

/// The readings of a clock that does not correct, at the instants at which a frame passes its slave, meet
/// the latch law with G of the round trip: whatever the clock showed, and at whatever time the frame came.
pub fn readings_are_latched()
    ensures { (rows : List Row) (o : Oscillator) (ppm x t r : ℕ) (laps : ℕ → Port → ℕ) → IsTree rows → All IsRow rows → r < length rows
        → IsRunning o → ppm ≤ 100 → IsWithin ppm o → round_trip rows < 10 ^ 13 → AreReadings rows o x t r laps
        → AreLatched rows (tick_gap ppm (round_trip rows)) r laps }
{}

/// The doubled hops from a measuring slave c down to a measuring slave r, against twice the true way:
/// with S(r) taken for the span of r, and without it, as far as the weights of the hops say.
pub fn hops_add_up()
    ensures turned { (rows : List Row) → IsTree rows → (measures : ℕ → Bool) (laps : ℕ → Port → ℕ) (g : ℕ)
        → AreAllLatched rows measures g laps → AreMeasurable rows measures
        → (c r : ℕ) → r < length rows → measures r ≡ true → is_over rows measures c r ≡ true
        → IsNear (1000000 * (ahead rows measures laps r + turn rows laps r + back rows measures laps c) + 2 * arrive rows c)
        (1000000 * (back rows measures laps r + ahead rows measures laps c) + 2 * arrive rows r + span rows r)
        ((1 + hops_within rows measures c (length rows) r) * g) }
    ensures weighed { (rows : List Row) → IsTree rows → (measures : ℕ → Bool) (laps : ℕ → Port → ℕ) (g : ℕ)
        → AreAllLatched rows measures g laps → AreMeasurable rows measures
        → (c r : ℕ) → r < length rows → measures r ≡ true → is_over rows measures c r ≡ true
        → IsNear (1000000 * (ahead rows measures laps r + back rows measures laps c) + 2 * arrive rows c)
        (1000000 * (back rows measures laps r + ahead rows measures laps c) + 2 * arrive rows r)
        (weight_below rows measures c r * g) }
{}

/// Where no slave is told to be unmeasurable, each measuring slave that has a measuring parent can be
/// measured from it.
pub fn slaves_are_measurable()
    ensures { (rows : List Row) → IsTree rows → All IsRow rows → (measures : ℕ → Bool)
        → unmeasurable rows measures (order rows) ≡ None → AreMeasurable rows measures }
{}

/// The measured delay of a clock is near the true one, which is no negative number: within half of its
/// weight times g and of 1 ns, rounded down. With G of the round trip that is the delay bound. The weight
/// of the reference is 0, and so is its delay, exactly: whatever the rows are.
pub fn measured_delays_are_near()
    ensures reference { (rows : List Row) (measures timed : ℕ → Bool) (first : ℕ) → reference rows timed ≡ Some first
        → (weight rows measures timed first ≡ 0) × ((laps : ℕ → Port → ℕ) → delay rows measures timed laps (order rows) first ≡ 0) }
    ensures later { (rows : List Row) → IsTree rows → All IsRow rows → (timed : ℕ → Bool) (first : ℕ) → reference rows timed ≡ Some first
        → (r : ℕ) → r < length rows → timed r ≡ true → arrive rows first ≤ arrive rows r }
    ensures near { (rows : List Row) → IsTree rows → All IsRow rows → (measures : ℕ → Bool) → unmeasurable rows measures (order rows) ≡ None
        → (timed : ℕ → Bool) → ((r : ℕ) → r < length rows → timed r ≡ true → measures r ≡ true)
        → (first : ℕ) → reference rows timed ≡ Some first
        → (laps : ℕ → Port → ℕ) (g : ℕ) → AreAllLatched rows measures g laps
        → (r : ℕ) → r < length rows → timed r ≡ true
        → IsNear (1000000 * delay rows measures timed laps (order rows) r) (arrive rows r - arrive rows first)
        ((weight rows measures timed r * g + 1000000) / 2) }
    ensures bound { (rows : List Row) → IsTree rows → All IsRow rows → (measures : ℕ → Bool)
        → unmeasurable rows measures (order rows) ≡ None
        → (timed : ℕ → Bool) → ((r : ℕ) → r < length rows → timed r ≡ true → measures r ≡ true)
        → (first : ℕ) → reference rows timed ≡ Some first
        → (laps : ℕ → Port → ℕ) (ppm : ℕ) → AreAllLatched rows measures (tick_gap ppm (round_trip rows)) laps
        → (r : ℕ) → r < length rows → timed r ≡ true
        → IsNear (1000000 * delay rows measures timed laps (order rows) r) (arrive rows r - arrive rows first)
        (delay_bound ppm (weight rows measures timed r) (round_trip rows)) }
{}

/// A shape and the kinds of its slaves tell all that the delays need of a tree: they have its frame order
/// and its delays. The shape alone has its unmeasurable slave.
pub fn cables_do_not_matter()
    ensures order { (rows : List Row) → order (rows_of (places_of rows) (kinds_of rows)) ≡ order rows }
    ensures unmeasurable { (rows : List Row) (measures : ℕ → Bool) (order : List ℕ)
        → unmeasurable (hanging (places_of rows)) measures order ≡ unmeasurable rows measures order }
    ensures delays { (rows : List Row) (measures timed : ℕ → Bool) (laps : ℕ → Port → ℕ) (order : List ℕ)
        → delay_list (rows_of (places_of rows) (kinds_of rows)) measures timed laps order ≡ delay_list rows measures timed laps order }
    ensures delay { (rows : List Row) (measures timed : ℕ → Bool) (laps : ℕ → Port → ℕ) (order : List ℕ) (r : ℕ)
        → delay (rows_of (places_of rows) (kinds_of rows)) measures timed laps order r ≡ delay rows measures timed laps order r }
{}

/// The list that [`delays`](crate::delays) answers has one entry for each position: the measured delay at a
/// timed slave, and none at every other one.
pub fn entries_of_the_list()
    ensures whole { (rows : List Row) (measures timed : ℕ → Bool) (laps : ℕ → Port → ℕ) (n : ℕ)
        → length (delay_list rows measures timed laps (positions n)) ≡ n }
    ensures timed { (rows : List Row) (measures timed : ℕ → Bool) (laps : ℕ → Port → ℕ) (n i : ℕ) → i < n → timed i ≡ true
        → slice_index_or (delay_list rows measures timed laps (positions n)) i None
        ≡ Some (delay rows measures timed laps (positions n) i) }
    ensures other { (rows : List Row) (measures timed : ℕ → Bool) (laps : ℕ → Port → ℕ) (n i : ℕ) → i < n → timed i ≡ false
        → slice_index_or (delay_list rows measures timed laps (positions n)) i None ≡ None }
{}
