ghost use Rattle.std.specs.Prelude.{◌≡◌, ◌<◌, ◌≤◌, ◌^◌, ◌+◌, ◌-◌, ◌/◌, [], length, Err, IfErr, OnErr, OnOk, Some};
ghost use Rattle.dc_bounds.specs.Weight.{flag};
ghost use Rattle.dc_delay.specs.Latched.{laps, measures};
ghost use Rattle.dc_delay.specs.MeasuredDelay.{delay_list, delays_from};
ghost use Rattle.dc_delay.specs.Refusals.{IsRefused};
ghost use Rattle.dc_delay.specs.ShapeRows.{positions, rows_of};
ghost use Rattle.dc_delay.specs.Table.{table_laps, table_measures, table_rows};
ghost use Rattle.dc_delay.specs.declared.error.DelayError.{DelayError as Error};

use crate::error::DelayError;
use crate::judgement::reference;
use crate::kind::Kind;
use crate::latch::Latch;
use crate::table::Table;
use crate::ways::{Sums, way};
use arrayvec::ArrayVec;
use dc_topology::Shape;

/// A delay in ns at each position of a clock, and `None` at every other position.
pub type DelayList = ArrayVec<Option<u64>, 256>;

/// The delays of the clocks, in ns: how much later than at the reference, which is the first clock in
/// frame order, the frame came to each of them, by the latched times. A slave measures where it has a
/// latch, and is a clock where it is timed. The numbers are delays where every clock measures. It refuses
/// what [`judge`](crate::judge) refuses, and then `out` is empty.
pub fn delays(
    shape: &Shape,
    kinds: &[Kind],
    latches: &[Option<Latch>],
    timed: &[bool],
    out: &mut DelayList,
) -> Result<(), DelayError>
    requires kinds { length kinds.now ≡ length shape.now }
    requires latches { length latches.now ≡ length shape.now }
    requires timed { length timed.now ≡ length shape.now }
    ensures ok { OnOk result (out.new.items
        ≡ delay_list (rows_of shape.now kinds.now) (measures latches.now) (flag timed.now) (laps latches.now)
        (positions (length shape.now))) }
    ensures refused { IfErr result (IsRefused shape.now (measures latches.now) (flag timed.now)) }
    ensures exactly { (e : Error) → IsRefused shape.now (measures latches.now) (flag timed.now) e → result ≡ Err e }
    ensures empty { OnErr result (out.new.items ≡ []) }
{
    out.clear();
    let slaves = Table::new(shape, kinds, latches);
    let reference = reference(shape, slaves.measuring(), timed)?;
    put_delays(&slaves, timed, reference, out);
    Ok(())
}

// Puts the delays from a reference into an empty list.
fn put_delays(slaves: &Table, timed: &[bool], reference: u16, out: &mut DelayList)
    requires few { length timed.now ≤ 256 }
    requires timed { length timed.now ≡ length slaves.now }
    requires reference { reference < length slaves.now }
    requires empty { out.old.items ≡ [] }
    ensures { out.new.items
        ≡ delays_from (table_rows slaves.now) (table_measures slaves.now) (flag timed.now) (table_laps slaves.now) (Some reference)
        (positions (length timed.now)) }
{
    let to_reference = way(slaves, reference);
    for (position, is_timed) in timed.iter().enumerate() {
        out.push(if *is_timed {
            Some(delay(way(slaves, position as u16), to_reference))
        } else {
            None
        });
    }
}

// Half of the way to a slave less that to the reference, rounded down, and 0 where it is negative.
fn delay(way: Sums, to_reference: Sums) -> u64
    requires way { (way.ahead ≤ 2 ^ 42) × (way.back ≤ 2 ^ 42) }
    requires reference { (to_reference.ahead ≤ 2 ^ 42) × (to_reference.back ≤ 2 ^ 42) }
    ensures { result ≡ ((way.ahead + to_reference.back) - (way.back + to_reference.ahead)) / 2 }
{
    (way.ahead + to_reference.back).saturating_sub(way.back + to_reference.ahead) / 2
}
