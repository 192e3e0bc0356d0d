ghost use Rattle.std.specs.Prelude.{◌≡◌, ◌<◌, ◌≤◌, IfErr, IfOk, OnOk, length, map, option_map, None, Some};
ghost use Rattle.std.specs.List.{find, list_all};
ghost use Rattle.segment_file.specs.Faults.{clock_fault, id_at, is_off, is_within};
ghost use Rattle.segment_file.specs.FaultOf.{IsFaultOf};
ghost use Rattle.segment_file.specs.Segment.{reference_row, tree_rows};
ghost use Rattle.segment_file.specs.Seen.{row_seen};

use crate::seg_error::SegError;
use crate::slave_row::{SlaveRow, clock_flags, measuring_flags};
use cable_tree::Tree;
use dc_bounds::{reference, unmeasurable};
use esc_regs::measures;
use osc_clock::RateRow;
use segment_shape::Id;

// Whether a period is within ppm of 10 ns.
fn is_within(ppm: u32, period_fs: u64) -> bool
    requires { ppm ≤ 100 }
    ensures { result ≡ is_within ppm period_fs }
{
    let tolerance = 10 * u64::from(ppm);
    10_000_000 - tolerance <= period_fs && period_fs <= 10_000_000 + tolerance
}

fn are_within(ppm: u32, rates: &[RateRow]) -> bool
    requires { ppm ≤ 100 }
    ensures { result ≡ list_all (λ change. is_within ppm change.period) rates.now }
{
    for rate in rates {
        if !is_within(ppm, rate.period_fs) {
            return false;
        }
    }
    true
}

// Whether a clock has a period outside the ppm, or its first tick comes after its first period.
fn is_off(ppm: u32, row: &SlaveRow) -> bool
    requires { ppm ≤ 100 }
    ensures { result ≡ is_off ppm (row_seen row.now) }
{
    measures(row.kind)
        && !(row.phase_fs <= row.period_fs
            && is_within(ppm, row.period_fs)
            && are_within(ppm, &row.rates))
}

// The id of the first row whose clock is off.
fn first_off(ppm: u32, rows: &[SlaveRow]) -> Option<Id>
    requires { ppm ≤ 100 }
    ensures { option_map (λ id. id.bytes) result ≡ option_map (λ r. r.id) (find (is_off ppm) (map row_seen rows.now)) }
{
    for row in rows {
        if is_off(ppm, row) {
            return Some(row.id);
        }
    }
    None
}

fn id_at(rows: &[SlaveRow], row: u16) -> Id
    requires { row < length rows.now }
    ensures { result.bytes ≡ id_at (map row_seen rows.now) row }
{
    rows[usize::from(row)].id
}

/// The row of the reference, where the clocks are without fault.
#[tactic(auto, unfolding(crate::specs::Faults::clock_fault))]
pub(crate) fn check_clocks(ppm: u32, rows: &[SlaveRow], tree: &Tree) -> Result<u16, SegError>
    requires ppm { ppm ≤ 100 }
    requires few { length rows.now ≤ 256 }
    requires tree { tree.now ≡ tree_rows (map row_seen rows.now) }
    ensures ok { OnOk result (clock_fault ppm (map row_seen rows.now) ≡ None) }
    ensures reference { IfOk result (λ r. reference_row (map row_seen rows.now) ≡ Some r) }
    ensures err { IfErr result (IsFaultOf (clock_fault ppm (map row_seen rows.now))) }
{
    if let Some(id) = first_off(ppm, rows) {
        return Err(SegError::Rate(id));
    }
    let Some(reference) = reference(tree, &clock_flags(rows)) else {
        return Err(SegError::NoReference);
    };
    if let Some(row) = unmeasurable(tree, &measuring_flags(rows)) {
        return Err(SegError::Unmeasurable(id_at(rows, row)));
    }
    Ok(reference)
}
