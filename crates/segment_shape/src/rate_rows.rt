ghost use Rattle.std.specs.Prelude.{◌≡◌, ◌≤◌, ◌<◌, IfOk, IfErr, length, Ok, Err, codes, []};
ghost use Rattle.serde_json.specs.View.{view, items_view};
ghost use Rattle.segment_shape.specs.FaultPaths.{path_of_row, path_of_slave};
ghost use Rattle.segment_shape.specs.Rates.{rate_behind, rate_in, rates_of};
ghost use Rattle.segment_shape.specs.Rows.{rows_after};

use crate::key::Key;
use crate::known_keys::are_rate_keys;
use crate::row_fault::RowFault;
use crate::slave_fault::SlaveFault;
use crate::value_at::{items_if_any, number_at};
use osc_clock::{RateList, RateRow};
use serde_json::Value;

/// A rate row whose tick comes after `before`.
#[tactic(auto, unfolding(crate::specs::Rates::rate_behind))]
fn rate_behind(value: &Value, before: u64) -> Result<RateRow, RowFault>
    requires { before ≤ 1000000000000 }
    ensures ok { IfOk result (λ r. rate_behind before (view value.now) ≡ Ok r) }
    ensures err { IfErr result (λ fault. rate_behind before (view value.now) ≡ Err (path_of_row fault)) }
    ensures within { IfOk result (λ r. r.tick ≤ 1000000000000) }
{
    let Some(members) = value.as_object() else {
        return Err(RowFault::Row);
    };
    let tick = number_at(value, Key::Tick, before + 1, 1_000_000_000_000)?;
    let period_fs = number_at(value, Key::PeriodFs, 1, 20_000_000)?;
    if !are_rate_keys(members) {
        return Err(RowFault::Row);
    }
    Ok(RateRow { tick, period_fs })
}

fn rates_in(values: &[Value]) -> Result<RateList, SlaveFault>
    requires { length values.now ≤ 64 }
    ensures ok { IfOk result (λ v. rows_after (codes "rates") rate_in [] (items_view values.now) ≡ Ok v.items) }
    ensures err { IfErr result (λ fault. rows_after (codes "rates") rate_in [] (items_view values.now) ≡ Err (path_of_slave fault)) }
{
    let mut rates = RateList::new();
    let mut last = 0;
    for value in values {
        match rate_behind(value, last) {
            Ok(row) => {
                last = row.tick;
                rates.push(row);
            }
            Err(fault) => return Err(SlaveFault::Rate(rates.len() as u8, fault)),
        }
    }
    Ok(rates)
}

/// The changes of a slave row, none where it lists none.
#[tactic(auto, unfolding(crate::specs::Rates::rates_of))]
pub(crate) fn rates_of(value: &Value) -> Result<RateList, SlaveFault>
    ensures ok { IfOk result (λ v. rates_of (view value.now) ≡ Ok v.items) }
    ensures err { IfErr result (λ fault. rates_of (view value.now) ≡ Err (path_of_slave fault)) }
{
    let values = items_if_any(value, Key::Rates, 64)?;
    rates_in(values)
}
