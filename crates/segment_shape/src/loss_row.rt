ghost use Rattle.std.specs.Prelude.{◌≡◌, ◌≤◌, IfOk, IfErr, Ok, Err};
ghost use Rattle.serde_json.specs.View.{view};
ghost use Rattle.segment_shape.specs.FaultPaths.{path_of_row};
ghost use Rattle.segment_shape.specs.KeyNames.{name_of};
ghost use Rattle.segment_shape.specs.Losses.{phase_named, phase_of, phase_at, loss_in};

use crate::key::Key;
use crate::known_keys::are_loss_keys;
use crate::row_fault::RowFault;
use crate::value_at::number_at;
use loss_list::{LossList, LossRow, Phase};
use serde_json::Value;

#[tactic(auto, unfolding(crate::specs::Losses::phase_named))]
fn phase_named(text: &str) -> Option<Phase>
    ensures { result ≡ phase_named text.now }
{
    if text == "commission" {
        Some(Phase::Commission)
    } else if text == "drift" {
        Some(Phase::Drift)
    } else {
        None
    }
}

fn phase_of(value: &Value) -> Option<Phase>
    ensures { result ≡ phase_of (view value.now) }
{
    phase_named(value.get(Key::Phase.name())?.as_str()?)
}

fn phase_at(value: &Value) -> Result<Phase, Key>
    ensures ok { IfOk result (λ p. phase_at (view value.now) ≡ Ok p) }
    ensures err { IfErr result (λ k. phase_at (view value.now) ≡ Err (name_of k)) }
{
    match phase_of(value) {
        Some(phase) => Ok(phase),
        None => Err(Key::Phase),
    }
}

/// A loss row behind these, in a file of so many slave rows.
#[tactic(auto, unfolding(crate::specs::Losses::loss_in))]
pub(crate) fn loss_in(value: &Value, slaves: u16, earlier: &LossList) -> Result<LossRow, RowFault>
    ensures ok { IfOk result (λ r. loss_in slaves earlier.now (view value.now) ≡ Ok r) }
    ensures err { IfErr result (λ fault. loss_in slaves earlier.now (view value.now) ≡ Err (path_of_row fault)) }
    ensures within { IfOk result (λ r. (1 ≤ r.number) × (r.number ≤ 100000)) }
{
    let Some(members) = value.as_object() else {
        return Err(RowFault::Row);
    };
    let phase = phase_at(value)?;
    let number = number_at(value, Key::Number, 1, 100_000)? as u32;
    if earlier.lists(phase, number) {
        return Err(RowFault::At(Key::Number));
    }
    let after = number_at(value, Key::After, 0, u64::from(slaves))?;
    if !are_loss_keys(members) {
        return Err(RowFault::Row);
    }
    Ok(LossRow {
        phase,
        number,
        after: after as u16,
    })
}
