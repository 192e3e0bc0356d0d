//! The frames that are lost.

ghost use Rattle.std.specs.Prelude.{◌≡◌, ◌++◌, codes, true, OnOk};
ghost use Rattle.serde_json.specs.Data.{array};
ghost use Rattle.serde_json.specs.Written.{compact_text};
ghost use Rattle.segment_shape.specs.Written.{at_key, items_for, loss_data, phase_name};
ghost use Rattle.segment_text.specs.Text.{entry_text, is_plain};

use crate::fields::{open_at, push_comma_if, push_key, push_string, push_whole};
use segment_file::{LossRow, Phase};
use std::alloc::AllocError;

fn phase_name(phase: Phase) -> &'static str
    ensures is { result.now ≡ phase_name phase }
    ensures plain { is_plain result.now ≡ true }
{
    match phase {
        Phase::Commission => "commission",
        Phase::Drift => "drift",
    }
}

fn push_loss(text: &mut Vec<u8>, loss: LossRow) -> Result<(), AllocError>
    ensures { OnOk result (text.new.items ≡ text.old.items ++ compact_text (loss_data loss)) }
{
    open_at(text, "after", u64::from(loss.after))?;
    push_whole(text, "number", u64::from(loss.number))?;
    push_string(text, "phase", phase_name(loss.phase))?;
    text.extend_from_slice(b"}")
}

fn push_rows(text: &mut Vec<u8>, losses: &[LossRow]) -> Result<(), AllocError>
    ensures { OnOk result (text.new.items ≡ text.old.items ++ compact_text (array (items_for loss_data losses.now))) }
{
    text.push(b'[')?;
    let mut later = false;
    for loss in losses {
        push_comma_if(text, later)?;
        push_loss(text, *loss)?;
        later = true;
    }
    text.extend_from_slice(b"]")
}

/// The losses of a file, at their key.
#[tactic(auto, unfolding(crate::specs::Text::entry_text))]
pub(crate) fn push_losses(text: &mut Vec<u8>, losses: &[LossRow]) -> Result<(), AllocError>
    ensures { OnOk result (text.new.items
        ≡ text.old.items ++ entry_text (at_key (codes "losses") (array (items_for loss_data losses.now)))) }
{
    push_key(text, "losses")?;
    push_rows(text, losses)
}
