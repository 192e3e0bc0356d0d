//! The exchanges of a phase, one round after another.

ghost use Rattle.std.specs.Prelude.{◌≡◌};
ghost use Rattle.lost_step.specs.LostStep.{asked, commission_steps, loses, lost_step_of};
ghost use Rattle.loss_list.specs.declared.loss_row.Phase.TheVariants as phase;

use crate::tries::{Round, ask, ask_each};
use master_script::Step;
use segment_file::{Phase, Segment};

// The commission number behind the last exchange of commissioning, or the step that is lost.
fn commission(segment: &Segment) -> Result<u32, Step>
    ensures { result ≡ asked (loses segment.now phase.Commission) 1 (commission_steps segment.now) }
{
    let number = ask(segment, Phase::Commission, 1, Step::Count)?;
    let number = ask_each(segment, Round::Identify, number)?;
    let number = ask(segment, Phase::Commission, number, Step::Rate)?;
    let number = ask(segment, Phase::Commission, number, Step::Latch)?;
    let number = ask_each(segment, Round::Times, number)?;
    ask_each(segment, Round::Set, number)
}

/// The first step of commissioning, or behind it of arming, whose three tries are all listed as lost: the step with which a run of the
/// segment is refused. Arming is left out where it is not asked for.
pub fn lost_step(segment: &Segment, with_arming: bool) -> Option<Step>
    ensures { result ≡ lost_step_of segment.now with_arming }
{
    if let Err(step) = commission(segment) {
        return Some(step);
    }
    if !with_arming {
        return None;
    }
    // arming follows the K + m + 1 drift frames of settling
    let first = segment.lock_in() + u32::from(segment.loss_run()) + 2;
    ask_each(segment, Round::Arm, first).err()
}
