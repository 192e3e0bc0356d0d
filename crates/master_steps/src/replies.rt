// How replies are judged, and what they teach.
ghost use Rattle.std.specs.Prelude.{◌≡◌, None};
ghost use Rattle.ecat_frame.specs.FrameGrammar.{IsFrame};
ghost use Rattle.master_steps.specs.ConfigRange.{IsConfig, value_of};
ghost use Rattle.master_steps.specs.Known.{words_of};
ghost use Rattle.master_steps.specs.Asking.{CanLearn};
ghost use Rattle.master_frames.specs.Sizes.{sizes};
ghost use Rattle.master_script.specs.Config.{ConfigValue};
ghost use Rattle.master_script.specs.Judged.{judged};
ghost use Rattle.master_script.specs.Steps.{expected, frame_of, learned as taught};

use crate::config::Config;
use arrayvec::ArrayVec;
use ecat_frame::Frame;
use master_frames::{Learned, identified_from, latch_in, miscounted};
use master_script::{Refusal, Step};

/// Why the reply to a step is refused, if it is.
pub(crate) fn judge(
    config: &Config,
    learned: &Learned,
    step: Step,
    sent: &Frame,
    reply: &Frame,
) -> Option<Refusal>
    requires config { IsConfig (value_of config.now) }
    requires sent { sent.now ≡ frame_of (value_of config.now) (words_of learned.now) step }
    ensures is { result ≡ judged step (expected (value_of config.now) (words_of learned.now) step reply.now) sent.now reply.now }
    ensures alike { result ≡ None → sizes reply.now ≡ sizes sent.now }
    ensures valid { IsFrame reply.now }
{
    sent.in_grammar();
    reply.in_grammar();
    if let Some(at) = sent.first_difference(reply) {
        return Some(Refusal::Reply(step, at));
    }
    miscounted(step, &expected(config, learned, step, reply), reply)
}

// The expected counters of a step.
fn expected(config: &Config, learned: &Learned, step: Step, reply: &Frame) -> ArrayVec<u16, 5>
    requires config { IsConfig (value_of config.now) }
    requires alike { sizes reply.now ≡ sizes (frame_of (value_of config.now) (words_of learned.now) step) }
    ensures { result.items ≡ expected (value_of config.now) (words_of learned.now) step reply.now }
{
    let mut counters = ArrayVec::new();
    match step {
        Step::Count => counters.push(config.kinds.len() as u16),
        Step::Identify(_) => {
            counters.push(1);
            counters.push(1);
            counters.push(1);
            counters.push(identified_from(reply, 1).expected_fourth());
        }
        Step::Rate | Step::Settle | Step::Drift(_) => counters.push(learned.clocks()),
        Step::Latch => counters.push(learned.measuring()),
        Step::Times(_) | Step::Set(_) => {
            counters.push(1);
            counters.push(1);
        }
        Step::Arm(_) => {
            counters.push(learned.clocks());
            counters.push(1);
            counters.push(1);
            counters.push(1);
            counters.push(1);
        }
    }
    counters
}

/// Keeps what the reply to a step teaches, whose sending had this number.
pub(crate) fn learn(learned: &mut Learned, step: Step, number: u32, reply: &Frame)
    requires alike { (cfg : ConfigValue) × (sizes reply.now ≡ sizes (frame_of cfg (words_of learned.old) step)) }
    requires room { CanLearn (words_of learned.old) step }
    ensures { words_of learned.new ≡ taught number step reply.now (words_of learned.old) }
{
    match step {
        Step::Identify(_) => learned.slaves.push(identified_from(reply, 1)),
        Step::Latch => learned.latched = number,
        Step::Times(position) => {
            let latch = latch_in(learned.is_wide(position), reply);
            learned.latches[usize::from(position)] = Some(latch);
        }
        _ => {}
    }
}
