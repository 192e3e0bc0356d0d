// How the replies to drift frames are judged.
ghost use Rattle.std.specs.Prelude.{◌≡◌, ◌∷◌, [], None};
ghost use Rattle.ecat_frame.specs.FrameGrammar.{IsFrame};
ghost use Rattle.master_script.specs.Judged.{judged};
ghost use Rattle.master_script.specs.declared.step.Step.TheVariants.{Drift};
ghost use Rattle.master_frames.specs.Sizes.{sizes};

use ecat_frame::Frame;
use master_frames::miscounted;
use master_script::{Refusal, Step};

/// Why the reply to the drift frame of this number is refused, if it is.
pub fn judge_drift(number: u32, clocks: u16, sent: &Frame, reply: &Frame) -> Option<Refusal>
    ensures is { result ≡ judged (Drift number) (clocks ∷ []) sent.now reply.now }
    ensures alike { result ≡ None → sizes reply.now ≡ sizes sent.now }
    ensures valid { IsFrame reply.now }
{
    let step = Step::Drift(number);
    sent.in_grammar();
    reply.in_grammar();
    if let Some(at) = sent.first_difference(reply) {
        return Some(Refusal::Reply(step, at));
    }
    miscounted(step, &[clocks], reply)
}
