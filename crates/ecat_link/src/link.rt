ghost use Rattle.std.specs.Prelude.{ℕ, Option, OnErr};
ghost use Rattle.dc_base.specs.Causes.{HasCause};
ghost use Rattle.ecat_frame.specs.FrameGrammar.{IsFrame};
ghost use Rattle.ecat_link.specs.Exchanges.{Follows, StepOf, back_of};

use ecat_frame::Frame;
use thiserror::Error;

/// A frame was sent and did not come back.
#[derive(Clone, Copy, Debug, PartialEq, Eq, Error)]
#[error("the frame was lost")]
pub struct Lost;

/// What sends frames over a segment, one at a time, and gets them back.
pub trait Link {
    /// The state of the segment. Contracts alone speak of it, so a link that tells none may name any type.
    type State;

    /// How many frames were lost. The count stands still at its last value.
    ghost lost: { Self → ℕ };

    /// The state of the segment, where the link tells it.
    ghost state: { Self → Option Self.State };

    /// What the segment does with a frame that is sent after a wait: its next state, and the frame that
    /// comes back, if it does.
    ghost step: { StepOf Self.State };

    /// Waits for `wait_ns`, sends the frame, and puts in its place what comes back. Where it is lost, some
    /// slaves may have changed it.
    fn exchange(&mut self, wait_ns: u64, frame: &mut Frame) -> Result<(), Lost>
        ensures cause { HasCause (lost self.old) (lost self.new) result }
        ensures told { Follows step (state self.old) (state self.new)
            (record { wait_ns = wait_ns; sent = frame.old; back = back_of result frame.new }) }
        ensures valid { OnErr result (IsFrame frame.new) };
}
