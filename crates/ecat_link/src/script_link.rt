ghost use Rattle.std.specs.Prelude.{◌≡◌, ◌↔◌, Some, OnErr, IsErr};
ghost use Rattle.dc_base.specs.Causes.{HasCause};
ghost use Rattle.ecat_frame.specs.FrameGrammar.{IsFrame};
ghost use Rattle.ecat_link.specs.Exchanges.{Follows, back_of};
ghost use Rattle.ecat_link.specs.ScriptState.{LosesNext, script_step};

use crate::{Link, Lost};
use ecat_frame::Frame;
use std::collections::VecDeque;
use std::marker::Model;

/// What a [`ScriptLink`] does with a frame.
#[derive(Clone, Copy, Debug)]
pub enum ScriptReply {
    /// The frame is lost.
    Lose,
    /// The frame comes back as it was sent.
    Echo,
    /// This frame comes back.
    Give(Frame),
}

/// A link that answers from a list of replies, and loses every frame behind its end.
#[derive(Debug, Drop)]
pub struct ScriptLink {
    replies: VecDeque<ScriptReply>,
    lost: u64,
}

impl Model for ScriptLink {
    ghost use Rattle.ecat_link.specs.ScriptState.{ScriptState};

    ghost Value = { ScriptState };

    ghost view = { λ a. record { replies = a.replies.items; lost = a.lost } };
}

impl ScriptLink {
    /// A link that gives these replies in turn, and has lost no frame yet.
    pub fn new(replies: Vec<ScriptReply>) -> ScriptLink
        ensures { result ≡ record { replies = replies.items; lost = 0 } }
    {
        ScriptLink {
            replies: replies.into(),
            lost: 0,
        }
    }

    /// How many frames were lost. The count stands still at `u64::MAX`.
    pub fn lost(&self) -> u64
        ensures { result ≡ self.now.lost }
    {
        self.lost
    }
}

impl Link for ScriptLink {
    type State = ScriptLink;

    ghost lost = { λ s. s.lost };

    ghost state = { λ s. Some s };

    ghost step = { script_step };

    /// Each exchange uses the next reply. A lost frame stays as it was sent.
    fn exchange(&mut self, _wait_ns: u64, frame: &mut Frame) -> Result<(), Lost>
        ensures cause { HasCause self.old.lost self.new.lost result }
        ensures told { Follows script_step (Some self.old) (Some self.new)
            (record { wait_ns = _wait_ns; sent = frame.old; back = back_of result frame.new }) }
        ensures valid { OnErr result (IsFrame frame.new) }
        ensures lost { IsErr result ↔ LosesNext self.old.replies }
        ensures stays { OnErr result (frame.new ≡ frame.old) }
    {
        match self.replies.pop_front().unwrap_or(ScriptReply::Lose) {
            ScriptReply::Lose => {
                self.lost = self.lost.saturating_add(1);
                frame.in_grammar();
                Err(Lost)
            }
            ScriptReply::Echo => Ok(()),
            ScriptReply::Give(given) => {
                *frame = given;
                Ok(())
            }
        }
    }
}
