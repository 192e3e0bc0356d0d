use dc_master::Step;
use std::fmt;

/// A step of the script in words.
#[derive(Drop)]
pub(crate) struct StepText(pub(crate) Step);

impl fmt::Display for StepText {
    ghost use Rattle.std.specs.Prelude.{Some};
    ghost use Rattle.dc_top.specs.Steps.{step_text};

    ghost output = { λ s. Some (step_text s.0) };

    fn fmt<W: fmt::Write>(&self, f: &mut fmt::Formatter<W>) -> fmt::Result {
        match self.0 {
            Step::Count => write!(f, "count"),
            Step::Identify(position) => write!(f, "identify {position}"),
            Step::Rate => write!(f, "rate"),
            Step::Latch => write!(f, "latch"),
            Step::Times(position) => write!(f, "times {position}"),
            Step::Set(position) => write!(f, "set {position}"),
            Step::Settle => write!(f, "settle"),
            Step::Drift(number) => write!(f, "drift {number}"),
            Step::Arm(position) => write!(f, "arm {position}"),
        }
    }
}
