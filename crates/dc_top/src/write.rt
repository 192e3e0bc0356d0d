ghost use Rattle.std.specs.Prelude.{◌≡◌, ◌≤◌};
ghost use Rattle.dc_base.specs.Causes.{Rose};
ghost use Rattle.dc_top.specs.Written.{Wrote};
ghost use Rattle.dc_top.specs.declared.outcome.Outcome.TheVariants.{WriteFault};

use crate::Outcome;
use dc_base::{Sink, write_whole};

/// Writes a whole text.
pub(crate) fn write<O: Sink>(output: &mut O, text: &[u8]) -> Outcome
    ensures written { Wrote text.now result (O.taken output.old) (O.taken output.new) }
    ensures fault { result ≡ WriteFault → Rose (O.faults output.old) (O.faults output.new) }
    ensures later { O.faults output.old ≤ O.faults output.new }
{
    match write_whole(output, text) {
        Ok(()) => Outcome::Done,
        Err(_) => Outcome::WriteFault,
    }
}
