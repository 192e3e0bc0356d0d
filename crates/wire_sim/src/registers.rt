//! Registers as words of a slave's clock.

ghost use Rattle.std.specs.Prelude.{◌≡◌, IsTrue};
ghost use Rattle.esc_regs.specs.RegisterTable.{is_register};
ghost use Rattle.frame_pass.specs.SlaveState.{width, holding, word_held, offset};

use esc_regs::{Offset, Reg, RegFile};
use wrap_time::ClockWord;

/// What a register of 8 bytes holds, as a word of the clock.
pub(crate) fn word<W: ClockWord, const ADDR: u16>(registers: &RegFile, reg: Reg<u64, ADDR>) -> W
    requires register { IsTrue (is_register ADDR 8) }
    requires width { W.WIDTH ≡ width registers.now.kind }
    ensures { W.number result ≡ word_held ADDR registers.now }
{
    W::cut(registers.get(reg))
}

/// Sets a register of 8 bytes to a word of the clock.
#[tactic(auto, unfolding(frame_pass::specs::SlaveState::width))]
pub(crate) fn set_word<W: ClockWord, const ADDR: u16>(
    registers: &mut RegFile,
    reg: Reg<u64, ADDR>,
    word: W,
)
    requires register { IsTrue (is_register ADDR 8) }
    requires width { W.WIDTH ≡ width registers.old.kind }
    ensures { registers.new ≡ holding 8 ADDR (W.number word) registers.old }
{
    registers.set(reg, word.value());
}

/// The system time offset.
pub(crate) fn offset<W: ClockWord>(registers: &RegFile) -> W
    requires { W.WIDTH ≡ width registers.now.kind }
    ensures { W.number result ≡ offset registers.now }
{
    word(registers, Offset::new())
}
