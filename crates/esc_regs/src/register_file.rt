ghost use Rattle.std.specs.Prelude.{◌≡◌, ℕ, ◌+◌, ◌^◌, ◌<◌, ◌≤◌, List, IsTrue, ◌↔◌, IfSome, length, slice_index, slice_range, true, false};
ghost use Rattle.esc_regs.specs.RegisterBytes.{number_at, with_number, AreApart};
ghost use Rattle.esc_regs.specs.RegisterTable.{is_register, is_wide, is_defined};
ghost use Rattle.esc_regs.specs.RegisterAccess.{is_refused};
ghost use Rattle.esc_regs.specs.RegisterFile.{IsWhole, StartsBy};
ghost use Rattle.esc_regs.specs.RegisterWrite.{written, told};
ghost use Rattle.esc_regs.specs.ShownRegisters.{showing, shown};
ghost use Rattle.esc_regs.specs.StartOfRegisters.{registers_at_start};

use crate::answers::{Access, Written};
use crate::clock_kind::ClockKind;
use crate::live::Live;
use crate::names::{Controller, Features, FilterDepth1, FilterDepth2, SpeedStart};
use crate::reg_word::RegWord;
use crate::register::Reg;
use crate::rules::{self, SIZE, START_TIME, SYSTEM_TIME};
use std::marker::Model;

/// The bytes 0x0000 to 0x0FFF of a slave's registers. Those that belong to no register are 0, the
/// upper half of an 8-byte register among them where the slave's clock does not have 64 bits.
#[derive(Clone, Copy)]
pub struct RegFile {
    kind: ClockKind,
    bytes: [u8; SIZE],
}

impl Model for RegFile {
    ghost use Rattle.esc_regs.specs.RegisterBytes.{AreBytes};
    ghost use Rattle.esc_regs.specs.RegisterFile.{Registers, HasZeros};

    ghost Value = { Registers };

    ghost view = { λ r. record { kind = r.kind; bytes = r.bytes } };

    ghost invariant = { λ r. HasZeros r.kind r.bytes × AreBytes r.bytes };

    ghost inverse = { λ r. record { kind = r.kind; bytes = r.bytes } };
}

impl RegFile {
    // All bytes 0.
    fn blank(kind: ClockKind) -> Self
        ensures kind { result.kind ≡ kind }
        ensures blank { (a : ℕ) → slice_index result.bytes a ≡ 0 }
        ensures size { length result.bytes ≡ 4096 }
    {
        RegFile {
            kind,
            bytes: [0; SIZE],
        }
    }

    /// The registers of a slave of this kind before its first frame. What the topology and the clock
    /// make of them, as the DL status, is 0 until it is set.
    pub fn new(kind: ClockKind) -> Self
        ensures is { result ≡ registers_at_start kind }
        ensures kind { result.kind ≡ kind }
        ensures start { StartsBy kind result.bytes }
        ensures whole { IsWhole result }
    {
        let mut file = RegFile::blank(kind);
        file.set(Controller::new(), 0x11);
        file.set(Features::new(), rules::features(kind));
        file.set(SpeedStart::new(), 0x1000);
        file.set(FilterDepth1::new(), 4);
        file.set(FilterDepth2::new(), 12);
        file
    }

    /// The kind of the slave.
    pub fn kind(&self) -> ClockKind
        ensures { result ≡ self.now.kind }
    {
        self.kind
    }

    /// Nothing to run: it says for proofs that every register file is whole.
    pub fn whole(&self)
        ensures { IsWhole self.now }
    {
        let _ = &self.bytes;
    }

    /// Fills `out` with the bytes from `addr` on, as a frame reads them. A refused read leaves it.
    pub fn read(&self, addr: u16, out: &mut [u8]) -> Access
        ensures refused { result ≡ Access.Refused ↔ (is_refused self.now.kind addr (length out.old) ≡ true) }
        ensures bytes { result ≡ Access.Done → out.new ≡ slice_range self.now.bytes addr (addr + length out.old) }
        ensures zeros { (k : ℕ) → result ≡ Access.Done → k < length out.old → is_defined self.now.kind (addr + k) ≡ false
            → slice_index out.new k ≡ 0 }
        ensures stays { result ≡ Access.Refused → out.new ≡ out.old }
    {
        let start = usize::from(addr);
        if rules::is_refused(self.kind, start, out.len()) {
            return Access::Refused;
        }
        out.copy_from_slice(&self.bytes[start..start + out.len()]);
        Access::Done
    }

    /// The same, with live numbers in place of what is held of the system time and of the start time.
    pub fn read_showing(&self, addr: u16, live: Live, out: &mut [u8]) -> Access
        ensures refused { result ≡ Access.Refused ↔ (is_refused self.now.kind addr (length out.old) ≡ true) }
        ensures bytes { result ≡ Access.Done → out.new ≡ slice_range (shown live self.now).bytes addr (addr + length out.old) }
        ensures stays { result ≡ Access.Refused → out.new ≡ out.old }
    {
        if self.read(addr, out) == Access::Refused {
            return Access::Refused;
        }
        let start = usize::from(addr);
        show(self.kind, SYSTEM_TIME, live.system_time, start, out);
        show(self.kind, START_TIME, live.next_due, start, out);
        Access::Done
    }

    /// Stores the bytes from `addr` on, as a frame writes them, and tells what the slave has to do.
    /// Bytes of registers that cannot be written, and of none, are ignored.
    pub fn write(&mut self, addr: u16, bytes: &[u8]) -> Written
        ensures is { self.new ≡ written self.old addr bytes.now }
        ensures tells { result ≡ told self.old.kind addr bytes.now }
        ensures rate { IfSome result.rate (λ g. (2 ≤ g) × (g ≤ 255)) }
        ensures kind { self.new.kind ≡ self.old.kind }
        ensures whole { IsWhole self.new }
    {
        let start = usize::from(addr);
        if rules::is_refused(self.kind, start, bytes.len()) {
            return Written::REFUSED;
        }
        if rules::is_own_time(start, bytes.len()) {
            return Written {
                access: Access::Done,
                latched: false,
                received: rules::received(start, bytes),
                rate: None,
                activation: None,
            };
        }
        self.store(start, bytes)
    }

    // The same of a write that is not refused.
    #[inline(never)]
    fn store(&mut self, start: usize, bytes: &[u8]) -> Written
        requires { is_refused self.old.kind start (length bytes.now) ≡ false }
        ensures is { self.new ≡ written self.old start bytes.now }
        ensures tells { result ≡ told self.old.kind start bytes.now }
        ensures rate { IfSome result.rate (λ g. (2 ≤ g) × (g ≤ 255)) }
        ensures kind { self.new.kind ≡ self.old.kind }
        ensures whole { IsWhole self.new }
    {
        let rate = rules::rate(start, bytes);
        rules::store_bytes(self.kind, rate.is_some(), &mut self.bytes, start, bytes);
        Written {
            access: Access::Done,
            latched: rules::latches(start, bytes),
            received: rules::received(start, bytes),
            rate,
            activation: rules::activation(start, bytes),
        }
    }

    /// What a register holds.
    pub fn get<W: RegWord, const ADDR: u16>(&self, _reg: Reg<W, ADDR>) -> W
        requires { IsTrue (is_register ADDR W.BYTES) }
        ensures is { W.number result ≡ number_at W.BYTES ADDR self.now.bytes }
        ensures fits { W.number result < 256 ^ W.BYTES }
        ensures narrow { W.BYTES ≡ 8 → is_wide self.now.kind ≡ false → W.number result < 2 ^ 32 }
    {
        word_at(&self.bytes, usize::from(ADDR))
    }

    /// Sets what a register holds, whether frames can write it or not, and has no further effect.
    pub fn set<W: RegWord, const ADDR: u16>(&mut self, _reg: Reg<W, ADDR>, value: W)
        requires register { IsTrue (is_register ADDR W.BYTES) }
        requires narrow { W.BYTES ≡ 8 → is_wide self.old.kind ≡ false → W.number value < 2 ^ 32 }
        ensures is { self.new ≡ record self.old { bytes = with_number W.BYTES ADDR (W.number value) self.old.bytes } }
        ensures gives { number_at W.BYTES ADDR self.new.bytes ≡ W.number value }
        ensures apart { (at n : ℕ) → AreApart ADDR W.BYTES at n → number_at n at self.new.bytes ≡ number_at n at self.old.bytes }
        ensures whole { IsWhole self.new }
    {
        value.store(&mut self.bytes, usize::from(ADDR));
    }
}

/// The number that stands at `at`.
fn word_at<W: RegWord>(bytes: &[u8], at: usize) -> W
    requires { at + W.BYTES ≤ length bytes.now }
    ensures is { W.number result ≡ number_at W.BYTES at bytes.now }
    ensures fits { W.number result < 256 ^ W.BYTES }
    ensures low { number_at 4 at bytes.now < 2 ^ 32 }
{
    W::load(bytes, at)
}

/// Puts a live number of an 8-byte register at `at` over the bytes that were read from `start` on.
fn show(kind: ClockKind, at: usize, number: Option<u64>, start: usize, out: &mut [u8])
    requires place { at + 8 ≤ 4096 }
    requires room { start + length out.old ≤ 4096 }
    ensures { (held : List ℕ) → length held ≡ 4096 → out.old ≡ slice_range held start (start + length out.old)
        → out.new ≡ slice_range (showing kind at number held) start (start + length out.old) }
{
    if let Some(number) = number {
        let bytes = number.to_le_bytes();
        rules::overlay(out, start, &bytes[..rules::held(kind, 8)], at);
    }
}
