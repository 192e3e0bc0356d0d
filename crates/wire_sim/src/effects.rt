//! What a write does to a measuring slave beside the bytes that it stores, in this order: latch, comparison,
//! reset, activation.

ghost use Rattle.std.specs.Prelude.{◌≡◌, ◌≤◌, ◌<◌, ◌&&◌, nat_le, IfSome};
ghost use Rattle.frame_pass.specs.SlaveState.{width, cycle_time};
ghost use Rattle.frame_pass.specs.WriteEffects.{latched, compared, reset_by, activated, affected, difference_shown, has_bit, sync1_by};
ghost use Rattle.wire_sim.specs.Seen.{measuring};

use crate::dc_unit::DcUnit;
use crate::registers::{set_word, word};
use esc_regs::{
    Difference, ReceivePort0, ReceiveUnit, RegFile, StartTime, Sync0Cycle, Sync1Time, Written,
};
use wrap_time::{ClockWord, T32};

/// The effects of a write that tells this.
#[inline(always)]
pub(crate) fn affect<W: ClockWord>(registers: &mut RegFile, unit: &mut DcUnit<W>, told: &Written)
    requires width { W.WIDTH ≡ width registers.old.kind }
    requires rate { IfSome told.now.rate (λ rate. 1 ≤ rate) }
    ensures is { measuring registers.new unit.new ≡ affected told.now (measuring registers.old unit.old) }
    ensures kind { registers.new.kind ≡ registers.old.kind }
{
    latch(registers, unit, told.latched);
    compare(registers, unit, told.received);
    reset(registers, unit, told.rate);
    activate(registers, unit, told.activation);
}

#[tactic(auto, unfolding(frame_pass::specs::WriteEffects::latched))]
fn latch<W: ClockWord>(registers: &mut RegFile, unit: &DcUnit<W>, latches: bool)
    requires { W.WIDTH ≡ width registers.old.kind }
    ensures is { measuring registers.new unit.now ≡ latched latches (measuring registers.old unit.now) }
    ensures kind { registers.new.kind ≡ registers.old.kind }
{
    if latches {
        let reading = unit.clock.reading();
        registers.set(ReceivePort0::new(), reading.low().value() as u32);
        set_word(registers, ReceiveUnit::new(), reading);
    }
}

#[tactic(auto, unfolding(frame_pass::specs::WriteEffects::compared))]
fn compare<W: ClockWord>(registers: &mut RegFile, unit: &mut DcUnit<W>, received: Option<T32>)
    requires { W.WIDTH ≡ width registers.old.kind }
    ensures is { measuring registers.new unit.new ≡ compared received (measuring registers.old unit.old) }
    ensures kind { registers.new.kind ≡ registers.old.kind }
{
    if let Some(received) = received {
        let ahead = unit.system_time(registers).low().diff(received);
        registers.set(Difference::new(), shown(ahead));
        unit.clock.receive(ahead as i32);
    }
}

// A difference as the register shows it: its sign in bit 31, and its size in the others, as far as they reach.
#[tactic(auto, unfolding(frame_pass::specs::WriteEffects::difference_shown))]
fn shown(difference: i64) -> u32
    ensures { result ≡ difference_shown difference }
{
    let size = difference.unsigned_abs().min(0x7fff_ffff) as u32;
    if difference < 0 {
        0x8000_0000 + size
    } else {
        size
    }
}

#[tactic(auto, unfolding(frame_pass::specs::WriteEffects::reset_by))]
fn reset<W: ClockWord>(registers: &mut RegFile, unit: &mut DcUnit<W>, rate: Option<u8>)
    requires { IfSome rate (λ rate. 1 ≤ rate) }
    ensures is { measuring registers.new unit.new ≡ reset_by rate (measuring registers.old unit.old) }
    ensures kind { registers.new.kind ≡ registers.old.kind }
{
    if let Some(rate) = rate {
        registers.set(Difference::new(), 0);
        unit.clock.reset(rate);
    }
}

#[tactic(auto, unfolding(frame_pass::specs::WriteEffects::activated, frame_pass::specs::WriteEffects::arms))]
fn activate<W: ClockWord>(registers: &RegFile, unit: &mut DcUnit<W>, activation: Option<u8>)
    requires { W.WIDTH ≡ width registers.now.kind }
    ensures { measuring registers.now unit.new ≡ activated activation (measuring registers.now unit.old) }
{
    let Some(byte) = activation else {
        return;
    };
    let cycle = registers.get(Sync0Cycle::new());
    if arms(byte, cycle) {
        let start = word(registers, StartTime::new());
        unit.arm(start, cycle, sync1(registers, byte, cycle));
    } else {
        unit.disarm();
    }
}

// Whether an activation byte arms: the cyclic unit and SYNC0, with a cycle of 1000 ns or more.
fn arms(byte: u8, cycle: u32) -> bool
    ensures { result ≡ (has_bit 0 byte && has_bit 1 byte && nat_le 1000 cycle) }
{
    byte % 2 == 1 && byte / 2 % 2 == 1 && cycle >= 1000
}

// The time of SYNC1, where it is armed with SYNC0: from 1 to the cycle less 1.
#[tactic(auto, unfolding(frame_pass::specs::WriteEffects::sync1_by))]
fn sync1(registers: &RegFile, byte: u8, cycle: u32) -> Option<u32>
    requires { cycle ≡ cycle_time registers.now }
    ensures is { result ≡ sync1_by byte registers.now }
    ensures within { IfSome result (λ time. (1 ≤ time) × (time < cycle)) }
{
    let time = registers.get(Sync1Time::new());
    if byte / 4 % 2 == 1 && 0 < time && time < cycle {
        Some(time)
    } else {
        None
    }
}
