//! This project's rule of register access, over plain addresses and bytes.

ghost use Rattle.std.specs.Prelude.{◌≡◌, ℕ, ◌+◌, ◌-◌, ◌≤◌, ◌<◌, ◌&&◌, nat_le, length, slice_index, if◌then◌else◌};
ghost use Rattle.esc_regs.specs.RegisterTable.{features, held, is_within};
ghost use Rattle.esc_regs.specs.RegisterAccess.{touches, covers, lacks, is_refused, latches, received_by, rate_by, activation_by, stores};
ghost use Rattle.esc_regs.specs.RegisterWrite.{stored_bytes};

use crate::clock_kind::ClockKind;
use crate::reg_word::RegWord;
use crate::table::{Writing, rows};
use wrap_time::{ClockWord, T32};

/// The bytes of a register file.
pub(crate) const SIZE: usize = 4096;

// Addresses of the registers of distributed clocks (ESC data sheet, Section II).
const RECEIVE_PORT0: usize = 0x0900;

const RECEIVE_PORT1: usize = 0x0904;

pub(crate) const SYSTEM_TIME: usize = 0x0910;

const RECEIVE_UNIT: usize = 0x0918;

const OFFSET: usize = 0x0920;

const SPEED_START: usize = 0x0930;

const ACTIVATION: usize = 0x0981;

pub(crate) const START_TIME: usize = 0x0990;

/// The first address behind the registers of distributed clocks.
const CLOCKS_END: usize = 0x0A00;

/// The least start of the speed counter.
const LEAST_SPEED: u16 = 0x0080;

/// The greatest start of the speed counter.
const MOST_SPEED: u16 = 0x3FFF;

/// Whether an access to `n` bytes from `addr` on has one of those from `low` on and below `high`.
fn touches(low: usize, high: usize, addr: usize, n: usize) -> bool
    requires { addr + n ≤ 4096 }
    ensures { result ≡ touches low high addr n }
{
    addr < high && low < addr + n
}

/// Whether such an access has all `m` bytes from `at` on.
fn covers(at: usize, m: usize, addr: usize, n: usize) -> bool
    requires place { at + m ≤ 4096 }
    requires bytes { addr + n ≤ 4096 }
    ensures { result ≡ covers at m addr n }
{
    addr <= at && at + m <= addr + n
}

/// Whether an access touches registers that a slave of this kind does not have.
fn lacks(kind: ClockKind, addr: usize, n: usize) -> bool
    requires { addr + n ≤ 4096 }
    ensures { result ≡ lacks kind addr n }
{
    match kind {
        ClockKind::None => touches(RECEIVE_PORT0, CLOCKS_END, addr, n),
        ClockKind::R32 => {
            touches(SYSTEM_TIME, RECEIVE_UNIT, addr, n) || touches(OFFSET, CLOCKS_END, addr, n)
        }
        ClockKind::C32 | ClockKind::C64 => false,
    }
}

/// Whether an access is refused: it has no byte, goes past the registers, or touches some that the slave lacks.
pub(crate) fn is_refused(kind: ClockKind, addr: usize, n: usize) -> bool
    ensures { result ≡ is_refused kind addr n }
{
    n == 0 || n > SIZE || addr > SIZE - n || lacks(kind, addr, n)
}

/// Whether a write makes the ports latch their receive times: it has a byte of that of port 0.
pub(crate) fn latches(addr: usize, bytes: &[u8]) -> bool
    requires { addr + length bytes.now ≤ 4096 }
    ensures { result ≡ latches addr bytes.now }
{
    touches(RECEIVE_PORT0, RECEIVE_PORT1, addr, bytes.len())
}

/// The system time that a write brings, in ns: the lower half of the register, where the write has all of it.
pub(crate) fn received(addr: usize, bytes: &[u8]) -> Option<T32>
    requires { addr + length bytes.now ≤ 4096 }
    ensures { result ≡ received_by addr bytes.now }
{
    if covers(SYSTEM_TIME, 4, addr, bytes.len()) {
        let time = u32::load(bytes, SYSTEM_TIME - addr);
        Some(T32::cut(u64::from(time)))
    } else {
        None
    }
}

/// Whether a write is one of the system time and the receive time behind it alone, as each drift frame has it. Both are
/// the slave's own, so that it stores nothing, and tells a system time at most.
pub(crate) fn is_own_time(addr: usize, n: usize) -> bool
    requires { addr + n ≤ 4096 }
    ensures { result ≡ (nat_le 0x0910 addr && nat_le (addr + n) 0x0920) }
{
    SYSTEM_TIME <= addr && addr + n <= OFFSET
}

/// How many ticks there are to a correction after a write of the start of the speed counter: a 64th of it.
pub(crate) fn rate(addr: usize, bytes: &[u8]) -> Option<u8>
    requires { addr + length bytes.now ≤ 4096 }
    ensures { result ≡ rate_by addr bytes.now }
{
    if !covers(SPEED_START, 2, addr, bytes.len()) {
        return None;
    }
    let speed = u16::load(bytes, SPEED_START - addr);
    if LEAST_SPEED <= speed && speed <= MOST_SPEED {
        Some((speed / 64) as u8)
    } else {
        None
    }
}

/// The activation byte that a write brings.
pub(crate) fn activation(addr: usize, bytes: &[u8]) -> Option<u8>
    requires { addr + length bytes.now ≤ 4096 }
    ensures { result ≡ activation_by addr bytes.now }
{
    if covers(ACTIVATION, 1, addr, bytes.len()) {
        Some(bytes[ACTIVATION - addr])
    } else {
        None
    }
}

/// What the features register says of such a slave.
pub(crate) fn features(kind: ClockKind) -> u16
    ensures { result ≡ features kind }
{
    match kind {
        ClockKind::None => 0x0000,
        ClockKind::C32 | ClockKind::R32 => 0x0004,
        ClockKind::C64 => 0x000C,
    }
}

/// The bytes that a register of `n` bytes has on such a slave.
pub(crate) fn held(kind: ClockKind, n: usize) -> usize
    ensures is { result ≡ held kind n }
    ensures within { result ≤ n }
{
    match kind {
        ClockKind::C64 => n,
        ClockKind::None | ClockKind::C32 | ClockKind::R32 => { if n == 8 { 4 } else { n } }
    }
}

/// Whether a write stores bytes of such a register, where a speed that it brings is in its range or not.
fn stores(writes: Writing, in_range: bool) -> bool
    ensures { result ≡ stores in_range writes }
{
    match writes {
        Writing::Ignored => false,
        Writing::Stored => true,
        Writing::StoredInRange => in_range,
    }
}

/// Lays bytes over others, where both have one: `under` begins at the address `at`, `over` at `addr`.
pub(crate) fn overlay(under: &mut [u8], at: usize, over: &[u8], addr: usize)
    requires under { at + length under.old ≤ 4096 }
    requires over { addr + length over.now ≤ 4096 }
    ensures { (k : ℕ) → k < length under.old
        → slice_index under.new k ≡ (if is_within (at + k) addr (length over.now) then slice_index over.now
        (at + k - addr) else slice_index under.old k) }
{
    let low = at.max(addr);
    let high = (at + under.len()).min(addr + over.len());
    if low < high {
        under[low - at..high - at].copy_from_slice(&over[low - addr..high - addr]);
    }
}

/// Stores those of the bytes from `addr` on that stand among the `n` bytes from `at` on.
fn store_in(held: &mut [u8], at: usize, n: usize, addr: usize, bytes: &[u8])
    requires size { length held.old ≡ 4096 }
    requires place { at + n ≤ 4096 }
    requires bytes { addr + length bytes.now ≤ 4096 }
    ensures { (a : ℕ) → slice_index held.new a
        ≡ (if is_within a addr (length bytes.now) && is_within a at n then slice_index bytes.now (a - addr) else slice_index held.old a) }
{
    overlay(&mut held[at..at + n], at, bytes, addr);
}

/// The bytes of all registers after a write that is not refused.
pub(crate) fn store_bytes(
    kind: ClockKind,
    in_range: bool,
    bytes_held: &mut [u8],
    addr: usize,
    bytes: &[u8],
)
    requires size { length bytes_held.old ≡ 4096 }
    requires room { addr + length bytes.now ≤ 4096 }
    ensures { bytes_held.new ≡ stored_bytes kind in_range addr bytes.now bytes_held.old }
{
    let rows = rows();
    for row in rows {
        let (at, n, writes) = *row;
        if stores(writes, in_range) {
            store_in(bytes_held, at, held(kind, n), addr, bytes);
        }
    }
}
