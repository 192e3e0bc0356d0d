ghost use Rattle.std.specs.Prelude.{◌≡◌, ℕ, ◌%◌, ◌^◌};
ghost use Rattle.wrap_time.specs.Extended.{extended};
ghost use Rattle.wrap_time.specs.NearNumbers.{AreNear};

use crate::clock_word::ClockWord;
use crate::word32::T32;
use crate::word64::T64;

/// The time of 64 bits whose low half is `low` and that is next to `expected`, both in ns. It is the
/// time that `low` was taken of wherever that is less than 2^31 ns, or 2.1 s, from the expected one.
pub fn extend(low: T32, expected: u64) -> u64
    ensures is { result ≡ extended low expected }
    ensures low_half { result % 2 ^ 32 ≡ low }
    ensures near { (u : ℕ) → AreNear 32 u expected → low ≡ u % 2 ^ 32 → result ≡ u % 2 ^ 64 }
{
    let ahead = low.diff(T64::cut(expected).low());
    expected.wrapping_add(ahead.cast_unsigned())
}
