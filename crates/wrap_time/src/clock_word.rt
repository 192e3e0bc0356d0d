ghost use Rattle.std.specs.Prelude.{◌≡◌, ℕ, ◌+◌, ◌%◌, ◌^◌, ◌<◌, ◌⊎◌, pos, ◌-ℤ◌};
ghost use Rattle.wrap_time.specs.WordDifference.{word_difference};
ghost use Rattle.wrap_time.specs.WordLess.{word_less};
ghost use Rattle.wrap_time.specs.NearNumbers.{AreNear};

use crate::word32::T32;

/// A time in nanoseconds that wraps at `WIDTH` bits, which are 32 or 64.
///
/// Code that is generic over it is proved once for both kinds of clock.
pub trait ClockWord: Copy {
    ghost WIDTH: { ℕ };

    /// The number of bits.
    const WIDTH: u32;

    /// The number of a word.
    ghost number: { Self → ℕ };

    /// The word of a number, for structs that hold a word.
    ghost word: { ℕ → Self };

    /// The word of a time: what a clock of this width shows at it.
    fn cut(value: u64) -> Self
        ensures { number result ≡ value % 2 ^ WIDTH };

    /// The number of the word.
    fn value(self) -> u64
        ensures number { result ≡ number self }
        ensures fits { number self < 2 ^ WIDTH };

    /// The word `ns` later.
    fn add(self, ns: u64) -> Self
        ensures { number result ≡ (number self + ns) % 2 ^ WIDTH };

    /// The word `ns` earlier.
    fn sub(self, ns: u64) -> Self
        ensures is { number result ≡ word_less WIDTH (number self) ns }
        ensures back { (number result + ns) % 2 ^ WIDTH ≡ number self };

    /// How far this word is ahead of the other, in ns: negative where it is behind. This is the
    /// difference of the times as long as they are less than half the range apart.
    fn diff(self, other: Self) -> i64
        ensures is { result ≡ word_difference WIDTH (number self) (number other) }
        ensures near { (u v : ℕ) → AreNear WIDTH u v → number self ≡ u % 2 ^ WIDTH → number other ≡ v % 2 ^ WIDTH
            → result ≡ pos u -ℤ pos v };

    /// The low 32 bits, which is what the receive time of a port has.
    fn low(self) -> T32
        ensures { result ≡ number self % 2 ^ 32 };

    ghost word_of_number: { (x : Self) → word (number x) ≡ x };

    ghost width_known: { (WIDTH ≡ 32) ⊎ (WIDTH ≡ 64) };
}
