//! Laws over the definitions alone, for proofs of the layers above.

ghost use Rattle.std.specs.Prelude.{◌≡◌, ℕ, ◌+◌, ◌-◌, ◌%◌, ◌^◌, ◌<◌, ◌≤◌, pos, ◌-ℤ◌};
ghost use Rattle.wrap_time.specs.WordDifference.{word_difference};
ghost use Rattle.wrap_time.specs.WordLess.{word_less};
ghost use Rattle.wrap_time.specs.NearNumbers.{AreNear};
ghost use Rattle.wrap_time.specs.Extended.{extended};

/// The words of whole numbers that are less than half of the range apart have the difference of the
/// numbers, at every width: so a clock may wrap between two readings, and their difference stands.
pub fn near_numbers()
    ensures { (w u v : ℕ) → 0 < w → AreNear w u v → word_difference w (u % 2 ^ w) (v % 2 ^ w) ≡ pos u -ℤ pos v }
{}

/// The word of a sum is the sum of the words, and that of a word and a number: a time that is moved
/// on may be cut before or after.
pub fn cuts_of_sums()
    ensures words { (w u n : ℕ) → (u % 2 ^ w + n % 2 ^ w) % 2 ^ w ≡ (u + n) % 2 ^ w }
    ensures number { (w u n : ℕ) → (u % 2 ^ w + n) % 2 ^ w ≡ (u + n) % 2 ^ w }
{}

/// The word of a difference is the word less the number.
pub fn cuts_of_differences()
    ensures { (w u n : ℕ) → n ≤ u → word_less w (u % 2 ^ w) n ≡ (u - n) % 2 ^ w }
{}

/// A word cut to fewer bits is the shorter word of the same time: what a 64-bit clock shows in its low
/// half is what a 32-bit clock shows.
pub fn cuts_of_cuts()
    ensures { (v w u : ℕ) → v ≤ w → u % 2 ^ w % 2 ^ v ≡ u % 2 ^ v }
{}

/// A number that is taken off a word and added again gives the word.
pub fn subtracted_and_back()
    ensures { (w a n : ℕ) → a < 2 ^ w → (word_less w a n + n) % 2 ^ w ≡ a }
{}

/// Two words of a clock that has come less than a whole range from one to the other differ by the
/// time between them: so two latched receive times may stand on both sides of a wrap.
pub fn latched_differences()
    ensures { (w x y : ℕ) → x ≤ y → y < x + 2 ^ w → word_less w (y % 2 ^ w) (x % 2 ^ w) ≡ y - x }
{}

/// An offset that makes the word `u` of a clock at the time z0 the word of e makes its word at any
/// later time z that of e and the time since.
pub fn offsets()
    ensures { (w e u z z0 : ℕ) → z0 ≤ z → z0 % 2 ^ w ≡ u → (z % 2 ^ w + word_less w e u) % 2 ^ w ≡ (e + (z - z0)) % 2 ^ w }
{}

/// The low half of a time becomes that time again, as a word of 64 bits, beside one that is less than
/// 2^31 from it.
pub fn times_extended()
    ensures { (u expected : ℕ) → AreNear 32 u expected → extended (u % 2 ^ 32) expected ≡ u % 2 ^ 64 }
{}
