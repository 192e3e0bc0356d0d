ghost use Rattle.std.specs.Prelude.{ℕ};

use crate::clock_word::ClockWord;
use std::marker::Model;

/// A time of 32 bits: a receive time, or the time of a 32-bit clock. It wraps after 4.29 s.
#[derive(Clone, Copy, Debug, PartialEq, Eq)]
pub struct T32(u32);

impl Model for T32 {
    ghost Value = { ℕ };

    ghost view = { λ t. t.0 };

    ghost inverse = { λ n. record { 0 = n } };
}

impl ClockWord for T32 {
    ghost use Rattle.std.proofs.Common.{inl, refl};

    ghost WIDTH = { 32 };

    const WIDTH: u32 = 32;

    ghost number = { λ t. t };

    ghost word = { λ n. n };

    ghost word_of_number = { λ x. refl };

    ghost width_known = { inl refl };

    fn cut(value: u64) -> Self {
        T32((value % (1 << 32)) as u32)
    }

    fn value(self) -> u64 {
        u64::from(self.0)
    }

    fn add(self, ns: u64) -> Self {
        T32(self.0.wrapping_add((ns % (1 << 32)) as u32))
    }

    #[tactic(auto, using(crate::proofs::Cuts::less_and_back))]
    fn sub(self, ns: u64) -> Self {
        T32(self.0.wrapping_sub((ns % (1 << 32)) as u32))
    }

    #[tactic(auto, using(crate::proofs::Near::word_difference_near))]
    fn diff(self, other: Self) -> i64 {
        i64::from(self.0.wrapping_sub(other.0).cast_signed())
    }

    fn low(self) -> T32 {
        self
    }
}
