ghost use Rattle.std.specs.Prelude.{ℕ};

use crate::clock_word::ClockWord;
use crate::word32::T32;
use std::marker::Model;

/// A time of 64 bits: that of a 64-bit clock. It wraps after 584 years.
#[derive(Clone, Copy, Debug, PartialEq, Eq)]
pub struct T64(u64);

impl Model for T64 {
    ghost Value = { ℕ };

    ghost view = { λ t. t.0 };

    ghost inverse = { λ n. record { 0 = n } };
}

impl ClockWord for T64 {
    ghost use Rattle.std.proofs.Common.{inr, refl};

    ghost WIDTH = { 64 };

    const WIDTH: u32 = 64;

    ghost number = { λ t. t };

    ghost word = { λ n. n };

    ghost word_of_number = { λ x. refl };

    ghost width_known = { inr refl };

    fn cut(value: u64) -> Self {
        T64(value)
    }

    fn value(self) -> u64 {
        self.0
    }

    fn add(self, ns: u64) -> Self {
        T64(self.0.wrapping_add(ns))
    }

    #[tactic(auto, using(crate::proofs::Cuts::less_and_back))]
    fn sub(self, ns: u64) -> Self {
        T64(self.0.wrapping_sub(ns))
    }

    #[tactic(auto, using(crate::proofs::Near::word_difference_near))]
    fn diff(self, other: Self) -> i64 {
        self.0.wrapping_sub(other.0).cast_signed()
    }

    fn low(self) -> T32 {
        T32::cut(self.0)
    }
}
