ghost use Rattle.std.specs.Prelude.{◌≡◌, ℕ, ◌+◌, ◌^◌, ◌<◌, ◌≤◌, length};
ghost use Rattle.esc_regs.specs.RegisterBytes.{number_at, with_number};

use byteorder::{ByteOrder, LittleEndian};

/// A number of 1, 2, 4 or 8 bytes that registers hold, its lowest byte first.
pub trait RegWord: Copy {
    ghost BYTES: { ℕ };

    /// The number of bytes.
    const BYTES: usize;

    /// The number.
    ghost number: { Self → ℕ };

    /// The number of the `BYTES` bytes from `at` on.
    fn load(bytes: &[u8], at: usize) -> Self
        requires { at + BYTES ≤ length bytes.now }
        ensures number { number result ≡ number_at BYTES at bytes.now }
        ensures fits { number result < 256 ^ BYTES };

    /// Writes the `BYTES` bytes from `at` on, and no others.
    fn store(self, bytes: &mut [u8], at: usize)
        requires { at + BYTES ≤ length bytes.old }
        ensures bytes { bytes.new ≡ with_number BYTES at (number self) bytes.old }
        ensures fits { number self < 256 ^ BYTES };

    ghost same: { (x y : Self) → number x ≡ number y → x ≡ y };
}

impl RegWord for u8 {
    ghost BYTES = { 1 };

    const BYTES: usize = 1;

    ghost number = { λ x. x };

    ghost same = { λ x y e. e };

    #[tactic(auto, unfolding(crate::specs::RegisterBytes::number_at))]
    fn load(bytes: &[u8], at: usize) -> Self {
        bytes[at]
    }

    #[tactic(auto, unfolding(crate::specs::RegisterBytes::with_number))]
    fn store(self, bytes: &mut [u8], at: usize) {
        bytes[at] = self;
    }
}

impl RegWord for u16 {
    ghost BYTES = { 2 };

    const BYTES: usize = 2;

    ghost number = { λ x. x };

    ghost same = { λ x y e. e };

    #[tactic(auto, unfolding(crate::specs::RegisterBytes::number_at))]
    fn load(bytes: &[u8], at: usize) -> Self {
        LittleEndian::read_u16(&bytes[at..])
    }

    #[tactic(auto, unfolding(crate::specs::RegisterBytes::with_number))]
    fn store(self, bytes: &mut [u8], at: usize) {
        LittleEndian::write_u16(&mut bytes[at..at + 2], self);
    }
}

impl RegWord for u32 {
    ghost BYTES = { 4 };

    const BYTES: usize = 4;

    ghost number = { λ x. x };

    ghost same = { λ x y e. e };

    #[tactic(auto, unfolding(crate::specs::RegisterBytes::number_at))]
    fn load(bytes: &[u8], at: usize) -> Self {
        LittleEndian::read_u32(&bytes[at..])
    }

    #[tactic(auto, unfolding(crate::specs::RegisterBytes::with_number))]
    fn store(self, bytes: &mut [u8], at: usize) {
        LittleEndian::write_u32(&mut bytes[at..at + 4], self);
    }
}

impl RegWord for u64 {
    ghost BYTES = { 8 };

    const BYTES: usize = 8;

    ghost number = { λ x. x };

    ghost same = { λ x y e. e };

    #[tactic(auto, unfolding(crate::specs::RegisterBytes::number_at))]
    fn load(bytes: &[u8], at: usize) -> Self {
        LittleEndian::read_u64(&bytes[at..])
    }

    #[tactic(auto, unfolding(crate::specs::RegisterBytes::with_number))]
    fn store(self, bytes: &mut [u8], at: usize) {
        LittleEndian::write_u64(&mut bytes[at..at + 8], self);
    }
}
