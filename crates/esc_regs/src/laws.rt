//! Laws over the definitions alone, for proofs of the layers above.

ghost use Rattle.std.specs.Prelude.{◌≡◌, ℕ, ◌+◌, ◌-◌, ◌^◌, ◌<◌, ◌≤◌, IfSome, List, length, true, false};
ghost use Rattle.std.specs.Option.{is_some};
ghost use Rattle.esc_regs.specs.RegisterBytes.{number_at, with_number, AreApart, AreBytes};
ghost use Rattle.esc_regs.specs.RegisterAccess.{is_refused, is_writable, rate_by, Stores};
ghost use Rattle.esc_regs.specs.RegisterFile.{Registers, IsWhole, StartsBy};
ghost use Rattle.esc_regs.specs.RegisterTable.{is_register, is_wide};
ghost use Rattle.esc_regs.specs.RegisterWrite.{written};
ghost use Rattle.esc_regs.specs.ShownRegisters.{shown};
ghost use Rattle.esc_regs.specs.StartOfRegisters.{registers_at_start};
ghost use Rattle.esc_regs.specs.declared.clock_kind.ClockKind.{ClockKind};
ghost use Rattle.esc_regs.specs.declared.live.Live.{Live};

/// A number that was stored is loaded again.
pub fn load_after_store()
    ensures { (n at x : ℕ) (bytes : List ℕ) → at + n ≤ length bytes → x < 256 ^ n → number_at n at (with_number n at x bytes) ≡ x }
{}

/// What is stored at one place changes no number that has no byte there.
pub fn store_leaves_others()
    ensures { (m at x : ℕ) (bytes : List ℕ) (b n : ℕ) → at + m ≤ length bytes → AreApart at m b n
        → number_at n b (with_number m at x bytes) ≡ number_at n b bytes }
{}

/// What is stored leaves the number of bytes.
pub fn store_leaves_length()
    ensures { (n at x : ℕ) (bytes : List ℕ) → at + n ≤ length bytes → length (with_number n at x bytes) ≡ length bytes }
{}

/// A number of n bytes is below 256^n: so is each that stands in whole registers.
pub fn numbers_fit()
    ensures { (n at : ℕ) (bytes : List ℕ) → AreBytes bytes → number_at n at bytes < 256 ^ n }
{}

/// A register of 8 bytes holds the number of its lower half, where the clock does not have 64 bits.
pub fn narrow_numbers()
    ensures { (r : Registers) (addr : ℕ) → IsWhole r → is_wide r.kind ≡ false → is_register addr 8 ≡ true
        → number_at 8 addr r.bytes ≡ number_at 4 addr r.bytes }
{}

/// A write that is not refused stores each byte that is writable, and no other; so it leaves the
/// number of bytes.
pub fn write_stores()
    ensures { (r : Registers) (addr : ℕ) (bytes : List ℕ) → length r.bytes ≡ 4096 → is_refused r.kind addr (length bytes) ≡ false
        → Stores r.kind (is_some (rate_by addr bytes)) addr bytes r.bytes (written r addr bytes).bytes }
{}

/// A write leaves the kind.
pub fn write_leaves_kind()
    ensures { (r : Registers) (addr : ℕ) (bytes : List ℕ) → (written r addr bytes).kind ≡ r.kind }
{}

/// A write leaves each number that shares no byte with it, and each number none of whose bytes is
/// writable.
pub fn write_leaves_others()
    ensures apart { (r : Registers) (addr : ℕ) (bytes : List ℕ) (at n : ℕ) → length r.bytes ≡ 4096 → AreApart addr (length bytes) at n
        → number_at n at (written r addr bytes).bytes ≡ number_at n at r.bytes }
    ensures unwritable { (r : Registers) (addr : ℕ) (bytes : List ℕ) (at n : ℕ) → length r.bytes ≡ 4096
        → ((k : ℕ) → k < n → is_writable r.kind (is_some (rate_by addr bytes)) (at + k) ≡ false)
        → number_at n at (written r addr bytes).bytes ≡ number_at n at r.bytes }
{}

/// A write that has all bytes of a number, each of them writable, stores the number that it brings.
pub fn write_stores_numbers()
    ensures { (r : Registers) (addr : ℕ) (bytes : List ℕ) (at n : ℕ) → length r.bytes ≡ 4096 → is_refused r.kind addr (length bytes) ≡ false
        → addr ≤ at → at + n ≤ addr + length bytes → ((k : ℕ) → k < n → is_writable r.kind (is_some (rate_by addr bytes)) (at + k) ≡ true)
        → number_at n at (written r addr bytes).bytes ≡ number_at n (at - addr) bytes }
{}

/// The registers before the first frame are whole, and each of the table has its number there.
pub fn registers_start()
    ensures whole { (kind : ClockKind) → IsWhole (registers_at_start kind) }
    ensures numbers { (kind : ClockKind) → StartsBy kind (registers_at_start kind).bytes }
{}

/// Whole registers stay whole, whatever bytes are written, and are whole with any live numbers.
pub fn stay_whole()
    ensures written { (r : Registers) (addr : ℕ) (bytes : List ℕ) → IsWhole r → AreBytes bytes → IsWhole (written r addr bytes) }
    ensures shown { (live : Live) (r : Registers) → IsWhole r → IsWhole (shown live r) }
{}

/// A rate that a write tells is from 2 to 255.
pub fn rates_told()
    ensures { (addr : ℕ) (bytes : List ℕ) → IfSome (rate_by addr bytes) (λ g. (2 ≤ g) × (g ≤ 255)) }
{}
