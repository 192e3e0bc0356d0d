ghost use Rattle.std.specs.Prelude.{◌≡◌, ℕ, ◌+◌, ◌/◌, ◌%◌, ◌^◌, ◌<◌, ◌≤◌, pos, unsigned_abs};
ghost use Rattle.local_clock.specs.StepRule.{elapsed, steered};
ghost use Rattle.local_clock.specs.AtOnce.{done, counted, share_of};

// How many corrections k ticks bring, and the ticks after the last of them.
fn corrections(size: u64, count: u8, g: u8, share: u64, k: u64) -> (u64, u8)
    requires below { count < g }
    requires share { share ≡ share_of g }
    ensures done { result.0 ≡ done g size count k }
    ensures counted { result.1 ≡ counted g size count k }
    ensures within { result.0 ≤ size }
    ensures below { result.1 < g }
    ensures rests { result.0 ≡ size → result.1 ≡ 0 }
{
    let (rounds, rest) = rounds(count, g, share, k);
    if rounds < size {
        (rounds, rest)
    } else {
        (size, 0)
    }
}

/// What ticks are multiplied by in place of a division by g.
pub(crate) fn share(g: u8) -> u64
    requires { 1 ≤ g }
    ensures { result ≡ share_of g }
{
    (1 << 32) / u64::from(g) + 1
}

// How often the ticks come to g in k more of them, and the ticks after the last time.
fn rounds(count: u8, g: u8, share: u64, k: u64) -> (u64, u8)
    requires below { count < g }
    requires share { share ≡ share_of g }
    ensures rounds { result.0 ≡ (count + k) / g }
    ensures rest { result.1 ≡ (count + k) % g }
{
    if k >= 1 << 23 {
        return rounds_of_many(count, g, k);
    }
    // The rounding of the share does not show for so few ticks.
    let ticks = u64::from(count) + k;
    let rounds = ticks * share / (1 << 32);
    let rest = ticks - rounds * u64::from(g);
    (rounds, rest as u8)
}

// The same, by a division.
fn rounds_of_many(count: u8, g: u8, k: u64) -> (u64, u8)
    requires { count < g }
    ensures rounds { result.0 ≡ (count + k) / g }
    ensures rest { result.1 ≡ (count + k) % g }
{
    let every = u64::from(g);
    let whole = k / every;
    let rest = u64::from(count) + k % every;
    if rest < every {
        (whole, rest as u8)
    } else {
        (whole + 1, (rest - every) as u8)
    }
}

/// The nanoseconds of k ticks, what they leave to correct, and the ticks after the last correction.
pub(crate) fn ticked(left: i64, count: u8, g: u8, share: u64, k: u64) -> (u128, i64, u8)
    requires small { unsigned_abs left ≤ 2 ^ 31 }
    requires below { count < g }
    requires rests { left ≡ pos 0 → count ≡ 0 }
    requires share { share ≡ share_of g }
    ensures elapsed { result.0 ≡ elapsed g k (record { left = left; count = count }) }
    ensures left { result.1 ≡ (steered g k (record { left = left; count = count })).left }
    ensures count { result.2 ≡ (steered g k (record { left = left; count = count })).count }
    ensures steady { (result.2 < g) × (result.1 ≡ pos 0 → result.2 ≡ 0) × (unsigned_abs result.1 ≤ 2 ^ 31) }
{
    let (done, count) = corrections(left.unsigned_abs(), count, g, share, k);
    let ticks = 10 * u128::from(k);
    if left > 0 {
        (ticks - u128::from(done), left - done as i64, count)
    } else {
        (ticks + u128::from(done), left + done as i64, count)
    }
}

/// The least number of ticks that take at least so many nanoseconds.
pub(crate) fn ticks_to_pass(left: i64, count: u8, g: u8, share: u64, gap: u64) -> u64
    requires small { unsigned_abs left ≤ 2 ^ 31 }
    requires below { count < g }
    requires rests { left ≡ pos 0 → count ≡ 0 }
    requires share { share ≡ share_of g }
    ensures reached { gap ≤ elapsed g result (record { left = left; count = count }) }
    ensures least { (j : ℕ) → j < result → elapsed g j (record { left = left; count = count }) < gap }
{
    // A tick is 9 to 11 ns, and all ticks together are off 10 ns each by no more than is left.
    let size = left.unsigned_abs();
    let mut low = (gap / 11).max(gap.saturating_sub(size) / 10);
    let mut high = (gap / 9 + 1).min(gap / 10 + size / 10 + 2);
    while low < high {
        let middle = low + (high - low) / 2;
        let (elapsed, _, _) = ticked(left, count, g, share, middle);
        if elapsed >= u128::from(gap) {
            high = middle;
        } else {
            low = middle + 1;
        }
    }
    low
}
