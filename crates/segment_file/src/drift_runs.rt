ghost use Rattle.std.specs.Prelude.{◌≡◌, ◌≤◌};
ghost use Rattle.std.specs.List.{All};
ghost use Rattle.segment_file.specs.Runs.{first_run, is_run};

use loss_list::{LossList, LossRow, Phase};

/// The greatest number of a frame that is listed as lost.
const LAST_NUMBER: u32 = 100_000;

// Whether so many drift frames are lost from this number on.
fn is_run(losses: &LossList, count: u32, number: u32) -> bool
    requires { (count ≤ 16) × (number ≤ 100000) }
    ensures { result ≡ is_run losses.now count number }
{
    for ahead in 0..count {
        if !losses.lists(Phase::Drift, number + ahead) {
            return false;
        }
    }
    true
}

// The greatest number that is listed; 0 where none is.
fn last_listed(rows: &[LossRow]) -> u32
    ensures { All (λ row. row.number ≤ result) rows.now }
{
    let mut last = 0;
    for row in rows {
        last = last.max(row.number);
    }
    last
}

/// The first number from which on so many drift frames are lost.
pub(crate) fn first_run(losses: &LossList, count: u32) -> Option<u32>
    requires { count ≤ 16 }
    ensures { result ≡ first_run losses.now count }
{
    let last = last_listed(losses.rows());
    for number in 1..LAST_NUMBER + 1 {
        if is_run(losses, count, number) {
            return Some(number);
        }
        // A run begins at a number that is listed.
        if number > last {
            return None;
        }
    }
    None
}
