// The measured delays, by what was learned.
ghost use Rattle.std.specs.Prelude.{◌≡◌, ◌≤◌, ℕ, length, map, Ok};
ghost use Rattle.dc_bounds.specs.Weight.{flag};
ghost use Rattle.dc_delay.specs.Latched.{measures};
ghost use Rattle.master_script.specs.Slaves.{is_measuring, judgement, tree_told};
ghost use Rattle.master_script.specs.Words.{delays_by};
ghost use Rattle.master_frames.specs.Known.{words_of};

use crate::judgement::clocks;
use crate::learned::Learned;
use dc_delay::{DelayList, Kind, delays};
use dc_topology::Shape;

/// Computes the delays from the receive times of all slaves that measure, where these were judged and not refused. It says
/// nothing of how near they are to the true ones.
pub fn measure_delays(kinds: &[Kind], learned: &Learned, shape: &Shape, out: &mut DelayList)
    requires whole { length shape.now ≡ length (words_of learned.now).slaves }
    requires kinds { length kinds.now ≡ length (words_of learned.now).slaves }
    requires latches { length (words_of learned.now).latches ≡ length (words_of learned.now).slaves }
    requires few { length (words_of learned.now).slaves ≤ 256 }
    requires tree { tree_told (words_of learned.now).slaves ≡ Ok shape.now }
    requires judged { (r : ℕ) × (judgement (words_of learned.now).slaves ≡ Ok r) }
    requires latched { (p : ℕ) → measures (words_of learned.now).latches p ≡ flag (map is_measuring (words_of learned.now).slaves) p }
    ensures { out.new.items ≡ delays_by kinds.now (words_of learned.now) }
{
    let _ = delays(
        shape,
        kinds,
        &learned.latches,
        &clocks(&learned.slaves),
        out,
    );
}
