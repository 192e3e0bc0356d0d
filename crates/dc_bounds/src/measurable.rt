ghost use Rattle.std.specs.Prelude.{◌≡◌, ◌<◌, length, IfSome};
ghost use Rattle.cable_tree.specs.FrameOrder.{order};
ghost use Rattle.dc_bounds.specs.Measurable.{unmeasurable};
ghost use Rattle.dc_bounds.specs.Weight.{flag};

use crate::measuring::is_measurable;
use cable_tree::Tree;

/// The first slave in frame order that cannot be measured: it measures, it is not the first one that
/// does, and above it none measures, or between it and the nearest one that does stands a slave with
/// more than one child. None comes exactly where there is no such slave. `measuring` says of each row
/// whether the slave latches receive times.
pub fn unmeasurable(tree: &Tree, measuring: &[bool]) -> Option<u16>
    requires { length measuring.now ≡ length tree.now }
    ensures is { result ≡ unmeasurable tree.now (flag measuring.now) (order tree.now) }
    ensures row { IfSome result (λ r. r < length tree.now) }
{
    let mut is_first = true;
    for row in tree.order() {
        if measuring.get(usize::from(*row)) != Some(&true) {
            continue;
        }
        if !is_first && !is_measurable(tree, measuring, *row) {
            return Some(*row);
        }
        is_first = false;
    }
    None
}
