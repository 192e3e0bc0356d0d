ghost use Rattle.std.specs.Prelude.{◌≡◌, ◌*◌, ◌≤◌, ◌↔◌, IfSome, IsSome};
ghost use Rattle.cable_tree.specs.Row.{IsRow};

use crate::port::Above;
use std::marker::Model;

/// The least and the greatest forwarding delay, in ns.
const FORWARD_NS: (u16, u16) = (1, 10_000);

/// The longest cable, in ps: 100 µs, which is far beyond any cable.
const LONGEST_PS: u32 = 100_000_000;

/// A slave as a row of a segment: where it hangs, how long it keeps a frame, and the delay of the
/// cable towards its parent, or towards the master.
#[derive(Clone, Copy, Debug, PartialEq, Eq)]
pub struct TreeRow {
    above: Option<Above>,
    tp_ns: u16,
    tf_ns: u16,
    cable_ps: u32,
}

impl Model for TreeRow {
    ghost use Rattle.cable_tree.specs.Row.{Row};

    ghost Value = { Row };

    ghost use Rattle.cable_tree.specs.InsideRow.{row_of, inside_of, IsKept};

    ghost view = { row_of };

    ghost invariant = { IsKept };

    ghost inverse = { inside_of };
}

impl TreeRow {
    /// The row of these numbers. `tp_ns` is the delay from port 0 through the processing unit to the
    /// first port out, and `tf_ns` that of every later forwarding. None comes exactly where one of them
    /// is outside 1 to 10,000 ns or the cable is above 100,000,000 ps.
    pub fn new(above: Option<Above>, tp_ns: u16, tf_ns: u16, cable_ps: u32) -> Option<TreeRow>
        ensures is { IfSome result (λ row. row ≡ record {
          above = above;
          tp_ns = tp_ns;
          tf_ns = tf_ns;
          cable_ps = cable_ps;
        }) }
        ensures some { IsSome result ↔ IsRow (record {
          above = above;
          tp_ns = tp_ns;
          tf_ns = tf_ns;
          cable_ps = cable_ps;
        }) }
    {
        let (least, most) = FORWARD_NS;
        let fits = least <= tp_ns && tp_ns <= most && least <= tf_ns && tf_ns <= most;
        if !fits || cable_ps > LONGEST_PS {
            return None;
        }
        Some(TreeRow {
            above,
            tp_ns,
            tf_ns,
            cable_ps,
        })
    }

    // Where the slave hangs.
    pub(crate) fn above(&self) -> Option<Above>
        ensures above { result ≡ self.now.above }
        ensures fits { IsRow self.now }
    {
        self.above
    }

    // The delay of the processing unit.
    pub(crate) fn tp_fs(&self) -> u64
        ensures is { result ≡ 1000000 * self.now.tp_ns }
        ensures most { result ≤ 10000000000 }
    {
        u64::from(self.tp_ns) * 1_000_000
    }

    // The delay of a later forwarding.
    pub(crate) fn tf_fs(&self) -> u64
        ensures is { result ≡ 1000000 * self.now.tf_ns }
        ensures most { result ≤ 10000000000 }
    {
        u64::from(self.tf_ns) * 1_000_000
    }

    // The delay of the cable, one way.
    pub(crate) fn cable_fs(&self) -> u64
        ensures is { result ≡ 1000 * self.now.cable_ps }
        ensures most { result ≤ 100000000000 }
    {
        u64::from(self.cable_ps) * 1000
    }
}
