//! Laws over the definitions alone, for proofs of the layers above.

ghost use Rattle.std.specs.Prelude.{◌≡◌, ℕ, ◌<◌, ◌≤◌, List};
ghost use Rattle.std.specs.List.{Contains};
ghost use Rattle.segment_file.specs.Segment.{SegmentValue};
ghost use Rattle.edge_report.specs.Spread.{allowed_between, allowed_of, spread_between, spread_of};
ghost use Rattle.edge_report.specs.declared.slave_edge.SlaveEdge.{SlaveEdge};

/// No two edges of a list are apart by more than its spread, and none have a window above its window. A spread
/// above 0 is that of two of them, and so is such a window. Where every two lie within their window, the spread
/// is at most the window.
pub fn the_greatest_pair()
    ensures spread { (s : SegmentValue) (edges : List SlaveEdge) (a b : SlaveEdge) → Contains edges a → Contains edges b
        → spread_between s a b ≤ spread_of s edges }
    ensures window { (s : SegmentValue) (edges : List SlaveEdge) (a b : SlaveEdge) → Contains edges a → Contains edges b
        → allowed_between s a b ≤ allowed_of s edges }
    ensures spread_reached { (s : SegmentValue) (edges : List SlaveEdge) → 0 < spread_of s edges
        → (a : SlaveEdge) × (b : SlaveEdge) × Contains edges a × Contains edges b × (spread_between s a b ≡ spread_of s edges) }
    ensures window_reached { (s : SegmentValue) (edges : List SlaveEdge) → 0 < allowed_of s edges
        → (a : SlaveEdge) × (b : SlaveEdge) × Contains edges a × Contains edges b × (allowed_between s a b ≡ allowed_of s edges) }
    ensures within { (s : SegmentValue) (edges : List SlaveEdge)
        → ((a b : SlaveEdge) → Contains edges a → Contains edges b → spread_between s a b ≤ allowed_between s a b)
        → spread_of s edges ≤ allowed_of s edges }
{}
