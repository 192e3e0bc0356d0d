ghost use Rattle.std.specs.Prelude.{◌≡◌};
ghost use Rattle.edge_report.specs.InsideSpread.{at_instant, joined, no_instant, reach};

/// The least and the greatest of some instants (fs).
#[derive(Clone, Copy, Debug)]
pub(crate) struct Extremes {
    pub(crate) least: u128,
    pub(crate) greatest: u128,
}

impl Extremes {
    /// Of no instant.
    pub(crate) fn none() -> Extremes
        ensures { result ≡ no_instant }
    {
        Extremes {
            least: u128::MAX,
            greatest: 0,
        }
    }

    /// Of one instant.
    pub(crate) fn at(instant: u128) -> Extremes
        ensures { result ≡ at_instant instant }
    {
        Extremes {
            least: instant,
            greatest: instant,
        }
    }

    /// Of the instants of both.
    pub(crate) fn joined(self, other: Extremes) -> Extremes
        ensures { result ≡ joined self other }
    {
        Extremes {
            least: self.least.min(other.least),
            greatest: self.greatest.max(other.greatest),
        }
    }

    /// How far an instant is from the farthest of them.
    pub(crate) fn reach(self, instant: u128) -> u128
        ensures { result ≡ reach instant self }
    {
        self.greatest
            .saturating_sub(instant)
            .max(instant.saturating_sub(self.least))
    }
}
