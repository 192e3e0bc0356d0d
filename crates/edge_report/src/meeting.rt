ghost use Rattle.std.specs.Prelude.{◌≡◌};
ghost use Rattle.edge_report.specs.InsideSpread.{no_edge, reach, turned, with_own};

use crate::extremes::Extremes;

/// The edges of an index so far, where they come by position: those of the slave that came last, and those
/// of the slaves before it.
#[derive(Clone, Copy, Debug)]
pub(crate) struct Meeting {
    pub(crate) position: u16,
    pub(crate) own: Extremes,
    pub(crate) earlier: Extremes,
}

impl Meeting {
    /// Of no edge.
    pub(crate) fn new() -> Meeting
        ensures { result ≡ no_edge }
    {
        Meeting {
            position: 0,
            own: Extremes::none(),
            earlier: Extremes::none(),
        }
    }

    fn turned(self, position: u16) -> Meeting
        ensures { result ≡ turned position self }
    {
        if self.position == position {
            self
        } else {
            Meeting {
                position,
                own: Extremes::none(),
                earlier: self.earlier.joined(self.own),
            }
        }
    }

    /// Takes an edge of the slave at a position, and tells how far it is from the farthest one of the slaves
    /// before it.
    pub(crate) fn meet(&mut self, position: u16, instant: u128) -> u128
        ensures met { self.new ≡ with_own instant (turned position self.old) }
        ensures reach { result ≡ reach instant (turned position self.old).earlier }
    {
        let mut meeting = self.turned(position);
        meeting.own = meeting.own.joined(Extremes::at(instant));
        *self = meeting;
        meeting.earlier.reach(instant)
    }
}
