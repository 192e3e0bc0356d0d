ghost use Rattle.std.specs.Prelude.{◌≡◌, ◌≤◌, IfSome};
ghost use Rattle.frame_pass.specs.Invariants.{IsWithin};
ghost use Rattle.wire_sim.specs.Seen.{back};

use cable_tree::Port;
use std::marker::Model;

/// When a frame visits a slave, in fs from its sending on: at the processing unit, and back in each
/// connected port. No frame is on its way for more than 10 ms.
#[derive(Clone, Copy)]
pub(crate) struct Visits {
    arrive: u64,
    back3: Option<u64>,
    back1: Option<u64>,
    back2: Option<u64>,
}

impl Model for Visits {
    ghost use Rattle.frame_pass.specs.SlaveState as told;
    ghost use Rattle.frame_pass.specs.Invariants.{IsWithin};

    ghost Value = { told.Visits };

    ghost view = { λ a. record { arrive = a.arrive; back3 = a.back3; back1 = a.back1; back2 = a.back2 } };

    ghost invariant = { λ a. IsWithin 10000000000000 (record { arrive = a.arrive; back3 = a.back3; back1 = a.back1; back2 = a.back2 }) };

    ghost inverse = { λ v. record { arrive = v.arrive; back3 = v.back3; back1 = v.back1; back2 = v.back2 } };
}

impl Visits {
    /// In fs: the processing unit, and the ports 3, 1 and 2.
    pub(crate) fn new(
        arrive: u64,
        back3: Option<u64>,
        back1: Option<u64>,
        back2: Option<u64>,
    ) -> Visits
        requires { IsWithin 10000000000000 (record { arrive = arrive; back3 = back3; back1 = back1; back2 = back2 }) }
        ensures { result ≡ record { arrive = arrive; back3 = back3; back1 = back1; back2 = back2 } }
    {
        Visits {
            arrive,
            back3,
            back1,
            back2,
        }
    }

    /// When it comes to the processing unit.
    pub(crate) fn arrive(&self) -> u64
        ensures is { result ≡ self.now.arrive }
        ensures within { result ≤ 10000000000000 }
    {
        self.arrive
    }

    /// When it comes back into a port, `None` where that is not connected.
    pub(crate) fn back(&self, port: Port) -> Option<u64>
        ensures is { result ≡ back port self.now }
        ensures within { IfSome result (λ at. at ≤ 10000000000000) }
    {
        match port {
            Port::P1 => self.back1,
            Port::P2 => self.back2,
            Port::P3 => self.back3,
        }
    }
}
