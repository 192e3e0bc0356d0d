ghost use Rattle.std.specs.Prelude.{◌≡◌, ◌<◌, ◌≤◌, ◌^◌, Some};
ghost use Rattle.dc_topology.specs.Listed.{port_number};
ghost use Rattle.dc_delay.specs.Latched.{lap_of};

use cable_tree::Port;
use wrap_time::{ClockWord, T32};

/// The receive times that a slave latched of one frame, in ns of its own clock.
#[derive(Clone, Copy, Debug, PartialEq, Eq)]
pub struct Latch {
    /// When the frame came in at ports 0 to 3 (ESC data sheet, 0x0900). Those of ports that are not
    /// connected say nothing.
    pub ports: [T32; 4],
    /// When it came to the processing unit (0x0918).
    pub unit: u64,
}

impl Latch {
    // From the frame's arrival until it came back into a port, as far as 32 bits tell.
    pub(crate) fn lap(&self, port: Port) -> u64
        ensures is { result ≡ lap_of (Some self.now) port }
        ensures few { result < 2 ^ 32 }
    {
        let back = self.ports[port_number(port)];
        let arrival = self.ports[0];
        back.sub(arrival.value()).value()
    }
}

fn port_number(port: Port) -> usize
    ensures is { result ≡ port_number port }
    ensures few { result ≤ 3 }
{
    match port {
        Port::P1 => 1,
        Port::P2 => 2,
        Port::P3 => 3,
    }
}
