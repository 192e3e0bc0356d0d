ghost use Rattle.std.specs.Prelude.{◌≡◌};
ghost use Rattle.dc_delay.specs.Table.{connected_at};

use crate::kind::Kind;
use crate::latch::Latch;
use cable_tree::{Above, Port};

// At which of its ports another slave hangs.
#[derive(Clone, Copy, Debug)]
pub(crate) struct Connected {
    pub(crate) p1: bool,
    pub(crate) p2: bool,
    pub(crate) p3: bool,
}

impl Connected {
    pub(crate) fn at(self, port: Port) -> bool
        ensures { result ≡ connected_at self port }
    {
        match port {
            Port::P1 => self.p1,
            Port::P2 => self.p2,
            Port::P3 => self.p3,
        }
    }
}

// All that is known of a slave.
#[derive(Clone, Copy, Debug)]
pub(crate) struct Slave {
    pub(crate) above: Option<Above>,
    pub(crate) kind: Kind,
    pub(crate) latch: Option<Latch>,
    pub(crate) connected: Connected,
}

impl Default for Slave {
    ghost use Rattle.std.specs.Prelude.{◌≡◌};
    ghost use Rattle.dc_delay.specs.Table.{no_slave};

    ghost is_default = { λ x. x ≡ no_slave };

    // It hangs nowhere, and does not measure.
    fn default() -> Slave {
        Slave {
            above: None,
            kind: Kind { tp_ns: 0, tf_ns: 0 },
            latch: None,
            connected: Connected {
                p1: false,
                p2: false,
                p3: false,
            },
        }
    }
}
