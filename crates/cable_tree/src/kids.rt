ghost use Rattle.std.specs.Prelude.{◌≡◌, Some, false};
ghost use Rattle.cable_tree.specs.Kept.{kid_at};
ghost use Rattle.cable_tree.specs.declared.port.Port.{Port};
ghost use Rattle.cable_tree.specs.FrameOrder.{is_port};

use crate::port::Port;

// The rows that hang at the ports of a row.
#[derive(Clone, Copy, Debug)]
pub(crate) struct Kids {
    first: Option<u16>,
    second: Option<u16>,
    third: Option<u16>,
}

impl Kids {
    // No port is connected.
    pub(crate) fn none() -> Kids
        ensures { (p : Port) → kid_at result p ≡ None }
    {
        Kids {
            first: None,
            second: None,
            third: None,
        }
    }

    // The row at a port.
    pub(crate) fn at(&self, port: Port) -> Option<u16>
        ensures { result ≡ kid_at self.now port }
    {
        match port {
            Port::P1 => self.first,
            Port::P2 => self.second,
            Port::P3 => self.third,
        }
    }

    // The same with a row at a port.
    pub(crate) fn with(self, port: Port, row: u16) -> Kids
        ensures here { kid_at result port ≡ Some row }
        ensures elsewhere { (p : Port) → is_port port p ≡ false → kid_at result p ≡ kid_at self p }
    {
        let row = Some(row);
        match port {
            Port::P1 => Kids { first: row, ..self },
            Port::P2 => Kids {
                second: row,
                ..self
            },
            Port::P3 => Kids { third: row, ..self },
        }
    }
}
