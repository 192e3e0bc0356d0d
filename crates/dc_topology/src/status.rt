ghost use Rattle.std.specs.Prelude.{◌≡◌, ◌<◌, ◌≤◌};
ghost use Rattle.dc_topology.specs.DlStatus.{bit, is_connected, is_closed, is_formed};

/// Whether a port, 0 to 3, is connected.
pub(crate) fn is_connected(status: u16, port: u32) -> bool
    requires { port ≤ 3 }
    ensures { result ≡ is_connected status port }
{
    bit(status, 4 + port) && !bit(status, 8 + 2 * port) && bit(status, 9 + 2 * port)
}

fn is_closed(status: u16, port: u32) -> bool
    requires { port ≤ 3 }
    ensures { result ≡ is_closed status port }
{
    bit(status, 8 + 2 * port) && !bit(status, 9 + 2 * port)
}

fn bit(status: u16, place: u32) -> bool
    requires { place < 16 }
    ensures { result ≡ bit status place }
{
    (status >> place) % 2 == 1
}

/// Whether each port is connected or closed, and port 0 connected.
#[tactic(auto, unfolding(crate::specs::DlStatus::is_formed))]
pub(crate) fn is_formed(status: u16) -> bool
    ensures { result ≡ is_formed status }
{
    is_connected(status, 0)
        && (is_connected(status, 1) || is_closed(status, 1))
        && (is_connected(status, 2) || is_closed(status, 2))
        && (is_connected(status, 3) || is_closed(status, 3))
}
