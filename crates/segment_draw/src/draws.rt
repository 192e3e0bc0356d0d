//! The draws of a slave.

ghost use Rattle.std.specs.Prelude.{◌≡◌, ◌<◌};
ghost use Rattle.segment_draw.specs.Draws.{AreLow, after, draws_at, next, seeded};
ghost use Rattle.segment_draw.specs.Seen.{draws_seen};

/// The prime modulo which numbers are drawn.
const MODULUS: u64 = 2_147_483_647;

/// What is drawn for a slave, in this order.
#[derive(Clone, Copy)]
pub(crate) struct Draws {
    pub(crate) clockless: u64,
    pub(crate) narrow: u64,
    pub(crate) tp: u64,
    pub(crate) tf: u64,
    pub(crate) cable: u64,
    pub(crate) branch: u64,
    pub(crate) parent: u64,
    pub(crate) start_high: u64,
    pub(crate) start_low: u64,
    pub(crate) period: u64,
    pub(crate) phase: u64,
    pub(crate) shift: u64,
    pub(crate) sync1: u64,
}

/// The first state of a seed.
pub(crate) fn seeded(seed: u64) -> u64
    ensures is { result ≡ seeded seed }
    ensures low { result < 2147483647 }
{
    1 + seed % (MODULUS - 1)
}

// The next draw.
#[tactic(auto, unfolding(crate::specs::Draws::next))]
fn draw(state: &mut u64) -> u64
    requires { state.old < 2147483647 }
    ensures is { result ≡ next state.old }
    ensures state { state.new ≡ result }
    ensures low { result < 2147483647 }
{
    *state = 48_271 * *state % MODULUS;
    *state
}

/// The next thirteen draws.
#[tactic(auto, unfolding(crate::specs::Draws::after))]
pub(crate) fn draw_slave(state: &mut u64) -> Draws
    requires { state.old < 2147483647 }
    ensures is { draws_seen result ≡ draws_at state.old }
    ensures state { state.new ≡ after 13 state.old }
    ensures low { state.new < 2147483647 }
    ensures draws { AreLow (draws_seen result) }
{
    Draws {
        clockless: draw(state),
        narrow: draw(state),
        tp: draw(state),
        tf: draw(state),
        cable: draw(state),
        branch: draw(state),
        parent: draw(state),
        start_high: draw(state),
        start_low: draw(state),
        period: draw(state),
        phase: draw(state),
        shift: draw(state),
        sync1: draw(state),
    }
}
