//! A frame on its way through the slaves.

ghost use Rattle.std.specs.Prelude.{◌≡◌, ◌+◌, ◌^◌, ◌≤◌, ◌<◌, IfSome, length, map};
ghost use Rattle.frame_pass.specs.FramePass.{slave_behind, datagrams_after, are_latching, slave_passed, datagrams_passed, port_taken, ports_taken, comes_by, slaves_passed, datagrams_behind, end_of};
ghost use Rattle.frame_pass.specs.Advancing.{advanced_to};
ghost use Rattle.frame_pass.specs.SegmentState.{changed_at, expecting};
ghost use Rattle.frame_pass.specs.Reach.{reached_by};
ghost use Rattle.wire_sim.specs.Seen.{address_of};

use crate::datagram::{DATA_ROOM, answer};
use crate::slave::Slave;
use cable_tree::Port;
use ecat_frame::Frame;

/// A frame that was sent then reaches all slaves (`None`), or the first `after` of them.
pub(crate) fn carry_all(slaves: &mut Vec<Slave>, after: Option<u16>, frame: &mut Frame, sent: u64)
    requires { sent + 10000000000000 < 2 ^ 64 }
    ensures slaves { let reach = reached_by after slaves.old.items in
        slaves.new.items ≡ slaves_passed reach sent (end_of reach slaves.old.items) slaves.old.items frame.old.datagrams }
    ensures frame { let reach = reached_by after slaves.old.items in
        frame.new ≡ record frame.old { datagrams = datagrams_behind reach sent slaves.old.items frame.old.datagrams } }
{
    carry(slaves, after, frame, sent);
}

fn carry(slaves: &mut [Slave], after: Option<u16>, frame: &mut Frame, sent: u64)
    requires { sent + 10000000000000 < 2 ^ 64 }
    ensures slaves { let reach = reached_by after slaves.old in
        slaves.new ≡ slaves_passed reach sent (end_of reach slaves.old) slaves.old frame.old.datagrams }
    ensures frame { let reach = reached_by after slaves.old in
        frame.new ≡ record frame.old { datagrams = datagrams_behind reach sent slaves.old frame.old.datagrams } }
{
    let reach = reached_by(after, slaves);
    let end = arrival_at(slaves, reach);
    let mut room = [0; DATA_ROOM];
    pass(slaves, reach, frame, sent, end, &mut room);
}

// How many slaves a frame reaches.
fn reached_by(after: Option<u16>, slaves: &[Slave]) -> usize
    ensures { result ≡ reached_by after slaves.now }
{
    match after {
        None => slaves.len(),
        Some(after) => usize::from(after),
    }
}

// The frame reaches the first slaves, one after another. `end` is when it would arrive at the slave before
// which it is lost. The room is for the data of a datagram, and its bytes do not matter.
fn pass(
    slaves: &mut [Slave],
    reach: usize,
    frame: &mut Frame,
    sent: u64,
    end: Option<u64>,
    room: &mut [u8],
)
    requires time { sent + 10000000000000 < 2 ^ 64 }
    requires room { DATA_ROOM ≤ length room.old }
    ensures slaves { slaves.new ≡ slaves_passed reach sent end slaves.old frame.old.datagrams }
    ensures frame { frame.new ≡ record frame.old { datagrams = datagrams_behind reach sent slaves.old frame.old.datagrams } }
{
    let count = reach.min(slaves.len());
    for i in 0..count {
        let slave = &mut slaves[i];
        pass_one(slave, frame, sent, end, room);
    }
}

// When the frame would arrive at a slave, from its sending on.
fn arrival_at(slaves: &[Slave], position: usize) -> Option<u64>
    ensures { result ≡ end_of position slaves.now }
{
    if position < slaves.len() {
        Some(slaves[position].visits().arrive())
    } else {
        None
    }
}

/// Lets time go on to `t`, in fs, at every slave.
pub(crate) fn advance_all(slaves: &mut [Slave], t: u64)
    ensures { slaves.new ≡ map (advanced_to t) slaves.old }
{
    for i in 0..slaves.len() {
        let slave = &mut slaves[i];
        slave.advance(t);
    }
}

/// An event of latch input 0 is expected at the slave at a position.
pub(crate) fn expect_at(slaves: &mut [Slave], position: u16, t: u64)
    requires { position < length slaves.old }
    ensures { slaves.new ≡ changed_at position (expecting t) slaves.old }
{
    let slave = &mut slaves[usize::from(position)];
    slave.expect(t);
}

// The frame at one slave.
#[tactic(auto, unfolding(frame_pass::specs::FramePass::slave_passed, frame_pass::specs::FramePass::datagrams_passed))]
fn pass_one(slave: &mut Slave, frame: &mut Frame, sent: u64, end: Option<u64>, room: &mut [u8])
    requires time { sent + 10000000000000 < 2 ^ 64 }
    requires room { DATA_ROOM ≤ length room.old }
    ensures slave { slave.new ≡ slave_passed sent end slave.old frame.old.datagrams }
    ensures frame { frame.new ≡ record frame.old { datagrams = datagrams_passed sent slave.old frame.old.datagrams } }
    ensures room { length room.new ≡ length room.old }
{
    slave.advance(sent + slave.visits().arrive());
    if answer_all(slave, frame, room) {
        take_ports(slave, sent, end);
    }
}

// The datagrams of the frame in their order, and whether the slave's ports latch.
fn answer_all(slave: &mut Slave, frame: &mut Frame, room: &mut [u8]) -> bool
    requires { DATA_ROOM ≤ length room.old }
    ensures slave { slave.new ≡ slave_behind slave.old frame.old.datagrams }
    ensures frame { frame.new ≡ record frame.old { datagrams = datagrams_after slave.old frame.old.datagrams } }
    ensures latches { result ≡ are_latching slave.old frame.old.datagrams }
    ensures room { length room.new ≡ length room.old }
{
    let count = frame.count();
    let mut latches = false;
    for k in 0..count {
        latches |= answer(slave, frame, k, room);
    }
    latches
}

// The ports take their receive times in the order in which the frame comes back into them.
#[tactic(auto, unfolding(frame_pass::specs::FramePass::ports_taken))]
fn take_ports(slave: &mut Slave, sent: u64, end: Option<u64>)
    requires { sent + 10000000000000 < 2 ^ 64 }
    ensures { slave.new ≡ ports_taken sent end slave.old }
{
    let visits = slave.visits();
    take_port(slave, sent, end, Port::P3, visits.back(Port::P3));
    take_port(slave, sent, end, Port::P1, visits.back(Port::P1));
    take_port(slave, sent, end, Port::P2, visits.back(Port::P2));
}

// A port takes its receive time at the instant when the frame comes back into it, where it comes so far.
#[tactic(auto, unfolding(frame_pass::specs::FramePass::port_taken))]
fn take_port(slave: &mut Slave, sent: u64, end: Option<u64>, port: Port, back: Option<u64>)
    requires { IfSome back (λ at. sent + at < 2 ^ 64) }
    ensures { slave.new ≡ port_taken sent end (address_of port) back slave.old }
{
    let Some(at) = back else {
        return;
    };
    if comes_by(end, at) {
        slave.advance(sent + at);
        slave.latch_port(port);
    }
}

fn comes_by(end: Option<u64>, at: u64) -> bool
    ensures { result ≡ comes_by end at }
{
    match end {
        None => true,
        Some(end) => at < end,
    }
}
