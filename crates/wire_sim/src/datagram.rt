//! A datagram at one slave.

ghost use Rattle.std.specs.Prelude.{◌≡◌, ◌==◌, ◌<◌, ◌≤◌, true, false, length, slice_get, IfSome, if◌then◌else◌};
ghost use Rattle.std.specs.Option.{is_some, unwrap_or};
ghost use Rattle.ecat_frame.specs.Changed.{changed};
ghost use Rattle.ecat_frame.specs.Reading.{seen};
ghost use Rattle.frame_pass.specs.DatagramTable.{Passes, doing_by, reads, writes, raises_adp, raised_by};
ghost use Rattle.frame_pass.specs.SlaveState.{station};
ghost use Rattle.frame_pass.specs.DatagramAtSlave.{asked, doing, merged, payload_after, datagram_after, slave_after, is_latching};
ghost use Rattle.wire_sim.specs.Seen.{doing_seen, replied};

use crate::doing::{Doing, merges, raises_adp};
use crate::slave::Slave;
use ecat_frame::{Datagram, Frame, Head};
use esc_regs::Access;

/// Room for the data of any datagram: their length is a number of 11 bits (ETG.1000.4, section 5.4).
pub(crate) const DATA_ROOM: usize = 1 << 11;

/// Datagram k of a frame at a slave, and whether it makes the slave's ports latch.
///
/// The room is for the data, and its bytes do not matter.
pub(crate) fn answer(slave: &mut Slave, frame: &mut Frame, k: usize, room: &mut [u8]) -> bool
    requires within { k < length frame.old.datagrams }
    requires room { DATA_ROOM ≤ length room.old }
    ensures frame { frame.new ≡ changed k (datagram_after slave.old) frame.old }
    ensures slave { IfSome (slice_get frame.old.datagrams k) (λ d. slave.new ≡ slave_after slave.old d) }
    ensures latches { IfSome (slice_get frame.old.datagrams k) (λ d. result ≡ is_latching slave.old d) }
    ensures room { length room.new ≡ length room.old }
{
    let datagram = frame.datagram(k);
    let request = request(slave, datagram.head);
    if request.reads() {
        let size = datagram.payload.len();
        return answer_in(slave, frame, k, &mut room[..size]);
    }
    let written = act(slave, request, &datagram);
    let doing = done_by(request, written.is_some());
    let head = datagram.head;
    let wkc = datagram.wkc;
    leave_adp(frame, k, head.adp, adp_after(head));
    leave_wkc(frame, k, wkc, wkc.wrapping_add(doing.gain()));
    written.unwrap_or(false)
}

// The same, where data are asked for, with just the room for them.
#[inline(never)]
fn answer_in(slave: &mut Slave, frame: &mut Frame, k: usize, room: &mut [u8]) -> bool
    requires within { k < length frame.old.datagrams }
    requires size { IfSome (slice_get frame.old.datagrams k) (λ d. length room.old ≡ length d.payload) }
    ensures frame { frame.new ≡ changed k (datagram_after slave.old) frame.old }
    ensures slave { IfSome (slice_get frame.old.datagrams k) (λ d. slave.new ≡ slave_after slave.old d) }
    ensures latches { IfSome (slice_get frame.old.datagrams k) (λ d. result ≡ is_latching slave.old d) }
    ensures room { length room.new ≡ length room.old }
{
    let datagram = frame.datagram(k);
    let request = request(slave, datagram.head);
    let read = gather(slave, request, &datagram, room);
    let written = act(slave, request, &datagram);
    let doing = done_by(request, read | written.is_some());
    let adp = adp_after(datagram.head);
    let wkc = datagram.wkc.wrapping_add(doing.gain());
    reply(frame, k, read, adp, room, wkc);
    written.unwrap_or(false)
}

// Puts into datagram k what the slave made of it; its data only where it was read.
fn reply(frame: &mut Frame, k: usize, read: bool, adp: u16, payload: &[u8], wkc: u16)
    requires within { k < length frame.old.datagrams }
    requires size { IfSome (slice_get frame.old.datagrams k) (λ d. length payload.now ≡ length d.payload) }
    ensures { frame.new ≡ changed k (replied read adp payload.now wkc) frame.old }
{
    if read {
        frame.set_answer(k, adp, payload, wkc);
    } else {
        frame.set_adp(k, adp);
        frame.set_wkc(k, wkc);
    }
}

// Sets the ADP of datagram k, which was `before`; one that stays is not written.
fn leave_adp(frame: &mut Frame, k: usize, before: u16, adp: u16)
    requires within { k < length frame.old.datagrams }
    requires before { IfSome (slice_get frame.old.datagrams k) (λ d. before ≡ d.head.adp) }
    ensures changed { frame.new ≡ changed k (λ d. record d { head = record d.head { adp = adp } }) frame.old }
    ensures count { length frame.new.datagrams ≡ length frame.old.datagrams }
{
    if adp != before {
        frame.set_adp(k, adp);
    }
}

// Sets the working counter of datagram k, which was `before`; one that stays is not written.
fn leave_wkc(frame: &mut Frame, k: usize, before: u16, wkc: u16)
    requires within { k < length frame.old.datagrams }
    requires before { IfSome (slice_get frame.old.datagrams k) (λ d. before ≡ d.wkc) }
    ensures { frame.new ≡ changed k (λ d. record d { wkc = wkc }) frame.old }
{
    if wkc != before {
        frame.set_wkc(k, wkc);
    }
}

// What a datagram asks of the slave.
fn request(slave: &Slave, head: Head) -> Doing
    ensures { doing_seen result ≡ doing_by head.command (head.adp == 0) (head.adp == station slave.now.registers) }
{
    Doing::by(head.command, head.adp == 0, head.adp == slave.station())
}

// What was asked, where the slave did it: a refused access is passed on.
fn done_by(request: Doing, acts: bool) -> Doing
    ensures { doing_seen result ≡ (if acts then doing_seen request else Passes) }
{
    if acts { request } else { Doing::Passes }
}

// Tells whether the slave reads, and then puts the data with which the datagram leaves it into the room.
fn gather(slave: &Slave, request: Doing, datagram: &Datagram, room: &mut [u8]) -> bool
    requires request { doing_seen request ≡ asked slave.now (seen datagram.now) }
    requires size { length room.old ≡ length datagram.now.payload.now }
    ensures is { result ≡ true → room.new ≡ payload_after (doing slave.now (seen datagram.now)) slave.now (seen datagram.now) }
    ensures reads { result ≡ reads (doing slave.now (seen datagram.now)) }
    ensures size { length room.new ≡ length room.old }
{
    if !request.reads() {
        return false;
    }
    match slave.read(datagram.head.ado, room) {
        Access::Refused => false,
        Access::Done => {
            merge_if(merges(datagram.head.command), datagram.payload, room);
            true
        }
    }
}

// The same as `merge`, where the command merges.
fn merge_if(merges: bool, payload: &[u8], room: &mut [u8])
    requires { length payload.now ≡ length room.old }
    ensures { room.new ≡ (if merges then merged payload.now room.old else room.old) }
{
    if merges {
        merge(payload, room);
    }
}

// Ors the data that came, bit by bit, into what was read, as a broadcast read does.
fn merge(payload: &[u8], room: &mut [u8])
    requires { length payload.now ≡ length room.old }
    ensures { room.new ≡ merged payload.now room.old }
{
    for (k, byte) in payload.iter().enumerate() {
        room[k] = *byte | room[k];
    }
}

// Writes the data as they were received. Tells whether the slave's ports latch, `None` where it does not write.
#[inline(always)]
fn act(slave: &mut Slave, request: Doing, datagram: &Datagram) -> Option<bool>
    requires request { doing_seen request ≡ asked slave.old (seen datagram.now) }
    ensures is { slave.new ≡ slave_after slave.old (seen datagram.now) }
    ensures writes { is_some result ≡ writes (doing slave.old (seen datagram.now)) }
    ensures latches { unwrap_or result false ≡ is_latching slave.old (seen datagram.now) }
{
    if !request.writes() {
        return None;
    }
    let told = slave.write(datagram.head.ado, datagram.payload);
    match told.access {
        Access::Done => Some(told.latched),
        Access::Refused => None,
    }
}

fn adp_after(head: Head) -> u16
    ensures { result ≡ (if raises_adp head.command then raised_by 1 head.adp else head.adp) }
{
    if raises_adp(head.command) {
        head.adp.wrapping_add(1)
    } else {
        head.adp
    }
}
