// What replies tell, and the first working counter that is not the expected one.
ghost use Rattle.std.specs.Prelude.{◌≡◌, ◌<◌, ◌≤◌, ◌+◌, ◌∷◌, [], drop, length, slice_index};
ghost use Rattle.byteorder.specs.Endian.{little_number};
ghost use Rattle.master_frames.specs.Sizes.{sizes};
ghost use Rattle.master_script.specs.Frames.{width};
ghost use Rattle.master_script.specs.Judged.{counters, miscounted};
ghost use Rattle.master_script.specs.Steps.{data_at, identified_from, latch_in, low_in};

use crate::slave_words::SlaveWords;
use byteorder::{ByteOrder, LittleEndian};
use dc_delay::Latch;
use ecat_frame::Frame;
use master_script::{Refusal, Step};
use wrap_time::{ClockWord, T32};

/// The first counter that is not the expected one, as the refusal of this step. The bytes of the reply are not compared.
pub fn miscounted(step: Step, expected: &[u16], reply: &Frame) -> Option<Refusal>
    ensures { result ≡ miscounted step expected.now (counters reply.now) }
{
    for k in 0..expected.len().min(reply.count()) {
        let wkc = reply.datagram(k).wkc;
        if wkc != expected[k] {
            return Some(Refusal::Counter(step, expected[k], wkc));
        }
    }
    None
}

/// What a reply tells of its slave by three datagrams from this one on: its features, its DL status, and the working counter
/// of the read of its system time. Other datagrams, and the other counters, are not read.
pub fn identified_from(reply: &Frame, first: usize) -> SlaveWords
    requires there { first + 2 < length reply.now.datagrams }
    requires features { slice_index (sizes reply.now) first ≡ 2 }
    requires status { slice_index (sizes reply.now) (first + 1) ≡ 2 }
    ensures { result ≡ identified_from first reply.now }
{
    // a frame has few datagrams, so none of these places is past the range
    let _few = reply.count();
    SlaveWords {
        features: LittleEndian::read_u16(data(reply, first)),
        status: LittleEndian::read_u16(data(reply, first + 1)),
        fourth: reply.datagram(first + 2).wkc,
    }
}

/// The receive times that a reply to Times tells, with the time at the processing unit in the width of the clock. Which times
/// belong together, and of which latch they are, it does not say.
pub fn latch_in(wide: bool, reply: &Frame) -> Latch
    requires { sizes reply.now ≡ 16 ∷ width wide ∷ [] }
    ensures { result ≡ latch_in wide reply.now }
{
    let ports = data(reply, 0);
    let unit = data(reply, 1);
    Latch {
        ports: [
            port_time(ports, 0),
            port_time(ports, 4),
            port_time(ports, 8),
            port_time(ports, 12),
        ],
        unit: if wide {
            LittleEndian::read_u64(unit)
        } else {
            u64::from(LittleEndian::read_u32(unit))
        },
    }
}

// The time of 32 bits in the data of a datagram, from this place on.
fn port_time(times: &[u8], at: usize) -> T32
    requires { at + 4 ≤ length times.now }
    ensures { result ≡ little_number 4 (drop at times.now) }
{
    T32::cut(u64::from(LittleEndian::read_u32(&times[at..])))
}

/// The low half of the time of the reference, as a drift frame brings it back.
pub fn low_in(reply: &Frame) -> T32
    requires { sizes reply.now ≡ 4 ∷ [] }
    ensures { result ≡ low_in reply.now }
{
    port_time(data(reply, 0), 0)
}

// The data of datagram k.
fn data(reply: &Frame, k: usize) -> &[u8]
    requires { k < length reply.now.datagrams }
    ensures is { result.now ≡ data_at reply.now k }
    ensures size { length result.now ≡ slice_index (sizes reply.now) k }
{
    reply.datagram(k).payload
}
