ghost use Rattle.std.specs.Prelude.{◌≡◌, ◌+◌, ◌<◌, ◌≤◌, ◌++◌, ◌∷◌, [], length};
ghost use Rattle.byteorder.specs.Endian.{little_bytes};
ghost use Rattle.ecat_frame.specs.Built.{built, size_of};
ghost use Rattle.master_script.specs.Frames.{asks, width, station as station_of, activation as activation_of, count_datagrams, identify_datagrams, rate_datagrams, latch_datagrams, times_datagrams, set_datagrams, drift_datagram, drift_datagrams, arm_datagrams};

use byteorder::{ByteOrder, LittleEndian};
use ecat_frame::{Builder, Command, Frame, Head};

/// The frame of Count.
pub fn count_frame() -> Frame
    ensures { result ≡ built count_datagrams }
{
    let mut datagrams = Builder::new();
    put(&mut datagrams, Command::Brd, 0, 0x0000, &[0; 1]);
    datagrams.finish()
}

/// The frame of Identify, at a position.
pub fn identify_frame(position: u16) -> Frame
    requires { position < 256 }
    ensures { result ≡ built (identify_datagrams position) }
{
    let station = station(position);
    let mut datagrams = Builder::new();
    put(
        &mut datagrams,
        Command::Apwr,
        0u16.wrapping_sub(position),
        0x0010,
        &word(station),
    );
    put(&mut datagrams, Command::Fprd, station, 0x0008, &[0; 2]);
    put(&mut datagrams, Command::Fprd, station, 0x0110, &[0; 2]);
    put(&mut datagrams, Command::Fprd, station, 0x0910, &[0; 4]);
    datagrams.finish()
}

/// The frame of Rate, with the start of the speed counter.
pub fn rate_frame(speed: u16) -> Frame
    ensures { result ≡ built (rate_datagrams speed) }
{
    let mut datagrams = Builder::new();
    put(&mut datagrams, Command::Bwr, 0, 0x0930, &word(speed));
    datagrams.finish()
}

/// The frame of Latch.
pub fn latch_frame() -> Frame
    ensures { result ≡ built latch_datagrams }
{
    let mut datagrams = Builder::new();
    put(&mut datagrams, Command::Bwr, 0, 0x0900, &[0; 4]);
    datagrams.finish()
}

/// The frame of Times, at a position; `wide` where the times of its slave have 64 bits.
pub fn times_frame(position: u16, wide: bool) -> Frame
    requires { position < 256 }
    ensures { result ≡ built (times_datagrams position wide) }
{
    let station = station(position);
    let mut datagrams = Builder::new();
    put(&mut datagrams, Command::Fprd, station, 0x0900, &[0; 16]);
    put_time(&mut datagrams, Command::Fprd, station, 0x0918, wide, 0);
    datagrams.finish()
}

/// The frame of Set, at a position. Of an offset for a clock of 32 bits the lower half is sent, and of a delay the lower 32 bits.
pub fn set_frame(position: u16, wide: bool, offset: u64, delay_ns: u64) -> Frame
    requires { position < 256 }
    ensures { result ≡ built (set_datagrams position wide offset delay_ns) }
{
    let station = station(position);
    let mut datagrams = Builder::new();
    put_time(&mut datagrams, Command::Fpwr, station, 0x0920, wide, offset);
    put(
        &mut datagrams,
        Command::Fpwr,
        station,
        0x0928,
        &double_word((delay_ns % (1 << 32)) as u32),
    );
    datagrams.finish()
}

/// The frame of a drift frame, which brings the time of the reference, at its position, to the other clocks.
pub fn drift_frame(reference: u16) -> Frame
    requires { reference < 256 }
    ensures { result ≡ built (drift_datagrams reference) }
{
    let mut datagrams = Builder::new();
    put_drift(&mut datagrams, reference);
    datagrams.finish()
}

/// The frame of Arm, at a position. Of a start for a clock of 32 bits the lower half is sent; all times are in ns.
pub fn arm_frame(
    reference: u16,
    position: u16,
    wide: bool,
    cycle_ns: u32,
    sync1_ns: Option<u32>,
    start: u64,
) -> Frame
    requires reference { reference < 256 }
    requires position { position < 256 }
    ensures { result ≡ built (arm_datagrams reference position wide cycle_ns sync1_ns start) }
{
    let station = station(position);
    let mut cycles = [0; 8];
    LittleEndian::write_u32(&mut cycles[0..4], cycle_ns);
    LittleEndian::write_u32(&mut cycles[4..8], sync1_ns.unwrap_or(0));
    let mut datagrams = Builder::new();
    put_drift(&mut datagrams, reference);
    put(&mut datagrams, Command::Fpwr, station, 0x0981, &[0]);
    put(&mut datagrams, Command::Fpwr, station, 0x09A0, &cycles);
    put_time(&mut datagrams, Command::Fpwr, station, 0x0990, wide, start);
    put(
        &mut datagrams,
        Command::Fpwr,
        station,
        0x0981,
        &[activation(sync1_ns)],
    );
    datagrams.finish()
}

fn activation(sync1_ns: Option<u32>) -> u8
    ensures { result ≡ activation_of sync1_ns }
{
    match sync1_ns {
        None => 0x03,
        Some(_) => 0x07,
    }
}

// The station address of a position.
fn station(position: u16) -> u16
    requires { position < 256 }
    ensures { result ≡ station_of position }
{
    0x1001 + position
}

// Appends the datagram of Drift.
fn put_drift(datagrams: &mut Builder, reference: u16)
    requires reference { reference < 256 }
    requires first { datagrams.old ≡ [] }
    ensures { datagrams.new ≡ drift_datagram reference ∷ [] }
{
    put(
        datagrams,
        Command::Frmw,
        station(reference),
        0x0910,
        &[0; 4],
    );
}

// Appends a datagram; its index is its place.
fn put(datagrams: &mut Builder, command: Command, adp: u16, ado: u16, payload: &[u8])
    requires few { length datagrams.old < 256 }
    requires fits { size_of datagrams.old + length payload.now ≤ 1486 }
    ensures { datagrams.new ≡ datagrams.old ++ asks (length datagrams.old) command adp ado payload.now ∷ [] }
{
    let head = Head {
        command,
        index: datagrams.count() as u8,
        adp,
        ado,
    };
    let _ = datagrams.push(head, payload);
}

// Appends a datagram with a time in the width of a clock.
fn put_time(datagrams: &mut Builder, command: Command, adp: u16, ado: u16, wide: bool, time: u64)
    requires few { length datagrams.old < 256 }
    requires fits { size_of datagrams.old ≤ 1478 }
    ensures { datagrams.new
        ≡ datagrams.old ++ asks (length datagrams.old) command adp ado (little_bytes (width wide) time) ∷ [] }
{
    let mut bytes = [0; 8];
    LittleEndian::write_u64(&mut bytes, time);
    let width = if wide { 8 } else { 4 };
    put(datagrams, command, adp, ado, &bytes[..width]);
}

fn word(value: u16) -> [u8; 2]
    ensures { result ≡ little_bytes 2 value }
{
    let mut bytes = [0; 2];
    LittleEndian::write_u16(&mut bytes, value);
    bytes
}

fn double_word(value: u32) -> [u8; 4]
    ensures { result ≡ little_bytes 4 value }
{
    let mut bytes = [0; 4];
    LittleEndian::write_u32(&mut bytes, value);
    bytes
}
