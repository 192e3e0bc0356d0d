ghost use Rattle.std.specs.Prelude.{◌≡◌, ◌^◌, ◌<◌, false};
ghost use Rattle.esc_regs.specs.RegisterTable.{is_wide};

use crate::words::Words;
use esc_regs::{
    Activation, ClockKind, Delay, Difference, DlStatus, Latch0Positive, Latch0Status, Offset,
    ReceivePort0, RegFile, SpeedStart, StartTime, Station, Sync0Cycle, SystemTime, places,
};
use std::alloc::AllocError;

/// The address and the bytes of each name.
pub(crate) fn places_told(told: &mut String) -> Result<(), AllocError> {
    told.push_str("names")?;
    for place in &places() {
        write!(told, " {:04x}:{}", place.addr, place.bytes)?;
    }
    Ok(())
}

/// What a register holds, where one has this name.
pub(crate) fn held(file: &RegFile, name: &str) -> Option<u64> {
    Some(match name {
        "station" => u64::from(file.get(Station::new())),
        "status" => u64::from(file.get(DlStatus::new())),
        "activation" => u64::from(file.get(Activation::new())),
        "start" => file.get(StartTime::new()),
        "cycle" => u64::from(file.get(Sync0Cycle::new())),
        "latched" => u64::from(file.get(Latch0Status::new())),
        _ => return held_of_clock(file, name),
    })
}

fn held_of_clock(file: &RegFile, name: &str) -> Option<u64> {
    Some(match name {
        "port0" => u64::from(file.get(ReceivePort0::new())),
        "time" => file.get(SystemTime::new()),
        "offset" => file.get(Offset::new()),
        "delay" => u64::from(file.get(Delay::new())),
        "difference" => u64::from(file.get(Difference::new())),
        "speed" => u64::from(file.get(SpeedStart::new())),
        _ => return None,
    })
}

/// Sets a register that frames cannot write, by its name and its number.
pub(crate) fn hold(file: &mut RegFile, words: &mut Words<'_>) {
    match words.next() {
        "status" => file.set(DlStatus::new(), words.number(0, 65_535) as u16),
        "port0" => file.set(ReceivePort0::new(), words.number(0, 4_294_967_295) as u32),
        "difference" => file.set(Difference::new(), words.number(0, 4_294_967_295) as u32),
        "latched" => file.set(Latch0Status::new(), words.number(0, 255) as u8),
        "time" => {
            let time = fitting(file, words);
            file.set(SystemTime::new(), time);
        }
        "edge" => {
            let time = fitting(file, words);
            file.set(Latch0Positive::new(), time);
        }
        _ => words.refuse(),
    }
}

// A number of 8 bytes that the slave's clock has.
fn fitting(file: &RegFile, words: &mut Words<'_>) -> u64
    ensures { is_wide file.now.kind ≡ false → result < 2 ^ 32 }
{
    if file.kind() == ClockKind::C64 {
        words.number(0, u64::MAX)
    } else {
        words.number(0, 4_294_967_295)
    }
}
