//! What is done with a register file:
//!
//! - `write:ADDR:BYTES`: `refused`, or `done` and what is told: `done,latched,received=3,rate=64,activation=7`.
//! - `read:ADDR:COUNT`: the bytes; where it is refused, `refused` and the bytes as they stay, all `ee`.
//! - `show:ADDR:COUNT:TIME:DUE`: the same with live numbers, each `-` where there is none.
//! - `get:NAME`: the number of a register.
//! - `set:NAME:NUMBER`: `-`.

use crate::names::{held, hold};
use crate::words::{Words, bytes_told};
use esc_regs::{Access, ClockKind, Live, RegFile, Written};
use std::alloc::{AllocError, Global};
use wrap_time::ClockWord;

/// The words for the actions of a case.
pub(crate) fn actions(
    alloc: Global,
    words: &mut Words<'_>,
    told: &mut String,
) -> Result<(), AllocError> {
    let name = words.next();
    let mut file = RegFile::new(match name {
        "none" => ClockKind::None,
        "c32" => ClockKind::C32,
        "c64" => ClockKind::C64,
        "r32" => ClockKind::R32,
        _ => {
            words.refuse();
            return Ok(());
        }
    });
    told.push_str(name)?;
    for _action in 0..words.most() {
        if words.is_empty() {
            break;
        }
        told.push_str(" ")?;
        act(alloc, &mut file, words, told)?;
    }
    Ok(())
}

fn act(
    alloc: Global,
    file: &mut RegFile,
    words: &mut Words<'_>,
    told: &mut String,
) -> Result<(), AllocError> {
    match words.next() {
        "write" => {
            let addr = words.digits();
            let bytes = words.bytes(alloc)?;
            written_told(file.write(addr, &bytes), told)
        }
        "read" => read(alloc, file, words, told),
        "show" => show(alloc, file, words, told),
        "get" => match held(file, words.next()) {
            Some(number) => write!(told, "{number}"),
            None => {
                words.refuse();
                Ok(())
            }
        },
        "set" => {
            hold(file, words);
            told.push_str("-")
        }
        _ => {
            words.refuse();
            Ok(())
        }
    }
}

fn read(
    alloc: Global,
    file: &RegFile,
    words: &mut Words<'_>,
    told: &mut String,
) -> Result<(), AllocError> {
    let addr = words.digits();
    let mut bytes = blank(alloc, words.number(0, 65_535) as u16)?;
    let access = file.read(addr, &mut bytes);
    read_told(access, &bytes, told)
}

fn show(
    alloc: Global,
    file: &RegFile,
    words: &mut Words<'_>,
    told: &mut String,
) -> Result<(), AllocError> {
    let addr = words.digits();
    let mut bytes = blank(alloc, words.number(0, 65_535) as u16)?;
    let live = Live {
        system_time: words.number_or_none(),
        next_due: words.number_or_none(),
    };
    let access = file.read_showing(addr, live, &mut bytes);
    read_told(access, &bytes, told)
}

// Bytes that a read has to fill.
fn blank(alloc: Global, count: u16) -> Result<Vec<u8>, AllocError> {
    let mut bytes = Vec::new(alloc);
    for _byte in 0..count {
        bytes.push(0xEE)?;
    }
    Ok(bytes)
}

fn read_told(access: Access, bytes: &[u8], told: &mut String) -> Result<(), AllocError> {
    if access == Access::Refused {
        told.push_str("refused")?;
    }
    bytes_told(bytes, told)
}

fn written_told(written: Written, told: &mut String) -> Result<(), AllocError> {
    told.push_str(match written.access {
        Access::Done => "done",
        Access::Refused => "refused",
    })?;
    if written.latched {
        told.push_str(",latched")?;
    }
    if let Some(time) = written.received {
        write!(told, ",received={}", time.value())?;
    }
    if let Some(rate) = written.rate {
        write!(told, ",rate={rate}")?;
    }
    if let Some(byte) = written.activation {
        write!(told, ",activation={byte}")?;
    }
    Ok(())
}
