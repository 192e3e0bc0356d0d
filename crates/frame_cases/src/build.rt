use crate::words::{Words, bytes_told};
use ecat_frame::{Builder, Command, Frame, Head};
use std::alloc::{AllocError, Global};

/// What a builder answers to these datagrams, and the bytes of their frame after these changes.
pub(crate) fn built(
    alloc: Global,
    words: &mut Words<'_>,
    told: &mut String,
) -> Result<(), AllocError> {
    let mut builder = Builder::new();
    for _datagram in 0..words.most() {
        match words.next() {
            "/" | "" => break,
            name => push(alloc, words, name, &mut builder, told)?,
        }
    }
    let count = builder.count();
    if count == 0 {
        words.refuse();
        return Ok(());
    }
    let mut frame = builder.finish();
    for _change in 0..words.most() {
        if words.is_empty() {
            break;
        }
        change(alloc, words, &mut frame)?;
    }
    write!(told, "{count} ")?;
    bytes_told(frame.bytes(), told)
}

fn push(
    alloc: Global,
    words: &mut Words<'_>,
    name: &str,
    builder: &mut Builder,
    told: &mut String,
) -> Result<(), AllocError> {
    let Some(command) = command(name) else {
        words.refuse();
        return Ok(());
    };
    let head = Head {
        command,
        index: words.number(0, 255) as u8,
        adp: words.digits(),
        ado: words.digits(),
    };
    let data = words.bytes(alloc)?;
    told.push_str(match builder.push(head, &data) {
        Ok(()) => "ok ",
        Err(_full) => "full ",
    })
}

/// The command of a name, in letters of either case.
pub(crate) fn command(name: &str) -> Option<Command> {
    for (known, command) in COMMANDS {
        if known.eq_ignore_ascii_case(name) {
            return Some(command);
        }
    }
    None
}

const COMMANDS: [(&str, Command); 15] = [
    ("Nop", Command::Nop),
    ("Aprd", Command::Aprd),
    ("Apwr", Command::Apwr),
    ("Aprw", Command::Aprw),
    ("Fprd", Command::Fprd),
    ("Fpwr", Command::Fpwr),
    ("Fprw", Command::Fprw),
    ("Brd", Command::Brd),
    ("Bwr", Command::Bwr),
    ("Brw", Command::Brw),
    ("Lrd", Command::Lrd),
    ("Lwr", Command::Lwr),
    ("Lrw", Command::Lrw),
    ("Armw", Command::Armw),
    ("Frmw", Command::Frmw),
];

fn change(alloc: Global, words: &mut Words<'_>, frame: &mut Frame) -> Result<(), AllocError> {
    let what = words.next();
    let k = words.number(0, 255) as usize;
    if k >= frame.count() {
        words.refuse();
        return Ok(());
    }
    match what {
        "adp" => frame.set_adp(k, words.digits()),
        "wkc" => frame.set_wkc(k, words.digits()),
        "data" => return set_data(words.bytes(alloc)?, words, frame, k),
        "bytes" => {
            let at = words.number(0, 2048) as usize;
            return set_bytes(words.bytes(alloc)?, words, frame, k, at);
        }
        "answer" => {
            let (adp, wkc) = (words.digits(), words.digits());
            return set_answer(words.bytes(alloc)?, words, frame, k, (adp, wkc));
        }
        _ => {
            words.refuse();
            return Ok(());
        }
    }
    Ok(())
}

fn set_data(
    data: Vec<u8>,
    words: &mut Words<'_>,
    frame: &mut Frame,
    k: usize,
) -> Result<(), AllocError> {
    if k >= frame.count() || frame.datagram(k).payload.len() != data.len() {
        words.refuse();
        return Ok(());
    }
    frame.set_payload(k, &data);
    Ok(())
}

fn set_bytes(
    part: Vec<u8>,
    words: &mut Words<'_>,
    frame: &mut Frame,
    k: usize,
    at: usize,
) -> Result<(), AllocError> {
    if k >= frame.count() || at > 2048 || frame.datagram(k).payload.len() < at + part.len() {
        words.refuse();
        return Ok(());
    }
    frame.set_bytes(k, at, &part);
    Ok(())
}

fn set_answer(
    data: Vec<u8>,
    words: &mut Words<'_>,
    frame: &mut Frame,
    k: usize,
    (adp, wkc): (u16, u16),
) -> Result<(), AllocError> {
    if k >= frame.count() || frame.datagram(k).payload.len() != data.len() {
        words.refuse();
        return Ok(());
    }
    frame.set_answer(k, adp, &data, wkc);
    Ok(())
}
