use crate::build::command;
use crate::words::{Words, bytes_told};
use ecat_frame::{Builder, Datagram, Frame, Head};
use std::alloc::{AllocError, Global};

/// The frame of these datagrams. None is refused as a word.
pub(crate) fn frame(alloc: Global, words: &mut Words<'_>) -> Result<Option<Frame>, AllocError> {
    let mut builder = Builder::new();
    for _datagram in 0..words.most() {
        if words.is_empty() {
            break;
        }
        push(alloc, words, &mut builder)?;
    }
    if builder.count() == 0 {
        words.refuse();
        return Ok(None);
    }
    Ok(Some(builder.finish()))
}

fn push(alloc: Global, words: &mut Words<'_>, builder: &mut Builder) -> Result<(), AllocError> {
    let Some(command) = command(words.next()) else {
        words.refuse();
        return Ok(());
    };
    let head = Head {
        command,
        index: 0,
        adp: words.digits(),
        ado: words.digits(),
    };
    let data = words.bytes(alloc)?;
    if builder.push(head, &data).is_err() {
        words.refuse();
    }
    Ok(())
}

/// The datagrams of a frame that came back.
pub(crate) fn datagrams_told(frame: &Frame, told: &mut String) -> Result<(), AllocError> {
    for k in 0..frame.count() {
        if k > 0 {
            told.push_str(",")?;
        }
        datagram_told(&frame.datagram(k), told)?;
    }
    Ok(())
}

fn datagram_told(datagram: &Datagram<'_>, told: &mut String) -> Result<(), AllocError> {
    write!(told, "{:04x}:", datagram.head.adp)?;
    bytes_told(datagram.payload, told)?;
    write!(told, ":{}", datagram.wkc)
}
