use crate::words::{Words, bytes_told};
use ecat_frame::{Datagram, Frame, Head};
use std::alloc::{AllocError, Global};

/// The frame of these bytes, or why they are none.
pub(crate) fn read(
    alloc: Global,
    words: &mut Words<'_>,
    told: &mut String,
) -> Result<(), AllocError> {
    let bytes = words.bytes(alloc)?;
    match Frame::from_bytes(&bytes) {
        Ok(frame) => frame_told(&frame, told),
        Err(error) => write!(told, "{error}"),
    }
}

// The number of bytes and of datagrams, and each of these.
fn frame_told(frame: &Frame, told: &mut String) -> Result<(), AllocError> {
    write!(told, "{} bytes, {}", frame.bytes().len(), frame.count())?;
    for k in 0..frame.count() {
        datagram_told(&frame.datagram(k), told)?;
    }
    Ok(())
}

// Command, index, ADP, ADO, length word, IRQ, data and working counter.
fn datagram_told(datagram: &Datagram<'_>, told: &mut String) -> Result<(), AllocError> {
    head_told(datagram.head, told)?;
    write!(told, " {:04x} {:04x} ", datagram.length_word, datagram.irq)?;
    if datagram.payload.is_empty() {
        told.push_str("-")?;
    }
    bytes_told(datagram.payload, told)?;
    write!(told, " {}", datagram.wkc)
}

fn head_told(head: Head, told: &mut String) -> Result<(), AllocError> {
    write!(told, "; {:?} {}", head.command, head.index)?;
    write!(told, " {:04x} {:04x}", head.adp, head.ado)
}

/// Where the second frame differs from the first.
pub(crate) fn difference(
    alloc: Global,
    words: &mut Words<'_>,
    told: &mut String,
) -> Result<(), AllocError> {
    let (sent, reply) = (words.bytes(alloc)?, words.bytes(alloc)?);
    match (Frame::from_bytes(&sent), Frame::from_bytes(&reply)) {
        (Ok(sent), Ok(reply)) => match sent.first_difference(&reply) {
            Some(at) => write!(told, "{at}"),
            None => write!(told, "-"),
        },
        _ => {
            words.refuse();
            Ok(())
        }
    }
}
