use crate::words::bytes_told;
use dc_master::{Master, MasterError};
use ecat_frame::Frame;
use std::alloc::AllocError;

/// What a call has answered, and what the master then keeps of its slaves.
pub(crate) fn kept_told(
    master: &Master,
    slaves: u16,
    answer: Result<(), MasterError>,
    told: &mut String,
) -> Result<(), AllocError> {
    write!(
        told,
        "{answer:?}; sent {} lost {}",
        master.sent(),
        master.lost()
    )?;
    write!(
        told,
        " {:?} reference {:?}",
        master.stage(),
        master.reference()
    )?;
    write!(told, " start {:?} delays", master.start())?;
    for position in 0..=slaves {
        write!(told, " {:?}", master.delay(position))?;
    }
    told.push_str(";")
}

/// What was sent, with a number of times where the same frame went out again.
pub(crate) fn sent_told(sent: &[(u64, Frame)], told: &mut String) -> Result<(), AllocError> {
    let mut times: usize = 0;
    for k in 0..sent.len() {
        times = times.saturating_add(1);
        if k + 1 == sent.len() || !is_same(&sent[k], &sent[k + 1]) {
            frame_told(&sent[k], times, told)?;
            times = 0;
        }
    }
    Ok(())
}

fn is_same(one: &(u64, Frame), other: &(u64, Frame)) -> bool {
    one.0 == other.0 && one.1.bytes() == other.1.bytes()
}

// A frame without its padding, which went out a number of times.
fn frame_told(sent: &(u64, Frame), times: usize, told: &mut String) -> Result<(), AllocError> {
    write!(told, " {}:", sent.0)?;
    bytes_told(unpadded(&sent.1), told)?;
    if times > 1 {
        write!(told, "*{times}")?;
    }
    Ok(())
}

fn unpadded(frame: &Frame) -> &[u8] {
    let padded = frame.bytes();
    padded.get(..size(frame)).unwrap_or(padded)
}

// How many bytes a frame has without its padding.
fn size(frame: &Frame) -> usize {
    let mut size: usize = 16;
    for k in 0..frame.count() {
        size = size
            .saturating_add(12)
            .saturating_add(frame.datagram(k).payload.len());
    }
    size
}
