ghost use Rattle.std.specs.Prelude.{◌≡◌, ◌≢◌, ◌⊎◌, ◌<◌, ◌≤◌, ◌++◌, ◌==◌, ℕ, List, length, IfOk, IfErr, OnOk, MatchOption, Ok, Err};
ghost use Rattle.std.specs.List.{position};
ghost use Rattle.hex.specs.Hex.{decode_of};
ghost use Rattle.dc_show.specs.declared.error.FrameFault.{FrameFault as Fault};
ghost use Rattle.dc_show.specs.declared.error.FrameFault.TheVariants.{Hex};
ghost use Rattle.dc_show.specs.declared.error.ShowError.TheVariants.{BadFrame, NoMemory};
ghost use Rattle.dc_show.specs.Shown.{without_return, IsFrameIn, ShowsLine, first_other, IsLineFault, RefusesLine, IsOneLine, IsFirstLine, Shows, Refuses, IsLineError, IsShowError};

use crate::error::{FrameFault, ShowError};
use crate::frame_text::push_frame;
use ecat_frame::Frame;
use hex::FromHexError;
use std::alloc::{AllocError, Global};

/// The frames of these lines in words: for each line that is not empty `frame L bytes B datagrams D`, and a line for each of its
/// datagrams. Lines are counted from 1, the empty ones too. `BadFrame` comes for the first line that is no frame in hexadecimal digits.
/// An input has at most 16,777,216 bytes.
pub fn show(alloc: Global, bytes: &[u8]) -> Result<Vec<u8>, ShowError>
    requires { length bytes.now ≤ 16777216 }
    ensures shown { IfOk result (λ text. Shows 1 bytes.now text.items) }
    ensures refused { IfErr result (IsShowError bytes.now) }
    ensures exactly { (line : ℕ) (fault : Fault) → Refuses 1 bytes.now line fault
        → (result ≡ Err (BadFrame line fault)) ⊎ (result ≡ Err NoMemory) }
    ensures only { (text : List ℕ) → Shows 1 bytes.now text → IfErr result (λ e. e ≡ NoMemory) }
{
    let mut text = Vec::new(alloc);
    let mut rest = bytes;
    let mut number = 1;
    while let Some((line, behind)) = split_line(rest) {
        show_line(alloc, &mut text, number, without_return(line))?;
        rest = behind;
        number += 1;
    }
    show_line(alloc, &mut text, number, rest)?;
    Ok(text)
}

// The first line, where a line feed ends it, and what stands behind.
fn split_line(bytes: &[u8]) -> Option<(&[u8], &[u8])>
    ensures { MatchOption result (IsOneLine bytes.now) (λ parts. IsFirstLine bytes.now parts.0.now parts.1.now) }
{
    let end = line_end(bytes)?;
    Some((&bytes[..end], &bytes[end + 1..]))
}

// Where the first line feed stands.
fn line_end(bytes: &[u8]) -> Option<usize>
    ensures { result ≡ position (λ b. b == 10) bytes.now }
{
    bytes.iter().position(|byte| *byte == b'\n')
}

// Without the carriage return before a line feed.
fn without_return(line: &[u8]) -> &[u8]
    ensures { result.now ≡ without_return line.now }
{
    match line {
        [front @ .., b'\r'] => front,
        _ => line,
    }
}

// Appends the text of a line.
fn show_line(alloc: Global, text: &mut Vec<u8>, number: u32, line: &[u8]) -> Result<(), ShowError>
    ensures ok { OnOk result ((added : List ℕ) × (ShowsLine number line.now added × (text.new.items ≡ text.old.items ++ added))) }
    ensures err { IfErr result (IsLineError number line.now) }
{
    if line.is_empty() {
        return Ok(());
    }
    match frame_in(alloc, line)? {
        Ok(frame) => Ok(push_frame(text, u64::from(number), &frame)?),
        Err(fault) => Err(ShowError::BadFrame(number, fault)),
    }
}

// The frame of the digits of a line, or why there is none.
fn frame_in(alloc: Global, line: &[u8]) -> Result<Result<Frame, FrameFault>, AllocError>
    requires { 0 < length line.now }
    ensures frame { IfOk result (λ answer. IfOk answer (IsFrameIn line.now)) }
    ensures fault { IfOk result (λ answer. IfErr answer (RefusesLine line.now)) }
{
    let bytes = match hex::decode(alloc, line) {
        Ok(bytes) => bytes,
        Err(FromHexError::OutOfMemory) => return Err(AllocError),
        Err(_) => return Ok(Err(FrameFault::Hex(bad_digit(line)))),
    };
    Ok(Frame::from_bytes(&bytes).map_err(FrameFault::Frame))
}

// The place of the first character that is no hexadecimal digit, or else the number of the digits.
fn bad_digit(line: &[u8]) -> usize
    requires { (bytes : List ℕ) → decode_of line.now ≢ Ok bytes }
    ensures { IsLineFault line.now (Hex result) }
{
    first_other(line).unwrap_or(line.len())
}

// The place of the first character that is no hexadecimal digit.
fn first_other(line: &[u8]) -> Option<usize>
    ensures { result ≡ first_other line.now }
{
    line.iter().position(|byte| !byte.is_ascii_hexdigit())
}
