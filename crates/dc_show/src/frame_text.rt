// Frames in words.
ghost use Rattle.std.specs.Prelude.{◌≡◌, ◌<◌, ◌++◌, ◌∷◌, [], ◌^◌, length, take, decimal, OnOk};
ghost use Rattle.std.specs.List.{flat_map};
ghost use Rattle.ecat_frame.specs.Reading.{seen};
ghost use Rattle.dc_show.specs.FrameText.{name_of, digit_of, hex_byte, hex_word, data_text, field, head_text, body_text, datagram_text, frame_line, frame_text};

use ecat_frame::{Command, Datagram, Frame};
use itoa::Buffer;
use std::alloc::AllocError;

#[tactic(auto, unfolding(crate::specs::FrameText::name_of))]
fn name_of(command: Command) -> &'static str
    ensures { result.now ≡ name_of command }
{
    match command {
        Command::Nop => "NOP",
        Command::Aprd => "APRD",
        Command::Apwr => "APWR",
        Command::Aprw => "APRW",
        Command::Fprd => "FPRD",
        Command::Fpwr => "FPWR",
        Command::Fprw => "FPRW",
        Command::Brd => "BRD",
        Command::Bwr => "BWR",
        Command::Brw => "BRW",
        Command::Lrd => "LRD",
        Command::Lwr => "LWR",
        Command::Lrw => "LRW",
        Command::Armw => "ARMW",
        Command::Frmw => "FRMW",
    }
}

fn digit(nibble: u8) -> u8
    requires { nibble < 16 }
    ensures { result ≡ digit_of nibble }
{
    if nibble < 10 {
        b'0' + nibble
    } else {
        b'a' - 10 + nibble
    }
}

fn push_byte(text: &mut Vec<u8>, byte: u8) -> Result<(), AllocError>
    ensures { OnOk result (text.new.items ≡ text.old.items ++ hex_byte byte) }
{
    text.extend_from_slice(&[digit(byte / 16), digit(byte % 16)])
}

fn push_word(text: &mut Vec<u8>, word: u16) -> Result<(), AllocError>
    ensures { OnOk result (text.new.items ≡ text.old.items ++ hex_word word) }
{
    push_byte(text, (word / 256) as u8)?;
    push_byte(text, (word % 256) as u8)
}

fn push_number(text: &mut Vec<u8>, number: u64) -> Result<(), AllocError>
    ensures { OnOk result (text.new.items ≡ text.old.items ++ decimal number) }
{
    let mut digits = Buffer::new();
    text.extend_from_slice(digits.format(number).as_bytes())
}

fn push_bytes(text: &mut Vec<u8>, bytes: &[u8]) -> Result<(), AllocError>
    ensures { OnOk result (text.new.items ≡ text.old.items ++ flat_map hex_byte bytes.now) }
{
    for byte in bytes {
        push_byte(text, *byte)?;
    }
    Ok(())
}

fn push_data(text: &mut Vec<u8>, data: &[u8]) -> Result<(), AllocError>
    ensures { OnOk result (text.new.items ≡ text.old.items ++ data_text «data».now) }
{
    if data.is_empty() {
        text.extend_from_slice(b"-")
    } else {
        push_bytes(text, data)
    }
}

fn push_number_field(text: &mut Vec<u8>, number: u64) -> Result<(), AllocError>
    ensures { OnOk result (text.new.items ≡ text.old.items ++ field (decimal number)) }
{
    push_number(text, number)?;
    text.extend_from_slice(b" ")
}

fn push_word_field(text: &mut Vec<u8>, word: u16) -> Result<(), AllocError>
    ensures { OnOk result (text.new.items ≡ text.old.items ++ field (hex_word word)) }
{
    push_word(text, word)?;
    text.extend_from_slice(b" ")
}

fn push_name_field(text: &mut Vec<u8>, command: Command) -> Result<(), AllocError>
    ensures { OnOk result (text.new.items ≡ text.old.items ++ field (name_of command)) }
{
    text.extend_from_slice(name_of(command).as_bytes())?;
    text.extend_from_slice(b" ")
}

#[tactic(auto, unfolding(crate::specs::FrameText::head_text))]
fn push_head(text: &mut Vec<u8>, datagram: &Datagram<'_>) -> Result<(), AllocError>
    ensures { OnOk result (text.new.items ≡ text.old.items ++ head_text (seen datagram.now)) }
{
    push_name_field(text, datagram.head.command)?;
    push_number_field(text, u64::from(datagram.head.index))?;
    push_word_field(text, datagram.head.adp)?;
    push_word_field(text, datagram.head.ado)
}

#[tactic(auto, unfolding(crate::specs::FrameText::body_text))]
fn push_body(text: &mut Vec<u8>, datagram: &Datagram<'_>) -> Result<(), AllocError>
    ensures { OnOk result (text.new.items ≡ text.old.items ++ body_text (seen datagram.now)) }
{
    push_number_field(text, datagram.payload.len() as u64)?;
    push_word_field(text, datagram.irq)?;
    push_number_field(text, u64::from(datagram.wkc))?;
    push_data(text, datagram.payload)?;
    text.extend_from_slice(b"\n")
}

fn push_datagram(text: &mut Vec<u8>, datagram: &Datagram<'_>) -> Result<(), AllocError>
    ensures { OnOk result (text.new.items ≡ text.old.items ++ datagram_text (seen datagram.now)) }
{
    push_head(text, datagram)?;
    push_body(text, datagram)
}

#[tactic(auto, unfolding(crate::specs::FrameText::frame_line))]
fn push_frame_line(text: &mut Vec<u8>, line: u64, frame: &Frame) -> Result<(), AllocError>
    ensures { OnOk result (text.new.items ≡ text.old.items ++ frame_line line frame.now) }
{
    text.extend_from_slice(b"frame ")?;
    push_number_field(text, line)?;
    text.extend_from_slice(b"bytes ")?;
    push_number_field(text, frame.bytes().len() as u64)?;
    text.extend_from_slice(b"datagrams ")?;
    push_number(text, frame.count() as u64)?;
    text.extend_from_slice(b"\n")
}

/// Appends the lines of a frame that stands in this line of the input.
#[tactic(auto, unfolding(crate::specs::FrameText::frame_text))]
pub(crate) fn push_frame(text: &mut Vec<u8>, line: u64, frame: &Frame) -> Result<(), AllocError>
    ensures { OnOk result (text.new.items ≡ text.old.items ++ frame_text line frame.now) }
{
    push_frame_line(text, line, frame)?;
    push_datagrams(text, frame)
}

fn push_datagrams(text: &mut Vec<u8>, frame: &Frame) -> Result<(), AllocError>
    ensures { OnOk result (text.new.items ≡ text.old.items ++ flat_map datagram_text frame.now.datagrams) }
{
    for k in 0..frame.count() {
        push_datagram(text, &frame.datagram(k))?;
    }
    Ok(())
}
