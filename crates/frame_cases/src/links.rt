use crate::words::Words;
use ecat_frame::{Builder, Command, Frame, Head};
use ecat_link::{Link, ScriptLink, ScriptReply};
use std::alloc::{AllocError, Global};

/// What a link with these replies does with a frame for each of them, and with two more.
pub(crate) fn exchanges(
    alloc: Global,
    words: &mut Words<'_>,
    told: &mut String,
) -> Result<(), AllocError> {
    let mut replies = Vec::new(alloc);
    for _reply in 0..words.most() {
        if words.is_empty() {
            break;
        }
        replies.push(reply(words))?;
    }
    let frames = replies.len();
    let mut link = ScriptLink::new(replies);
    write!(told, "{}", link.lost())?;
    for _frame in 0..frames {
        exchange(&mut link, told)?;
    }
    exchange(&mut link, told)?;
    exchange(&mut link, told)
}

fn reply(words: &mut Words<'_>) -> ScriptReply {
    match words.next() {
        "give" => ScriptReply::Give(question(words.digits())),
        "lose" => ScriptReply::Lose,
        "echo" => ScriptReply::Echo,
        _ => {
            words.refuse();
            ScriptReply::Lose
        }
    }
}

// A frame with one datagram, which asks for a byte.
fn question(ado: u16) -> Frame {
    let mut builder = Builder::new();
    let head = Head {
        command: Command::Brd,
        index: 0,
        adp: 0,
        ado,
    };
    let Ok(()) = builder.push(head, &[0]) else {
        unreachable!()
    };
    builder.finish()
}

// The answer, the ADO that then stands in the frame, and the number of lost frames.
fn exchange(link: &mut ScriptLink, told: &mut String) -> Result<(), AllocError> {
    let mut frame = question(0);
    let answer = link.exchange(1_000_000, &mut frame);
    let ado = frame.datagram(frame.count() - 1).head.ado;
    match answer {
        Ok(()) => write!(told, "; came {ado:04x} {}", link.lost()),
        Err(lost) => write!(told, "; {lost} {ado:04x} {}", link.lost()),
    }
}
