use crate::words::Words;
use ecat_frame::Frame;
use ecat_link::ScriptReply;
use std::alloc::{AllocError, Global};

/// The replies of these words.
pub(crate) fn replies(
    alloc: Global,
    words: &mut Words<'_>,
) -> Result<Vec<ScriptReply>, AllocError> {
    let mut replies = Vec::new(alloc);
    for _word in 0..words.most() {
        if words.is_empty() {
            break;
        }
        push(alloc, &mut replies, words)?;
    }
    Ok(replies)
}

// One reply, a number of times.
fn push(
    alloc: Global,
    replies: &mut Vec<ScriptReply>,
    words: &mut Words<'_>,
) -> Result<(), AllocError> {
    let word = words.next();
    let (what, times) = word.split_once('*').unwrap_or((word, "1"));
    match (reply(alloc, what), times.parse()) {
        (Some(reply), Ok(times)) => repeat(replies, &reply, times),
        _ => {
            words.refuse();
            Ok(())
        }
    }
}

fn repeat(
    replies: &mut Vec<ScriptReply>,
    reply: &ScriptReply,
    times: u32,
) -> Result<(), AllocError> {
    for _time in 0..times {
        replies.push(*reply)?;
    }
    Ok(())
}

fn reply(alloc: Global, what: &str) -> Option<ScriptReply> {
    match what {
        "lose" => Some(ScriptReply::Lose),
        "echo" => Some(ScriptReply::Echo),
        digits => {
            let bytes = hex::decode(alloc, digits).ok()?;
            let frame = Frame::from_bytes(&bytes).ok()?;
            Some(ScriptReply::Give(frame))
        }
    }
}
