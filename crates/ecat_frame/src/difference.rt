//! Where a frame that came back differs from the frame that was sent.

ghost use Rattle.std.specs.Prelude.{◌≡◌, ◌<◌, IfSome};
ghost use Rattle.ecat_frame.specs.Difference.{first_apart};
ghost use Rattle.ecat_frame.specs.FrameGrammar.{word};
ghost use Rattle.ecat_frame.specs.InsideDifference.{heading, without_circulating};

use crate::datagram::Datagram;
use crate::layout::{ADO, CIRCULATING, INDEX, LENGTH_WORD, MORE};

/// The first byte at which two words differ.
pub(crate) fn word_difference(sent: u16, reply: u16) -> Option<usize>
    ensures is { result ≡ first_apart (word sent) (word reply) }
    ensures inside { IfSome result (λ at. at < 2) }
{
    if sent % 256 != reply % 256 {
        Some(0)
    } else if sent != reply {
        Some(1)
    } else {
        None
    }
}

/// The first byte before the IRQ at which two datagrams differ outside of ADP and circulating bit.
pub(crate) fn head_difference(sent: &Datagram<'_>, reply: &Datagram<'_>) -> Option<usize>
    ensures is { result ≡ first_apart (heading sent.now) (heading reply.now) }
    ensures inside { IfSome result (λ at. at < 8) }
{
    if sent.head.command.code() != reply.head.command.code() {
        return Some(0);
    }
    if sent.head.index != reply.head.index {
        return Some(INDEX);
    }
    if let Some(at) = word_difference(sent.head.ado, reply.head.ado) {
        return Some(ADO + at);
    }
    let sent_word = without_circulating(sent.length_word);
    let reply_word = without_circulating(reply.length_word);
    match word_difference(sent_word, reply_word) {
        Some(at) => Some(LENGTH_WORD + at),
        None => None,
    }
}

// A length word whose circulating bit is 0.
fn without_circulating(length_word: u16) -> u16
    ensures { result ≡ without_circulating length_word }
{
    length_word % CIRCULATING + length_word / MORE * MORE
}
