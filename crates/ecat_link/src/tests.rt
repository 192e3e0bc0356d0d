//! A caller that is generic in the link, over a link inside another one and over a link that tells
//! nothing.

mod recorder;
mod repeat;
mod silent;

use crate::{ScriptLink, ScriptReply, laws, try_frame};
use ecat_frame::{Builder, Command, Frame, Head};
use recorder::Recorder;
use repeat::repeat;
use silent::SilentLink;
use std::test::Fail;

/// A frame with one datagram, which asks for a byte.
fn question() -> Frame {
    let mut builder = Builder::new();
    let head = Head {
        command: Command::Brd,
        index: 0,
        adp: 0,
        ado: 0,
    };
    let _ = builder.push(head, &[0]);
    builder.finish()
}

#[test]
fn callers_are_generic_in_the_link(rt: HostRuntime) -> Result<(), Fail> {
    let replies = vec![in rt.alloc(); ScriptReply::Lose, ScriptReply::Echo, ScriptReply::Lose]?;
    let mut recorder = Recorder {
        inner: ScriptLink::new(replies),
        waits_ns: Vec::new(rt.alloc()),
    };
    // the last two find no reply
    assert_eq!(rt; repeat(&mut recorder, 250_000, &question(), 5), 4);
    assert_eq!(rt; recorder.inner.lost(), 4);
    assert_eq!(rt; recorder.waits_ns.as_slice(), [250_000; 5].as_slice());

    let mut silent = SilentLink { lost: u64::MAX - 1 };
    assert_eq!(rt; repeat(&mut silent, 0, &question(), 3), 3);
    assert_eq!(rt; silent.lost, u64::MAX);
    Ok(())
}

#[test]
fn tries_are_three(rt: HostRuntime) -> Result<(), Fail> {
    let replies = vec![in rt.alloc();
        ScriptReply::Lose,
        ScriptReply::Lose,
        ScriptReply::Echo,
        ScriptReply::Lose,
    ]?;
    let mut link = ScriptLink::new(replies);
    assert!(rt; try_frame(&mut link, 250_000, &question()).is_some());
    assert_eq!(rt; link.lost(), 2);
    // three more find no frame that comes back
    assert!(rt; try_frame(&mut link, 250_000, &question()).is_none());
    assert_eq!(rt; link.lost(), 5);
    Ok(())
}

#[test]
fn laws_have_nothing_to_run(_rt: HostRuntime) {
    laws::runs_then::<ScriptLink>();
    laws::run_is::<ScriptLink, u32>();
    laws::runs_are_driven::<ScriptLink, u32>();
    laws::lost_then();
    laws::rose_in_turn();
}
