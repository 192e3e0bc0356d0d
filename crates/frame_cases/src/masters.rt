//! Masters over what comes back to them.
//!
//! - `master FRAME SPEED LOSS_RUN EPOCH LOCK_IN CYCLE SLAVE ..`: a master that has sent nothing, of slaves that are each
//!   `TP:TF:SHIFT:SYNC1`, with `-` for no SYNC1; how many slaves it has. The calls that follow are made on it.
//! - `commission REPLY ..`, `settle REPLY ..`, `arm REPLY ..`, `run FRAMES REPLY ..`: a call over a link that answers so.
//!   A reply is `lose`, `echo`, or the bytes of the frame that comes back, and may come a number of times, as `lose*3`.
//!   Behind the last reply every frame is lost.
//!
//! What is told of a call is its answer; how many frames were sent and how many of them lost, the stage, the reference, the
//! start and the delay of each slave and of one position more; and each frame that went out in the call, as
//! `WAIT:BYTES` without padding, with a number of times where the same one went out again.
//!
//! The table and its answers are those of `tools/master_cases.py`. They show that the definitions of `master_script` are the ones that
//! are meant.

ghost use Rattle.std.specs.Prelude.{◌≤◌};

mod configs;
mod recorder;
mod replies;
mod told;

use crate::masters::configs::config;
use crate::masters::recorder::Recorder;
use crate::masters::replies::replies;
use crate::masters::told::{kept_told, sent_told};
use crate::words::Words;
use dc_master::{Master, MasterError, Stage};
use ecat_link::{Link, ScriptLink};
use std::alloc::{AllocError, Global};

/// A master, and how many slaves it has.
#[derive(Drop)]
pub(crate) struct Made {
    master: Master,
    slaves: u16,
}

/// The answer to a case.
pub(crate) fn tell(
    alloc: Global,
    made: &mut Option<Made>,
    words: &mut Words<'_>,
    told: &mut String,
) -> Result<(), AllocError> {
    let what = words.next();
    if what == "master" {
        *made = make(alloc, words, told)?;
        return Ok(());
    }
    match made {
        Some(made) => act(alloc, made, what, words, told),
        None => {
            words.refuse();
            Ok(())
        }
    }
}

fn make(
    alloc: Global,
    words: &mut Words<'_>,
    told: &mut String,
) -> Result<Option<Made>, AllocError> {
    let Some(config) = config(alloc, words)? else {
        words.refuse();
        return Ok(None);
    };
    let slaves = config.kinds.len() as u16;
    let Ok(master) = Master::new(alloc, config) else {
        return Err(AllocError);
    };
    write!(told, "slaves {slaves}")?;
    Ok(Some(Made { master, slaves }))
}

fn act(
    alloc: Global,
    made: &mut Made,
    what: &str,
    words: &mut Words<'_>,
    told: &mut String,
) -> Result<(), AllocError> {
    let frames = match what {
        "run" => words.number(0, 100_000) as u32,
        _ => 0,
    };
    let mut link = Recorder {
        inner: ScriptLink::new(replies(alloc, words)?),
        sent: Vec::new(alloc),
    };
    match call(&mut made.master, &mut link, what, frames) {
        Some(answer) => {
            kept_told(&made.master, made.slaves, answer, told)?;
            sent_told(&link.sent, told)
        }
        None => {
            words.refuse();
            Ok(())
        }
    }
}

// Makes a call that is due in the master's stage.
fn call<L: Link>(
    master: &mut Master,
    link: &mut L,
    what: &str,
    frames: u32,
) -> Option<Result<(), MasterError>>
    requires { frames ≤ 100000 }
{
    match (what, master.stage()) {
        ("commission", Stage::Fresh | Stage::Spent) => Some(master.commission(link)),
        ("settle", Stage::Commissioned | Stage::Spent) => Some(master.settle(link)),
        ("arm", Stage::Settled | Stage::Spent) => Some(master.arm(link)),
        ("run", Stage::Armed | Stage::Spent) => Some(master.run(link, frames)),
        _ => None,
    }
}
