//! The program `dc`: the top call over the words of the command line, standard input and standard output.
//!
//! It ends with the outcome's status, and with its line on standard error where the outcome is not `Done`.
#![tactic(auto)]

use dc_base::{ReadSource, WriteSink};
use dc_top::{Outcome, dc_main};
use std::io::ErrorKind;
use std::process::ExitCode;
use std::rt::Env;
use std::{env, io};

fn main(rt: HostRuntime) -> ExitCode {
    let outcome = match words(&rt) {
        Ok(words) => {
            let mut input = ReadSource::new(rt.reader());
            let mut output = WriteSink::new(io::writer(&rt));
            dc_main(rt.alloc(), &words, &mut input, &mut output, &mut None)
        }
        Err(error) if error.kind() == ErrorKind::OutOfMemory => Outcome::NoMemory,
        // A word that is not UTF-8 is no command.
        Err(_) => Outcome::Usage,
    };
    if outcome != Outcome::Done {
        // Where standard error fails too, the status still tells.
        let _ = eprintln!(rt; "{outcome}");
    }
    ExitCode::from(outcome.status())
}

// The words behind the program's name.
fn words<R: Env + AllocGlobal>(rt: &R) -> io::Result<Vec<String>> {
    let mut words = Vec::new(rt.alloc());
    for word in env::args(rt)?.skip(1) {
        words.push(word)?;
    }
    Ok(words)
}
