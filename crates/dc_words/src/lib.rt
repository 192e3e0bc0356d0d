//! The words of the command line.
//!
//! `clap` reads them as one command with a word that must be there, two more that may be, and the flag `--edges`. Which of what
//! it takes asks for something, and how numbers are spelled, is this crate's own: [`read_words`] answers with the [`Command`] that
//! the words have, where they have one. `specs/CommandOfWords.antt` says which that is, and [`laws`] which lists of words `clap` takes.
#![tactic(auto)]

mod command;
mod command_line;
pub mod laws;
mod numeral;
mod read;

pub use command::Command;
pub use read::read_words;
