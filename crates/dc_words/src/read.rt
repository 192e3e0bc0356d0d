// What words ask for.
ghost use Rattle.std.specs.Prelude.{◌≡◌, ◌⊎◌, Some, IfOk, IfSome, codes, map, option_map, string_bytes};
ghost use Rattle.clap.specs.Words.{found_of, one_text, rows_of};
ghost use Rattle.dc_words.specs.CommandOfWords.{HasRanges, alone, asked, command_of, given_of, made, with_numbers};

use crate::Command;
use crate::command_line::command_line;
use crate::numeral::{number_in, whole_number};
use clap::ArgMatches;
use clap::error::ErrorKind;
use dc_base::NoMemory;
use std::alloc::Global;

/// The command of the words, which stand without the name of the program. It is `None` where they have none; an error comes for want
/// of memory alone.
pub fn read_words(alloc: Global, words: &[String]) -> Result<Option<Command>, NoMemory>
    ensures is { IfOk result (λ command. command ≡ command_of (map string_bytes words.now)) }
    ensures ranges { IfOk result (λ command. IfSome command HasRanges) }
{
    let line = command_line(alloc)?;
    match line.try_get_matches_from(words) {
        Ok(matches) => Ok(command_in(&matches)),
        Err(error) => match error.kind() {
            ErrorKind::OutOfMemory => Err(NoMemory),
            _ => Ok(None),
        },
    }
}

// The command of the words that `clap` took.
fn command_in(matches: &ArgMatches<'_>) -> Option<Command>
    requires { (one_text (found_of matches.now) (codes "edges") ≡ Some (codes "true"))
        ⊎ (one_text (found_of matches.now) (codes "edges") ≡ Some (codes "false")) }
    ensures { result ≡ made (given_of (rows_of (found_of matches.now))) }
{
    let edges = matches.get_flag("edges");
    let word = matches.get_str("command")?;
    let first = matches.get_str("first");
    let second = matches.get_str("second");
    asked(word, first, second, edges)
}

// The command of a first word and of those behind it.
fn asked(word: &str, first: Option<&str>, second: Option<&str>, edges: bool) -> Option<Command>
    ensures { result ≡ asked word.now (option_map (λ s. s.now) first.entry) (option_map (λ s. s.now) second.entry) edges }
{
    match (first, second) {
        (None, None) => alone(word, edges),
        (Some(first), Some(second)) if !edges => with_numbers(word, first, second),
        _ => None,
    }
}

#[tactic(auto, unfolding(crate::specs::CommandOfWords::alone))]
fn alone(word: &str, edges: bool) -> Option<Command>
    ensures { result ≡ alone word.now edges }
{
    match word {
        "run" => Some(Command::Run { edges }),
        _ if edges => None,
        "delays" => Some(Command::Delays),
        "check" => Some(Command::Check),
        "show" => Some(Command::Show),
        "migrate" => Some(Command::Migrate),
        "trace" => Some(Command::Trace),
        "audit" => Some(Command::Audit),
        "again" => Some(Command::Again),
        "rate" => Some(Command::Rate),
        _ => None,
    }
}

#[tactic(auto, unfolding(crate::specs::CommandOfWords::with_numbers))]
fn with_numbers(word: &str, first: &str, second: &str) -> Option<Command>
    ensures { result ≡ with_numbers word.now first.now second.now }
{
    match word {
        "gen" => {
            let slaves = number_in(first, 1, 256)?;
            let seed = whole_number(second)?;
            Some(Command::Gen { slaves, seed })
        }
        "drill" => {
            let slaves = number_in(first, 1, 256)?;
            let seed = whole_number(second)?;
            Some(Command::Drill { slaves, seed })
        }
        "latch" => {
            let position = number_in(first, 0, 255)?;
            let time_fs = whole_number(second)?;
            Some(Command::Latch { position, time_fs })
        }
        _ => None,
    }
}
