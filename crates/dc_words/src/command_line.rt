// The command line as `clap` reads it.
ghost use Rattle.std.specs.Prelude.{◌≡◌, IfOk};
ghost use Rattle.clap.specs.Words.{app_of};
ghost use Rattle.dc_words.specs.CommandLine.{dc_app};

use clap::{Arg, ArgAction};
use std::alloc::{AllocError, Global};

/// A word, two more that may be there, and the flag `--edges`; without the name of the program, and without help.
pub(crate) fn command_line<'a>(alloc: Global) -> Result<clap::Command<'a>, AllocError>
    ensures { IfOk result (λ c. app_of c ≡ dc_app) }
{
    let command = Arg::new(alloc, "command").required(true);
    let first = Arg::new(alloc, "first");
    let second = Arg::new(alloc, "second");
    let edges = Arg::new(alloc, "edges")
        .long("edges")
        .action(ArgAction::SetTrue);
    clap::Command::new(alloc, "dc")
        .no_binary_name(true)
        .disable_help_flag(true)
        .disable_version_flag(true)
        .arg(command)?
        .arg(first)?
        .arg(second)?
        .arg(edges)
}
