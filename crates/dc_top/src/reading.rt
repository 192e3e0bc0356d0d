ghost use Rattle.std.specs.Prelude.{◌≡◌};
ghost use Rattle.dc_top.specs.Answers.{reading};

use dc_words::Command;

/// What a command does with the input.
#[derive(Clone, Copy, Debug)]
pub enum InputUse {
    /// It reads the input to its end.
    WholeInput,
    /// It reads nothing.
    NoInput,
}

/// What a command does with the input.
pub(crate) fn reading(command: &Command) -> InputUse
    ensures { result ≡ reading command.now }
{
    match command {
        Command::Run { .. } | Command::Delays | Command::Check | Command::Show | Command::Migrate =>
            InputUse::WholeInput,
        _ => InputUse::NoInput,
    }
}
