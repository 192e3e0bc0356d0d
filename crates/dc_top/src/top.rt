// The top call.
ghost use Rattle.std.specs.Prelude.{◌≡◌, ◌⊎◌, ◌<◌, ◌≤◌, ◌↔◌, map, length, string_bytes, Some, None, Err, IfOk, IfErr};
ghost use Rattle.dc_base.specs.Causes.{Rose};
ghost use Rattle.dc_base.specs.Told.{Gave};
ghost use Rattle.dc_top.specs.Answers.{Answered, AnsweredOver, DrivesWire, HasInput, IsInput, RefusesBy, ServedBy, Unread, Writes, input_limit, reading};
ghost use Rattle.dc_top.specs.Complete.{IsServable};
ghost use Rattle.dc_top.specs.declared.outcome.Outcome.TheVariants.{Done, ReadFault, WriteFault, TooLong, NoMemory};
ghost use Rattle.dc_top.specs.declared.reading.InputUse.TheVariants.{WholeInput};
ghost use Rattle.dc_words.specs.CommandOfWords.{HasRanges, command_of};

use crate::Outcome;
use crate::files::{check, draw, migrate, show};
use crate::reading::{InputUse, reading};
use crate::report::Report;
use crate::runs::{drill, drive_file};
use crate::write::write;
use dc_base::{ReadAllError, Sink, Source, read_all};
use dc_bench::Bench;
use dc_words::{Command, read_words};
use std::alloc::Global;

/// The most bytes of an input.
const INPUT_LIMIT: usize = 16_777_216;

/// Runs the command of the words. `check` reads a segment file from the source and writes its numbers to the sink, `delays` its delay
/// table, `run` the report of its run, and `migrate` the file in version 2; `gen` writes a file that is drawn by a seed, and `drill` the
/// report of its run; `show` reads lines of hexadecimal digits, a frame each, and writes them in words.
///
/// Words that are no command are answered by `Usage`, and the commands that are not built yet by `NotYet`; then nothing is read. `gen` and
/// `drill` read nothing either. For the others the source is read to its end before anything is judged. Nothing is written before all is
/// known, so only `WriteFault` can leave a part of the output.
///
/// `delays`, `run` and `drill` drive a master over a wire. After `Done`, `Lost` and `WriteFault` both are in `bench`, as the run has left
/// them; after `NoMemory` nothing is said of it. It is None after every other answer, and after every other command.
pub fn dc_main<I: Source, O: Sink>(
    alloc: Global,
    words: &[String],
    input: &mut I,
    output: &mut O,
    bench: &mut Option<Bench>,
) -> Outcome
    ensures answered { Answered (command_of (map string_bytes words.now)) result (I.left input.old) (I.left input.new)
        (O.taken output.old) (O.taken output.new) bench.new }
    ensures idle { (DrivesWire (command_of (map string_bytes words.now)) → ⊥) → bench.new ≡ None }
    ensures too_long { HasInput (command_of (map string_bytes words.now)) → Gave (I.left input.old) (I.left input.new)
        (λ bytes. (result ≡ TooLong) ↔ (input_limit < length bytes)) }
    ensures read_fault { result ≡ ReadFault → Rose (I.faults input.old) (I.faults input.new) }
    ensures write_fault { result ≡ WriteFault → Rose (O.faults output.old) (O.faults output.new) }
    ensures read_later { I.faults input.old ≤ I.faults input.new }
    ensures write_later { O.faults output.old ≤ O.faults output.new }
    ensures complete { IsServable (command_of (map string_bytes words.now)) (I.left input.old)
        → ¬ Rose (I.faults input.old) (I.faults input.new)
        → ¬ Rose (O.faults output.old) (O.faults output.new) → (result ≡ Done) ⊎ (result ≡ NoMemory) }
{
    *bench = None;
    let Ok(command) = read_words(alloc, words) else {
        return Outcome::NoMemory;
    };
    match command {
        None => Outcome::Usage,
        Some(command) => match reading(&command) {
            InputUse::WholeInput => answer(alloc, command, input, output, bench),
            InputUse::NoInput => serve(alloc, command, &[], output, bench),
        },
    }
}

// The whole input, or the answer where it cannot be read to its end.
fn read_input<I: Source>(alloc: Global, input: &mut I) -> Result<Vec<u8>, Outcome>
    ensures whole { IfOk result (λ bytes. IsInput (I.left input.old) (I.left input.new) bytes.items) }
    ensures unread { IfErr result (λ o. Unread o (I.left input.old)) }
    ensures too_long { Gave (I.left input.old) (I.left input.new)
        (λ bytes. (result ≡ Err TooLong) ↔ (input_limit < length bytes)) }
    ensures read_fault { result ≡ Err ReadFault → Rose (I.faults input.old) (I.faults input.new) }
    ensures read_later { I.faults input.old ≤ I.faults input.new }
{
    match read_all(alloc, input, INPUT_LIMIT) {
        Ok(bytes) => Ok(bytes),
        Err(ReadAllError::ReadFault) => Err(Outcome::ReadFault),
        Err(ReadAllError::TooLong) => Err(Outcome::TooLong),
        Err(ReadAllError::NoMemory) => Err(Outcome::NoMemory),
    }
}

// The answer of a command with an input.
fn answer<I: Source, O: Sink>(
    alloc: Global,
    command: Command,
    input: &mut I,
    output: &mut O,
    bench: &mut Option<Bench>,
) -> Outcome
    requires ranges { HasRanges command }
    requires idle { bench.old ≡ None }
    ensures answered { AnsweredOver command result (I.left input.old) (I.left input.new) (O.taken output.old)
        (O.taken output.new) bench.new }
    ensures idle { (DrivesWire (Some command) → ⊥) → bench.new ≡ None }
    ensures too_long { Gave (I.left input.old) (I.left input.new) (λ bytes. (result ≡ TooLong) ↔ (input_limit < length bytes)) }
    ensures read_fault { result ≡ ReadFault → Rose (I.faults input.old) (I.faults input.new) }
    ensures write_fault { result ≡ WriteFault → Rose (O.faults output.old) (O.faults output.new) }
    ensures read_later { I.faults input.old ≤ I.faults input.new }
    ensures write_later { O.faults output.old ≤ O.faults output.new }
{
    match read_input(alloc, input) {
        Ok(bytes) => serve(alloc, command, &bytes, output, bench),
        Err(outcome) => outcome,
    }
}

// Writes the text of a command over the whole input, where it has one.
fn serve<O: Sink>(
    alloc: Global,
    command: Command,
    bytes: &[u8],
    output: &mut O,
    bench: &mut Option<Bench>,
) -> Outcome
    requires ranges { HasRanges command }
    requires idle { bench.old ≡ None }
    requires short { length bytes.now ≤ input_limit }
    ensures served { ServedBy command bytes.now result (O.taken output.old) (O.taken output.new) bench.new }
    ensures idle { (DrivesWire (Some command) → ⊥) → bench.new ≡ None }
    ensures fault { result ≡ WriteFault → Rose (O.faults output.old) (O.faults output.new) }
    ensures later { O.faults output.old ≤ O.faults output.new }
{
    match command_text(alloc, command, bytes, bench) {
        Ok(text) => write(output, &text),
        Err(outcome) => outcome,
    }
}

// The text of a command over the whole input, or the answer where nothing is written: a row for each command.
fn command_text(
    alloc: Global,
    command: Command,
    bytes: &[u8],
    bench: &mut Option<Bench>,
) -> Result<Vec<u8>, Outcome>
    requires ranges { HasRanges command }
    requires idle { bench.old ≡ None }
    requires short { length bytes.now ≤ input_limit }
    ensures written { IfOk result (λ text. Writes command bytes.now text.items bench.new) }
    ensures refused { IfErr result (λ o. RefusesBy command bytes.now o bench.new) }
    ensures idle { (DrivesWire (Some command) → ⊥) → bench.new ≡ None }
{
    match command {
        Command::Run { edges } => drive_file(alloc, bytes, Report::Run { edges }, bench),
        Command::Delays => drive_file(alloc, bytes, Report::Delays, bench),
        Command::Check => check(alloc, bytes),
        Command::Show => show(alloc, bytes),
        Command::Gen { slaves, seed } => draw(alloc, slaves, seed),
        Command::Drill { slaves, seed } => drill(alloc, slaves, seed, bench),
        Command::Migrate => migrate(alloc, bytes),
        _ => Err(Outcome::NotYet),
    }
}
