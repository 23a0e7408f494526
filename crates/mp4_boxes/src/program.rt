//! The program, with any reader and any writer.

ghost use Rattle.std.specs.Prelude.{◌≡◌, ◌↔◌, ◌||◌, map, string_bytes};
ghost use Rattle.std.specs.Vec.Iter.{into_iter_items};
ghost use Rattle.mp4_boxes.specs.Command.{Names};
ghost use Rattle.mp4_boxes.specs.Runs.{Runs, ReachesEnd, Makes, MayRefuse, EndsAs, is_read, is_write};

use crate::command::{Command, parse_command};
use crate::engine::{finish, run_normal};
use crate::fault::RunFault;
use crate::list::run_list;
use crate::outcome::Outcome;
use mp4_io::{Input, Output};
use std::alloc::Global;
use std::env::Args;
use std::io::{Read, Write};

/// Runs `command`, and flushes its output. Returns the number of bytes that were written.
pub fn run_command<R: Read, W: Write>(
    alloc: Global,
    command: Command,
    input: &mut Input<R>,
    output: &mut Output<W>,
) -> Result<u64, RunFault>
    ensures run { Runs (Makes command) (MayRefuse command) (R.remaining input.old.inner) (W.contents output.old.inner)
        (W.contents output.new.inner) result }
    ensures all_read { ReachesEnd (R.remaining input.new.inner) result }
    ensures read_failed { input.new.failed ≡ (input.old.failed || is_read result) }
    ensures write_failed { output.new.failed ≡ (output.old.failed || is_write result) }
{
    let written = match command {
        Command::Normal => run_normal(alloc, input, output)?,
        Command::List => run_list(alloc, input, output)?,
    };
    finish(output)?;
    Ok(written)
}

/// Runs the command that `words`, the words after the program's name, stand for. If they are no command, nothing is
/// read or written.
pub fn run_words<R: Read, W: Write>(
    alloc: Global,
    words: Args,
    input: &mut Input<R>,
    output: &mut Output<W>,
) -> Outcome
    ensures command { (command : Command) → Names (map string_bytes (into_iter_items words)) command
        → EndsAs command (R.remaining input.old.inner) (W.contents output.old.inner)
        (W.contents output.new.inner) result }
    ensures misused { (result ≡ Outcome.Misused)
        ↔ (¬ ((command : Command) × Names (map string_bytes (into_iter_items words)) command)) }
    ensures untouched { result ≡ Outcome.Misused → (input.new ≡ input.old) × (output.new ≡ output.old) }
{
    let Some(command) = parse_command(words) else {
        return Outcome::Misused;
    };
    match run_command(alloc, command, input, output) {
        Ok(_) => Outcome::Done,
        Err(fault) => Outcome::Failed(fault),
    }
}
