//! The commands, and the arguments that name them.

ghost use Rattle.std.specs.Prelude.{◌≡◌, ◌≢◌, ◌↔◌, Some, map, string_bytes};
ghost use Rattle.std.specs.Vec.Iter.{into_iter_items};
ghost use Rattle.std.specs.IoError.{error_kind};
ghost use Rattle.mp4_frame.specs.declared.error.Error.TheVariants.{OutOfMemory};
ghost use Rattle.mp4_boxes.specs.Command.{Names};

use crate::fault::RunFault;
use mp4_stream::Error;
use std::env::Args;
use std::io;
use std::io::ErrorKind;

/// A command of the program.
#[derive(Clone, Copy, Debug, PartialEq, Eq)]
pub enum Command {
    /// Writes the boxes of the input in their normal form.
    Normal,
    /// Writes a line with place and name for each box of the input.
    List,
}

/// Returns the command that `words`, the words after the program's name, stand for, or `None` if they are no command.
pub fn parse_command(mut words: Args) -> Option<Command>
    ensures { (command : Command) → (result ≡ Some command) ↔ Names (map string_bytes (into_iter_items words)) command }
{
    let word = words.next()?;
    if words.next().is_some() {
        return None;
    }
    match word.as_str() {
        "normal" => Some(Command::Normal),
        "list" => Some(Command::List),
        _ => None,
    }
}

/// Returns the fault of a run whose arguments could not be read: out of memory, or a failed read.
pub fn argument_fault(error: &io::Error) -> RunFault
    ensures memory { error_kind error.now ≡ ErrorKind.OutOfMemory → result ≡ RunFault.Boxes OutOfMemory }
    ensures read { error_kind error.now ≢ ErrorKind.OutOfMemory → result ≡ RunFault.Read }
{
    match error.kind() {
        ErrorKind::OutOfMemory => RunFault::Boxes(Error::OutOfMemory),
        _ => RunFault::Read,
    }
}
