//! The commands that a misspelt word may stand for. `clap` names them only where a program has no arguments for files.

ghost use Rattle.std.specs.Prelude.{◌≡◌, IfOk};
ghost use Rattle.std.specs.List.{find};
ghost use Rattle.mp4_command.specs.Misspelt.{is_close};

use std::alloc::{AllocError, Global};
use strsim::osa_distance;

/// Returns whether `word` may be a misspelt `command`: at most one edit for three bytes of the command leads
/// from one to the other. An edit inserts, deletes or replaces a character, or swaps two neighbours.
fn is_close(alloc: Global, word: &str, command: &str) -> Result<bool, AllocError>
    ensures { IfOk result (λ close. close ≡ is_close word.now command.now) }
{
    let edits = osa_distance(alloc, word, command)?;
    Ok(edits <= command.len() / 3)
}

/// Returns the first of `commands` of which `word` may be a misspelling, or `None`. A command is one of itself.
pub fn close_command<'a>(
    alloc: Global,
    word: &str,
    commands: &[&'a str],
) -> Result<Option<&'a str>, AllocError>
    ensures { IfOk result (λ found. found ≡ find (λ command. is_close word.now command.now) commands.now) }
{
    for command in commands {
        if is_close(alloc, word, command)? {
            return Ok(Some(*command));
        }
    }
    Ok(None)
}
