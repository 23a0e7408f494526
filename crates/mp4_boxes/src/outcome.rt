//! The end of a run of the program, with its status and its line.

ghost use Rattle.std.specs.Prelude.{◌≡◌, IsOk, OnOk};
ghost use Rattle.std.specs.Io.KnownBytes.{Appends};
ghost use Rattle.mp4_boxes.specs.Outcome.{status_of, message_of};

use crate::fault::RunFault;
use std::io;
use std::io::Write;

/// The end of a run of the program.
#[derive(Debug, Drop)]
pub enum Outcome {
    /// The command succeeded.
    Done,
    /// The arguments are no command.
    Misused,
    /// The command failed.
    Failed(RunFault),
}

impl Outcome {
    /// Returns the exit status: 0 if the command succeeded, 1 if it failed, 2 if the arguments are no command.
    pub fn status(&self) -> u8
        ensures { result ≡ status_of self.now }
    {
        match self {
            Outcome::Done => 0,
            Outcome::Misused => 2,
            Outcome::Failed(_) => 1,
        }
    }

    /// Writes the line for standard error to `errors`, or nothing if the command succeeded.
    pub fn report<W: Write>(&self, errors: &mut W) -> io::Result<()>
        ensures message { OnOk result (Appends (W.contents errors.old) (W.contents errors.new) (message_of self.now)) }
        ensures done { self.now ≡ Outcome.Done → IsOk result }
    {
        match self {
            Outcome::Done => Ok(()),
            Outcome::Misused => writeln!(errors, "usage: mp4boxes normal|list"),
            Outcome::Failed(fault) => writeln!(errors, "mp4boxes: {fault}"),
        }
    }
}
