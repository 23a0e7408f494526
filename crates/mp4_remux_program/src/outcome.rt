//! The end of a run of the program.

ghost use Rattle.std.specs.Prelude.{◌≡◌};
ghost use Rattle.mp4_remux_program.specs.Outcome.{outcome_of, status_of};

use mp4_command::MISUSE;
use mp4_remux_files::Stop;

/// The end of a run of the program that writes a file.
#[derive(Clone, Copy, Debug, PartialEq, Eq)]
pub enum Outcome {
    /// The file is written.
    Written,
    /// The file is refused, and nothing is written.
    Refused,
    /// The names are not those of a file that can be read twice and of one that can be written. Nothing is written.
    Misused,
    /// A file could not be read or written, or memory was refused.
    Failed,
}

impl Outcome {
    /// Returns the outcome of a run that writes a file.
    pub fn of_run<T>(run: &Result<T, Stop>) -> Outcome
        ensures { result ≡ outcome_of run.now }
    {
        match run {
            Ok(_) => Outcome::Written,
            Err(Stop::Refused(_)) => Outcome::Refused,
            Err(Stop::Failed(_)) => Outcome::Failed,
        }
    }

    /// Returns the exit status: 0, 1 for `Refused`, 3 for `Failed`, and for `Misused` 2, which `clap` uses too.
    pub fn status(self) -> u8
        ensures { result ≡ status_of self }
    {
        match self {
            Outcome::Written => 0,
            Outcome::Refused => 1,
            Outcome::Misused => MISUSE,
            Outcome::Failed => 3,
        }
    }
}
