//! The end of a run of the program.

ghost use Rattle.std.specs.Prelude.{◌≡◌, max};
ghost use Rattle.mp4_inspect.specs.Outcome.{diff_status, outcome_of, outcome_of_failure, status_of, is_silent};

use mp4_io::Failure;

/// The end of a run of the program, from the best to the worst.
#[derive(Clone, Copy, Debug, PartialEq, Eq)]
pub enum Outcome {
    /// Everything is written, or everything that the reader of the output took, and no box has a fault.
    Sound,
    /// Everything is written in that sense, and a box has a fault.
    Faulty,
    /// A file could not be read, the output could not be written, or memory was refused.
    Failed,
}

/// Returns whether a failure is not reported, because the reader of the output is gone. `is_closed` says whether it is.
pub fn is_silent(failure: Failure, is_closed: bool) -> bool
    ensures { result ≡ is_silent is_closed failure }
{
    match failure {
        Failure::Write => is_closed,
        Failure::Read | Failure::Memory => false,
    }
}

/// Returns the exit status of the command `diff` from whether the files differ: 0 if not, and else 1.
pub fn diff_status(differ: bool) -> u8
    ensures { result ≡ diff_status differ }
{
    if differ { 1 } else { 0 }
}

impl Outcome {
    /// Returns the outcome of a failure, which is `Sound` if the failure is not reported.
    pub fn of_failure(failure: Failure, is_closed: bool) -> Outcome
        ensures { result ≡ outcome_of_failure is_closed failure }
    {
        if is_silent(failure, is_closed) {
            Outcome::Sound
        } else {
            Outcome::Failed
        }
    }

    /// Returns the outcome of a file. `run` is whether a box has a fault, or the failure of the run.
    pub fn of_file(run: Result<bool, Failure>, is_closed: bool) -> Outcome
        ensures { result ≡ outcome_of is_closed run }
    {
        match run {
            Ok(false) => Outcome::Sound,
            Ok(true) => Outcome::Faulty,
            Err(failure) => Outcome::of_failure(failure, is_closed),
        }
    }

    /// Returns the exit status: 0, 1 for `Faulty` and 3 for `Failed`. `clap` uses 2 for a misuse.
    pub fn status(self) -> u8
        ensures { result ≡ status_of self }
    {
        match self {
            Outcome::Sound => 0,
            Outcome::Faulty => 1,
            Outcome::Failed => 3,
        }
    }

    /// Returns the worse of `self` and `other`.
    pub fn or_worse(self, other: Outcome) -> Outcome
        ensures { status_of result ≡ max (status_of self) (status_of other) }
    {
        match (self, other) {
            (Outcome::Failed, _) | (_, Outcome::Failed) => Outcome::Failed,
            (Outcome::Faulty, _) | (_, Outcome::Faulty) => Outcome::Faulty,
            _ => Outcome::Sound,
        }
    }

    /// Returns the outcome of a run that had the outcome `self` until a failure ended it.
    pub fn ended_by(self, failure: Failure, is_closed: bool) -> Outcome
        ensures { status_of result ≡ max (status_of self) (status_of (outcome_of_failure is_closed failure)) }
    {
        self.or_worse(Outcome::of_failure(failure, is_closed))
    }
}
