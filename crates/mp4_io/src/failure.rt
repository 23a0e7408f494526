//! The failure that ended a run before everything was read and written.

ghost use Rattle.std.specs.Prelude.{◌≡◌, ◌≢◌, false, Ok, Some, IfOk};
ghost use Rattle.std.specs.IoError.{error_kind};
ghost use Rattle.mp4_io.specs.Ends.{is_write};
ghost use Rattle.mp4_io.specs.declared.failure.Failure.TheVariants.{Memory};
ghost use Rattle.mp4_io.specs.Failure.{failure_text};

use std::alloc::AllocError;
use std::io::ErrorKind;
use std::{fmt, io};

/// A failure that ends a run before everything is read and written.
#[derive(Clone, Copy, Debug, PartialEq, Eq)]
pub enum Failure {
    /// A call of the reader failed.
    Read,
    /// A call of the writer failed, or took no byte of a piece that is not empty.
    Write,
    /// There was no memory.
    Memory,
}

impl From<AllocError> for Failure {
    ghost from_gives = { λ _ failure. failure ≡ Memory };

    fn from(_e: AllocError) -> Failure {
        Failure::Memory
    }
}

impl fmt::Display for Failure {
    ghost output = { λ failure. Some (failure_text failure) };

    fn fmt<W: fmt::Write>(&self, f: &mut fmt::Formatter<W>) -> fmt::Result {
        match self {
            Failure::Read => f.write_str("read failed"),
            Failure::Write => f.write_str("write failed"),
            Failure::Memory => f.write_str("out of memory"),
        }
    }
}

/// Returns the failure of a read with this error.
pub fn read_failure(error: &io::Error) -> Failure
    ensures memory { error_kind error.now ≡ ErrorKind.OutOfMemory → result ≡ Failure.Memory }
    ensures read { error_kind error.now ≢ ErrorKind.OutOfMemory → result ≡ Failure.Read }
{
    match error.kind() {
        ErrorKind::OutOfMemory => Failure::Memory,
        _ => Failure::Read,
    }
}

/// Returns the outcome of a read, with its error as a failure.
pub fn or_read<T: Drop>(outcome: io::Result<T>) -> Result<T, Failure>
    ensures ok { IfOk result (λ value. outcome ≡ Ok value) }
    ensures not_write { is_write result ≡ false }
{
    match outcome {
        Ok(value) => Ok(value),
        Err(error) => Err(read_failure(&error)),
    }
}
