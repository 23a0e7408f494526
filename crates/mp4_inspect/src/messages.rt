//! The messages about files that can't be read.

use crate::outcome::Outcome;
use mp4_io::Failure;
use std::io;

/// Prints to standard error why a file could not be read, with the system's reason if there is one. A failed write is
/// not printed here, but once at the end.
pub(crate) fn tell(rt: &HostRuntime, shown: &str, failure: Failure, reason: Option<io::Error>) {
    let _ = match (failure, reason) {
        (Failure::Write, _) => Ok(()),
        (Failure::Read, Some(error)) if error.kind() == io::ErrorKind::UnexpectedEof => {
            eprintln!(rt; "mp4inspect: {shown}: {failure}: it has fewer bytes than its length says")
        }
        (Failure::Read, Some(error)) => eprintln!(rt; "mp4inspect: {shown}: {failure}: {error}"),
        _ => eprintln!(rt; "mp4inspect: {shown}: {failure}"),
    };
}

/// Prints to standard error what is wrong with a file that is not read.
pub(crate) fn refuse(rt: &HostRuntime, shown: &str, what: &str) -> Outcome {
    let _ = eprintln!(rt; "mp4inspect: {shown}: {what}");
    Outcome::Failed
}
