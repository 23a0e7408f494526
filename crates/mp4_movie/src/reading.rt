//! The value of a box of a file.

ghost use Rattle.std.specs.Prelude.{◌≡◌, IfOk, IfSome};
ghost use Rattle.mp4_frame.specs.Reading.{Answers, Reading};
ghost use Rattle.mp4_movie.specs.Reads.{IsReadAs, is_memory, own_reading};
ghost use Rattle.mp4_walk.specs.Source.{piece};

use mp4_frame::{Error, ReadBox, Result, whole_box};
use mp4_walk::{BoxWalk, Source, TreeBox};
use std::alloc::Global;
use std::io;
use std::io::ErrorKind;

/// Returns the bytes of `found` in those of its file, with the header, or as many as the file has.
fn bytes_of<'a>(file: &'a [u8], found: &TreeBox) -> &'a [u8]
    ensures { result.now ≡ piece file.now found.now.position found.now.length }
{
    let start = found.position.min(file.len() as u64) as usize;
    let rest = &file[start..];
    let len = found.length.min(rest.len() as u64) as usize;
    &rest[..len]
}

/// Returns whether `error` says that memory was refused.
fn is_memory(error: &Error) -> bool
    ensures { result ≡ is_memory error.now }
{
    matches!(error, Error::OutOfMemory)
}

/// Returns the value or the fault of a reading. Fails if memory was refused.
fn or_failure<T: Drop>(outcome: Result<T>) -> io::Result<Result<T>>
    ensures { (reading : Reading T) → Answers outcome reading
        → IfOk result (λ r. IsReadAs r reading.outcome) }
{
    match outcome {
        Ok(value) => Ok(Ok(value)),
        Err(error) => {
            if is_memory(&error) {
                return Err(io::Error::from(ErrorKind::OutOfMemory));
            }
            Ok(Err(error))
        }
    }
}

/// Returns the value or the first fault of `found`, a box of the file that `walk` walks over. Reads only the bytes of
/// the box, and copies none of them if the file is in memory. Fails if reading fails or memory is refused.
pub fn read_at<B: ReadBox + Drop, S: Source>(
    alloc: Global,
    walk: &mut BoxWalk<S>,
    found: &TreeBox,
) -> io::Result<Result<B>>
    ensures value { IfSome walk.old.bytes
        (λ file. IfOk result (λ r. IsReadAs r (own_reading B.reads file found.now).outcome)) }
    ensures kept { walk.new ≡ walk.old }
{
    if !found.is_whole() {
        return Ok(Err(Error::IoError));
    }
    if let Some(file) = walk.in_memory() {
        return or_failure(whole_box(alloc, bytes_of(file, found)));
    }
    let bytes = walk.read_box(alloc, found)?;
    or_failure(whole_box(alloc, &bytes))
}
