//! Values of boxes, as far as they can be read.

ghost use Rattle.std.specs.Prelude.{◌≡◌, Result, IfOk, IfSome};
ghost use Rattle.mp4_frame.specs.FourCC.{four_cc_of};
ghost use Rattle.mp4_frame.specs.Reading.{Fault};
ghost use Rattle.mp4_info.specs.Found.{found, readable};
ghost use Rattle.mp4_movie.specs.Levels.{first_in};
ghost use Rattle.mp4_movie.specs.Reads.{IsReadAs};

use mp4_frame::ReadBox;
use mp4_io::{Failure, or_read};
use mp4_movie::{first_in, read_at};
use mp4_walk::{BoxWalk, Source, TreeBox};
use std::alloc::Global;

/// Returns the value that was read, or `None` for a fault.
pub fn readable<T: Drop>(read: mp4_frame::Result<T>) -> Option<T>
    ensures { (r : Result T Fault) → IsReadAs read r → result ≡ readable r }
{
    match read {
        Ok(value) => Some(value),
        Err(_) => None,
    }
}

/// Returns the value of the first box with `code` in a level, or `None` if it is missing or has a fault.
pub fn found<B: ReadBox + Drop, S: Source>(
    alloc: Global,
    walk: &mut BoxWalk<S>,
    level: &[TreeBox],
    depth: u64,
    code: u32,
) -> Result<Option<B>, Failure>
    ensures value { IfSome walk.old.bytes
        (λ file. IfOk result (λ r. r ≡ found B.reads file (first_in depth (four_cc_of code) level.now))) }
    ensures kept { walk.new ≡ walk.old }
{
    let Some(place) = first_in(level, depth, code) else {
        return Ok(None);
    };
    let read = or_read(read_at::<B, S>(alloc, walk, &place.found))?;
    Ok(readable(read))
}
