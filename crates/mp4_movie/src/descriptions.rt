//! The sample descriptions of a track.

ghost use Rattle.std.specs.Prelude.{◌≡◌};
ghost use Rattle.mp4_frame.specs.declared.codes.TheConstants as names;
ghost use Rattle.mp4_movie.specs.Descriptions.{bytes_at, descriptions_in};
ghost use Rattle.mp4_movie.specs.Trafs.{ReturnsForAs};

use crate::error::{BoxError, MovieError};
use crate::level::first_in;
use crate::table::DEPTH;
use mp4_frame::{Error, FourCC, codes};
use mp4_walk::{BoxWalk, Source, TreeBox};
use std::alloc::Global;

/// Returns the bytes of `found`, an `stsd`, with its header. Fails if it is not whole.
fn bytes_at<S: Source>(
    alloc: Global,
    walk: &mut BoxWalk<S>,
    found: &TreeBox,
) -> Result<Vec<u8>, MovieError>
    ensures value { ReturnsForAs (λ v. v.items) walk.old.bytes result (λ file. bytes_at names.STSD file found.now) }
    ensures kept { walk.new ≡ walk.old }
{
    if !found.is_whole() {
        return Err(MovieError::Box(BoxError::Fault {
            code: FourCC::from(codes::STSD),
            position: found.position,
            error: Error::IoError,
        }));
    }
    Ok(walk.read_box(alloc, found)?)
}

/// Returns the bytes of the `stsd` in an `stbl`. `stbl` begins with the boxes inside it.
pub fn descriptions_in<S: Source>(
    alloc: Global,
    walk: &mut BoxWalk<S>,
    stbl: &[TreeBox],
) -> Result<Vec<u8>, MovieError>
    ensures value { ReturnsForAs (λ v. v.items) walk.old.bytes result (λ file. descriptions_in file stbl.now) }
    ensures kept { walk.new ≡ walk.old }
{
    match first_in(stbl, DEPTH, codes::STSD) {
        Some(place) => bytes_at(alloc, walk, &place.found),
        None => Err(MovieError::Box(BoxError::Missing {
            code: FourCC::from(codes::STSD),
        })),
    }
}
