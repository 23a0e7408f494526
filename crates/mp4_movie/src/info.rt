//! The headers of a track.

ghost use Rattle.std.specs.Prelude.{◌≡◌, IfOk, IfSome};
ghost use Rattle.mp4_movie.specs.Movies.{handler, timescale, track_id};
ghost use Rattle.mp4_movie.specs.Problems.{Records};

use crate::error::BoxError;
use crate::found::first_value;
use crate::level::first_in;
use mp4_flat::{MdhdBox, TkhdBox};
use mp4_frame::{FourCC, codes};
use mp4_text::HdlrBox;
use mp4_walk::{BoxWalk, Source, TreeBox};
use std::alloc::Global;
use std::io;

/// A track of a movie: its number and place, and the values of its headers, or why they can't be read.
#[derive(Debug, Drop)]
pub struct TrackInfo {
    /// The number of tracks before it in the movie.
    pub number: usize,
    /// The position of its `trak` in the file, in bytes.
    pub position: u64,
    /// The track_ID in its `tkhd` (ISO/IEC 14496-12, 8.3.2).
    pub track_id: Result<u32, BoxError>,
    /// The timescale of its media in ticks a second, in its `mdhd` (8.4.2).
    pub timescale: Result<u32, BoxError>,
    /// The handler type of its media, such as `vide` or `soun`, in its `hdlr` (8.4.3).
    pub handler: Result<FourCC, BoxError>,
}

/// Returns the track_ID of a track. `trak` begins with the boxes inside its `trak`.
pub fn track_id<S: Source>(
    alloc: Global,
    walk: &mut BoxWalk<S>,
    trak: &[TreeBox],
) -> io::Result<Result<u32, BoxError>>
    ensures value { IfSome walk.old.bytes (λ file. IfOk result (λ r. Records r (track_id file trak.now))) }
    ensures kept { walk.new ≡ walk.old }
{
    match first_value::<TkhdBox, S>(alloc, walk, trak, 2, codes::TKHD) {
        Ok(Ok(header)) => Ok(Ok(header.track_id)),
        Ok(Err(error)) => Ok(Err(error)),
        Err(error) => Err(error),
    }
}

/// Returns the timescale of the media of a track. `trak` begins with the boxes inside its `trak`.
pub fn timescale<S: Source>(
    alloc: Global,
    walk: &mut BoxWalk<S>,
    trak: &[TreeBox],
) -> io::Result<Result<u32, BoxError>>
    ensures value { IfSome walk.old.bytes (λ file. IfOk result (λ r. Records r (timescale file trak.now))) }
    ensures kept { walk.new ≡ walk.old }
{
    let Some(mdia) = first_in(trak, 2, codes::MDIA) else {
        return Ok(Err(BoxError::Missing {
            code: FourCC::from(codes::MDIA),
        }));
    };
    match first_value::<MdhdBox, S>(alloc, walk, mdia.after, 3, codes::MDHD)? {
        Ok(header) => Ok(Ok(header.timescale)),
        Err(error) => Ok(Err(error)),
    }
}

/// Returns the handler type of the media of a track. `trak` begins with the boxes inside its `trak`.
pub fn handler<S: Source>(
    alloc: Global,
    walk: &mut BoxWalk<S>,
    trak: &[TreeBox],
) -> io::Result<Result<FourCC, BoxError>>
    ensures value { IfSome walk.old.bytes (λ file. IfOk result (λ r. Records r (handler file trak.now))) }
    ensures kept { walk.new ≡ walk.old }
{
    let Some(mdia) = first_in(trak, 2, codes::MDIA) else {
        return Ok(Err(BoxError::Missing {
            code: FourCC::from(codes::MDIA),
        }));
    };
    match first_value::<HdlrBox, S>(alloc, walk, mdia.after, 3, codes::HDLR)? {
        Ok(found) => Ok(Ok(found.handler_type)),
        Err(error) => Ok(Err(error)),
    }
}
