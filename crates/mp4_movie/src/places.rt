//! The places of the tracks of a movie.

ghost use Rattle.std.specs.Prelude.{◌≡◌, map, IfOk};
ghost use Rattle.mp4_movie.specs.Movies.{found_at, traks};

use crate::level::first_in;
use mp4_frame::codes;
use mp4_walk::TreeBox;
use std::alloc::Global;
use std::io;

/// The place of a track among the boxes of a file.
#[derive(Clone, Copy, Debug, PartialEq, Eq)]
pub struct TrakPlace {
    /// The `trak` of the track.
    pub found: TreeBox,
    /// The index of the box after `found`.
    pub first: usize,
}

/// Returns the places of the tracks of a file with these boxes: each `trak` in the first `moov`.
pub fn places_of(alloc: Global, boxes: &[TreeBox]) -> io::Result<Vec<TrakPlace>>
    ensures { IfOk result (λ places. map (found_at boxes.now) places.items ≡ traks boxes.now) }
{
    let mut places = Vec::new(alloc);
    let Some(movie) = first_in(boxes, 0, codes::MOOV) else {
        return Ok(places);
    };
    let mut rest = movie.after;
    while let Some(place) = first_in(rest, 1, codes::TRAK) {
        places.push(TrakPlace {
            found: place.found,
            first: boxes.len().saturating_sub(place.after.len()),
        })?;
        rest = place.after;
    }
    Ok(places)
}
