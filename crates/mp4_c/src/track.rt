//! Finds a track, for the functions that list samples.

ghost use Rattle.std.specs.Prelude.{◌≡◌, ◌⊎◌, None, Some, IfErr, IfOk};
ghost use Rattle.mp4_c_boxes.specs.declared.status.TheConstants as statuses;
ghost use Rattle.mp4_c.specs.Tracks.{number_of, status_of_box_error, status_without_track};
ghost use Rattle.mp4_walk.specs.FileBoxes.{boxes_of};

use mp4_c_boxes::status::{BOX_NOT_FOUND, NO_TRACK, OFFSET, OUT_OF_MEMORY, status_of};
use mp4_frame::codes;
use mp4_movie::{BoxError, Movie, first_in};
use mp4_walk::TreeBox;
use std::alloc::Global;

/// Returns the status of `error`.
pub fn status_of_box_error(error: &BoxError) -> u32
    ensures { result ≡ status_of_box_error error.now }
{
    match error {
        BoxError::Missing { .. } => BOX_NOT_FOUND,
        BoxError::Fault { error, .. } => status_of(error),
        BoxError::NoDefaults { .. } => BOX_NOT_FOUND,
        BoxError::NoBase { .. } => OFFSET,
    }
}

/// Returns the status for a file with these boxes in which no track has the track_ID.
fn status_without_track(boxes: &[TreeBox]) -> u32
    ensures { result ≡ status_without_track boxes.now }
{
    match first_in(boxes, 0, codes::MOOV) {
        Some(_) => NO_TRACK,
        None => BOX_NOT_FOUND,
    }
}

/// A track of a file in memory.
#[derive(Drop)]
pub struct FoundTrack<'a> {
    /// The movie of the file.
    pub movie: Movie<&'a [u8]>,
    /// The number of the track in the movie.
    pub number: usize,
}

/// Returns the first track of the file `bytes` with this track_ID, or the status.
pub fn find_track<'a>(alloc: Global, bytes: &'a [u8], track_id: u32) -> Result<FoundTrack<'a>, u32>
    ensures found { IfOk result (λ track.
        (track.movie.bytes ≡ Some bytes.now) × (Some track.number ≡ number_of bytes.now track_id)) }
    ensures error { IfErr result (λ status. (status ≡ statuses.OUT_OF_MEMORY)
        ⊎ ((None ≡ number_of bytes.now track_id) × (status ≡ status_without_track (boxes_of bytes.now)))) }
{
    let Ok(mut movie) = Movie::open(alloc, bytes) else {
        return Err(OUT_OF_MEMORY);
    };
    match movie.number_of(alloc, track_id) {
        Ok(Some(number)) => Ok(FoundTrack { movie, number }),
        Ok(None) => Err(status_without_track(movie.boxes())),
        Err(_) => Err(OUT_OF_MEMORY),
    }
}
