//! A search for a track of a movie.

ghost use Rattle.std.specs.Prelude.{◌≡◌, Contains, IfSome};

use mp4_movie::TrackInfo;

/// Returns the track whose `trak` is at `position`, if there is one. `tracks` has the tracks of a movie in the order of
/// the file. It takes one step each time that `tracks` can be halved.
pub fn track_at(tracks: &[TrackInfo], position: u64) -> Option<&TrackInfo>
    ensures among { IfSome result (λ track. Contains tracks.now track.now) }
    ensures position { IfSome result (λ track. track.now.position ≡ position) }
{
    let mut low = 0;
    let mut high = tracks.len();
    'halves: while low < high {
        let middle = low + (high - low) / 2;
        let found = &tracks[middle];
        if found.position == position {
            return Some(found);
        }
        if found.position < position {
            low = middle + 1;
        } else {
            high = middle;
        }
    }
    None
}
