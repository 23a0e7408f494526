//! A track fragment with the defaults of its track.

ghost use Rattle.std.specs.Prelude.{◌≡◌, ℕ};
ghost use Rattle.std.specs.BTreeMap.{get};
ghost use Rattle.std.specs.Option.{option_copied};
ghost use Rattle.std.specs.Ordering.{nat_cmp};
ghost use Rattle.mp4_movie.specs.Fragments.{ReturnsAs, data_before, fragment_at, fragment_of, names_base, piece_of};
ghost use Rattle.mp4_movie.specs.Trafs.{ReturnsForAs, value_of};

use crate::error::{BoxError, MovieError};
use crate::track_fragment::TrackFragment;
use crate::traf::{Traf, traf_in};
use mp4_flat::TrexBox;
use mp4_samples::DEFAULT_BASE_IS_MOOF;
use mp4_tables::TfhdBox;
use mp4_walk::{BoxWalk, Source, TreeBox};
use std::alloc::Global;
use std::collections::BTreeMap;
use std::io;
use std::io::ErrorKind;

/// Returns whether `header` states the base of data offsets.
fn names_base(header: &TfhdBox) -> bool
    ensures { result ≡ names_base header.now }
{
    header.base_data_offset.is_some() || header.flags & DEFAULT_BASE_IS_MOOF > 0
}

/// Returns the end of the data before a `traf`, or `moof` if its header states the base of data offsets.
fn data_before(header: &TfhdBox, moof: u64, end: Option<u64>) -> Option<u64>
    ensures { result ≡ data_before header.now moof end }
{
    if names_base(header) { Some(moof) } else { end }
}

/// Returns the fragment that `traf`, in the `moof` at position `moof`, is. Fails if its track has no defaults `trex`,
/// or if its data begin at the end `end` of the data before it, and that is not known.
pub fn fragment_of(
    traf: Traf,
    moof: u64,
    trex: Option<&TrexBox>,
    end: Option<u64>,
) -> Result<TrackFragment, MovieError>
    ensures { ReturnsAs piece_of result (fragment_of (option_copied trex.entry) moof end (value_of traf)) }
{
    let track_id = traf.header.track_id;
    let Some(trex) = trex else {
        return Err(MovieError::Box(BoxError::NoDefaults { track_id }));
    };
    let Some(data_end) = data_before(&traf.header, moof, end) else {
        return Err(MovieError::Box(BoxError::NoBase {
            position: moof,
            track_id,
        }));
    };
    match trex.clone() {
        Ok(defaults) => Ok(TrackFragment {
            defaults,
            header: traf.header,
            time: traf.time,
            runs: traf.runs,
            moof,
            data_end,
        }),
        Err(_) => Err(MovieError::Io(io::Error::from(ErrorKind::OutOfMemory))),
    }
}

/// Returns the fragment that a `traf` of the `moof` at position `moof` is. `boxes` begins with the boxes inside the
/// `traf`. The data before it end at `end`, if that is known.
pub fn fragment_in<S: Source>(
    alloc: Global,
    walk: &mut BoxWalk<S>,
    boxes: &[TreeBox],
    defaults: &BTreeMap<u32, TrexBox>,
    moof: u64,
    end: Option<u64>,
) -> Result<TrackFragment, MovieError>
    ensures value { ReturnsForAs piece_of walk.old.bytes result
        (λ file. fragment_at file (λ (q : ℕ). get nat_cmp defaults.now q) moof end boxes.now) }
    ensures kept { walk.new ≡ walk.old }
{
    let traf = traf_in(alloc, walk, boxes)?;
    let trex = defaults.get(&traf.header.track_id);
    fragment_of(traf, moof, trex, end)
}
