//! The values of a `traf`, and the places of its runs.

ghost use Rattle.std.specs.Prelude.{◌≡◌, ℕ, Result, IfOk, IfSome, option_map};
ghost use Rattle.std.specs.BTreeMap.{get};
ghost use Rattle.std.specs.Option.{option_copied};
ghost use Rattle.std.specs.Ordering.{nat_cmp};
ghost use Rattle.mp4_check.specs.FragmentValues.{fragment_header, fragment_in, header_found, lists_sizes, no_trex};
ghost use Rattle.mp4_check.specs.FragmentValues.{places_by, places_in, states_sizes, traf_values, value_of_places};
ghost use Rattle.mp4_check.specs.FragmentValues.{value_of_traf, value_of_values, values_by};
ghost use Rattle.mp4_frame.specs.Reading.{Fault};
ghost use Rattle.mp4_movie.specs.Fragments.{fragment_of, piece_of};
ghost use Rattle.mp4_movie.specs.Reads.{IsReadAs};
ghost use Rattle.mp4_tables.specs.declared.tfhd.TfhdBox.{TfhdBox};
ghost use Rattle.mp4_movie.specs.Trafs.{value_of};

use mp4_flat::TrexBox;
use mp4_frame::codes::TFHD;
use mp4_io::{Failure, or_read, read_failure};
use mp4_movie::{MovieError, TrackFragment, Traf, first_in, fragment_of, read_at, traf_in};
use mp4_samples::RunExtent;
use mp4_tables::{TfhdBox, TrunBox};
use mp4_walk::{BoxWalk, Source, TreeBox};
use std::alloc::Global;
use std::collections::BTreeMap;

/// The header of a fragment.
#[derive(Clone, Copy, Debug, PartialEq, Eq)]
pub struct FragmentHeader {
    /// The position of the `tfhd`.
    pub position: u64,
    /// The track_ID in it.
    pub track_id: u32,
}

/// The places of the runs of a `traf`.
#[derive(Debug, Drop)]
pub struct RunPlaces {
    /// The bytes of each run.
    pub runs: Vec<RunExtent>,
    /// The end of the data of the last run, if it is a position in a file.
    pub end: Option<u64>,
}

/// The values of a `traf` that its rules need.
#[derive(Debug, Drop)]
pub struct TrafValues {
    /// The track_ID in its header.
    pub track_id: u32,
    /// The time at which it starts, if it has a `tfdt`.
    pub time: Option<u64>,
    /// True if its offsets count from the beginning of the file that the fragment was made for.
    pub is_absolute: bool,
    /// The places of its runs, if they are known.
    pub places: Option<RunPlaces>,
}

/// Returns the header in `read`, a `tfhd` at `position`.
fn header_found(read: mp4_frame::Result<TfhdBox>, position: u64) -> Option<FragmentHeader>
    ensures { (r : Result TfhdBox Fault) → IsReadAs read r → result ≡ header_found position r }
{
    match read {
        Ok(header) => Some(FragmentHeader {
            position,
            track_id: header.track_id,
        }),
        Err(_) => None,
    }
}

/// Returns the header of a fragment, unless it is missing or has a fault. `boxes` begins with the boxes inside its
/// `traf`.
pub fn fragment_header<S: Source>(
    alloc: Global,
    walk: &mut BoxWalk<S>,
    boxes: &[TreeBox],
) -> Result<Option<FragmentHeader>, Failure>
    ensures value { IfSome walk.old.bytes (λ file. IfOk result (λ r. r ≡ fragment_header file boxes.now)) }
    ensures kept { walk.new ≡ walk.old }
{
    let Some(place) = first_in(boxes, 2, TFHD) else {
        return Ok(None);
    };
    let read = or_read(read_at::<TfhdBox, S>(alloc, walk, &place.found))?;
    Ok(header_found(read, place.found.position))
}

/// Returns whether `run` lists the sizes of all its samples.
fn lists_sizes(run: &TrunBox) -> bool
    ensures { result ≡ lists_sizes run.now }
{
    run.sample_sizes.len() >= run.sample_count as usize
}

/// Returns whether `traf` states the sizes of all its samples itself.
fn states_sizes(traf: &Traf) -> bool
    ensures { result ≡ states_sizes (value_of traf.now) }
{
    if traf.header.default_sample_size.is_some() {
        return true;
    }
    for run in &traf.runs {
        if !lists_sizes(run) {
            return false;
        }
    }
    true
}

/// Returns defaults for a track that has none. They serve for a `traf` that states all sizes.
fn no_trex() -> TrexBox
    ensures { result ≡ no_trex }
{
    TrexBox {
        version: 0,
        flags: 0,
        track_id: 0,
        default_sample_description_index: 0,
        default_sample_duration: 0,
        default_sample_size: 0,
        default_sample_flags: 0,
    }
}

/// Returns the places of the runs of `fragment`.
fn run_places(alloc: Global, fragment: &TrackFragment) -> Result<RunPlaces, Failure>
    ensures { IfOk result (λ p. value_of_places p ≡ places_in (fragment_in (piece_of fragment.now))) }
{
    let fragment = fragment.fragment(0);
    match fragment.run_extents(alloc) {
        Ok(runs) => Ok(RunPlaces {
            runs,
            end: fragment.end(),
        }),
        Err(_) => Err(Failure::Memory),
    }
}

/// Returns the places of the runs of `traf`, in the `moof` at position `moof`, if they are known. `trex` has the
/// defaults of its track, and `end` is the end of the data before it, if it is known.
fn places_at(
    alloc: Global,
    traf: Traf,
    moof: u64,
    trex: Option<&TrexBox>,
    end: Option<u64>,
) -> Result<Option<RunPlaces>, Failure>
    ensures { IfOk result (λ r. option_map value_of_places r
        ≡ places_by (fragment_of (option_copied trex.entry) moof end (value_of traf))) }
{
    match fragment_of(traf, moof, trex, end) {
        Ok(fragment) => Ok(Some(run_places(alloc, &fragment)?)),
        Err(MovieError::Box(_)) => Ok(None),
        Err(MovieError::Io(error)) => Err(read_failure(&error)),
    }
}

/// Returns the values of `traf`, in the `moof` at position `moof`.
fn values_of(
    alloc: Global,
    traf: Traf,
    moof: u64,
    trex: Option<&TrexBox>,
    end: Option<u64>,
) -> Result<TrafValues, Failure>
    ensures { IfOk result (λ r. value_of_values r ≡ values_by (option_copied trex.entry) moof end (value_of traf)) }
{
    let track_id = traf.header.track_id;
    let is_absolute = traf.header.base_data_offset.is_some();
    let time = match &traf.time {
        Some(time) => Some(time.base_media_decode_time),
        None => None,
    };
    Ok(TrafValues {
        track_id,
        time,
        is_absolute,
        places: places_at(alloc, traf, moof, trex, end)?,
    })
}

/// Returns the values of a `traf` of the `moof` at position `moof`, unless a box of it is missing or has a fault.
/// `boxes` begins with the boxes inside it, `end` is the end of the data before it, and `defaults` has the `trex` of
/// each track.
pub fn traf_values<S: Source>(
    alloc: Global,
    walk: &mut BoxWalk<S>,
    boxes: &[TreeBox],
    moof: u64,
    end: Option<u64>,
    defaults: &BTreeMap<u32, TrexBox>,
) -> Result<Option<TrafValues>, Failure>
    ensures value { IfSome walk.old.bytes
        (λ file. IfOk result (λ r. value_of_traf r
        ≡ traf_values file (λ (q : ℕ). get nat_cmp defaults.now q) moof end boxes.now)) }
    ensures kept { walk.new ≡ walk.old }
{
    let traf = match traf_in(alloc, walk, boxes) {
        Ok(traf) => traf,
        Err(MovieError::Box(_)) => return Ok(None),
        Err(MovieError::Io(error)) => return Err(read_failure(&error)),
    };
    if let Some(trex) = defaults.get(&traf.header.track_id) {
        return Ok(Some(values_of(alloc, traf, moof, Some(trex), end)?));
    }
    let stand_in = no_trex();
    let trex = if states_sizes(&traf) {
        Some(&stand_in)
    } else {
        None
    };
    Ok(Some(values_of(alloc, traf, moof, trex, end)?))
}
