//! The fragments of tracks.

ghost use Rattle.std.specs.Prelude.{◌≡◌, ℕ, ◌==◌, ◌-◌, ◌^◌, [], ◌∷◌, ◌++◌, min, IfOk, IfSome, List, OnOk};
ghost use Rattle.std.specs.Prelude.{Err, None, Ok, Result, Some};
ghost use Rattle.std.specs.Prelude.{if◌then◌else◌};
ghost use Rattle.mp4_frame.specs.FourCC.{four_cc_of};
ghost use Rattle.mp4_frame.specs.Reading.{Fault as BoxFault};
ghost use Rattle.mp4_frame.specs.declared.codes.TheConstants as names;
ghost use Rattle.mp4_movie.specs.Levels.{all_in, first_in};
ghost use Rattle.mp4_movie.specs.Reads.{IsReadAs};
ghost use Rattle.mp4_tables.specs.declared.tfhd.TfhdBox.{TfhdBox};
ghost use Rattle.mp4_tables.specs.declared.trun.TrunBox.{TrunBox};
ghost use Rattle.mp4_walk.specs.declared.tree_box.TreeBox.{TreeBox};
ghost use Rattle.mp4_inspect_samples.specs.Trafs.{AreStored, Enters, added, count_in, counted, header_faults};
ghost use Rattle.mp4_inspect_samples.specs.Trafs.{header_id, id_in, id_of_traf, list_of, samples_without, stored_for};
ghost use Rattle.mp4_inspect_samples.specs.Trafs.{stored_of, traf_at, trafs_in, trafs_of, trafs_of_moofs};
ghost use Rattle.mp4_inspect_samples.specs.Trafs.{unknown_fault};

use crate::fault::{Fault, TrackFault};
use crate::limit::samples_in;
use crate::lists::keep;
use mp4_frame::codes::{MOOF, TFHD, TRAF, TRUN};
use mp4_io::{Failure, or_read};
use mp4_movie::{BoxError, MoofFragments, TrackFragment, first_in, read_at};
use mp4_tables::{TfhdBox, TrunBox};
use mp4_walk::{BoxWalk, Source, TreeBox};
use std::alloc::{AllocError, Global};
use std::collections::BTreeMap;

/// A `traf` of a track.
#[derive(Drop)]
pub struct TrackTraf {
    /// The number of samples that its runs count, or 0 if a box in it has a fault.
    pub samples: u64,
    /// The fragment, or why the `traf` is none.
    pub fragment: Result<TrackFragment, BoxError>,
}

/// The fragments of a movie, in the order of the file.
#[derive(Drop)]
pub struct Fragments {
    /// The fragments of each track_ID that a `traf` has.
    pub by_track: BTreeMap<u32, Vec<TrackTraf>>,
}

impl Fragments {
    /// Returns no fragments.
    pub fn new(alloc: Global) -> Fragments
        ensures { (q : ℕ) → stored_for result q ≡ None }
    {
        Fragments {
            by_track: BTreeMap::new(alloc),
        }
    }

    /// Removes the fragments of the track_ID `track`, and returns them.
    pub fn take(&mut self, alloc: Global, track: u32) -> Vec<TrackTraf>
        ensures taken { result.items ≡ list_of (stored_for self.old track) }
        ensures left { (q : ℕ) → stored_for self.new q ≡ if track == q then None else stored_for self.old q }
    {
        match self.by_track.remove(&track) {
            Some(trafs) => trafs,
            None => Vec::new(alloc),
        }
    }

    /// Adds `traf` to those of the track_ID `track`.
    fn add(&mut self, alloc: Global, track: u32, traf: TrackTraf) -> Result<(), AllocError>
        ensures { OnOk result ((q : ℕ) → stored_for self.new q
            ≡ added (stored_for self.old q) (if track == q then traf ∷ [] else [])) }
    {
        let mut trafs = self.take(alloc, track);
        keep(&mut trafs, traf)?;
        self.by_track.insert(track, trafs)?;
        Ok(())
    }
}

/// A `traf` whose header and runs are read.
#[derive(Drop)]
struct FoundTraf {
    /// The track_ID, if it is known.
    track: Option<u32>,
    /// The stored `traf`.
    traf: TrackTraf,
}

/// Returns the track_ID in `read`, a header, if it can be read.
fn id_in(read: mp4_frame::Result<TfhdBox>) -> Option<u32>
    ensures { (r : Result TfhdBox BoxFault) → IsReadAs read r → result ≡ id_in r }
{
    match read {
        Ok(header) => Some(header.track_id),
        Err(_) => None,
    }
}

/// Returns the number of samples in `read`, a run, or 0 if it has a fault.
fn count_in(read: mp4_frame::Result<TrunBox>) -> u64
    ensures { (r : Result TrunBox BoxFault) → IsReadAs read r → result ≡ count_in r }
{
    match read {
        Ok(run) => u64::from(run.sample_count),
        Err(_) => 0,
    }
}

/// Returns the track_ID in the header of a `traf`, if it can be read. `traf` begins with the boxes inside it.
fn header_id<S: Source>(
    alloc: Global,
    walk: &mut BoxWalk<S>,
    traf: &[TreeBox],
) -> Result<Option<u32>, Failure>
    ensures value { IfSome walk.old.bytes
        (λ file. IfOk result (λ id. id ≡ header_id file (first_in 2 (four_cc_of names.TFHD) traf.now))) }
    ensures kept { walk.new ≡ walk.old }
{
    let Some(place) = first_in(traf, 2, TFHD) else {
        return Ok(None);
    };
    let read = or_read(read_at::<TfhdBox, S>(alloc, walk, &place.found))?;
    Ok(id_in(read))
}

/// Returns the number of samples that the runs of a `traf` count, or 2^64 - 1 if they count more. A run with a fault
/// counts none. `traf` begins with the boxes inside it.
fn counted<S: Source>(
    alloc: Global,
    walk: &mut BoxWalk<S>,
    traf: &[TreeBox],
) -> Result<u64, Failure>
    ensures value { IfSome walk.old.bytes
        (λ file. IfOk result
        (λ n. n ≡ min (counted file (all_in 2 (four_cc_of names.TRUN) traf.now)) (2 ^ 64 - 1))) }
    ensures kept { walk.new ≡ walk.old }
{
    let mut samples = 0u64;
    let mut rest = traf;
    'runs: while let Some(place) = first_in(rest, 2, TRUN) {
        let read = or_read(read_at::<TrunBox, S>(alloc, walk, &place.found))?;
        samples = samples.saturating_add(count_in(read));
        rest = place.after;
    }
    Ok(samples)
}

/// Returns the number of samples of a `traf` that is no fragment, because of `error`: 0 if that is a fault of a box in
/// the `traf`.
fn samples_without<S: Source>(
    alloc: Global,
    walk: &mut BoxWalk<S>,
    traf: &[TreeBox],
    error: &BoxError,
) -> Result<u64, Failure>
    ensures value { IfSome walk.old.bytes
        (λ file. IfOk result (λ n. n ≡ samples_without file traf.now error.now)) }
    ensures kept { walk.new ≡ walk.old }
{
    match error {
        BoxError::Fault { .. } => Ok(0),
        _ => counted(alloc, walk, traf),
    }
}

/// Returns what is stored of a `traf` that is no fragment, because of `error`.
fn find_error<S: Source>(
    alloc: Global,
    walk: &mut BoxWalk<S>,
    traf: &[TreeBox],
    error: BoxError,
) -> Result<FoundTraf, Failure>
    ensures track { IfSome walk.old.bytes
        (λ file. IfOk result (λ found. found.track ≡ id_of_traf file traf.now (Err error))) }
    ensures stored { IfSome walk.old.bytes
        (λ file. IfOk result (λ found. found.traf ≡ stored_of file traf.now (Err error))) }
    ensures kept { walk.new ≡ walk.old }
{
    let track = header_id(alloc, walk, traf)?;
    let samples = samples_without(alloc, walk, traf, &error)?;
    Ok(FoundTraf {
        track,
        traf: TrackTraf {
            samples,
            fragment: Err(error),
        },
    })
}

/// Returns what is stored of a `traf` that is `fragment`.
fn find_fragment(fragment: TrackFragment) -> FoundTraf
    ensures track { (file : List ℕ) (traf : List TreeBox) → result.track ≡ id_of_traf file traf (Ok fragment) }
    ensures stored { (file : List ℕ) (traf : List TreeBox) → result.traf ≡ stored_of file traf (Ok fragment) }
{
    FoundTraf {
        track: Some(fragment.header.track_id),
        traf: TrackTraf {
            samples: samples_in(&fragment.runs),
            fragment: Ok(fragment),
        },
    }
}

/// Returns what is stored of a `traf`, by the answer of the movie for it. `traf` begins with the boxes inside it.
fn find_traf<S: Source>(
    alloc: Global,
    walk: &mut BoxWalk<S>,
    traf: &[TreeBox],
    answer: Result<TrackFragment, BoxError>,
) -> Result<FoundTraf, Failure>
    ensures track { IfSome walk.old.bytes
        (λ file. IfOk result (λ found. found.track ≡ id_of_traf file traf.now answer)) }
    ensures stored { IfSome walk.old.bytes
        (λ file. IfOk result (λ found. found.traf ≡ stored_of file traf.now answer)) }
    ensures kept { walk.new ≡ walk.old }
{
    match answer {
        Ok(fragment) => Ok(find_fragment(fragment)),
        Err(error) => find_error(alloc, walk, traf, error),
    }
}

/// Stores the fault of a `traf` without a track_ID.
fn keep_unknown(
    moof: u64,
    fragment: Result<TrackFragment, BoxError>,
    faults: &mut Vec<TrackFault>,
) -> Result<(), AllocError>
    ensures { OnOk result (faults.new.items ≡ faults.old.items ++ unknown_fault moof None fragment) }
{
    match fragment {
        Ok(_) => Ok(()),
        Err(error) => keep(
            faults,
            TrackFault {
                track: None,
                fault: Fault::Header(moof, error),
            },
        ),
    }
}

/// Adds a `traf` to those of its track, or stores its fault if its track is unknown.
fn enter_found(
    alloc: Global,
    moof: u64,
    found: FoundTraf,
    fragments: &mut Fragments,
    faults: &mut Vec<TrackFault>,
) -> Result<(), AllocError>
    ensures { OnOk result (Enters
        (record { moof = moof; id = found.track; stored = found.traf } ∷ []) fragments.old fragments.new
        faults.old.items faults.new.items) }
{
    let FoundTraf { track, traf } = found;
    match track {
        Some(track) => fragments.add(alloc, track, traf),
        None => keep_unknown(moof, traf.fragment, faults),
    }
}

/// Adds a `traf` to those of its track, by the answer of the movie for it. `traf` begins with the boxes inside it.
fn enter_traf<S: Source>(
    alloc: Global,
    walk: &mut BoxWalk<S>,
    traf: &[TreeBox],
    moof: u64,
    answer: Result<TrackFragment, BoxError>,
    fragments: &mut Fragments,
    faults: &mut Vec<TrackFault>,
) -> Result<(), Failure>
    ensures value { IfSome walk.old.bytes
        (λ file. OnOk result (Enters (traf_at file moof traf.now answer ∷ []) fragments.old fragments.new
        faults.old.items faults.new.items)) }
    ensures kept { walk.new ≡ walk.old }
{
    let found = find_traf(alloc, walk, traf, answer)?;
    enter_found(alloc, moof, found, fragments, faults)?;
    Ok(())
}

/// Adds the `traf`s of the `moof` at position `moof` to those of their tracks, by the answers of the movie for them.
/// `boxes` begins with the boxes inside it.
fn enter_moof<S: Source>(
    alloc: Global,
    walk: &mut BoxWalk<S>,
    boxes: &[TreeBox],
    moof: u64,
    answers: Vec<Result<TrackFragment, BoxError>>,
    fragments: &mut Fragments,
    faults: &mut Vec<TrackFault>,
) -> Result<(), Failure>
    ensures value { IfSome walk.old.bytes
        (λ file. OnOk result (Enters
        (trafs_in file moof (all_in 1 (four_cc_of names.TRAF) boxes.now) answers.items) fragments.old fragments.new
        faults.old.items faults.new.items)) }
    ensures kept { walk.new ≡ walk.old }
{
    let mut rest = boxes;
    for answer in answers {
        let Some(place) = first_in(rest, 1, TRAF) else {
            return Ok(());
        };
        enter_traf(alloc, walk, place.after, moof, answer, fragments, faults)?;
        rest = place.after;
    }
    Ok(())
}

/// Adds the `traf`s of each `moof` in `boxes` to those of their tracks, by the answers of the movie for them.
fn enter_moofs<S: Source>(
    alloc: Global,
    walk: &mut BoxWalk<S>,
    boxes: &[TreeBox],
    moofs: Vec<MoofFragments>,
    fragments: &mut Fragments,
    faults: &mut Vec<TrackFault>,
) -> Result<(), Failure>
    ensures value { IfSome walk.old.bytes
        (λ file. OnOk result (Enters
        (trafs_of_moofs file (all_in 0 (four_cc_of names.MOOF) boxes.now) moofs.items) fragments.old fragments.new
        faults.old.items faults.new.items)) }
    ensures kept { walk.new ≡ walk.old }
{
    let mut rest = boxes;
    for moof in moofs {
        let Some(place) = first_in(rest, 0, MOOF) else {
            return Ok(());
        };
        let MoofFragments {
            position,
            fragments: answers,
        } = moof;
        enter_moof(
            alloc,
            walk,
            place.after,
            position,
            answers,
            fragments,
            faults,
        )?;
        rest = place.after;
    }
    Ok(())
}

/// Returns the fragments of a file with the boxes `boxes` by track_ID, by the answers of the movie for them. Stores a
/// fault for each `traf` whose track is unknown.
pub fn fragments_of<S: Source>(
    alloc: Global,
    walk: &mut BoxWalk<S>,
    boxes: &[TreeBox],
    moofs: Vec<MoofFragments>,
    faults: &mut Vec<TrackFault>,
) -> Result<Fragments, Failure>
    ensures stored { IfSome walk.old.bytes
        (λ file. IfOk result (AreStored (trafs_of file boxes.now moofs.items))) }
    ensures told { IfSome walk.old.bytes
        (λ file. OnOk result
        (faults.new.items ≡ faults.old.items ++ header_faults (trafs_of file boxes.now moofs.items))) }
    ensures kept { walk.new ≡ walk.old }
{
    let mut fragments = Fragments::new(alloc);
    enter_moofs(alloc, walk, boxes, moofs, &mut fragments, faults)?;
    Ok(fragments)
}
