//! The rules of samples: those of the tables of the tracks, then those of the fragments.

ghost use Rattle.std.specs.Prelude.{◌≡◌, ◌==◌, ℕ, List, [], ◌∷◌, ◌++◌, IfOk, IfSome, OnOk, None, Some, option_map};
ghost use Rattle.std.specs.Prelude.{if◌then◌else◌};
ghost use Rattle.std.specs.Option.{option_or};
ghost use Rattle.std.specs.BTreeMap.{get};
ghost use Rattle.std.specs.Ordering.{nat_cmp};
ghost use Rattle.mp4_check.specs.FaultValues.{values_of};
ghost use Rattle.mp4_check.specs.FragmentFaults.{found_at, trafs_of};
ghost use Rattle.mp4_check.specs.Headers.{track_header};
ghost use Rattle.mp4_check.specs.SampleFaults.{AreKinds, AreMoofsLooked, AreSampleFaults, AreTracksLooked};
ghost use Rattle.mp4_check.specs.SampleFaults.{AreTrafsLooked, EndsPiece, LooksPiece, TrackLooked, TrafLooked};
ghost use Rattle.mp4_check.specs.SampleFaults.{WritesSamples, faults_by, frames_what, kinds_at, ok_of, table_looked};
ghost use Rattle.mp4_check.specs.SampleFaults.{track_kinds, traf_looked, units_what};
ghost use Rattle.mp4_check.specs.TrackFaults.{table_position};
ghost use Rattle.mp4_check.specs.TrackTables.{sample_table};
ghost use Rattle.mp4_frame.specs.FourCC.{four_cc_of};
ghost use Rattle.mp4_frame.specs.declared.codes.TheConstants as names;
ghost use Rattle.mp4_movie.specs.Fragments.{fragment_at, piece_of};
ghost use Rattle.mp4_movie.specs.Levels.{Found, after_of, all_in};
ghost use Rattle.mp4_check.specs.TrackSamples.{LooksTrack};

use crate::fault::{Fault, Reason, What};
use crate::faults::track_defaults;
use crate::fragments::{TrafPlace, push_fault as push_fragment_fault};
use crate::headers::{TrackHeader, track_header};
use crate::lines::{Form, Told, write_all_faults};
use crate::media::file_length;
use crate::references::is_away;
use crate::samples::{
    Kind, Looked, SampleFault, Wrong, kinds_in, look_at_fragment, look_at_track, nothing,
};
use crate::tables::sample_table;
use crate::tracks::push_fault;
use mp4_content::or_memory;
use mp4_flat::TrexBox;
use mp4_frame::codes::{MDIA, MINF, MOOF, STBL, TRAF, TRAK};
use mp4_io::{Failure, Output, read_failure};
use mp4_movie::{BoxLocation, MovieError, TrackFragment, first_in, fragment_of, movie_in, traf_in};
use mp4_show::Result;
use mp4_walk::{BoxWalk, Source, TreeBox};
use std::alloc::Global;
use std::collections::BTreeMap;
use std::io::Write;

/// Samples of a track or of a fragment with one kind of fault.
#[derive(Clone, Copy, Debug, PartialEq, Eq)]
pub struct SampleFaults {
    /// The number of samples that were looked at.
    pub all: u64,
    /// The number of those with the fault.
    pub count: u64,
    /// The first of these.
    pub first: SampleFault,
}

/// The state that goes on from one track or fragment to the next.
#[derive(Drop)]
struct Kept {
    /// The number of bytes that more samples may have.
    left: u64,
    /// The kinds of samples of the first track with each track_ID.
    kinds: BTreeMap<u32, Vec<Kind>>,
}

impl Kept {
    /// Returns the state before the first track, if samples may have `left` bytes.
    fn new(alloc: Global, left: u64) -> Kept
        ensures kinds { (file : List ℕ) → AreKinds file [] result }
        ensures left { result.left ≡ left }
    {
        Kept {
            left,
            kinds: BTreeMap::new(alloc),
        }
    }
}

/// A look at the samples of a `traf`.
#[derive(Debug, Drop)]
struct TrafLook {
    /// The samples.
    looked: Looked,
    /// The end of the data of the `traf`, if it is known.
    end: Option<u64>,
}

/// Returns the fault of samples, if `wrong` has some of the `all` samples that were looked at.
fn faults_by(all: u64, wrong: Wrong) -> Option<SampleFaults>
    ensures { result ≡ faults_by all wrong }
{
    match wrong.first {
        Some(first) => Some(SampleFaults {
            all,
            count: wrong.count,
            first,
        }),
        None => None,
    }
}

/// Returns the fault of samples that NAL units don't fill, if there are any.
fn units_what(looked: Looked) -> Option<What>
    ensures { result ≡ units_what looked }
{
    match faults_by(looked.all, looked.units) {
        Some(faults) => Some(What::Units(faults)),
        None => None,
    }
}

/// Returns the fault of samples with a part of a frame, if there are any.
fn frames_what(looked: Looked) -> Option<What>
    ensures { result ≡ frames_what looked }
{
    match faults_by(looked.all, looked.frames) {
        Some(faults) => Some(What::Frames(faults)),
        None => None,
    }
}

/// Appends the faults of the samples of the tables of track `number`, whose `stbl` is at `position`.
fn push_table(
    alloc: Global,
    number: u64,
    position: u64,
    looked: Looked,
    faults: &mut Vec<Fault>,
) -> Result<()>
    ensures { OnOk result (values_of faults.new.items
        ≡ values_of faults.old.items ++ table_looked number position looked) }
{
    let codes = [MDIA, MINF, STBL];
    let units = units_what(looked);
    push_fault(alloc, number, &codes, position, units, Reason::None, faults)?;
    let frames = frames_what(looked);
    push_fault(
        alloc,
        number,
        &codes,
        position,
        frames,
        Reason::None,
        faults,
    )
}

/// Returns the kinds of samples of a track, or none if its media data may be in another file. `trak` begins with the
/// boxes inside its `trak`.
fn track_kinds<S: Source>(
    alloc: Global,
    walk: &mut BoxWalk<S>,
    trak: &[TreeBox],
) -> std::result::Result<Vec<Kind>, Failure>
    ensures value { IfSome walk.old.bytes (λ file. IfOk result (λ r. r.items ≡ track_kinds file trak.now)) }
    ensures kept { walk.new ≡ walk.old }
{
    if is_away(alloc, walk, trak)? {
        return Ok(Vec::new(alloc));
    }
    match sample_table(trak) {
        Some(stbl) => kinds_in(alloc, walk, stbl.after),
        None => kinds_in(alloc, walk, &[]),
    }
}

/// Looks at the samples of the tables of a track. `trak` begins with the boxes inside its `trak`, and samples may have
/// `left` bytes.
fn look_at_table<S: Source>(
    alloc: Global,
    walk: &mut BoxWalk<S>,
    trak: &[TreeBox],
    kinds: &[Kind],
    left: u64,
) -> std::result::Result<Looked, Failure>
    ensures value { IfSome walk.old.bytes
        (λ file. IfOk result (LooksTrack file (after_of (sample_table trak.now)) kinds.now left)) }
    ensures kept { walk.new ≡ walk.old }
{
    match sample_table(trak) {
        Some(stbl) => look_at_track(alloc, walk, stbl.after, kinds, left),
        None => look_at_track(alloc, walk, &[], kinds, left),
    }
}

/// Returns the position of the `stbl` of a track, or 0 if it has none. `trak` begins with the boxes inside its `trak`.
fn table_position(trak: &[TreeBox]) -> u64
    ensures { result ≡ table_position (sample_table trak.now) }
{
    match sample_table(trak) {
        Some(stbl) => stbl.found.position,
        None => 0,
    }
}

/// Stores `kinds` as those of the track with the track_ID `track_id`, unless another one has it already.
fn store_kinds(track_id: u32, kinds: Vec<Kind>, stored: &mut BTreeMap<u32, Vec<Kind>>) -> Result<()>
    ensures { OnOk result ((q : ℕ) → option_map (λ v. v.items) (get nat_cmp stored.new q)
        ≡ option_or (option_map (λ v. v.items) (get nat_cmp stored.old q))
        (if track_id == q then Some kinds.items else None)) }
{
    if stored.contains_key(&track_id) {
        return Ok(());
    }
    stored.insert(track_id, kinds)?;
    Ok(())
}

/// Stores `kinds` as those of a track with the header `header`, unless a track with its track_ID is before it.
fn keep_kinds(header: Option<TrackHeader>, kinds: Vec<Kind>, kept: &mut Kept) -> Result<()>
    ensures kinds { (file : List ℕ) (fs : List Found) (f : Found) → track_header file f.after ≡ header
        → track_kinds file f.after ≡ kinds.items → AreKinds file fs kept.old
        → OnOk result (AreKinds file (fs ++ f ∷ []) kept.new) }
    ensures left { kept.new.left ≡ kept.old.left }
{
    match header {
        Some(header) => store_kinds(header.track_id, kinds, &mut kept.kinds),
        None => Ok(()),
    }
}

/// Appends the faults of the samples of the tables of track `number`, and stores the kinds of its samples. `trak`
/// begins with the boxes inside its `trak`.
fn track_samples<S: Source>(
    alloc: Global,
    walk: &mut BoxWalk<S>,
    trak: &[TreeBox],
    number: u64,
    kept: &mut Kept,
    faults: &mut Vec<Fault>,
) -> std::result::Result<(), Failure>
    ensures value { IfSome walk.old.bytes (λ file. OnOk result
        (TrackLooked file number trak.now kept.old.left (values_of faults.old.items) (values_of faults.new.items)
        kept.new.left)) }
    ensures kinds { IfSome walk.old.bytes
        (λ file. (earlier : List Found) (f : Found) → f.after ≡ trak.now → AreKinds file earlier kept.old
        → OnOk result (AreKinds file (earlier ++ f ∷ []) kept.new)) }
    ensures kept { walk.new ≡ walk.old }
{
    let kinds = track_kinds(alloc, walk, trak)?;
    let looked = look_at_table(alloc, walk, trak, &kinds, kept.left)?;
    or_memory(push_table(alloc, number, table_position(trak), looked, faults))?;
    kept.left = looked.left;
    let header = track_header(alloc, walk, trak)?;
    or_memory(keep_kinds(header, kinds, kept))
}

/// Appends the faults of the samples of the tables of all tracks, and stores the kinds of their samples. `movie` begins
/// with the boxes inside the `moov`.
fn tracks_samples<S: Source>(
    alloc: Global,
    walk: &mut BoxWalk<S>,
    movie: &[TreeBox],
    kept: &mut Kept,
    faults: &mut Vec<Fault>,
) -> std::result::Result<(), Failure>
    ensures value { IfSome walk.old.bytes (λ file. OnOk result
        (AreTracksLooked file 0 (all_in 1 (four_cc_of names.TRAK) movie.now) kept.old.left (values_of faults.old.items)
        (values_of faults.new.items) kept.new.left)) }
    ensures kinds { IfSome walk.old.bytes
        (λ file. AreKinds file [] kept.old
        → OnOk result (AreKinds file (all_in 1 (four_cc_of names.TRAK) movie.now) kept.new)) }
    ensures kept { walk.new ≡ walk.old }
{
    let mut number = 0u64;
    let mut rest = movie;
    'tracks: while let Some(place) = first_in(rest, 1, TRAK) {
        track_samples(alloc, walk, place.after, number, kept, faults)?;
        number = number.saturating_add(1);
        rest = place.after;
    }
    Ok(())
}

/// Returns the fragment that a `traf` of the `moof` at position `moof` is, if it is one. `boxes` begins with the boxes
/// inside the `traf`.
fn fragment_in<S: Source>(
    alloc: Global,
    walk: &mut BoxWalk<S>,
    boxes: &[TreeBox],
    defaults: &BTreeMap<u32, TrexBox>,
    moof: u64,
    end: Option<u64>,
) -> std::result::Result<Option<TrackFragment>, Failure>
    ensures value { IfSome walk.old.bytes (λ file. IfOk result (λ r. option_map piece_of r
        ≡ ok_of (fragment_at file (λ (q : ℕ). get nat_cmp defaults.now q) moof end boxes.now))) }
    ensures kept { walk.new ≡ walk.old }
{
    let traf = match traf_in(alloc, walk, boxes) {
        Ok(traf) => traf,
        Err(MovieError::Box(_)) => return Ok(None),
        Err(MovieError::Io(error)) => return Err(read_failure(&error)),
    };
    let trex = defaults.get(&traf.header.track_id);
    match fragment_of(traf, moof, trex, end) {
        Ok(fragment) => Ok(Some(fragment)),
        Err(MovieError::Box(_)) => Ok(None),
        Err(MovieError::Io(error)) => Err(read_failure(&error)),
    }
}

/// Looks at the samples of `fragment`.
fn look_at_piece<S: Source>(
    alloc: Global,
    walk: &mut BoxWalk<S>,
    fragment: &TrackFragment,
    kept: &Kept,
) -> std::result::Result<TrafLook, Failure>
    ensures value { IfSome walk.old.bytes (λ file. IfOk result
        (λ r. LooksPiece file (kinds_at kept.now) kept.now.left (Some (piece_of fragment.now)) r.looked)) }
    ensures end { IfOk result (λ r. EndsPiece (Some (piece_of fragment.now)) r.end) }
    ensures kept { walk.new ≡ walk.old }
{
    let kinds: &[Kind] = match kept.kinds.get(&fragment.header.track_id) {
        Some(kinds) => kinds.as_slice(),
        None => &[],
    };
    let fragment = fragment.fragment(0);
    let looked = look_at_fragment(alloc, walk, &fragment, kinds, kept.left)?;
    Ok(TrafLook {
        looked,
        end: fragment.end(),
    })
}

/// Looks at the samples of `fragment`, or at none if there is no fragment.
fn look_at_traf<S: Source>(
    alloc: Global,
    walk: &mut BoxWalk<S>,
    fragment: &Option<TrackFragment>,
    kept: &Kept,
) -> std::result::Result<TrafLook, Failure>
    ensures value { IfSome walk.old.bytes (λ file. IfOk result
        (λ r. LooksPiece file (kinds_at kept.now) kept.now.left (option_map piece_of fragment.now) r.looked)) }
    ensures end { IfOk result (λ r. EndsPiece (option_map piece_of fragment.now) r.end) }
    ensures kept { walk.new ≡ walk.old }
{
    match fragment {
        Some(fragment) => look_at_piece(alloc, walk, fragment, kept),
        None => Ok(TrafLook {
            looked: nothing(kept.left),
            end: None,
        }),
    }
}

/// Appends the faults of the samples of the `traf` at `position`, which is traf `index` of moof `number`.
fn push_traf(
    alloc: Global,
    number: u64,
    index: u64,
    position: u64,
    looked: Looked,
    faults: &mut Vec<Fault>,
) -> Result<()>
    ensures { OnOk result (values_of faults.new.items
        ≡ values_of faults.old.items ++ traf_looked number index position looked) }
{
    let place = TrafPlace {
        moof: position,
        moof_number: number,
        number: index,
    };
    if let Some(units) = units_what(looked) {
        push_fragment_fault(alloc, place, &[], position, units, faults)?;
    }
    match frames_what(looked) {
        Some(frames) => push_fragment_fault(alloc, place, &[], position, frames, faults),
        None => Ok(()),
    }
}

/// Appends the faults of the samples of the `traf` at `traf`, which is traf `index` of moof `number`, and stores the
/// number of bytes that are left. Returns the end of its data, if that is known. `moof` is the position of the `moof`,
/// and `end` the end of the data before the `traf`.
fn traf_samples<S: Source>(
    alloc: Global,
    walk: &mut BoxWalk<S>,
    traf: BoxLocation<'_>,
    place: TrafPlace,
    end: Option<u64>,
    defaults: &BTreeMap<u32, TrexBox>,
    kept: &mut Kept,
    faults: &mut Vec<Fault>,
) -> std::result::Result<Option<u64>, Failure>
    ensures value { IfSome walk.old.bytes (λ file. IfOk result
        (λ next. TrafLooked file (λ (q : ℕ). get nat_cmp defaults.now q) (kinds_at kept.old) place.moof_number
        place.number place.moof end (found_at traf.entry) kept.old.left (values_of faults.old.items)
        (values_of faults.new.items) next kept.new.left)) }
    ensures kinds { kept.new.kinds ≡ kept.old.kinds }
    ensures kept { walk.new ≡ walk.old }
{
    let fragment = fragment_in(alloc, walk, traf.after, defaults, place.moof, end)?;
    let look = look_at_traf(alloc, walk, &fragment, kept)?;
    or_memory(push_traf(
        alloc,
        place.moof_number,
        place.number,
        traf.found.position,
        look.looked,
        faults,
    ))?;
    kept.left = look.looked.left;
    Ok(look.end)
}

/// Appends the faults of the samples of the `moof` at `moof`, which is number `number` of the file.
fn moof_samples<S: Source>(
    alloc: Global,
    walk: &mut BoxWalk<S>,
    moof: BoxLocation<'_>,
    number: u64,
    defaults: &BTreeMap<u32, TrexBox>,
    kept: &mut Kept,
    faults: &mut Vec<Fault>,
) -> std::result::Result<(), Failure>
    ensures value { IfSome walk.old.bytes (λ file. OnOk result
        (AreTrafsLooked file (λ (q : ℕ). get nat_cmp defaults.now q) (kinds_at kept.old) number 0
        moof.entry.found.position (Some moof.entry.found.position) (trafs_of (found_at moof.entry)) kept.old.left
        (values_of faults.old.items) (values_of faults.new.items) kept.new.left)) }
    ensures kinds { kept.new.kinds ≡ kept.old.kinds }
    ensures kept { walk.new ≡ walk.old }
{
    let mut index = 0u64;
    let mut rest = moof.after;
    let mut end = Some(moof.found.position);
    'trafs: while let Some(traf) = first_in(rest, 1, TRAF) {
        let place = TrafPlace {
            moof: moof.found.position,
            moof_number: number,
            number: index,
        };
        let next = traf_samples(alloc, walk, traf, place, end, defaults, kept, faults)?;
        end = next;
        index = index.saturating_add(1);
        rest = traf.after;
    }
    Ok(())
}

/// Appends the faults of the samples of all fragments of a file with the boxes `boxes`.
fn fragments_samples<S: Source>(
    alloc: Global,
    walk: &mut BoxWalk<S>,
    boxes: &[TreeBox],
    defaults: &BTreeMap<u32, TrexBox>,
    kept: &mut Kept,
    faults: &mut Vec<Fault>,
) -> std::result::Result<(), Failure>
    ensures value { IfSome walk.old.bytes (λ file. OnOk result
        (AreMoofsLooked file (λ (q : ℕ). get nat_cmp defaults.now q) (kinds_at kept.old) 0
        (all_in 0 (four_cc_of names.MOOF) boxes.now) kept.old.left (values_of faults.old.items)
        (values_of faults.new.items) kept.new.left)) }
    ensures kept { walk.new ≡ walk.old }
{
    let mut number = 0u64;
    let mut rest = boxes;
    'moofs: while let Some(moof) = first_in(rest, 0, MOOF) {
        moof_samples(alloc, walk, moof, number, defaults, kept, faults)?;
        number = number.saturating_add(1);
        rest = moof.after;
    }
    Ok(())
}

/// Returns the faults of the samples of a file with the boxes `boxes`. All samples that are looked at have no more
/// bytes than the file, so the time is bounded by its length.
fn sample_faults<S: Source>(
    alloc: Global,
    walk: &mut BoxWalk<S>,
    boxes: &[TreeBox],
) -> std::result::Result<Vec<Fault>, Failure>
    ensures value { IfSome walk.old.bytes
        (λ file. IfOk result (λ faults. AreSampleFaults file boxes.now (values_of faults.items))) }
    ensures kept { walk.new ≡ walk.old }
{
    let mut kept = Kept::new(alloc, file_length(walk));
    let mut faults = Vec::new(alloc);
    tracks_samples(alloc, walk, movie_in(boxes), &mut kept, &mut faults)?;
    let defaults = track_defaults(alloc, walk, boxes)?;
    fragments_samples(alloc, walk, boxes, &defaults, &mut kept, &mut faults)?;
    Ok(faults)
}

/// Writes the faults of the samples of a file with the boxes `boxes`, after those that `told` summarizes. Returns a
/// summary with them.
pub fn write_sample_faults<S: Source, W: Write>(
    alloc: Global,
    walk: &mut BoxWalk<S>,
    boxes: &[TreeBox],
    form: Form<'_>,
    told: Told,
    output: &mut Output<W>,
) -> std::result::Result<Told, Failure>
    ensures value { IfSome walk.old.bytes
        (λ file. IfOk result (WritesSamples form.entry told file boxes.now (W.contents output.old.inner)
        (W.contents output.new.inner))) }
{
    let faults = sample_faults(alloc, walk, boxes)?;
    write_all_faults(alloc, &faults, form, told, output)
}
