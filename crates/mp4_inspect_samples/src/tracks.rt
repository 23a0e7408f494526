//! The tracks of a file, one after the other.

ghost use Rattle.std.specs.Prelude.{◌≡◌, ◌==◌, ◌||◌, ◌++◌, ℕ, [], is_some, map, Some, List, IfOk, IfSome, OnOk, ◌∷◌};
ghost use Rattle.std.specs.Prelude.{if◌then◌else◌};
ghost use Rattle.mp4_inspect_samples.specs.Samples.{AreMissing, EntersTracks, Inputs, IsAhead, Tells};
ghost use Rattle.mp4_inspect_samples.specs.Samples.{WritesIf, WritesOne, read_scale};
ghost use Rattle.mp4_inspect_samples.specs.EditParts.{edits_by};
ghost use Rattle.mp4_inspect_samples.specs.Row.{edits_in};
ghost use Rattle.mp4_inspect_samples.specs.Tracks.{WritesByList, WritesTimed, WritesWith, inputs_by};
ghost use Rattle.mp4_movie.specs.Movies.{samples_of};
ghost use Rattle.mp4_inspect_samples.specs.Samples.{is_met, is_wanted, limit_of, missing, name_faults, named};
ghost use Rattle.mp4_inspect_samples.specs.Samples.{track_fault, trafs_for, with_name};
ghost use Rattle.mp4_inspect_samples.specs.Trafs.{AreStored, Traf};
ghost use Rattle.std.specs.BTreeMap.{IsOrdered, get, keys};
ghost use Rattle.std.specs.Ordering.{eq_by_cmp, nat_cmp};
ghost use Rattle.std.specs.Set.{is_member};
ghost use Rattle.mp4_inspect_samples.specs.declared.fault.TrackName.TheVariants as tracks;

use crate::choice::Choice;
use crate::clock::Clock;
use crate::edits::{EditParts, edit_parts, edits_by};
use crate::fault::{Fault, TrackFault, TrackName};
use crate::fragments::{Fragments, TrackTraf};
use crate::heading::Heading;
use crate::limit::Limit;
use crate::lists::keep;
use crate::row::RowRule;
use crate::rows::RowWriter;
use crate::track::write_track;
use mp4_frame::FourCC;
use mp4_frame::codes::TRAK;
use mp4_io::{Failure, Output};
use mp4_movie::{BoxError, TrackInfo, first_in};
use mp4_samples::Edits;
use mp4_walk::{BoxWalk, Source, TreeBox};
use std::alloc::{AllocError, Global};
use std::collections::BTreeMap;
use std::io::Write;

/// The tracks of a file that are still to be written.
#[derive(Drop)]
pub struct Ahead {
    /// The fragments of the tracks that were not met.
    pub fragments: Fragments,
    /// The track_IDs of the tracks that were met.
    pub known: BTreeMap<u32, ()>,
}

/// Stores the track_ID `track` in `known`.
fn keep_id(track: u32, known: &mut BTreeMap<u32, ()>) -> Result<(), AllocError>
    ensures { OnOk result ((q : ℕ) → is_some (get nat_cmp known.new q)
        ≡ (is_some (get nat_cmp known.old q) || (track == q))) }
{
    known.insert(track, ())?;
    Ok(())
}

impl Ahead {
    /// Returns the state before the first track of a file with the fragments `fragments`.
    pub fn new(alloc: Global, fragments: Fragments) -> Ahead
        ensures { (trafs : List Traf) → AreStored trafs fragments → IsAhead trafs [] result }
    {
        Ahead {
            fragments,
            known: BTreeMap::new(alloc),
        }
    }

    /// Stores that a track with the track_ID `track` was met. Returns its fragments, if it is the first, or none.
    fn meet(&mut self, alloc: Global, track: u32) -> Result<Vec<TrackTraf>, AllocError>
        ensures trafs { (trafs : List Traf) (met : List ℕ) → IsAhead trafs met self.old
            → IfOk result (λ own. own.items ≡ trafs_for trafs met (tracks.Id track)) }
        ensures met { (trafs : List Traf) (met : List ℕ) → IsAhead trafs met self.old
            → OnOk result (IsAhead trafs (with_name met (tracks.Id track)) self.new) }
    {
        let trafs = self.fragments.take(alloc, track);
        keep_id(track, &mut self.known)?;
        Ok(trafs)
    }

    /// Stores that a track with the name `name` was met. Returns its fragments, if it is the first of its track_ID, or
    /// none.
    fn enter(&mut self, alloc: Global, name: TrackName) -> Result<Vec<TrackTraf>, AllocError>
        ensures trafs { (trafs : List Traf) (met : List ℕ) → IsAhead trafs met self.old
            → IfOk result (λ own. own.items ≡ trafs_for trafs met name) }
        ensures met { (trafs : List Traf) (met : List ℕ) → IsAhead trafs met self.old
            → OnOk result (IsAhead trafs (with_name met name) self.new) }
    {
        match name {
            TrackName::Id(track) => self.meet(alloc, track),
            TrackName::At(_) => Ok(Vec::new(alloc)),
        }
    }

    /// Returns whether the samples of a track with the name `name` are asked for, which was not met yet: those of all
    /// tracks if `track` is `None`, or of the first track with the track_ID `track`.
    fn is_wanted(&self, track: Option<u32>, name: TrackName) -> bool
        ensures { (trafs : List Traf) (met : List ℕ) → IsAhead trafs met self.now → result ≡ is_wanted track met name }
    {
        match (track, name) {
            (None, _) => true,
            (Some(wanted), TrackName::Id(id)) => id == wanted && !self.known.contains_key(&id),
            (Some(_), TrackName::At(_)) => false,
        }
    }
}

/// Returns the name of a track whose `trak` is at `position`. If its track_ID can't be read, stores the fault.
fn name_of(
    position: u64,
    track_id: Result<u32, BoxError>,
    faults: &mut Vec<TrackFault>,
) -> Result<TrackName, AllocError>
    ensures name { IfOk result (λ name. name ≡ named position track_id) }
    ensures told { OnOk result (faults.new.items ≡ faults.old.items ++ name_faults position track_id) }
{
    match track_id {
        Ok(id) => Ok(TrackName::Id(id)),
        Err(error) => {
            let name = TrackName::At(position);
            let fault = TrackFault {
                track: Some(name),
                fault: Fault::Box(error),
            };
            keep(faults, fault)?;
            Ok(name)
        }
    }
}

/// Stores the fault of a track, if it has one.
fn keep_fault(
    name: TrackName,
    fault: Option<Fault>,
    faults: &mut Vec<TrackFault>,
) -> Result<(), AllocError>
    ensures { OnOk result (faults.new.items ≡ faults.old.items ++ track_fault name fault) }
{
    match fault {
        Some(fault) => keep(
            faults,
            TrackFault {
                track: Some(name),
                fault,
            },
        ),
        None => Ok(()),
    }
}

/// Returns the timescale and the unit of the times of a track.
fn clock_of(heading: Heading, choice: Choice) -> Clock
    ensures { result ≡ record { timescale = heading.timescale; seconds = choice.seconds } }
{
    Clock {
        timescale: heading.timescale,
        seconds: choice.seconds,
    }
}

/// Writes the samples of a track, up to the first fault. Returns the fault. Presentation times are those by the edit
/// list `edits`, or those without edits if it is `None`. `trak` begins with the boxes inside its `trak`.
fn write_with<S: Source, W: Write>(
    alloc: Global,
    walk: &mut BoxWalk<S>,
    trak: &[TreeBox],
    heading: Heading,
    edits: Option<&Edits<'_>>,
    trafs: Vec<TrackTraf>,
    choice: Choice,
    limit: Limit,
    writer: &mut RowWriter,
    output: &mut Output<W>,
) -> Result<Option<Fault>, Failure>
    ensures writes { IfSome walk.old.bytes
        (λ file. IfOk result (WritesWith
        (inputs_by limit writer.old.form choice heading trafs.items (samples_of file trak.now)) (edits_in edits.entry)
        writer.old.follows writer.new.follows (W.contents output.old.inner) (W.contents output.new.inner))) }
    ensures form { writer.new.form ≡ writer.old.form }
    ensures kept { walk.new ≡ walk.old }
{
    let rule = RowRule {
        track: heading.name.id(),
        clock: clock_of(heading, choice),
        edits,
        sync: choice.sync,
    };
    write_track(
        alloc, walk, trak, heading, &rule, trafs, limit, writer, output,
    )
}

/// Writes the samples of a track with presentation times by the edit list that has the parts `parts`, up to the first
/// fault. Returns the fault. Writes nothing if the edit list can't be used.
fn write_edited<S: Source, W: Write>(
    alloc: Global,
    walk: &mut BoxWalk<S>,
    trak: &[TreeBox],
    heading: Heading,
    parts: &EditParts,
    trafs: Vec<TrackTraf>,
    choice: Choice,
    limit: Limit,
    writer: &mut RowWriter,
    output: &mut Output<W>,
) -> Result<Option<Fault>, Failure>
    ensures writes { IfSome walk.old.bytes
        (λ file. IfOk result (WritesByList
        (inputs_by limit writer.old.form choice heading trafs.items (samples_of file trak.now)) (edits_by parts.now)
        writer.old.follows writer.new.follows (W.contents output.old.inner) (W.contents output.new.inner))) }
    ensures form { writer.new.form ≡ writer.old.form }
    ensures kept { walk.new ≡ walk.old }
{
    match edits_by(parts) {
        Ok(edits) => write_with(
            alloc,
            walk,
            trak,
            heading,
            Some(&edits),
            trafs,
            choice,
            limit,
            writer,
            output,
        ),
        Err(fault) => Ok(Some(Fault::Edits(fault))),
    }
}

/// Writes the samples of a track, up to the first fault. Returns the fault. Presentation times are those by its edit
/// list if `choice.edits` asks for them. `movie` begins with the boxes inside the `moov`, and `trak` with those inside
/// the `trak`. `media` is the timescale of the media.
fn write_timed<S: Source, W: Write>(
    alloc: Global,
    walk: &mut BoxWalk<S>,
    movie: &[TreeBox],
    trak: &[TreeBox],
    heading: Heading,
    media: Result<u32, BoxError>,
    trafs: Vec<TrackTraf>,
    choice: Choice,
    limit: Limit,
    writer: &mut RowWriter,
    output: &mut Output<W>,
) -> Result<Option<Fault>, Failure>
    ensures writes { IfSome walk.old.bytes
        (λ file. IfOk result (WritesTimed choice.edits file movie.now trak.now media
        (inputs_by limit writer.old.form choice heading trafs.items (samples_of file trak.now))
        writer.old.follows writer.new.follows (W.contents output.old.inner) (W.contents output.new.inner))) }
    ensures form { writer.new.form ≡ writer.old.form }
    ensures kept { walk.new ≡ walk.old }
{
    let is_edited = choice.edits;
    if !is_edited {
        return write_with(
            alloc, walk, trak, heading, None, trafs, choice, limit, writer, output,
        );
    }
    let read = edit_parts(alloc, walk, movie, trak, media)?;
    match read {
        Ok(parts) => write_edited(
            alloc, walk, trak, heading, &parts, trafs, choice, limit, writer, output,
        ),
        Err(error) => Ok(Some(Fault::Box(error))),
    }
}

/// Returns the timescale that was read, if it could be.
fn read_timescale(read: &Result<u32, BoxError>) -> Option<u32>
    ensures { result ≡ read_scale read.now }
{
    match read {
        Ok(timescale) => Some(*timescale),
        Err(_) => None,
    }
}

/// Writes the samples of a track, if `is_wanted`, and stores its fault. `movie` begins with the boxes inside the
/// `moov`, and `trak` with those inside the `trak`. `media` is the timescale of the media.
fn write_if<S: Source, W: Write>(
    alloc: Global,
    walk: &mut BoxWalk<S>,
    movie: &[TreeBox],
    trak: &[TreeBox],
    is_wanted: bool,
    heading: Heading,
    media: Result<u32, BoxError>,
    trafs: Vec<TrackTraf>,
    choice: Choice,
    limit: Limit,
    writer: &mut RowWriter,
    output: &mut Output<W>,
    faults: &mut Vec<TrackFault>,
) -> Result<(), Failure>
    ensures writes { (i : Inputs) (met : List ℕ) → walk.old.bytes ≡ Some i.file → limit ≡ limit_of i.choice i.file
        → choice ≡ i.choice → writer.old.form ≡ i.choice.form → heading.timescale ≡ read_scale media
        → trafs.items ≡ trafs_for i.trafs met heading.name
        → OnOk result (Tells (WritesIf is_wanted i movie.now met heading.name media trak.now writer.old.follows
        writer.new.follows (W.contents output.old.inner) (W.contents output.new.inner)) faults.old.items
        faults.new.items) }
    ensures form { writer.new.form ≡ writer.old.form }
    ensures kept { walk.new ≡ walk.old }
{
    if !is_wanted {
        return Ok(());
    }
    let fault = write_timed(
        alloc, walk, movie, trak, heading, media, trafs, choice, limit, writer, output,
    )?;
    keep_fault(heading.name, fault, faults)?;
    Ok(())
}

/// Writes the samples of a track, if they are asked for, and stores its faults. `movie` begins with the boxes inside
/// the `moov`, and `trak` with those inside the `trak`.
fn write_one<S: Source, W: Write>(
    alloc: Global,
    walk: &mut BoxWalk<S>,
    movie: &[TreeBox],
    trak: &[TreeBox],
    info: TrackInfo,
    choice: Choice,
    limit: Limit,
    ahead: &mut Ahead,
    writer: &mut RowWriter,
    output: &mut Output<W>,
    faults: &mut Vec<TrackFault>,
) -> Result<(), Failure>
    ensures writes { (i : Inputs) (met : List ℕ) → walk.old.bytes ≡ Some i.file → limit ≡ limit_of i.choice i.file
        → choice ≡ i.choice → writer.old.form ≡ i.choice.form → IsAhead i.trafs met ahead.old
        → OnOk result (Tells (WritesOne i movie.now met trak.now info writer.old.follows writer.new.follows
        (W.contents output.old.inner) (W.contents output.new.inner)) faults.old.items faults.new.items) }
    ensures met { (trafs : List Traf) (met : List ℕ) → IsAhead trafs met ahead.old
        → OnOk result (IsAhead trafs (with_name met (named info.position info.track_id)) ahead.new) }
    ensures form { writer.new.form ≡ writer.old.form }
    ensures kept { walk.new ≡ walk.old }
{
    let TrackInfo {
        number: _,
        position,
        track_id,
        timescale,
        handler,
    } = info;
    let name = name_of(position, track_id, faults)?;
    let is_wanted = ahead.is_wanted(choice.track, name);
    let trafs = ahead.enter(alloc, name)?;
    let heading = Heading {
        name,
        handler: handler.ok(),
        timescale: read_timescale(&timescale),
    };
    write_if(
        alloc, walk, movie, trak, is_wanted, heading, timescale, trafs, choice, limit, writer,
        output, faults,
    )
}

/// Writes the samples of the tracks `infos`, one after the other, and stores their faults. `movie` begins with the
/// boxes inside the `moov`.
pub fn write_tracks<S: Source, W: Write>(
    alloc: Global,
    walk: &mut BoxWalk<S>,
    movie: &[TreeBox],
    infos: Vec<TrackInfo>,
    choice: Choice,
    limit: Limit,
    ahead: &mut Ahead,
    output: &mut Output<W>,
    faults: &mut Vec<TrackFault>,
) -> Result<(), Failure>
    ensures writes { (i : Inputs) → walk.old.bytes ≡ Some i.file → limit ≡ limit_of i.choice i.file
        → choice ≡ i.choice → IsAhead i.trafs [] ahead.old
        → OnOk result (EntersTracks i movie.now infos.items (W.contents output.old.inner)
        (W.contents output.new.inner) faults.old.items faults.new.items ahead.new) }
    ensures kept { walk.new ≡ walk.old }
{
    let mut writer = RowWriter::new(alloc, choice.form);
    let mut rest = movie;
    for info in infos {
        let Some(place) = first_in(rest, 1, TRAK) else {
            return Ok(());
        };
        write_one(
            alloc,
            walk,
            movie,
            place.after,
            info,
            choice,
            limit,
            ahead,
            &mut writer,
            output,
            faults,
        )?;
        rest = place.after;
    }
    Ok(())
}

/// Stores the fault that there is no track with the track_ID `track`.
fn keep_missing(track: u32, faults: &mut Vec<TrackFault>) -> Result<(), AllocError>
    ensures { OnOk result (faults.new.items ≡ faults.old.items ++ missing track ∷ []) }
{
    let error = BoxError::Missing {
        code: FourCC::from(TRAK),
    };
    keep(
        faults,
        TrackFault {
            track: Some(TrackName::Id(track)),
            fault: Fault::Box(error),
        },
    )
}

/// Stores the faults of fragments whose track is not in the `moov`.
fn keep_all_missing(fragments: &Fragments, faults: &mut Vec<TrackFault>) -> Result<(), AllocError>
    ensures told { OnOk result
        (faults.new.items ≡ faults.old.items ++ map missing (keys fragments.now.by_track)) }
    ensures order { IsOrdered nat_cmp fragments.now.by_track }
    ensures has { (q : ℕ) → is_some (get nat_cmp fragments.now.by_track q)
        ≡ is_member (eq_by_cmp nat_cmp) (keys fragments.now.by_track) q }
{
    for track in fragments.by_track.keys() {
        keep_missing(*track, faults)?;
    }
    Ok(())
}

/// Stores the fault that there is no track with the track_ID `track`, unless one was met.
fn keep_if_missing(
    ahead: &Ahead,
    track: u32,
    faults: &mut Vec<TrackFault>,
) -> Result<(), AllocError>
    ensures { (trafs : List Traf) (met : List ℕ) → IsAhead trafs met ahead.now
        → OnOk result
        (faults.new.items ≡ faults.old.items ++ (if is_met track met then [] else missing track ∷ [])) }
{
    if ahead.known.contains_key(&track) {
        return Ok(());
    }
    keep_missing(track, faults)
}

/// Stores the faults of tracks that the file doesn't have: of the track `track`, or of all fragments if that is `None`.
pub fn keep_absent(
    ahead: &Ahead,
    track: Option<u32>,
    faults: &mut Vec<TrackFault>,
) -> Result<(), AllocError>
    ensures { (trafs : List Traf) (met : List ℕ) → IsAhead trafs met ahead.now
        → OnOk result (Tells (AreMissing track trafs met) faults.old.items faults.new.items) }
{
    match track {
        Some(track) => keep_if_missing(ahead, track, faults),
        None => keep_all_missing(&ahead.fragments, faults),
    }
}
