//! The faults of a file, in their order.

ghost use Rattle.std.specs.Prelude.{◌≡◌, ℕ, ◌&&◌, [], ◌∷◌, Some, IfOk, IfSome, OnOk, List, is_some, length, option_map};
ghost use Rattle.std.specs.BTreeMap.{get};
ghost use Rattle.std.specs.Ordering.{nat_cmp};
ghost use Rattle.mp4_check.specs.BoxFaults.{faults_of_boxes};
ghost use Rattle.mp4_check.specs.FaultValues.{fault_at, values_of};
ghost use Rattle.mp4_check.specs.Faults.{WritesCheck, facts_of, faults_of, file_of, is_top_file, lacks_movie};
ghost use Rattle.mp4_check.specs.Faults.{tracks_faults};
ghost use Rattle.mp4_check.specs.FragmentFaults.{AreFacts, File, IsGoing, Times, faults_of_trafs, found_at};
ghost use Rattle.mp4_check.specs.FragmentFaults.{fragment_faults, times_after, trafs_of};
ghost use Rattle.mp4_check.specs.Indexes.{AreStarts, faults_of_indexes, index_faults, index_what};
ghost use Rattle.mp4_check.specs.Media.{AreInOrder};
ghost use Rattle.mp4_content.specs.Paths.{in_file, single};
ghost use Rattle.mp4_check.specs.TrackFaults.{IsMet, faults_of_tracks, header_position, movie_fault, movie_faults};
ghost use Rattle.mp4_check.specs.TrackFaults.{value_of_facts};
ghost use Rattle.mp4_check.specs.declared.fault.What.TheVariants as whats;
ghost use Rattle.mp4_frame.specs.FourCC.{four_cc_of};
ghost use Rattle.mp4_frame.specs.declared.codes.TheConstants as names;
ghost use Rattle.mp4_movie.specs.Defaults.{defaults_in, trexes};
ghost use Rattle.mp4_movie.specs.Levels.{all_in, first_in, movie_in};
ghost use Rattle.mp4_movie.specs.Movies.{traks};
ghost use Rattle.mp4_walk.specs.FileBoxes.{boxes_of};
ghost use Rattle.mp4_walk.specs.declared.tree_box.TreeBox.{TreeBox};

use crate::box_faults::box_faults;
use crate::fault::{Fault, Reason, What};
use crate::fault_form::FaultForm;
use crate::fragments::{FileFacts, Going, TrafPlace, traf_faults};
use crate::headers::movie_times;
use crate::indexes::{Starts, index_what, starts_of};
use crate::lines::{Form, Told, write_all_faults};
use crate::media::{file_length, media_in};
use crate::parts::is_file;
use crate::tracks::{Met, MovieFacts, movie_fault, track_faults};
use mp4_content::{BoxPaths, Part, Shown, in_file, or_memory};
use mp4_extra_samples::sidx::SidxBox;
use mp4_flat::TrexBox;
use mp4_frame::ReadBox;
use mp4_frame::codes::{MOOF, MOOV, MVEX, MVHD, SIDX, TRAF, TRAK};
use mp4_io::{Failure, Output, or_read};
use mp4_movie::{BoxLocation, Defaults, defaults_of, first_in, has_box, movie_in};
use mp4_show::Result;
use mp4_stream::FourCC;
use mp4_walk::{BoxWalk, Source, TreeBox};
use std::alloc::Global;
use std::collections::BTreeMap;
use std::io::Write;

/// Writes the faults of each of `boxes`, in order. Returns what was written, with them.
fn write_boxes<B: Shown, S: Source, F: FaultForm<O>, O>(
    alloc: Global,
    walk: &mut BoxWalk<S>,
    boxes: &[TreeBox],
    form: F,
    told: Told,
    output: &mut O,
) -> std::result::Result<Told, Failure>
    ensures value { IfSome walk.old.bytes
        (λ file. IfOk result (λ now. F.writes form told
        (faults_of_boxes B.known B.named_reading file [] boxes.now)
        output.old output.new now)) }
    ensures kept { walk.new ≡ walk.old }
{
    let mut written = told;
    let mut paths = BoxPaths::new(alloc);
    'boxes: for index in 0..boxes.len() {
        or_memory(paths.enter(alloc, &boxes[index]))?;
        let faults = box_faults::<B, S>(alloc, walk, boxes, index, &paths)?;
        let more = write_all_faults(alloc, &faults, form, written, output)?;
        written = more;
    }
    Ok(written)
}

/// Returns what the rules of tracks need of a movie. `movie` begins with the boxes inside its `moov`.
fn movie_facts<S: Source>(
    alloc: Global,
    walk: &mut BoxWalk<S>,
    boxes: &[TreeBox],
    movie: &[TreeBox],
) -> std::result::Result<MovieFacts, Failure>
    ensures value { IfSome walk.old.bytes
        (λ file. movie.now ≡ movie_in boxes.now
        → IfOk result (λ facts. value_of_facts facts ≡ facts_of file boxes.now)) }
    ensures order { IfOk result (λ facts. AreInOrder 0 facts.media.extents.items) }
    ensures kept { walk.new ≡ walk.old }
{
    let times = movie_times(alloc, walk, movie)?;
    let media = media_in(alloc, walk, boxes)?;
    let is_fragmented = has_box(movie, 1, MVEX);
    Ok(MovieFacts {
        media,
        times,
        is_fragmented,
    })
}

/// Writes the faults of the tracks of a movie, and stores the tracks in `met`. `movie` begins with the boxes inside its
/// `moov`. Returns what was written, with them.
fn write_tracks<S: Source, F: FaultForm<O>, O>(
    alloc: Global,
    walk: &mut BoxWalk<S>,
    movie: &[TreeBox],
    facts: &MovieFacts,
    met: &mut Met,
    form: F,
    told: Told,
    output: &mut O,
) -> std::result::Result<Told, Failure>
    requires { AreInOrder 0 facts.now.media.extents.items }
    ensures value { IfSome walk.old.bytes
        (λ file. IsMet file [] met.old → IfOk result (λ now. F.writes form told
        (faults_of_tracks file (value_of_facts facts.now) [] 0 (all_in 1 (four_cc_of names.TRAK) movie.now))
        output.old output.new now)) }
    ensures met { IfSome walk.old.bytes
        (λ file. IsMet file [] met.old → OnOk result
        (IsMet file (all_in 1 (four_cc_of names.TRAK) movie.now) met.new)) }
    ensures kept { walk.new ≡ walk.old }
{
    let mut written = told;
    let mut number = 0u64;
    let mut rest = movie;
    'tracks: while let Some(place) = first_in(rest, 1, TRAK) {
        let faults = track_faults(alloc, walk, place.after, number, facts, met)?;
        let more = write_all_faults(alloc, &faults, form, written, output)?;
        written = more;
        number = number.saturating_add(1);
        rest = place.after;
    }
    Ok(written)
}

/// Returns the path of the `mvhd` of the movie.
fn header_path(alloc: Global) -> Result<Vec<Part>>
    ensures { IfOk result (λ path. path.items ≡ single names.MOOV 0 ∷ single names.MVHD 0 ∷ []) }
{
    let mut path = in_file(alloc, MOOV, 0)?;
    path.push(Part {
        code: Some(FourCC::from(MVHD)),
        index: 0,
    })?;
    Ok(path)
}

/// Returns the position of the header of a movie, or 0 if it can't be read.
fn header_position(facts: &MovieFacts) -> u64
    ensures { result ≡ header_position facts.now.times }
{
    match facts.times {
        Some(times) => times.position,
        None => 0,
    }
}

/// Returns the fault of the duration of a movie whose longest track has the duration `longest`, if it has one.
fn movie_what(facts: &MovieFacts, longest: Option<u64>) -> Option<What>
    ensures { result ≡ option_map whats.MovieDuration (movie_fault (value_of_facts facts.now) longest) }
{
    match movie_fault(facts, longest) {
        Some(duration) => Some(What::MovieDuration(duration)),
        None => None,
    }
}

/// Returns the fault of the header of a movie whose longest track has the duration `longest`, if it has one.
fn movie_faults(alloc: Global, facts: &MovieFacts, longest: Option<u64>) -> Result<Vec<Fault>>
    ensures { IfOk result (λ faults. values_of faults.items ≡ movie_faults (value_of_facts facts.now) longest) }
{
    let mut faults = Vec::new(alloc);
    let Some(what) = movie_what(facts, longest) else {
        return Ok(faults);
    };
    faults.push(Fault {
        position: header_position(facts),
        path: header_path(alloc)?,
        what,
        reason: Reason::None,
    })?;
    Ok(faults)
}

/// Writes the faults of the `moof` at `moof`, which is number `number` of the file. Returns what was written, with
/// them.
fn write_moof<S: Source, F: FaultForm<O>, O>(
    alloc: Global,
    walk: &mut BoxWalk<S>,
    moof: BoxLocation<'_>,
    number: u64,
    facts: &FileFacts,
    going: &mut Going,
    form: F,
    told: Told,
    output: &mut O,
) -> std::result::Result<Told, Failure>
    requires { AreInOrder 0 facts.now.media.extents.items }
    ensures value { (f : File) (times : Times) → walk.old.bytes ≡ Some f.bytes → AreFacts f facts.now
        → IsGoing times going.old.end going.old → IfOk result (λ now. F.writes form told
        (faults_of_trafs f number moof.entry.found.position (Some moof.entry.found.position) times 0
        (trafs_of (found_at moof.entry)))
        output.old output.new now) }
    ensures going { (f : File) (times : Times) → walk.old.bytes ≡ Some f.bytes → AreFacts f facts.now
        → IsGoing times going.old.end going.old → OnOk result (IsGoing
        (times_after f moof.entry.found.position (Some moof.entry.found.position) times
        (trafs_of (found_at moof.entry)))
        going.new.end going.new) }
    ensures kept { walk.new ≡ walk.old }
{
    let mut written = told;
    let mut index = 0u64;
    let mut rest = moof.after;
    going.end = Some(moof.found.position);
    'trafs: while let Some(traf) = first_in(rest, 1, TRAF) {
        let place = TrafPlace {
            moof: moof.found.position,
            moof_number: number,
            number: index,
        };
        let faults = traf_faults(alloc, walk, traf, place, facts, going)?;
        let more = write_all_faults(alloc, &faults, form, written, output)?;
        written = more;
        index = index.saturating_add(1);
        rest = traf.after;
    }
    Ok(written)
}

/// Writes the faults of all fragments of a file with the boxes `boxes`. Returns what was written, with them.
fn write_fragments<S: Source, F: FaultForm<O>, O>(
    alloc: Global,
    walk: &mut BoxWalk<S>,
    boxes: &[TreeBox],
    facts: &FileFacts,
    form: F,
    told: Told,
    output: &mut O,
) -> std::result::Result<Told, Failure>
    requires { AreInOrder 0 facts.now.media.extents.items }
    ensures value { (f : File) → walk.old.bytes ≡ Some f.bytes → f.boxes ≡ boxes.now → AreFacts f facts.now
        → IfOk result (λ now. F.writes form told (fragment_faults f)
        output.old output.new now) }
    ensures kept { walk.new ≡ walk.old }
{
    let mut written = told;
    let mut going = Going::new(alloc);
    let mut number = 0u64;
    let mut rest = boxes;
    'moofs: while let Some(moof) = first_in(rest, 0, MOOF) {
        let more = write_moof(
            alloc, walk, moof, number, facts, &mut going, form, written, output,
        )?;
        written = more;
        number = number.saturating_add(1);
        rest = moof.after;
    }
    Ok(written)
}

/// Returns the fault of the index `found`, which is number `number` of the file, if it has one.
fn index_faults<S: Source>(
    alloc: Global,
    walk: &mut BoxWalk<S>,
    found: &TreeBox,
    number: u64,
    starts: &Starts,
) -> std::result::Result<Vec<Fault>, Failure>
    ensures value { IfSome walk.old.bytes
        (λ file. (boxes : List TreeBox) (length : ℕ) → AreStarts boxes length starts.now
        → IfOk result (λ faults. values_of faults.items
        ≡ fault_at found.now.position (in_file names.SIDX number)
        (index_what ⟦<SidxBox as ReadBox>⟧.reads file boxes length found.now))) }
    ensures kept { walk.new ≡ walk.old }
{
    let what = index_what(alloc, walk, found, starts)?;
    or_memory(one_fault(alloc, found.position, SIDX, number, what))
}

/// Returns the fault `what`, if there is one, of the box at `position` with the code `code` after `index` others of the
/// top level.
fn one_fault(
    alloc: Global,
    position: u64,
    code: u32,
    index: u64,
    what: Option<What>,
) -> Result<Vec<Fault>>
    ensures { IfOk result (λ faults. values_of faults.items ≡ fault_at position (in_file code index) what) }
{
    let mut faults = Vec::new(alloc);
    let Some(what) = what else {
        return Ok(faults);
    };
    faults.push(Fault {
        position,
        path: in_file(alloc, code, index)?,
        what,
        reason: Reason::None,
    })?;
    Ok(faults)
}

/// Returns whether a file with the boxes `boxes` has fragments and indexes.
fn has_indexes(boxes: &[TreeBox]) -> bool
    ensures { result ≡ (is_some (first_in 0 (four_cc_of names.MOOF) boxes.now)
        && is_some (first_in 0 (four_cc_of names.SIDX) boxes.now)) }
{
    has_box(boxes, 0, MOOF) && has_box(boxes, 0, SIDX)
}

/// Writes the faults of the indexes in `boxes`, the boxes of a file. Returns what was written, with them.
fn write_each_index<S: Source, F: FaultForm<O>, O>(
    alloc: Global,
    walk: &mut BoxWalk<S>,
    boxes: &[TreeBox],
    form: F,
    told: Told,
    output: &mut O,
) -> std::result::Result<Told, Failure>
    ensures value { IfSome walk.old.bytes
        (λ file. IfOk result (λ now. F.writes form told
        (faults_of_indexes ⟦<SidxBox as ReadBox>⟧.reads file boxes.now (length file) 0
        (all_in 0 (four_cc_of names.SIDX) boxes.now))
        output.old output.new now)) }
    ensures kept { walk.new ≡ walk.old }
{
    let size = file_length(walk);
    let starts = or_memory(starts_of(alloc, boxes, size))?;
    let mut written = told;
    let mut number = 0u64;
    let mut rest = boxes;
    'indexes: while let Some(place) = first_in(rest, 0, SIDX) {
        let faults = index_faults(alloc, walk, &place.found, number, &starts)?;
        let more = write_all_faults(alloc, &faults, form, written, output)?;
        written = more;
        number = number.saturating_add(1);
        rest = place.after;
    }
    Ok(written)
}

/// Writes the faults of the indexes of a file with the boxes `boxes`, if it has fragments. Returns what was written,
/// with them.
fn write_indexes<S: Source, F: FaultForm<O>, O>(
    alloc: Global,
    walk: &mut BoxWalk<S>,
    boxes: &[TreeBox],
    form: F,
    told: Told,
    output: &mut O,
) -> std::result::Result<Told, Failure>
    ensures value { IfSome walk.old.bytes
        (λ file. IfOk result (λ now. F.writes form told
        (index_faults ⟦<SidxBox as ReadBox>⟧.reads file boxes.now (length file))
        output.old output.new now)) }
    ensures kept { walk.new ≡ walk.old }
{
    if !has_indexes(boxes) {
        return Ok(told);
    }
    write_each_index(alloc, walk, boxes, form, told, output)
}

/// Returns whether `found` is a box of the top level for which a file may be made.
fn is_top_file(found: &TreeBox) -> bool
    ensures { result ≡ is_top_file found.now }
{
    match found.code {
        Some(code) => found.depth == 0 && is_file(u32::from(code)),
        None => false,
    }
}

/// Returns the fault of a file with the boxes `boxes` that has no movie, fragment, items or index.
fn lacks_movie(boxes: &[TreeBox]) -> Option<What>
    ensures { result ≡ lacks_movie boxes.now }
{
    for found in boxes {
        if is_top_file(found) {
            return None;
        }
    }
    Some(What::NoMovie)
}

/// Writes the faults of the movie of a file with the boxes `boxes`, and of its tracks, and stores the tracks in `met`.
/// Returns what was written, with them.
fn write_movie<S: Source, F: FaultForm<O>, O>(
    alloc: Global,
    walk: &mut BoxWalk<S>,
    boxes: &[TreeBox],
    met: &mut Met,
    form: F,
    told: Told,
    output: &mut O,
) -> std::result::Result<Told, Failure>
    ensures value { IfSome walk.old.bytes
        (λ file. boxes.now ≡ boxes_of file → IsMet file [] met.old → IfOk result (λ now. F.writes form told
        (tracks_faults file boxes.now) output.old output.new now)) }
    ensures met { IfSome walk.old.bytes
        (λ file. boxes.now ≡ boxes_of file → IsMet file [] met.old
        → OnOk result (IsMet file (traks boxes.now) met.new)) }
    ensures kept { walk.new ≡ walk.old }
{
    let movie = movie_in(boxes);
    let facts = movie_facts(alloc, walk, boxes, movie)?;
    let tracks = write_tracks(alloc, walk, movie, &facts, met, form, told, output)?;
    let faults = or_memory(movie_faults(alloc, &facts, met.longest))?;
    write_all_faults(alloc, &faults, form, tracks, output)
}

/// Returns the defaults of the tracks for their fragments, of a file with the boxes `boxes`.
pub fn track_defaults<S: Source>(
    alloc: Global,
    walk: &mut BoxWalk<S>,
    boxes: &[TreeBox],
) -> std::result::Result<BTreeMap<u32, TrexBox>, Failure>
    ensures value { IfSome walk.old.bytes
        (λ file. IfOk result (λ defaults. (id : ℕ) → get nat_cmp defaults id
        ≡ defaults_in file id (trexes boxes.now))) }
    ensures kept { walk.new ≡ walk.old }
{
    let defaults = or_read(defaults_of(alloc, walk, boxes))?;
    let Defaults {
        by_track,
        faults: _,
    } = defaults;
    Ok(by_track)
}

/// Returns what the rules of fragments need of a file with the boxes `boxes` and the tracks `tracks`.
fn file_facts<S: Source>(
    alloc: Global,
    walk: &mut BoxWalk<S>,
    boxes: &[TreeBox],
    tracks: Met,
) -> std::result::Result<FileFacts, Failure>
    ensures value { IfSome walk.old.bytes
        (λ file. boxes.now ≡ boxes_of file → IsMet file (traks boxes.now) tracks
        → IfOk result (AreFacts (file_of file boxes.now))) }
    ensures order { IfOk result (λ facts. AreInOrder 0 facts.media.extents.items) }
    ensures kept { walk.new ≡ walk.old }
{
    let defaults = track_defaults(alloc, walk, boxes)?;
    let media = media_in(alloc, walk, boxes)?;
    let has_moov = has_box(boxes, 0, MOOV);
    Ok(FileFacts {
        media,
        has_moov,
        tracks,
        defaults,
    })
}

/// Writes the faults of a file with the boxes `boxes` in a form of your own, and returns the summary `told` with them.
/// First come the faults of single boxes, then those of the tracks and of the movie, of the fragments and of the
/// indexes, each in the order of the file, and at the end that of a file without a movie.
pub fn write_faults_as<B: Shown, S: Source, F: FaultForm<O>, O>(
    alloc: Global,
    walk: &mut BoxWalk<S>,
    boxes: &[TreeBox],
    form: F,
    told: Told,
    output: &mut O,
) -> std::result::Result<Told, Failure>
    ensures check { IfSome walk.old.bytes
        (λ file. boxes.now ≡ boxes_of file → IfOk result (λ now. F.writes form told
        (faults_of B.known B.named_reading ⟦<SidxBox as ReadBox>⟧.reads file) output.old output.new now)) }
    ensures kept { walk.new ≡ walk.old }
{
    let with_boxes = write_boxes::<B, S, F, O>(alloc, walk, boxes, form, told, output)?;
    let mut met = Met::new(alloc);
    let with_movie = write_movie(alloc, walk, boxes, &mut met, form, with_boxes, output)?;
    let facts = file_facts(alloc, walk, boxes, met)?;
    let with_fragments = write_fragments(alloc, walk, boxes, &facts, form, with_movie, output)?;
    let with_indexes = write_indexes(alloc, walk, boxes, form, with_fragments, output)?;
    let last = or_memory(one_fault(alloc, 0, MOOV, 0, lacks_movie(boxes)))?;
    write_all_faults(alloc, &last, form, with_indexes, output)
}

/// Writes the faults of a file with the boxes `boxes` as lines or as objects, and returns what was written, as
/// `write_faults_as` does. `any` says whether a fault of another file was written before.
pub fn write_faults<B: Shown, S: Source, W: Write>(
    alloc: Global,
    walk: &mut BoxWalk<S>,
    boxes: &[TreeBox],
    form: Form<'_>,
    any: bool,
    output: &mut Output<W>,
) -> std::result::Result<Told, Failure>
    ensures check { IfSome walk.old.bytes
        (λ file. boxes.now ≡ boxes_of file
        → IfOk result (λ told. WritesCheck B.known B.named_reading ⟦<SidxBox as ReadBox>⟧.reads form.entry any file
        (W.contents output.old.inner) (W.contents output.new.inner) told)) }
    ensures kept { walk.new ≡ walk.old }
{
    let told = Told {
        any,
        failures: false,
        warnings: false,
    };
    write_faults_as::<B, S, Form<'_>, Output<W>>(alloc, walk, boxes, form, told, output)
}
