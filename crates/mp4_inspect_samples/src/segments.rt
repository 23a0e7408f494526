//! Writing a row for each `moof`, with the bytes of its media data.

ghost use Rattle.std.specs.Prelude.{◌≡◌, ◌++◌, ◌∷◌, ◌-◌, ◌^◌, ℕ, [], None, min, true, IfSome, OnOk};
ghost use Rattle.std.specs.BTreeMap.{get};
ghost use Rattle.std.specs.Io.KnownBytes.{Appends};
ghost use Rattle.std.specs.Ordering.{nat_cmp};
ghost use Rattle.mp4_frame.specs.FourCC.{four_cc_of};
ghost use Rattle.mp4_frame.specs.declared.codes.TheConstants as names;
ghost use Rattle.mp4_movie.specs.Levels.{all_in, first_in};
ghost use Rattle.mp4_walk.specs.FileBoxes.{boxes_of};
ghost use Rattle.mp4_inspect_samples.specs.Samples.{AreParts};
ghost use Rattle.mp4_inspect_samples.specs.SegmentText.{names_text, segment_text};
ghost use Rattle.mp4_inspect_samples.specs.Segments.{WritesSegments, answer_faults, end_before, first_of};
ghost use Rattle.mp4_inspect_samples.specs.Segments.{fragments_in, last_end, moof_faults, segment_at, segment_by};
ghost use Rattle.mp4_inspect_samples.specs.Segments.{segment_size, segments_text, time_at, time_or};
ghost use Rattle.mp4_inspect_samples.specs.Trafs.{unknown_fault};
ghost use Rattle.mp4_inspect_samples.specs.declared.track_times.TrackTime.{TrackTime};

use crate::choice::Choice;
use crate::clock::Clock;
use crate::durations::duration_of;
use crate::fault::{Fault, TrackFault};
use crate::heading::write_end;
use crate::lists::keep;
use crate::row_text::Form;
use crate::rows::RowWriter;
use crate::samples_of_file::{MovieParts, keep_errors, keep_no_movie, limit_of};
use crate::segment_text::{Segment, push_segment};
use crate::track_times::{TrackTimes, start_by, times_of};
use mp4_frame::codes::{MDAT, MOOF};
use mp4_io::{Failure, Output, write_all};
use mp4_movie::{BoxError, MoofFragments, TrackFragment, first_in, movie_in};
use mp4_walk::{BoxWalk, Source, TreeBox};
use std::alloc::{AllocError, Global};
use std::io::Write;

/// The unit of the times of rows, and the length of the file.
#[derive(Clone, Copy, Debug, PartialEq, Eq)]
struct Rule {
    /// Asks for times in seconds.
    seconds: bool,
    /// The number of bytes of the file.
    length: u64,
}

/// Returns the end of the last `mdat` in `boxes`, or `end` if there is none. 2^64 - 1 stands for all later positions.
fn last_end(end: u64, boxes: &[TreeBox]) -> u64
    ensures { result ≡ min (last_end end (all_in 0 (four_cc_of names.MDAT) boxes.now)) (2 ^ 64 - 1) }
{
    let mut last = end;
    let mut rest = boxes;
    'boxes: while let Some(place) = first_in(rest, 0, MDAT) {
        last = place.found.position.saturating_add(place.found.length);
        rest = place.after;
    }
    last
}

/// Returns the position of the next `moof` after the `moof` `found`, or the end of the last `mdat` after it, or of the
/// `moof` if there is no `mdat`. `after` has the boxes after its header. 2^64 - 1 stands for all later positions.
fn end_before(found: &TreeBox, after: &[TreeBox]) -> u64
    ensures { result ≡ min (end_before (first_in 0 (four_cc_of names.MOOF) after.now)
        (record { box = found.now; after = after.now })) (2 ^ 64 - 1) }
{
    match first_in(after, 0, MOOF) {
        Some(next) => next.found.position,
        None => last_end(found.position.saturating_add(found.length), after),
    }
}

/// Returns the number of bytes from the `moof` `found` to the next `moof`, or to the end of the last `mdat` after it,
/// or of the `moof` if there is no `mdat`. `after` has the boxes after its header, of a file of `length` bytes.
fn segment_size(found: &TreeBox, after: &[TreeBox], length: u64) -> u64
    ensures { result ≡ segment_size length (record { box = found.now; after = after.now }) }
{
    end_before(found, after)
        .min(length)
        .saturating_sub(found.position)
}

/// Returns the row of a `moof` of `size` bytes at `offset`, by the answers of the movie for its `traf`s. `times` has
/// the times of the tracks before it.
fn segment_by(
    number: u64,
    offset: u64,
    size: u64,
    seconds: bool,
    times: &TrackTimes,
    answers: &[Result<TrackFragment, BoxError>],
) -> Segment
    ensures { result ≡ segment_by number offset size seconds
        (λ (q : ℕ). time_or (get nat_cmp times.now.by_track q)) (first_of answers.now) }
{
    if answers.is_empty() {
        return unknown_segment(number, offset, size, seconds);
    }
    match &answers[0] {
        Ok(fragment) => {
            let time = times.of(fragment.header.track_id);
            Segment {
                number,
                offset,
                size,
                track: Some(fragment.header.track_id),
                start: start_by(&fragment.time, time.end),
                duration: Some(duration_of(fragment)),
                clock: Clock {
                    timescale: time.timescale,
                    seconds,
                },
            }
        }
        Err(_) => unknown_segment(number, offset, size, seconds),
    }
}

/// Returns the row of a `moof` whose first fragment is unknown.
fn unknown_segment(number: u64, offset: u64, size: u64, seconds: bool) -> Segment
    ensures { (times : ℕ → TrackTime) → result ≡ segment_by number offset size seconds times None }
{
    Segment {
        number,
        offset,
        size,
        track: None,
        start: None,
        duration: None,
        clock: Clock {
            timescale: None,
            seconds,
        },
    }
}

/// Stores the times of a track after a fragment, or the fault of a `traf` of the `moof` at position `moof` that is
/// none.
fn enter_answer(
    moof: u64,
    answer: Result<TrackFragment, BoxError>,
    times: &mut TrackTimes,
    faults: &mut Vec<TrackFault>,
) -> Result<(), AllocError>
    ensures told { OnOk result (faults.new.items ≡ faults.old.items ++ unknown_fault moof None answer) }
    ensures times { OnOk result ((q : ℕ) → time_or (get nat_cmp times.new.by_track q)
        ≡ time_at q (time_or (get nat_cmp times.old.by_track q)) (fragments_in (answer ∷ []))) }
{
    match answer {
        Ok(fragment) => times.enter(&fragment),
        Err(error) => keep(
            faults,
            TrackFault {
                track: None,
                fault: Fault::Header(moof, error),
            },
        ),
    }
}

/// Stores the times of tracks after the fragments of the `moof` at position `moof`, and the faults of `traf`s that are
/// none.
fn enter_answers(
    moof: u64,
    answers: Vec<Result<TrackFragment, BoxError>>,
    times: &mut TrackTimes,
    faults: &mut Vec<TrackFault>,
) -> Result<(), AllocError>
    ensures told { OnOk result (faults.new.items ≡ faults.old.items ++ answer_faults moof answers.items) }
    ensures times { OnOk result ((q : ℕ) → time_or (get nat_cmp times.new.by_track q)
        ≡ time_at q (time_or (get nat_cmp times.old.by_track q)) (fragments_in answers.items)) }
{
    for answer in answers {
        enter_answer(moof, answer, times, faults)?;
    }
    Ok(())
}

/// Writes the text before the rows of a file.
fn write_names<W: Write>(form: Form, output: &mut Output<W>) -> Result<(), Failure>
    ensures text { OnOk result
        (Appends (W.contents output.old.inner) (W.contents output.new.inner) (names_text form)) }
{
    match form {
        Form::Text => write_all(
            output,
            b"  number        offset         size       track         start      duration\n",
        ),
        Form::Csv => write_all(
            output,
            b"number,offset,size,track,start,duration,timescale\n",
        ),
        Form::Json => write_all(output, b"["),
    }
}

/// Writes a row.
fn write_segment<W: Write>(
    row: &Segment,
    writer: &mut RowWriter,
    output: &mut Output<W>,
) -> Result<(), Failure>
    ensures row { OnOk result
        (Appends (W.contents output.old.inner) (W.contents output.new.inner)
        (segment_text writer.old.form writer.old.follows row.now)) }
    ensures form { writer.new.form ≡ writer.old.form }
    ensures follows { OnOk result (writer.new.follows ≡ true) }
{
    writer.text.clear();
    push_segment(
        writer.form,
        writer.follows,
        row,
        &mut writer.cell,
        &mut writer.text,
    )?;
    writer.follows = true;
    write_all(output, writer.text.as_bytes())
}

/// Writes the row of the `moof` `found`, by the answers of the movie for it, and stores the faults of its `traf`s.
/// `after` has the boxes after its header. `times` has the times of the tracks before it, and then those after it.
fn write_moof<W: Write>(
    found: &TreeBox,
    after: &[TreeBox],
    moof: MoofFragments,
    number: u64,
    rule: Rule,
    times: &mut TrackTimes,
    writer: &mut RowWriter,
    output: &mut Output<W>,
    faults: &mut Vec<TrackFault>,
) -> Result<(), Failure>
    ensures row { OnOk result
        (Appends (W.contents output.old.inner) (W.contents output.new.inner)
        (segment_text writer.old.form writer.old.follows
        (segment_at (record { form = writer.old.form; seconds = rule.seconds; length = rule.length })
        (λ (q : ℕ). time_or (get nat_cmp times.old.by_track q)) number
        (record { box = found.now; after = after.now }) moof))) }
    ensures told { OnOk result
        (faults.new.items ≡ faults.old.items ++ answer_faults moof.position moof.fragments.items) }
    ensures times { OnOk result ((q : ℕ) → time_or (get nat_cmp times.new.by_track q)
        ≡ time_at q (time_or (get nat_cmp times.old.by_track q)) (fragments_in moof.fragments.items)) }
    ensures form { writer.new.form ≡ writer.old.form }
    ensures follows { OnOk result (writer.new.follows ≡ true) }
{
    let MoofFragments {
        position,
        fragments,
    } = moof;
    let size = segment_size(found, after, rule.length);
    let row = segment_by(
        number,
        found.position,
        size,
        rule.seconds,
        times,
        &fragments,
    );
    write_segment(&row, writer, output)?;
    enter_answers(position, fragments, times, faults)?;
    Ok(())
}

/// Writes the rows of the `moof`s in `boxes`, by the answers of the movie for them, and stores the faults of their
/// `traf`s. `times` has the times of the tracks before all fragments. 2^64 - 1 rows are out of memory.
fn write_moofs<W: Write>(
    boxes: &[TreeBox],
    moofs: Vec<MoofFragments>,
    rule: Rule,
    times: &mut TrackTimes,
    writer: &mut RowWriter,
    output: &mut Output<W>,
    faults: &mut Vec<TrackFault>,
) -> Result<(), Failure>
    ensures rows { OnOk result
        (Appends (W.contents output.old.inner) (W.contents output.new.inner)
        (segments_text (record { form = writer.old.form; seconds = rule.seconds; length = rule.length })
        (λ (q : ℕ). time_or (get nat_cmp times.old.by_track q)) writer.old.follows 0 []
        (all_in 0 (four_cc_of names.MOOF) boxes.now) moofs.items)) }
    ensures told { OnOk result (faults.new.items
        ≡ faults.old.items ++ moof_faults (all_in 0 (four_cc_of names.MOOF) boxes.now) moofs.items) }
{
    let mut number: u64 = 0;
    let mut rest = boxes;
    for moof in moofs {
        let Some(place) = first_in(rest, 0, MOOF) else {
            return Ok(());
        };
        if number == u64::MAX {
            return Err(Failure::Memory);
        }
        number += 1;
        write_moof(
            &place.found,
            place.after,
            moof,
            number,
            rule,
            times,
            writer,
            output,
            faults,
        )?;
        rest = place.after;
    }
    Ok(())
}

/// Writes a row for each `moof` of a file with the boxes `boxes`, by the parts of its movie: its bytes up to the next
/// `moof` or the end of its media data, and the start and the duration of its first fragment. Stores the faults.
pub fn write_segments<S: Source, W: Write>(
    alloc: Global,
    walk: &mut BoxWalk<S>,
    boxes: &[TreeBox],
    parts: MovieParts,
    choice: Choice,
    output: &mut Output<W>,
    faults: &mut Vec<TrackFault>,
) -> Result<(), Failure>
    ensures segments { IfSome walk.old.bytes
        (λ file. boxes.now ≡ boxes_of file → AreParts file parts
        → OnOk result (WritesSegments choice file (W.contents output.old.inner) (W.contents output.new.inner)
        faults.old.items faults.new.items)) }
{
    let limit = limit_of(walk, choice);
    let rule = Rule {
        seconds: choice.seconds,
        length: limit.length,
    };
    let MovieParts {
        errors,
        moofs,
        infos,
    } = parts;
    keep_errors(errors, faults)?;
    let movie = movie_in(boxes);
    let mut times = times_of(alloc, walk, movie, infos)?;
    let mut writer = RowWriter::new(alloc, choice.form);
    write_names(choice.form, output)?;
    write_moofs(boxes, moofs, rule, &mut times, &mut writer, output, faults)?;
    keep_no_movie(boxes, faults)?;
    write_end(choice.form, output)
}
