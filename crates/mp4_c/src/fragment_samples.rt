//! Lists the samples of the fragments of a track.

ghost use Rattle.std.specs.Prelude.{◌≡◌, ◌+◌, ◌-◌, ◌^◌, ◌++◌, ◌⊎◌, ◌∷◌, [], List, IfOk, IfErr, IfSome, OnOk, Some, min};
ghost use Rattle.mp4_c_boxes.specs.declared.status.TheConstants as statuses;
ghost use Rattle.mp4_c.specs.FragmentSamples.{AppendsOwn, AreRows, AreRowsOf, CopiesFragments, CopiesFragmentsOf};
ghost use Rattle.mp4_c.specs.FragmentSamples.{GivesRows, HasFault, StopsAt, StopsIn, answers_of, concerns, end_time};
ghost use Rattle.mp4_c.specs.FragmentSamples.{status_of_fault, samples_in, samples_of};
ghost use Rattle.mp4_c.specs.declared.samples.SampleRow.{SampleRow};

use crate::samples::{SampleRow, row_of};
use crate::track::{find_track, status_of_box_error};
use mp4_c_boxes::status::{CHUNK_COUNT, DURATIONS, NO_ROOM, OFFSET, OUT_OF_MEMORY};
use mp4_c_boxes::to_rows::copy_rows;
use mp4_movie::{BoxError, MoofFragments, Movie, MovieError, TrackFragment};
use mp4_samples::{Fragment, FragmentFault};
use mp4_tables::TrunBox;
use std::alloc::Global;

/// Returns the status of `fault`: one for each kind.
fn status_of_fault(fault: FragmentFault) -> u32
    ensures { result ≡ status_of_fault fault }
{
    match fault {
        FragmentFault::Runs { .. } => CHUNK_COUNT,
        FragmentFault::Offset { .. } => OFFSET,
        FragmentFault::Time { .. } => DURATIONS,
    }
}

/// Returns `count` plus the number of samples in `runs`, or 2^64 - 1 if there are more.
fn with_runs(count: usize, runs: &[TrunBox]) -> usize
    ensures { result ≡ min (count + samples_of runs.now) (2 ^ 64 - 1) }
{
    let mut total = count;
    'runs: for index in 0..runs.len() {
        total = total.saturating_add(runs[index].sample_count as usize);
    }
    total
}

/// Returns the number of samples in `fragments`, or 2^64 - 1 if there are more.
fn count_of(fragments: &[TrackFragment]) -> usize
    ensures { result ≡ min (samples_in fragments.now) (2 ^ 64 - 1) }
{
    let mut total = 0;
    'all: for index in 0..fragments.len() {
        total = with_runs(total, &fragments[index].runs);
    }
    total
}

/// Adds the rows of the samples of `fragment` to `rows`. Returns the time at which the last sample ends, or the status
/// if memory is refused or the fragment has a fault.
fn push_rows(fragment: &Fragment<'_>, rows: &mut Vec<SampleRow>) -> Result<u64, u32>
    ensures time { IfOk result (λ time. time ≡ end_time fragment.now) }
    ensures rows { IfOk result (λ _. (own : List SampleRow)
        × (AreRowsOf fragment.now own × (rows.new.items ≡ rows.old.items ++ own))) }
    ensures stops { IfErr result (λ status. (status ≡ statuses.OUT_OF_MEMORY) ⊎ HasFault fragment.now status) }
{
    let mut samples = fragment.samples();
    'rows: while let Some(next) = samples.next() {
        match next {
            Ok(sample) => {
                if rows.push(row_of(sample)).is_err() {
                    return Err(OUT_OF_MEMORY);
                }
            }
            Err(fault) => return Err(status_of_fault(fault)),
        }
    }
    Ok(samples.time())
}

/// Returns the rows of the samples of all `fragments`, or a status. The first fragment begins at the time `start`,
/// unless its `tfdt` says otherwise.
fn rows_of(alloc: Global, start: u64, fragments: &[TrackFragment]) -> Result<Vec<SampleRow>, u32>
    ensures rows { IfOk result (λ rows. AreRows start fragments.now rows.items) }
    ensures stops { IfErr result (λ status. (status ≡ statuses.OUT_OF_MEMORY) ⊎ StopsIn start fragments.now status) }
{
    let mut rows = Vec::new(alloc);
    let mut time = start;
    'all: for index in 0..fragments.len() {
        let fragment = fragments[index].fragment(time);
        match push_rows(&fragment, &mut rows) {
            Ok(end) => time = end,
            Err(status) => return Err(status),
        }
    }
    Ok(rows)
}

/// Copies the samples of `fragments` to `rows`, and writes their number to `count`. The first fragment begins at the
/// time `start`, unless its `tfdt` says otherwise. Returns the status.
fn copy_fragments(
    alloc: Global,
    start: u64,
    fragments: &[TrackFragment],
    rows: &mut [SampleRow],
    count: &mut usize,
) -> u32
    ensures { GivesRows start fragments.now result rows.old rows.new count.old count.new }
{
    let total = count_of(fragments);
    if rows.len() < total {
        *count = total;
        return NO_ROOM;
    }
    match rows_of(alloc, start, fragments) {
        Ok(found) => copy_rows(Ok(found), rows, count),
        Err(status) => status,
    }
}

/// Returns whether `error`, the reason why a `traf` is no fragment, concerns the track `track_id`.
fn concerns(track_id: u32, error: &BoxError) -> bool
    ensures { result ≡ concerns track_id error.now }
{
    match error {
        BoxError::NoDefaults { track_id: other } => *other == track_id,
        BoxError::NoBase {
            track_id: other,
            ..
        } => *other == track_id,
        BoxError::Missing { .. } | BoxError::Fault { .. } => true,
    }
}

/// Appends `fragment` to `own`. Returns the status if memory is refused.
fn keep(own: &mut Vec<TrackFragment>, fragment: TrackFragment) -> Result<(), u32>
    ensures kept { OnOk result (own.new.items ≡ own.old.items ++ fragment ∷ []) }
    ensures memory { IfErr result (λ status. status ≡ statuses.OUT_OF_MEMORY) }
{
    match own.push(fragment) {
        Ok(()) => Ok(()),
        Err(_) => Err(OUT_OF_MEMORY),
    }
}

/// Appends the fragment in `answer` to `own` if it is of the track `track_id`. Returns the status if `answer` is an
/// error that concerns the track, or if memory is refused.
fn take(
    answer: Result<TrackFragment, BoxError>,
    track_id: u32,
    own: &mut Vec<TrackFragment>,
) -> Result<(), u32>
    ensures own { OnOk result (AppendsOwn track_id (answer ∷ []) own.old.items own.new.items) }
    ensures stops { IfErr result (StopsAt track_id (answer ∷ [])) }
{
    match answer {
        Ok(fragment) => {
            if fragment.header.track_id == track_id {
                return keep(own, fragment);
            }
            Ok(())
        }
        Err(error) => {
            if concerns(track_id, &error) {
                return Err(status_of_box_error(&error));
            }
            Ok(())
        }
    }
}

/// Appends the fragments of the track `track_id` in `answers` to `own`. Returns the status if an error concerns the
/// track, or if memory is refused.
fn take_all(
    answers: Vec<Result<TrackFragment, BoxError>>,
    track_id: u32,
    own: &mut Vec<TrackFragment>,
) -> Result<(), u32>
    ensures own { OnOk result (AppendsOwn track_id answers.items own.old.items own.new.items) }
    ensures stops { IfErr result (StopsAt track_id answers.items) }
{
    for answer in answers {
        take(answer, track_id, own)?;
    }
    Ok(())
}

/// Returns the fragments of the track `track_id`, or the status if an error concerns the track, or if memory is
/// refused.
fn own_fragments(
    alloc: Global,
    moofs: Vec<MoofFragments>,
    track_id: u32,
) -> Result<Vec<TrackFragment>, u32>
    ensures own { IfOk result (λ own. AppendsOwn track_id (answers_of moofs.items) [] own.items) }
    ensures stops { IfErr result (StopsAt track_id (answers_of moofs.items)) }
{
    let mut own = Vec::new(alloc);
    for moof in moofs {
        let MoofFragments {
            position: _,
            fragments,
        } = moof;
        take_all(fragments, track_id, &mut own)?;
    }
    Ok(own)
}

/// Copies the samples of the fragments of track `number` of `movie`, which has the track_ID `track_id`, to `rows`, and
/// writes their number to `count`. Returns the status.
fn copy_track_fragments(
    alloc: Global,
    movie: &mut Movie<&[u8]>,
    number: usize,
    track_id: u32,
    rows: &mut [SampleRow],
    count: &mut usize,
) -> u32
    ensures { IfSome movie.old.bytes
        (λ file. CopiesFragmentsOf file track_id (Some number) result rows.old rows.new count.old count.new) }
{
    let start = match movie.time_end(alloc, number) {
        Ok(start) => start,
        Err(MovieError::Box(error)) => return status_of_box_error(&error),
        Err(MovieError::Io(_)) => return OUT_OF_MEMORY,
    };
    let Ok(moofs) = movie.fragments(alloc) else {
        return OUT_OF_MEMORY;
    };
    match own_fragments(alloc, moofs, track_id) {
        Ok(own) => copy_fragments(alloc, start, &own, rows, count),
        Err(status) => status,
    }
}

/// Copies the samples of all fragments of the first track that has the track_ID `track_id` (ISO/IEC 14496-12, 8.8) to
/// `rows`, in the order of the file, and writes their number to `count`. `bytes` is the whole file. Returns the status.
#[unsafe(no_mangle)]
pub extern "C" fn mp4_fragment_samples(
    alloc: Global,
    bytes: &[u8],
    track_id: u32,
    rows: &mut [SampleRow],
    count: &mut usize,
) -> u32
    ensures { CopiesFragments bytes.now track_id result rows.old rows.new count.old count.new }
{
    match find_track(alloc, bytes, track_id) {
        Ok(mut track) => {
            let number = track.number;
            copy_track_fragments(alloc, &mut track.movie, number, track_id, rows, count)
        }
        Err(status) => status,
    }
}
