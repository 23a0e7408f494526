//! The number of the samples of a track, their bytes and their durations.

ghost use Rattle.std.specs.Prelude.{◌≡◌, ◌≤◌, ◌*◌, ◌-◌, count_by, length};
ghost use Rattle.mp4_info.specs.Totals.{default_duration, default_flags, default_size, first_totals, is_key_frame};
ghost use Rattle.mp4_info.specs.Totals.{is_sample, key_frames, listed_samples, listed_sum, no_totals};
ghost use Rattle.mp4_info.specs.Totals.{other_key_frames, piece_of, run_key_frames, run_sum, sample_bytes};
ghost use Rattle.mp4_info.specs.Totals.{sample_count, sample_time, start_in, start_or, totals_of, totals_of_tables};
ghost use Rattle.mp4_info.specs.Totals.{shown_end, with_piece, with_pieces, with_run, with_runs};

use crate::composition::{RAISED, later, run_end};
use crate::digits::bit;
use crate::table_ends::tables_end;
use mp4_flat::TfdtBox;
use mp4_movie::{SampleBoxes, TrackFragment};
use mp4_samples::SAMPLE_IS_NON_SYNC;
use mp4_tables::{StssBox, StszBox, SttsEntry, TrunBox};

/// The samples of a track together. The largest number stands for all larger ones.
#[derive(Clone, Copy, Debug, PartialEq, Eq)]
pub struct Totals {
    /// The number of samples.
    pub samples: u64,
    /// The number of key frames among them.
    pub key_frames: u64,
    /// The number of bytes of all samples.
    pub bytes: u64,
    /// The sum of their durations, in ticks of the timescale of the media.
    pub time: u64,
    /// The time at which the last sample ends, in these ticks.
    pub end: u64,
    /// The largest composition time at which a sample ends, in these ticks, plus 2^31, since it may be negative.
    pub latest: u64,
}

/// The samples of a fragment together.
#[derive(Clone, Copy, Debug, PartialEq, Eq)]
pub struct Piece {
    /// Their totals, which end at the sum of their durations.
    pub totals: Totals,
    /// The time at which the fragment starts, if it states one.
    pub start: Option<u64>,
}

/// The totals of a track without samples.
const NO_TOTALS: Totals = Totals {
    samples: 0,
    key_frames: 0,
    bytes: 0,
    time: 0,
    end: 0,
    latest: 0,
};

/// Returns the number of samples that `entries` of an `stts` count, or the largest number if they count more.
pub fn sample_count(entries: &[SttsEntry]) -> u64
    ensures { result ≡ sample_count entries.now }
{
    let mut count: u64 = 0;
    for index in 0..entries.len() {
        count = count.saturating_add(u64::from(entries[index].sample_count));
    }
    count
}

/// Returns the duration of the samples that `entry` counts.
pub fn entry_time(entry: SttsEntry) -> u64
    ensures { result ≡ entry.sample_count * entry.sample_delta }
{
    u64::from(entry.sample_count) * u64::from(entry.sample_delta)
}

/// Returns the sum of the durations of the samples that `entries` of an `stts` count, or the largest time if the sum is
/// larger.
pub fn sample_time(entries: &[SttsEntry]) -> u64
    ensures { result ≡ sample_time entries.now }
{
    let mut time: u64 = 0;
    for index in 0..entries.len() {
        time = time.saturating_add(entry_time(entries[index]));
    }
    time
}

/// Returns the sum of `numbers`, or the largest number if the sum is larger.
fn listed_sum(numbers: &[u32]) -> u64
    ensures { result ≡ listed_sum numbers.now }
{
    let mut total: u64 = 0;
    for index in 0..numbers.len() {
        total = total.saturating_add(u64::from(numbers[index]));
    }
    total
}

/// Returns the number of bytes of all samples of a table of sizes.
pub fn sample_bytes(stsz: &StszBox) -> u64
    ensures { result ≡ sample_bytes stsz.now }
{
    if stsz.sample_size == 0 {
        listed_sum(stsz.sample_sizes.as_slice())
    } else {
        u64::from(stsz.sample_size) * u64::from(stsz.sample_count)
    }
}

/// Returns whether `number` is that of a sample.
fn is_sample(number: u32, samples: u64) -> bool
    ensures { result ≡ is_sample samples number }
{
    number > 0 && u64::from(number) <= samples
}

/// Returns how many of `numbers` are those of samples, which are counted from 1 to `samples`.
fn listed_samples(numbers: &[u32], samples: u64) -> u64
    ensures { result ≡ listed_samples numbers.now samples }
{
    let mut count: u64 = 0;
    for index in 0..numbers.len() {
        if is_sample(numbers[index], samples) {
            count += 1;
        }
    }
    count
}

/// Returns the number of key frames among `samples` samples: those that `stss` lists, or all without an `stss`.
pub fn key_frames(stss: Option<&StssBox>, samples: u64) -> u64
    ensures { result ≡ key_frames stss.entry samples }
{
    match stss {
        Some(stss) => listed_samples(stss.entries.as_slice(), samples),
        None => samples,
    }
}

/// Returns the totals of the samples of tables.
fn totals_of_tables(tables: &SampleBoxes) -> Totals
    ensures { result ≡ totals_of_tables tables.now }
{
    let samples = u64::from(tables.stsz.sample_count);
    let time = sample_time(&tables.stts.entries);
    Totals {
        samples,
        key_frames: key_frames(tables.stss.as_ref(), samples),
        bytes: sample_bytes(&tables.stsz),
        time,
        end: time,
        latest: tables_end(&tables.stts.entries, &tables.ctts),
    }
}

/// Returns the totals of the tables of a track, if it has some.
fn first_totals(tables: &Option<SampleBoxes>) -> Totals
    ensures { result ≡ first_totals tables.now }
{
    match tables {
        Some(tables) => totals_of_tables(tables),
        None => NO_TOTALS,
    }
}

/// Returns the duration of a sample for which a run of `fragment` lists none.
pub fn default_duration(fragment: &TrackFragment) -> u32
    ensures { result ≡ default_duration fragment.now }
{
    fragment
        .header
        .default_sample_duration
        .unwrap_or(fragment.defaults.default_sample_duration)
}

/// Returns the size of a sample for which a run of `fragment` lists none.
fn default_size(fragment: &TrackFragment) -> u32
    ensures { result ≡ default_size fragment.now }
{
    fragment
        .header
        .default_sample_size
        .unwrap_or(fragment.defaults.default_sample_size)
}

/// Returns the flags of a sample for which a run of `fragment` has none.
fn default_flags(fragment: &TrackFragment) -> u32
    ensures { result ≡ default_flags fragment.now }
{
    fragment
        .header
        .default_sample_flags
        .unwrap_or(fragment.defaults.default_sample_flags)
}

/// Returns the number of samples after the first `listed` of `count`.
pub fn unlisted(count: u32, listed: usize) -> u32
    ensures { result ≡ count - listed }
{
    u64::from(count).saturating_sub(listed as u64) as u32
}

/// Returns the sum of the sizes or durations of `count` samples. A run lists those of the first ones; the others have
/// the default.
fn run_sum(listed: &[u32], count: u32, default: u32) -> u64
    ensures { result ≡ run_sum listed.now count default }
{
    let others = unlisted(count, listed.len());
    listed_sum(listed).saturating_add(u64::from(others) * u64::from(default))
}

/// Returns whether a sample with these flags is a key frame.
fn is_key_frame(flags: u32) -> bool
    ensures { result ≡ is_key_frame flags }
{
    flags & SAMPLE_IS_NON_SYNC == 0
}

/// Returns how many of these flags are those of key frames.
fn listed_key_frames(flags: &[u32]) -> u64
    ensures value { result ≡ count_by is_key_frame flags.now }
    ensures few { result ≤ length flags.now }
{
    let mut count: u64 = 0;
    for index in 0..flags.len() {
        if is_key_frame(flags[index]) {
            count += 1;
        }
    }
    count
}

/// Returns the number of key frames among `count` samples for which a run lists no flags. `first` are other flags of
/// the first of them.
fn other_key_frames(first: Option<u32>, default: u32, count: u32) -> u64
    ensures value { result ≡ other_key_frames first default count }
    ensures few { result ≤ count }
{
    let each = bit(is_key_frame(default));
    match first {
        None => u64::from(count) * each,
        Some(_) if count == 0 => 0,
        Some(flags) => bit(is_key_frame(flags)) + u64::from(count - 1) * each,
    }
}

/// Returns the number of key frames in `run`.
fn run_key_frames(default: u32, run: &TrunBox) -> u64
    ensures { result ≡ run_key_frames default run.now }
{
    let flags = run.sample_flags.as_slice();
    let others = unlisted(run.sample_count, flags.len());
    listed_key_frames(flags) + other_key_frames(run.first_sample_flags, default, others)
}

/// Returns `totals` with the samples of one more run.
fn with_run(totals: Totals, fragment: &TrackFragment, run: &TrunBox) -> Totals
    ensures { result ≡ with_run totals fragment.now run.now }
{
    let count = run.sample_count;
    let default = default_duration(fragment);
    let time = run_sum(run.sample_durations.as_slice(), count, default);
    let end = run_end(default, time, run);
    let bytes = run_sum(run.sample_sizes.as_slice(), count, default_size(fragment));
    let key_frames = run_key_frames(default_flags(fragment), run);
    Totals {
        samples: totals.samples.saturating_add(u64::from(count)),
        key_frames: totals.key_frames.saturating_add(key_frames),
        bytes: totals.bytes.saturating_add(bytes),
        time: totals.time.saturating_add(time),
        end: totals.end.saturating_add(time),
        latest: later(u64::from(count), totals.latest, totals.end, end),
    }
}

/// Returns `totals` with the samples of `runs`.
fn with_runs(totals: Totals, fragment: &TrackFragment, runs: &[TrunBox]) -> Totals
    ensures { result ≡ with_runs totals fragment.now runs.now }
{
    let mut after = totals;
    for index in 0..runs.len() {
        after = with_run(after, fragment, &runs[index]);
    }
    after
}

/// Returns the time in a `tfdt`, if there is one.
fn start_in(time: &Option<TfdtBox>) -> Option<u64>
    ensures { result ≡ start_in time.now }
{
    match time {
        Some(time) => Some(time.base_media_decode_time),
        None => None,
    }
}

/// Returns the totals of `fragment` and the time at which it starts.
pub fn piece_of(fragment: &TrackFragment) -> Piece
    ensures { result ≡ piece_of fragment.now }
{
    Piece {
        totals: with_runs(NO_TOTALS, fragment, fragment.runs.as_slice()),
        start: start_in(&fragment.time),
    }
}

/// Returns the time at which a fragment starts, if the samples before it end at `end`.
fn start_or(start: Option<u64>, end: u64) -> u64
    ensures { result ≡ start_or start end }
{
    match start {
        Some(start) => start,
        None => end,
    }
}

/// Returns `totals` with the samples of one more fragment.
fn with_piece(totals: Totals, piece: Piece) -> Totals
    ensures { result ≡ with_piece totals piece }
{
    let start = start_or(piece.start, totals.end);
    Totals {
        samples: totals.samples.saturating_add(piece.totals.samples),
        key_frames: totals.key_frames.saturating_add(piece.totals.key_frames),
        bytes: totals.bytes.saturating_add(piece.totals.bytes),
        time: totals.time.saturating_add(piece.totals.time),
        end: start.saturating_add(piece.totals.time),
        latest: later(
            piece.totals.samples,
            totals.latest,
            start,
            piece.totals.latest,
        ),
    }
}

/// Returns the largest composition time at which a sample ends, or 0 if it is negative.
pub fn shown_end(totals: Totals) -> u64
    ensures { result ≡ shown_end totals }
{
    totals.latest.saturating_sub(RAISED)
}

/// Returns the totals of a track: those of its tables, and those of its fragments.
pub fn totals_of(tables: &Option<SampleBoxes>, pieces: &[Piece]) -> Totals
    ensures { result ≡ totals_of tables.now pieces.now }
{
    let mut after = first_totals(tables);
    for index in 0..pieces.len() {
        after = with_piece(after, pieces[index]);
    }
    after
}
