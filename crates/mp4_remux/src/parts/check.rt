//! Whether a new file keeps a part of an old one.

ghost use Rattle.std.specs.Prelude.{◌≡◌, ◌↔◌, Ok, IfOk, IfSome, IsTrue, OnOk, length};
ghost use Rattle.mp4_remux.specs.CarriedParts.{CarriesRun, CarriesRunBoxes, CarriesSpan, IsFirstVideo, IsLastIn};
ghost use Rattle.mp4_remux.specs.CarriedParts.{IsLastWith, IsLineIn, IsVideoInfo, StartsIn};
ghost use Rattle.mp4_remux.specs.Kept.{KeepsSamples};
ghost use Rattle.mp4_remux.specs.Parts.{IsInRun, IsRunGoing, KeepsPart, end_number, first_number, moment_of, run_count};
ghost use Rattle.mp4_remux.specs.Parts.{run_number, run_teller};
ghost use Rattle.mp4_remux.specs.Pieces.{AreWithin, spelled};
ghost use Rattle.mp4_remux.specs.Told.{IsTold, count};
ghost use Rattle.mp4_remux.specs.Tracks.{IsGoing, number_of_track, teller_of};

use crate::groups::Groups;
use crate::keeps::groups_of;
use crate::kept::keeps_samples;
use crate::media::Media;
use crate::parts::bound::{Bound, Line, Moment, nanoseconds, time_on};
use crate::parts::last::{Place, last_of};
use crate::parts::part::Part;
use crate::parts::refusal::PartRefusal;
use crate::parts::run::PartSamples;
use crate::pieces::Plan;
use crate::refusal::{Refusal, Stop, TrackPlace};
use crate::track::{check_descriptions, same_id, samples_in, tables_of};
use crate::track_samples::TrackSamples;
use mp4_frame::{FourCC, codes};
use mp4_movie::{Movie, SampleBoxes, TrackFragment, TrackInfo};
use mp4_samples::Sample;
use mp4_walk::Source;
use std::alloc::Global;

/// Returns the number of the first sample of a run that begins with `first`, or else with the first sample.
fn first_number(first: &Option<Place>) -> u64
    ensures { result ≡ first_number first.now }
{
    match first {
        Some(place) => place.number,
        None => 0,
    }
}

/// Returns the number of the sample after `last`, or 0 if there is none. Refuses a number of 2^64.
fn end_number(last: &Option<Place>, track: TrackPlace) -> Result<u64, Stop>
    ensures { IfOk result (λ n. n ≡ end_number last.now) }
{
    match last {
        Some(place) => match place.number.checked_add(1) {
            Some(number) => Ok(number),
            None => Err(Stop::from(PartRefusal::Times(track))),
        },
        None => Ok(0),
    }
}

/// Returns the last sample of these tables and fragments that meets `bound`.
fn last_in(
    tables: &Option<SampleBoxes>,
    fragments: &[TrackFragment],
    track: TrackPlace,
    line: Line,
    bound: Bound,
) -> Result<Option<Place>, Stop>
    ensures { IfOk result (IsLastIn tables.now fragments.now line bound) }
{
    let samples = samples_in(tables, fragments, track)?;
    match last_of(samples, line, bound) {
        Ok(last) => Ok(last),
        Err(_) => Err(Stop::from(PartRefusal::Times(track))),
    }
}

/// Returns the decode time of the first sample of a run that begins with `first`, or else with the first sample.
fn shift_of(
    first: &Option<Place>,
    tables: &Option<SampleBoxes>,
    fragments: &[TrackFragment],
    track: TrackPlace,
) -> Result<u64, Stop> {
    if let Some(place) = first {
        return Ok(place.sample.start_time);
    }
    let mut samples = samples_in(tables, fragments, track)?;
    match samples.next() {
        Ok(Some(sample)) => Ok(sample.start_time),
        _ => Ok(0),
    }
}

/// Returns the `length` samples of `samples` starting at number `first`, each decoded `shift` ticks earlier.
fn run_in<'a>(
    samples: TrackSamples<'a>,
    first: u64,
    length: u64,
    shift: u64,
    track: TrackPlace,
) -> Result<PartSamples<'a>, Stop>
    requires number { number_of_track samples ≡ 0 }
    requires going { IsGoing samples }
    ensures going { IfOk result IsRunGoing }
    ensures number { IfOk result (λ s. run_number s ≡ 0) }
    ensures teller { IfOk result (λ s. run_teller s ≡ record {
      teller = teller_of samples.entry;
      first = first;
      length = length;
      shift = shift;
    }) }
{
    match PartSamples::new(samples, first, length, shift) {
        Ok(run) => Ok(run),
        Err(_) => Err(Stop::from(PartRefusal::Times(track))),
    }
}

/// Checks that the samples `after` of the new file are those of the run `before`.
fn check_samples(
    before: PartSamples<'_>,
    after: TrackSamples<'_>,
    plan: &Plan,
    track: TrackPlace,
) -> Result<(), Stop>
    requires before { run_number before ≡ 0 }
    requires after { number_of_track after ≡ 0 }
    requires first { IsRunGoing before }
    requires second { IsGoing after }
    ensures { OnOk result
        (KeepsSamples IsInRun run_count IsTold count plan.now (run_teller before.entry) (teller_of after.entry)) }
{
    match keeps_samples(before, after, plan) {
        Ok(()) => Ok(()),
        Err(lost) => Err(Stop::Refused(Refusal::Sample {
            track,
            number: lost.number.saturating_add(1),
        })),
    }
}

/// Checks that the samples of the new tables and fragments, `are` and `new`, are those of the old ones, `were` and
/// `old`, from `first` to `last`.
fn check_span(
    were: &Option<SampleBoxes>,
    are: &Option<SampleBoxes>,
    old: &[TrackFragment],
    new: &[TrackFragment],
    plan: &Plan,
    track: TrackPlace,
    first: &Option<Place>,
    last: &Option<Place>,
) -> Result<(), Stop>
    ensures { OnOk result (CarriesSpan plan.now first.now last.now were.now are.now old.now new.now) }
{
    let begin = first_number(first);
    let end = end_number(last, track)?;
    let shift = shift_of(first, were, old, track)?;
    let all = samples_in(were, old, track)?;
    let after = samples_in(are, new, track)?;
    let before = run_in(all, begin, end.saturating_sub(begin), shift, track)?;
    check_samples(before, after, plan, track)
}

/// Checks that the new tables and fragments have the run of samples of the old ones between `start` and `end`.
fn check_run(
    were: &Option<SampleBoxes>,
    are: &Option<SampleBoxes>,
    old: &[TrackFragment],
    new: &[TrackFragment],
    plan: &Plan,
    track: TrackPlace,
    line: Line,
    start: Moment,
    end: Moment,
) -> Result<(), Stop>
    ensures { OnOk result (CarriesRun plan.now line start end were.now are.now old.now new.now) }
{
    let first = last_in(were, old, track, line, Bound::From(start))?;
    let last = last_in(were, old, track, line, Bound::To(end))?;
    check_span(were, are, old, new, plan, track, &first, &last)
}

/// Checks that track `number`, counted from 0, keeps its sample descriptions, and its samples between `start` and
/// `end`. `old` and `new` are its fragments.
fn check_part_track<S: Source, T: Source>(
    alloc: Global,
    before: &mut Movie<S>,
    after: &mut Movie<T>,
    number: usize,
    old: &[TrackFragment],
    new: &[TrackFragment],
    plan: &Plan,
    track: TrackPlace,
    line: Line,
    start: Moment,
    end: Moment,
) -> Result<(), Stop>
    ensures value { OnOk result (IfSome before.old.bytes (λ B. IfSome after.old.bytes
        (λ C. CarriesRunBoxes plan.now line start end B C number old.now new.now))) }
    ensures before { before.new ≡ before.old }
    ensures after { after.new ≡ after.old }
{
    check_descriptions(alloc, before, after, number, track)?;
    let were = tables_of(alloc, before, number, track)?;
    let are = tables_of(alloc, after, number, track)?;
    check_run(&were, &are, old, new, plan, track, line, start, end)
}

/// Returns the times of track `number`, counted from 0, whose headers are `info`.
fn line_of(info: &TrackInfo, part: &Part, number: usize, track: TrackPlace) -> Result<Line, Stop>
    ensures { IfOk result (IsLineIn part.now info.now number) }
{
    if number >= part.origins.len() {
        return Err(Stop::from(PartRefusal::Times(track)));
    }
    match &info.timescale {
        Ok(scale) => Ok(Line {
            scale: *scale,
            origin: part.origins[number],
        }),
        Err(_) => Err(Stop::Refused(Refusal::Headers(track))),
    }
}

/// Returns whether a track with the headers `info` is a video.
fn is_video(info: &TrackInfo) -> bool
    ensures { IsTrue result ↔ IsVideoInfo info.now }
{
    match &info.handler {
        Ok(code) => *code == FourCC::from(codes::VIDE),
        Err(_) => false,
    }
}

/// Returns the number of the first video, counted from 0.
fn first_video(infos: &[TrackInfo]) -> Result<usize, Stop>
    ensures { IfOk result (IsFirstVideo infos.now) }
{
    for number in 0..infos.len() {
        if is_video(&infos[number]) {
            return Ok(number);
        }
    }
    Err(Stop::from(PartRefusal::NoVideo))
}

/// Returns the track_ID in `info`.
fn id_of(info: &TrackInfo, track: TrackPlace) -> Result<u32, Stop>
    ensures { IfOk result (λ id. info.now.track_id ≡ Ok id) }
{
    match &info.track_id {
        Ok(id) => Ok(*id),
        Err(_) => Err(Stop::Refused(Refusal::Headers(track))),
    }
}

/// Returns the time at which `sample` is presented. Refuses a time of 2^64 ticks or more.
fn moment_of(line: Line, sample: &Sample, track: TrackPlace) -> Result<Moment, Stop>
    ensures { IfOk result (λ m. m ≡ moment_of line sample.now) }
{
    let time = time_on(line, sample);
    if time >= 1 << 64 {
        return Err(Stop::from(PartRefusal::Times(track)));
    }
    Ok(Moment {
        ticks: time as u64,
        scale: line.scale,
    })
}

/// Returns the last sample of track `number` that meets `bound`. `fragments` are its fragments.
fn last_with<S: Source>(
    alloc: Global,
    movie: &mut Movie<S>,
    number: usize,
    fragments: &[TrackFragment],
    track: TrackPlace,
    line: Line,
    bound: Bound,
) -> Result<Option<Place>, Stop>
    ensures value { IfOk result
        (λ r. IfSome movie.old.bytes (λ B. IsLastWith B number fragments.now line bound r)) }
    ensures kept { movie.new ≡ movie.old }
{
    let tables = tables_of(alloc, movie, number, track)?;
    last_in(&tables, fragments, track, line, bound)
}

/// Returns the time at which the run of the first video begins. `infos` are the headers of the tracks, and `groups`
/// their fragments.
fn start_of<S: Source>(
    alloc: Global,
    movie: &mut Movie<S>,
    infos: &[TrackInfo],
    groups: &Groups,
    part: &Part,
) -> Result<Moment, Stop>
    ensures value { IfOk result
        (λ m. IfSome movie.old.bytes (λ B. StartsIn part.now infos.now groups.now B m)) }
    ensures kept { movie.new ≡ movie.old }
{
    let video = first_video(infos)?;
    let info = &infos[video];
    let track = TrackPlace {
        number: video.saturating_add(1),
        position: info.position,
    };
    let line = line_of(info, part, video, track)?;
    let id = id_of(info, track)?;
    let bound = Bound::From(nanoseconds(part.from));
    let found = last_with(alloc, movie, video, groups.of_track(id), track, line, bound)?;
    match found {
        Some(place) => moment_of(line, &place.sample, track),
        None => Err(Stop::from(PartRefusal::NoSync(track))),
    }
}

/// Checks that the new file, whose movie is `after`, has the part `part` of the old file, whose movie is `before`. The
/// new file is what `plan` spells out over the old file. No media data are read. Takes the memory of the fragments of
/// both files, and of the sample tables of one track in both.
pub fn keeps_part<S: Source, T: Source>(
    alloc: Global,
    before: &mut Movie<S>,
    after: &mut Movie<T>,
    plan: &Plan,
    part: &Part,
) -> Result<(), Stop>
    ensures value { OnOk result (IfSome before.old.bytes (λ B. IfSome after.old.bytes
        (λ C. AreWithin (length B) plan.now → C ≡ spelled B plan.now → KeepsPart part.now B C))) }
    ensures before { before.new ≡ before.old }
    ensures after { after.new ≡ after.old }
{
    let were = before.tracks(alloc)?;
    let are = after.tracks(alloc)?;
    if are.len() != were.len() {
        return Err(Stop::Refused(Refusal::Tracks {
            before: were.len(),
            after: are.len(),
        }));
    }
    let old = groups_of(alloc, before)?;
    let new = groups_of(alloc, after)?;
    let start = start_of(alloc, before, were.as_slice(), &old, part)?;
    let end = nanoseconds(part.to);
    for number in 0..were.len() {
        let track = TrackPlace {
            number: number.saturating_add(1),
            position: were[number].position,
        };
        let Some(id) = same_id(&were[number], &are[number]) else {
            return Err(Stop::Refused(Refusal::Headers(track)));
        };
        let line = line_of(&were[number], part, number, track)?;
        check_part_track(
            alloc,
            before,
            after,
            number,
            old.of_track(id),
            new.of_track(id),
            plan,
            track,
            line,
            start,
            end,
        )?;
    }
    Ok(())
}
