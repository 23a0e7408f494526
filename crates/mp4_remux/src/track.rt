//! Whether a track is kept.

ghost use Rattle.std.specs.Prelude.{◌≡◌, Ok, IfOk, IfSome, OnOk};
ghost use Rattle.mp4_movie.specs.Descriptions.{descriptions_of};
ghost use Rattle.mp4_movie.specs.Ends.{end_by};
ghost use Rattle.mp4_movie.specs.Movies.{samples_of};
ghost use Rattle.mp4_remux.specs.Carried.{AreBorrowed, CarriesBoxes, CarriesSamples, IsTellerOf, SameHeaders, SameOk};
ghost use Rattle.mp4_remux.specs.Told.{at_track};
ghost use Rattle.mp4_remux.specs.Tracks.{IsGoing, number_of_track, teller_of};
ghost use Rattle.mp4_remux.specs.Whole.{SameAnswer};

use crate::kept::keeps_samples;
use crate::kept_chunks::keeps_chunks;
use crate::pieces::Plan;
use crate::refusal::{Refusal, Stop, TrackPlace, in_track};
use crate::track_samples::TrackSamples;
use mp4_frame::FourCC;
use mp4_movie::{BoxError, Movie, SampleBoxes, TrackFragment, TrackInfo};
use mp4_samples::Tables;
use mp4_walk::Source;
use std::alloc::Global;

/// Returns the time at which the samples of `tables` end, or 0 if there are none.
fn time_end(tables: &Option<SampleBoxes>) -> u64
    ensures { result ≡ end_by tables.now }
{
    match tables {
        Some(boxes) => boxes.time_end(),
        None => 0,
    }
}

/// Returns the tables of `boxes` as `mp4_samples` takes them.
fn borrowed<'a>(boxes: &'a Option<SampleBoxes>) -> Option<Tables<'a>>
    ensures { AreBorrowed boxes.now result }
{
    match boxes {
        Some(boxes) => Some(boxes.tables()),
        None => None,
    }
}

/// Returns the samples of a track with these sample tables and fragments, if the tables agree.
pub(crate) fn samples_in<'a>(
    tables: &'a Option<SampleBoxes>,
    fragments: &'a [TrackFragment],
    track: TrackPlace,
) -> Result<TrackSamples<'a>, Stop>
    ensures going { IfOk result IsGoing }
    ensures number { IfOk result (λ s. number_of_track s ≡ 0) }
    ensures teller { IfOk result (λ s. IsTellerOf tables.now fragments.now (teller_of s)) }
{
    match TrackSamples::new(borrowed(tables), time_end(tables), fragments) {
        Ok(samples) => Ok(samples),
        Err(disagreement) => Err(Stop::Refused(Refusal::Tables {
            track,
            disagreement,
        })),
    }
}

/// Checks that a track has the same samples, by its tables and fragments in both files.
fn check_samples(
    alloc: Global,
    were: &Option<SampleBoxes>,
    are: &Option<SampleBoxes>,
    old: &[TrackFragment],
    new: &[TrackFragment],
    plan: &Plan,
    track: TrackPlace,
) -> Result<(), Stop>
    ensures { OnOk result (CarriesSamples plan.now were.now are.now old.now new.now) }
{
    if keeps_chunks(alloc, were, are, old, new, plan)? {
        return Ok(());
    }
    let before = samples_in(were, old, track)?;
    let after = samples_in(are, new, track)?;
    match keeps_samples(before, after, plan) {
        Ok(()) => Ok(()),
        Err(lost) => Err(Stop::Refused(Refusal::Sample {
            track,
            number: lost.number.saturating_add(1),
        })),
    }
}

/// Returns the sample tables of track `number`, counted from 0.
pub(crate) fn tables_of<S: Source>(
    alloc: Global,
    movie: &mut Movie<S>,
    number: usize,
    track: TrackPlace,
) -> Result<Option<SampleBoxes>, Stop>
    ensures value { IfOk result (λ t. IfSome movie.old.bytes (λ file. at_track samples_of file number ≡ Ok t)) }
    ensures kept { movie.new ≡ movie.old }
{
    match movie.samples(alloc, number) {
        Ok(tables) => Ok(tables),
        Err(error) => Err(in_track(error, track)),
    }
}

/// Returns the bytes of the sample descriptions of track `number`, counted from 0.
fn descriptions_of<S: Source>(
    alloc: Global,
    movie: &mut Movie<S>,
    number: usize,
    track: TrackPlace,
) -> Result<Vec<u8>, Stop>
    ensures value { IfOk result
        (λ v. IfSome movie.old.bytes (λ file. at_track descriptions_of file number ≡ Ok v.items)) }
    ensures kept { movie.new ≡ movie.old }
{
    match movie.descriptions(alloc, number) {
        Ok(bytes) => Ok(bytes),
        Err(error) => Err(in_track(error, track)),
    }
}

/// Checks that track `number`, counted from 0, has the same sample descriptions.
pub(crate) fn check_descriptions<S: Source, T: Source>(
    alloc: Global,
    before: &mut Movie<S>,
    after: &mut Movie<T>,
    number: usize,
    track: TrackPlace,
) -> Result<(), Stop>
    ensures value { OnOk result (IfSome before.old.bytes
        (λ B. IfSome after.old.bytes (λ C. SameAnswer descriptions_of B C number))) }
    ensures before { before.new ≡ before.old }
    ensures after { after.new ≡ after.old }
{
    let were = descriptions_of(alloc, before, number, track)?;
    let are = descriptions_of(alloc, after, number, track)?;
    if are.as_slice() != were.as_slice() {
        return Err(Stop::Refused(Refusal::Descriptions(track)));
    }
    Ok(())
}

/// Returns the number that both are, if it is the same one.
fn same_number(a: &Result<u32, BoxError>, b: &Result<u32, BoxError>) -> Option<u32>
    ensures { IfSome result (SameOk a.now b.now) }
{
    match a {
        Ok(first) => match b {
            Ok(second) => {
                if *first == *second {
                    Some(*first)
                } else {
                    None
                }
            }
            Err(_) => None,
        },
        Err(_) => None,
    }
}

/// Returns the code that both are, if it is the same one.
fn same_code(a: &Result<FourCC, BoxError>, b: &Result<FourCC, BoxError>) -> Option<FourCC>
    ensures { IfSome result (SameOk a.now b.now) }
{
    match a {
        Ok(first) => match b {
            Ok(second) => {
                if *first == *second {
                    Some(*first)
                } else {
                    None
                }
            }
            Err(_) => None,
        },
        Err(_) => None,
    }
}

/// Returns the track_ID of a track, if both files have the same track_ID, timescale and handler type for it.
pub fn same_id(were: &TrackInfo, are: &TrackInfo) -> Option<u32>
    ensures { IfSome result (SameHeaders were.now are.now) }
{
    match same_number(&were.timescale, &are.timescale) {
        Some(_) => match same_code(&were.handler, &are.handler) {
            Some(_) => match same_number(&were.track_id, &are.track_id) {
                Some(id) => Some(id),
                None => None,
            },
            None => None,
        },
        None => None,
    }
}

/// Checks that track `number`, counted from 0, keeps its sample descriptions and its samples. `old` and `new` are its
/// fragments.
pub fn check_track<S: Source, T: Source>(
    alloc: Global,
    before: &mut Movie<S>,
    after: &mut Movie<T>,
    number: usize,
    old: &[TrackFragment],
    new: &[TrackFragment],
    plan: &Plan,
    track: TrackPlace,
) -> Result<(), Stop>
    ensures value { OnOk result (IfSome before.old.bytes
        (λ B. IfSome after.old.bytes (λ C. CarriesBoxes plan.now B C number old.now new.now))) }
    ensures before { before.new ≡ before.old }
    ensures after { after.new ≡ after.old }
{
    check_descriptions(alloc, before, after, number, track)?;
    let were = tables_of(alloc, before, number, track)?;
    let are = tables_of(alloc, after, number, track)?;
    check_samples(alloc, &were, &are, old, new, plan, track)
}
