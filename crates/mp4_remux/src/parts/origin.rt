//! The time of the media of each track that is presented at 0, by its edit list.

ghost use Rattle.std.specs.Prelude.{◌≡◌, ℕ, pos, ◌-ℤ◌, ◌<◌, ◌≤◌, true, length, get_or, Ok, None, Some, IfOk, IfSome};
ghost use Rattle.std.specs.Prelude.{OnOk};
ghost use Rattle.mp4_samples.specs.Edits.{durations_before, edit_in, is_empty_edit};
ghost use Rattle.mp4_walk.specs.FileBoxes.{boxes_of};
ghost use Rattle.mp4_remux.specs.Origins.{HasOrigins, IsOriginBy, IsOriginIn, PresentsAt, header_box, late_by};
ghost use Rattle.mp4_remux.specs.Origins.{list_at, list_box, list_boxes, movie_scale, scale_at};

use crate::parts::part::Part;
use crate::parts::refusal::PartRefusal;
use crate::refusal::{Refusal, Stop, TrackPlace};
use mp4_flat::MvhdBox;
use mp4_frame::{FourCC, codes};
use mp4_movie::{BoxError, Movie, TrackInfo, first_in, inside, movie_in};
use mp4_tables::{ElstBox, ElstEntry};
use mp4_walk::{Source, TreeBox};
use std::alloc::{AllocError, Global};

/// Returns whether `entry` presents nothing. Its times have 64 bits if `is_long`, and otherwise 32.
fn is_empty(is_long: bool, entry: &ElstEntry) -> bool
    ensures { result ≡ is_empty_edit is_long entry.now }
{
    if is_long {
        entry.media_time == u64::MAX
    } else {
        entry.media_time == u64::from(u32::MAX)
    }
}

/// Returns the sum of the durations of the first `count` edits, or `None` if one of them presents something.
fn delay_of(entries: &[ElstEntry], count: usize, is_long: bool) -> Option<u64>
    requires { count ≤ length entries.now }
    ensures empty { IfSome result (λ _. (k : ℕ) → k < count → is_empty_edit is_long (edit_in entries.now k) ≡ true) }
    ensures sum { IfSome result (λ delay. delay ≡ durations_before entries.now count) }
{
    let mut delay: u64 = 0;
    for index in 0..count {
        if !is_empty(is_long, &entries[index]) {
            return None;
        }
        match delay.checked_add(entries[index].segment_duration) {
            Some(sum) => delay = sum,
            None => return None,
        }
    }
    Some(delay)
}

/// Returns `delay`, in ticks of the movie, in ticks of the media, rounded down.
fn late_by(delay: u64, movie: u32, media: u32) -> Option<u64>
    ensures { IfSome result (λ late. late ≡ late_by delay movie media) }
{
    if movie == 0 {
        return None;
    }
    let ticks = u128::from(delay) * u128::from(media) / u128::from(movie);
    match u64::try_from(ticks) {
        Ok(late) => Some(late),
        Err(_) => None,
    }
}

/// Returns the time `media`, less `late`.
fn less(media: u64, late: u64) -> Option<i64>
    ensures { IfSome result (λ origin. origin ≡ pos media -ℤ pos late) }
{
    match i64::try_from(i128::from(media) - i128::from(late)) {
        Ok(origin) => Some(origin),
        Err(_) => None,
    }
}

/// Returns the time of the media that the last edit of `list` presents at 0.
pub(crate) fn origin_by(list: &ElstBox, movie: u32, media: u32) -> Option<i64>
    ensures { IfSome result (IsOriginBy list.now movie media) }
{
    let entries = list.entries.as_slice();
    if entries.is_empty() {
        return None;
    }
    let last = entries.len() - 1;
    let is_long = list.version == 1;
    let entry = &entries[last];
    if is_empty(is_long, entry) {
        return None;
    }
    if entry.media_rate != 1 {
        return None;
    }
    if entry.media_rate_fraction != 0 {
        return None;
    }
    match delay_of(entries, last, is_long) {
        Some(delay) => match late_by(delay, movie, media) {
            Some(late) => less(entry.media_time, late),
            None => None,
        },
        None => None,
    }
}

/// Returns the time of the media that a track with this edit list presents at 0.
fn origin_in(list: &Option<ElstBox>, movie: u32, media: u32) -> Option<i64>
    ensures { IfSome result (IsOriginIn list.now movie media) }
{
    match list {
        Some(list) => {
            if list.entries.is_empty() {
                return Some(0);
            }
            origin_by(list, movie, media)
        }
        None => Some(0),
    }
}

/// Returns the edit list of a track: the first `elst` in its first `edts`. `trak` begins with the boxes inside its
/// `trak`.
fn list_box(trak: &[TreeBox]) -> Option<TreeBox>
    ensures { result ≡ list_box trak.now }
{
    match first_in(inside(trak, 2, codes::EDTS), 3, codes::ELST) {
        Some(place) => Some(place.found),
        None => None,
    }
}

/// Returns the edit list of each track of a file with these boxes, if the track has one.
pub(crate) fn list_boxes(
    alloc: Global,
    boxes: &[TreeBox],
) -> Result<Vec<Option<TreeBox>>, AllocError>
    ensures { IfOk result (λ lists. lists.items ≡ list_boxes boxes.now) }
{
    let mut lists = Vec::new(alloc);
    let mut rest = movie_in(boxes);
    while let Some(place) = first_in(rest, 1, codes::TRAK) {
        lists.push(list_box(place.after))?;
        rest = place.after;
    }
    Ok(lists)
}

/// Returns the edit list of track `number`, counted from 0, in those of all tracks.
fn listed(
    lists: &[Option<TreeBox>],
    number: usize,
    track: TrackPlace,
) -> Result<Option<TreeBox>, Stop>
    ensures within { IfOk result (λ _. number < length lists.now) }
    ensures found { IfOk result (λ found. found ≡ get_or lists.now number None) }
{
    if number >= lists.len() {
        return Err(Stop::from(PartRefusal::Times(track)));
    }
    Ok(lists[number])
}

/// Returns why the box of this `code` at `position` can't be read.
fn unread(code: u32, position: u64, error: mp4_frame::Error) -> Stop {
    Stop::Refused(Refusal::Fragment(BoxError::Fault {
        code: FourCC::from(code),
        position,
        error,
    }))
}

/// Returns the edit list `found`, or `None` if a track has none.
fn list_of<S: Source>(
    alloc: Global,
    movie: &mut Movie<S>,
    found: Option<TreeBox>,
) -> Result<Option<ElstBox>, Stop>
    ensures value { IfOk result (λ list. IfSome movie.old.bytes (λ B. list_at B found ≡ Ok list)) }
    ensures kept { movie.new ≡ movie.old }
{
    let Some(place) = found else {
        return Ok(None);
    };
    match movie.read::<ElstBox>(alloc, &place) {
        Ok(Ok(list)) => Ok(Some(list)),
        Ok(Err(error)) => Err(unread(codes::ELST, place.position, error)),
        Err(error) => Err(Stop::from(error)),
    }
}

/// Returns the first `mvhd` of the movie. `boxes` are those of the file.
fn header_box(boxes: &[TreeBox]) -> Result<TreeBox, Stop>
    ensures { IfOk result (λ found. header_box boxes.now ≡ Some found) }
{
    match first_in(movie_in(boxes), 1, codes::MVHD) {
        Some(place) => Ok(place.found),
        None => Err(Stop::Refused(Refusal::Fragment(BoxError::Missing {
            code: FourCC::from(codes::MVHD),
        }))),
    }
}

/// Returns the timescale in the `mvhd` `found`.
fn scale_at<S: Source>(alloc: Global, movie: &mut Movie<S>, found: &TreeBox) -> Result<u32, Stop>
    ensures value { IfOk result (λ scale. IfSome movie.old.bytes (λ B. scale_at B (Some found.now) ≡ Ok scale)) }
    ensures kept { movie.new ≡ movie.old }
{
    match movie.read::<MvhdBox>(alloc, found) {
        Ok(Ok(header)) => Ok(header.timescale),
        Ok(Err(error)) => Err(unread(codes::MVHD, found.position, error)),
        Err(error) => Err(Stop::from(error)),
    }
}

/// Returns the timescale of the movie.
fn scale_of<S: Source>(alloc: Global, movie: &mut Movie<S>) -> Result<u32, Stop>
    requires boxes { IfSome movie.old.bytes (λ B. movie.old.boxes ≡ boxes_of B) }
    ensures value { IfOk result (λ scale. IfSome movie.old.bytes (λ B. movie_scale B ≡ Ok scale)) }
    ensures kept { movie.new ≡ movie.old }
{
    let found = header_box(movie.boxes())?;
    scale_at(alloc, movie, &found)
}

/// Returns the origin of track `number` in `part`, counted from 0.
fn named(part: &Part, number: usize, track: TrackPlace) -> Result<i64, Stop>
    ensures { IfOk result (λ origin. origin ≡ get_or part.now.origins.items number (pos 0)) }
{
    if number >= part.origins.len() {
        return Err(Stop::from(PartRefusal::Times(track)));
    }
    Ok(part.origins[number])
}

/// Checks that a track with this edit list presents the time `origin` of its media at 0.
fn check_list(
    list: &Option<ElstBox>,
    movie: u32,
    media: u32,
    origin: i64,
    track: TrackPlace,
) -> Result<(), Stop>
    ensures { OnOk result (IsOriginIn list.now movie media origin) }
{
    match origin_in(list, movie, media) {
        Some(found) => {
            if found == origin {
                Ok(())
            } else {
                Err(Stop::from(PartRefusal::Edits(track)))
            }
        }
        None => Err(Stop::from(PartRefusal::Edits(track))),
    }
}

/// Checks the origin of track `number`, counted from 0, whose headers are `info` and whose edit list is `found`, if it
/// has one. `scale` is the timescale of the movie.
fn check_origin<S: Source>(
    alloc: Global,
    movie: &mut Movie<S>,
    info: &TrackInfo,
    found: Option<TreeBox>,
    number: usize,
    scale: u32,
    part: &Part,
    track: TrackPlace,
) -> Result<(), Stop>
    ensures value { OnOk result (IfSome movie.old.bytes
        (λ B. PresentsAt B found scale info.now.timescale (get_or part.now.origins.items number (pos 0)))) }
    ensures kept { movie.new ≡ movie.old }
{
    let media = match &info.timescale {
        Ok(media) => *media,
        Err(_) => return Err(Stop::Refused(Refusal::Headers(track))),
    };
    let origin = named(part, number, track)?;
    let list = list_of(alloc, movie, found)?;
    check_list(&list, scale, media, origin, track)
}

/// Checks that the origins in `part` are those of the tracks of `movie`: the times of their media that the edit lists
/// present at 0. Needs the memory of the largest edit list, and 56 bytes for each track.
pub(crate) fn check_origins<S: Source>(
    alloc: Global,
    movie: &mut Movie<S>,
    part: &Part,
) -> Result<(), Stop>
    requires boxes { IfSome movie.old.bytes (λ B. movie.old.boxes ≡ boxes_of B) }
    ensures value { OnOk result (IfSome movie.old.bytes (HasOrigins part.now)) }
    ensures kept { movie.new ≡ movie.old }
{
    let scale = scale_of(alloc, movie)?;
    let lists = list_boxes(alloc, movie.boxes())?;
    let tracks = movie.tracks(alloc)?;
    for number in 0..tracks.len() {
        let track = TrackPlace {
            number: number.saturating_add(1),
            position: tracks[number].position,
        };
        let found = listed(&lists, number, track)?;
        check_origin(
            alloc,
            movie,
            &tracks[number],
            found,
            number,
            scale,
            part,
            track,
        )?;
    }
    Ok(())
}
