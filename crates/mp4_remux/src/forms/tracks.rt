//! The tracks of a file, as the planners read them.

use crate::forms::refusal::{FormRefusal, FormStop};
use crate::forms::sample_groups::Grouping;
use crate::refusal::{Refusal, Stop, TrackPlace, in_track};
use mp4_extra_samples::sbgp::SbgpBox;
use mp4_flat::MvhdBox;
use mp4_frame::{FourCC, codes};
use mp4_movie::{BoxError, Movie, MovieError, SampleBoxes, TrackInfo, read_at};
use mp4_walk::{BoxWalk, Source, TreeBox};
use std::alloc::Global;
use std::collections::BTreeMap;

/// A track: its headers and its sample tables.
#[derive(Debug, Drop)]
pub struct Track {
    /// The track, as refusals name it.
    pub place: TrackPlace,
    /// The track_ID.
    pub id: u32,
    /// The timescale of its media in ticks a second.
    pub scale: u32,
    /// The handler type of its media.
    pub handler: FourCC,
    /// The sample tables, if it has samples outside fragments.
    pub tables: Option<SampleBoxes>,
}

impl Track {
    /// Returns the number of samples in the tables.
    pub(crate) fn count(&self) -> u32 {
        match &self.tables {
            Some(tables) => tables.stsz.sample_count,
            None => 0,
        }
    }
}

/// The tracks of a file, and the index of each by its track_ID.
#[derive(Debug, Drop)]
pub struct Tracks {
    /// The tracks, in the order of the file.
    pub all: Vec<Track>,
    /// The index of each track_ID.
    pub by_id: BTreeMap<u32, usize>,
}

/// The boxes of a track that say more of its samples than its tables do.
#[derive(Debug, Drop)]
pub struct TrackParts {
    /// The `sdtp`, if it has one.
    pub dependencies: Option<TreeBox>,
    /// Each `sbgp`.
    pub groups: Vec<TreeBox>,
    /// True if it has an edit list.
    pub has_edits: bool,
    /// True for each of `mdia`, `minf` and `stbl` that was passed.
    has_media: bool,
    has_information: bool,
    has_table: bool,
}

/// Returns the value of a header of `track`.
fn header<T: Drop>(value: Result<T, BoxError>, track: TrackPlace) -> Result<T, Stop> {
    match value {
        Ok(value) => Ok(value),
        Err(error) => Err(Stop::Refused(Refusal::Track { track, error })),
    }
}

/// Returns the track with the headers `info`.
fn track_of<S: Source>(
    alloc: Global,
    movie: &mut Movie<S>,
    info: TrackInfo,
) -> Result<Track, Stop> {
    let TrackInfo {
        number,
        position,
        track_id,
        timescale,
        handler,
    } = info;
    let place = TrackPlace {
        number: number.saturating_add(1),
        position,
    };
    let id = header(track_id, place)?;
    let scale = header(timescale, place)?;
    let kind = header(handler, place)?;
    let tables = match movie.samples(alloc, number) {
        Ok(tables) => tables,
        Err(error) => return Err(in_track(error, place)),
    };
    Ok(Track {
        place,
        id,
        scale,
        handler: kind,
        tables,
    })
}

/// Stores the index of the next track, whose track_ID no other may have.
fn keep_id(tracks: &mut Tracks, track: &Track) -> Result<(), FormStop> {
    if tracks.by_id.contains_key(&track.id) {
        return Err(FormStop::Refused(FormRefusal::SameId {
            track: track.place,
            id: track.id,
        }));
    }
    match tracks.by_id.insert(track.id, tracks.all.len()) {
        Ok(_) => Ok(()),
        Err(_) => Err(FormStop::Memory),
    }
}

/// Returns the tracks of `movie`. Refuses a track whose headers or tables can't be read, and two tracks of one
/// track_ID. Needs the memory of all sample tables.
pub(crate) fn read_tracks<S: Source>(alloc: Global, movie: &mut Movie<S>) -> Result<Tracks, Stop> {
    let infos = movie.tracks(alloc)?;
    let mut tracks = Tracks {
        all: Vec::new(alloc),
        by_id: BTreeMap::new(alloc),
    };
    for info in infos {
        let track = track_of(alloc, movie, info)?;
        keep_id(&mut tracks, &track)?;
        tracks.all.push(track)?;
    }
    Ok(tracks)
}

/// Returns the refusal of a second box of its kind in a track.
fn second(found: &TreeBox, code: u32) -> FormStop {
    FormStop::Refused(FormRefusal::Second {
        code: FourCC::from(code),
        position: found.position,
    })
}

/// Stores `found`, a box inside the last track, if it is one of the parts. Refuses a second `mdia`, `minf`, `stbl` or
/// `sdtp`.
fn keep_part(part: &mut TrackParts, found: &TreeBox, code: u32) -> Result<(), FormStop> {
    match (found.depth, code) {
        (2, codes::MDIA) => {
            if part.has_media {
                return Err(second(found, code));
            }
            part.has_media = true;
        }
        (3, codes::MINF) => {
            if part.has_information {
                return Err(second(found, code));
            }
            part.has_information = true;
        }
        (4, codes::STBL) => {
            if part.has_table {
                return Err(second(found, code));
            }
            part.has_table = true;
        }
        (5, codes::SDTP) => {
            if part.dependencies.is_some() {
                return Err(second(found, code));
            }
            part.dependencies = Some(*found);
        }
        (5, codes::SBGP) => part.groups.push(*found)?,
        (3, codes::ELST) => part.has_edits = true,
        _ => {}
    }
    Ok(())
}

/// Returns the parts of each `trak` of the `moov` among `boxes`.
pub(crate) fn parts_of(alloc: Global, boxes: &[TreeBox]) -> Result<Vec<TrackParts>, FormStop> {
    let mut parts = Vec::new(alloc);
    let mut is_in_movie = false;
    for found in boxes {
        let Some(code) = found.code else {
            continue;
        };
        let number = u32::from(code);
        if found.depth == 0 {
            is_in_movie = number == codes::MOOV;
        } else if is_in_movie && found.depth == 1 && number == codes::TRAK {
            parts.push(TrackParts {
                dependencies: None,
                groups: Vec::new(alloc),
                has_edits: false,
                has_media: false,
                has_information: false,
                has_table: false,
            })?;
        } else if is_in_movie {
            if let Some(last) = parts.last_mut() {
                keep_part(last, found, number)?;
            }
        }
    }
    Ok(parts)
}

/// Returns the groups in `found`, an `sbgp`.
pub(crate) fn grouping_at<S: Source>(
    alloc: Global,
    walk: &mut BoxWalk<S>,
    found: &TreeBox,
) -> Result<Grouping, MovieError> {
    match read_at::<SbgpBox, S>(alloc, walk, found)? {
        Ok(sbgp) => Ok(Grouping::new(sbgp)),
        Err(error) => Err(MovieError::Box(BoxError::Fault {
            code: FourCC::from(codes::SBGP),
            position: found.position,
            error,
        })),
    }
}

/// Returns the groups of a track with these parts.
pub(crate) fn groupings_of<S: Source>(
    alloc: Global,
    walk: &mut BoxWalk<S>,
    part: &TrackParts,
    track: TrackPlace,
) -> Result<Vec<Grouping>, Stop> {
    let mut all = Vec::new(alloc);
    for found in &part.groups {
        match grouping_at(alloc, walk, found) {
            Ok(grouping) => all.push(grouping)?,
            Err(error) => return Err(in_track(error, track)),
        }
    }
    Ok(all)
}

/// Returns the dependencies of the samples of a track with these parts, a byte for each: the bytes of its `sdtp` after
/// version and flags (ISO/IEC 14496-12, 8.6.4). Returns none if it has no `sdtp`.
pub(crate) fn dependencies_of<S: Source>(
    alloc: Global,
    walk: &mut BoxWalk<S>,
    part: &TrackParts,
) -> Result<Vec<u8>, Stop> {
    let Some(found) = part.dependencies else {
        return Ok(Vec::new(alloc));
    };
    let inside = TreeBox {
        header_length: found.header_length.saturating_add(4).min(found.length),
        ..found
    };
    Ok(walk.read_content(alloc, &inside)?)
}

/// Checks that all tracks together have at most as many samples in tables as the file has bytes.
pub(crate) fn check_counts(tracks: &[Track], others: u64, length: u64) -> Result<(), FormRefusal> {
    let mut samples = others;
    for track in tracks {
        samples = samples.saturating_add(u64::from(track.count()));
    }
    if samples > length {
        return Err(FormRefusal::Samples {
            samples,
            bytes: length,
        });
    }
    Ok(())
}

/// Returns the first `mvhd` of `boxes`.
fn header_in(boxes: &[TreeBox]) -> Option<TreeBox> {
    for found in boxes {
        if found.depth == 1 && found.has_code(FourCC::from(codes::MVHD)) {
            return Some(*found);
        }
    }
    None
}

/// Returns the timescale in `header`.
fn scale_of(header: &MvhdBox) -> u32 {
    header.timescale
}

/// Returns why the `mvhd` at `position` can't be read.
fn faulty_header(error: mp4_frame::Error, position: u64) -> Stop {
    Stop::Refused(Refusal::Fragment(BoxError::Fault {
        code: FourCC::from(codes::MVHD),
        position,
        error,
    }))
}

/// Returns the timescale of the movie, in the first `mvhd` of `boxes`.
pub(crate) fn movie_scale<S: Source>(
    alloc: Global,
    walk: &mut BoxWalk<S>,
    boxes: &[TreeBox],
) -> Result<u32, Stop> {
    let Some(found) = header_in(boxes) else {
        return Err(Stop::Refused(Refusal::Fragment(BoxError::Missing {
            code: FourCC::from(codes::MVHD),
        })));
    };
    match read_at::<MvhdBox, S>(alloc, walk, &found) {
        Ok(Ok(header)) => Ok(scale_of(&header)),
        Ok(Err(error)) => Err(faulty_header(error, found.position)),
        Err(error) => Err(Stop::from(error)),
    }
}
