//! The plan of a fragmented file.

use crate::forms::budget::Budget;
use crate::forms::cursor::Cursor;
use crate::forms::cuts::{Cuts, cuts_of};
use crate::forms::fragment_index::{push_mfra, push_sidx};
use crate::forms::fragment_part::FragmentPart;
use crate::forms::moof::{Run, push_moof};
use crate::forms::movie_copy::{NewMovie, copy_movie};
use crate::forms::new_bytes::{begin_box, end_box, push_box, push_u32};
use crate::forms::obstacles::{check_boxes, check_tops};
use crate::forms::ranges::Ranges;
use crate::forms::refusal::{FormRefusal, FormStop};
use crate::forms::rendering::shown_at;
use crate::forms::times::Time;
use crate::forms::tops::{Side, first_top, push_kept, push_piece};
use crate::forms::tracks::{
    Track, TrackParts, check_counts, dependencies_of, groupings_of, movie_scale, parts_of,
    read_tracks,
};
use crate::pieces::{Piece, Plan};
use crate::refusal::{Refusal, Stop};
use mp4_flat::{MehdBox, TrexBox};
use mp4_frame::{Entries, FourCC, codes};
use mp4_movie::{BoxError, Movie, read_at};
use mp4_samples::{Sample, SampleTables, Tables};
use mp4_tables::{StcoBox, StscBox, StszBox, SttsBox};
use mp4_text::FtypBox;
use mp4_walk::{BoxWalk, Source, TreeBox};
use std::alloc::Global;

/// The most fragments of all tracks and of their groups together.
const MOST: usize = 1 << 26;
/// The brand of files whose offsets count from the `moof` (ISO/IEC 14496-12, annex E).
const ISO6: u32 = 0x6973_6f36;
/// The brand of MP4 files.
const MP41: u32 = 0x6d70_3431;
/// The brand of media segments.
const MSDH: u32 = 0x6d73_6468;

/// The options for a fragmented file.
#[derive(Clone, Copy, Debug, PartialEq, Eq)]
pub struct FragmentOptions {
    /// The number of nanoseconds that each fragment but the last has at least. If `None`, a video is cut at each sync
    /// sample, and other media every two seconds.
    pub least: Option<u64>,
    /// Asks for a `sidx` before the fragments.
    pub has_sidx: bool,
    /// Asks for an `mfra` after the fragments.
    pub has_mfra: bool,
    /// Asks for a `styp` before each fragment, so that it can be a separate file.
    pub is_segmented: bool,
}

/// The plan of a fragmented file.
#[derive(Drop)]
pub struct Fragmented {
    /// The plan of the file.
    pub plan: Plan,
    /// The number of bytes before the first fragment.
    pub init_length: u64,
    /// The timescale of the track that leads, in which the times of the fragments are.
    pub scale: u32,
    /// The fragments, in order.
    pub parts: Vec<FragmentPart>,
}

/// The media of the new file: the pieces of its fragments.
#[derive(Drop)]
struct NewMedia {
    pieces: Vec<Piece>,
    parts: Vec<FragmentPart>,
}

/// Returns the tables of `track`, if they agree and it has samples.
fn agreeing<'a>(tables: Tables<'a>, track: &Track) -> Result<SampleTables<'a>, Stop> {
    match SampleTables::new(tables) {
        Ok(agreeing) => Ok(agreeing),
        Err(disagreement) => Err(Stop::Refused(Refusal::Tables {
            track: track.place,
            disagreement,
        })),
    }
}

/// Returns the tables of each of `tracks`, which have to agree.
fn all_agreeing(alloc: Global, tracks: &[Track]) -> Result<Vec<Option<SampleTables<'_>>>, Stop> {
    let mut all = Vec::new(alloc);
    for track in tracks {
        match &track.tables {
            Some(tables) => all.push(Some(agreeing(tables.tables(), track)?))?,
            None => all.push(None)?,
        }
    }
    Ok(all)
}

/// Refuses a file that is fragmented already.
fn check_progressive(boxes: &[TreeBox]) -> Result<(), FormRefusal> {
    for found in boxes {
        let Some(code) = found.code else {
            continue;
        };
        let number = u32::from(code);
        if (found.depth == 0 && number == codes::MOOF)
            || (found.depth == 1 && number == codes::MVEX)
        {
            return Err(FormRefusal::Fragmented {
                code,
                position: found.position,
            });
        }
    }
    Ok(())
}

/// Returns the cursor over each of `tracks` that has samples, and the index of the track that leads among them.
fn cursors_of<'a, S: Source>(
    alloc: Global,
    walk: &mut BoxWalk<S>,
    tracks: &[Track],
    tables: &[Option<SampleTables<'a>>],
    parts: &[TrackParts],
    lead: usize,
) -> Result<(Vec<Cursor<'a>>, usize), Stop> {
    let mut cursors = Vec::new(alloc);
    let mut index = 0;
    for number in 0..tracks.len() {
        let track = &tracks[number];
        let (Some(Some(agreeing)), Some(part)) = (tables.get(number), parts.get(number)) else {
            continue;
        };
        if number == lead {
            index = cursors.len();
        }
        let dependencies = dependencies_of(alloc, walk, part)?;
        let groups = groupings_of(alloc, walk, part, track.place)?;
        cursors.push(Cursor::new(
            track.place,
            track.id,
            track.scale,
            agreeing.samples(),
            dependencies,
            groups,
        ))?;
    }
    Ok((cursors, index))
}

/// Returns the number of tracks, and of the groupings of their samples.
fn weight_of(parts: &[TrackParts]) -> usize {
    let mut weight = parts.len();
    for part in parts {
        weight = weight.saturating_add(part.groups.len());
    }
    weight
}

/// Refuses more fragments than the tracks permit.
fn check_fragments(cuts: &Cuts, parts: &[TrackParts]) -> Result<(), FormRefusal> {
    let weight = weight_of(parts);
    if cuts.count().saturating_mul(weight) > MOST {
        return Err(FormRefusal::Fragments {
            fragments: cuts.count(),
            tracks: weight,
        });
    }
    Ok(())
}

/// Appends a `styp`.
fn push_styp(out: &mut Vec<u8>) -> Result<(), FormStop> {
    let at = begin_box(out, codes::STYP)?;
    push_u32(out, MSDH)?;
    push_u32(out, 0)?;
    push_u32(out, MSDH)?;
    push_u32(out, ISO6)?;
    end_box(out, at, codes::STYP)
}

/// Returns the part for a fragment that has samples of `cursor`, the track that leads, starting at `first`. It has
/// `passed` runs of other tracks before these.
fn part_of(cursor: &Cursor<'_>, first: Option<Sample>, passed: usize) -> FragmentPart {
    let traf = u32::try_from(passed as u64)
        .unwrap_or(u32::MAX)
        .saturating_add(1);
    match first {
        Some(sample) => FragmentPart {
            length: 0,
            duration: cursor.time.saturating_sub(sample.start_time),
            shown: shown_at(&sample),
            earliest: cursor.earliest,
            is_sync: sample.is_sync,
            traf,
        },
        None => FragmentPart {
            length: 0,
            duration: 0,
            shown: 0,
            earliest: cursor.earliest,
            is_sync: false,
            traf,
        },
    }
}

/// Takes the samples before `end` of all `cursors`: adds their runs to `runs`, and their bytes to `ranges`. `lead` is
/// the index of the cursor that leads.
fn take_all(
    alloc: Global,
    cursors: &mut [Cursor<'_>],
    lead: usize,
    end: Option<Time>,
    budget: &mut Budget,
    runs: &mut Vec<Run>,
    ranges: &mut Ranges,
) -> Result<FragmentPart, FormStop> {
    let mut part = FragmentPart::default();
    for (number, cursor) in cursors.iter_mut().enumerate() {
        let first = cursor.next;
        let passed = runs.len();
        cursor.take(alloc, end, runs, ranges, budget)?;
        if number == lead {
            part = part_of(cursor, first, passed);
        }
    }
    Ok(part)
}

/// Returns the bytes of fragment `number`, counted from 0, up to its media data.
fn headers_of(
    alloc: Global,
    number: usize,
    runs: Vec<Run>,
    ranges: &Ranges,
    is_segmented: bool,
) -> Result<Vec<u8>, FormStop> {
    let sequence = u32::try_from(number as u64)
        .unwrap_or(u32::MAX)
        .saturating_add(1);
    let mut bytes = Vec::new(alloc);
    if is_segmented {
        push_styp(&mut bytes)?;
    }
    push_moof(alloc, &mut bytes, sequence, runs, ranges)?;
    Ok(bytes)
}

/// Adds the fragment with the samples before `end` to `media`. `lead` is the index of the cursor that leads.
fn add_fragment(
    alloc: Global,
    cursors: &mut [Cursor<'_>],
    lead: usize,
    end: Option<Time>,
    budget: &mut Budget,
    is_segmented: bool,
    media: &mut NewMedia,
) -> Result<(), FormStop> {
    let mut runs = Vec::new(alloc);
    let mut ranges = Ranges::new(alloc);
    let mut part = take_all(alloc, cursors, lead, end, budget, &mut runs, &mut ranges)?;
    let bytes = headers_of(alloc, media.parts.len(), runs, &ranges, is_segmented)?;
    part.length = ranges.length.saturating_add(bytes.len() as u64);
    media.pieces.push(Piece::New(bytes))?;
    ranges.add_to(&mut media.pieces)?;
    media.parts.push(part)?;
    Ok(())
}

/// Returns the media of the new file. The cursors are at the first sample of each track.
fn media_of(
    alloc: Global,
    cursors: &mut [Cursor<'_>],
    lead: usize,
    cuts: &Cuts,
    length: u64,
    is_segmented: bool,
) -> Result<NewMedia, FormStop> {
    let mut budget = Budget::new(length);
    let mut media = NewMedia {
        pieces: Vec::new(alloc),
        parts: Vec::new(alloc),
    };
    for index in 0..cuts.count() {
        add_fragment(
            alloc,
            cursors,
            lead,
            cuts.end_of(index),
            &mut budget,
            is_segmented,
            &mut media,
        )?;
    }
    Ok(media)
}

/// Returns tables without entries, which an `stbl` has if all samples are in fragments.
fn empty_tables(alloc: Global) -> Result<Vec<u8>, FormStop> {
    let mut out = Vec::new(alloc);
    push_box(&mut out, &SttsBox::default_in(alloc), codes::STTS)?;
    push_box(&mut out, &StscBox::default_in(alloc), codes::STSC)?;
    push_box(&mut out, &StszBox::default_in(alloc), codes::STSZ)?;
    push_box(&mut out, &StcoBox::default_in(alloc), codes::STCO)?;
    Ok(out)
}

/// Returns the tables of each track of the new file.
fn all_empty(alloc: Global, count: usize) -> Result<Vec<Vec<u8>>, FormStop> {
    let mut all = Vec::new(alloc);
    for _ in 0..count {
        all.push(empty_tables(alloc)?)?;
    }
    Ok(all)
}

/// Returns the time at which the samples of the longest track end, in ticks of the timescale `scale`.
fn longest(tracks: &[Track], scale: u32) -> u64 {
    let mut most = 0;
    for track in tracks {
        if let Some(tables) = &track.tables {
            let end = Time {
                ticks: tables.time_end(),
                scale: track.scale,
            };
            most = end.in_scale(scale).max(most);
        }
    }
    most
}

/// Returns the `mvex` of the new file. `scale` is the timescale of the movie.
fn extends_of(alloc: Global, tracks: &[Track], scale: u32) -> Result<Vec<u8>, FormStop> {
    let mut out = Vec::new(alloc);
    let at = begin_box(&mut out, codes::MVEX)?;
    let mehd = MehdBox {
        version: 1,
        flags: 0,
        fragment_duration: longest(tracks, scale),
    };
    push_box(&mut out, &mehd, codes::MEHD)?;
    for track in tracks {
        let trex = TrexBox {
            version: 0,
            flags: 0,
            track_id: track.id,
            default_sample_description_index: 1,
            default_sample_duration: 0,
            default_sample_size: 0,
            default_sample_flags: 0,
        };
        push_box(&mut out, &trex, codes::TREX)?;
    }
    end_box(&mut out, at, codes::MVEX)?;
    Ok(out)
}

/// Adds `brand` to `brands`, unless it is there.
fn add_brand(brands: &mut Entries<FourCC>, brand: FourCC) -> Result<(), FormStop> {
    for known in brands.as_slice() {
        if *known == brand {
            return Ok(());
        }
    }
    match brands.push(brand) {
        Ok(()) => Ok(()),
        Err(_) => Err(FormStop::Memory),
    }
}

/// Returns the `ftyp` of the old file, or one of the base format if it has none.
fn old_ftyp<S: Source>(
    alloc: Global,
    walk: &mut BoxWalk<S>,
    boxes: &[TreeBox],
) -> Result<FtypBox, Stop> {
    let Some(found) = first_top(boxes, codes::FTYP) else {
        let mut brands = Entries::new(alloc);
        add_brand(&mut brands, FourCC::from(MP41))?;
        return Ok(FtypBox {
            major_brand: FourCC::from(ISO6),
            minor_version: 1,
            compatible_brands: brands,
        });
    };
    match read_at::<FtypBox, S>(alloc, walk, &found)? {
        Ok(ftyp) => Ok(ftyp),
        Err(error) => Err(Stop::Refused(Refusal::Fragment(BoxError::Fault {
            code: FourCC::from(codes::FTYP),
            position: found.position,
            error,
        }))),
    }
}

/// Returns the bytes of the `ftyp` of the new file, which has the brand `iso6` too.
fn new_ftyp<S: Source>(
    alloc: Global,
    walk: &mut BoxWalk<S>,
    boxes: &[TreeBox],
) -> Result<Vec<u8>, Stop> {
    let mut ftyp = old_ftyp(alloc, walk, boxes)?;
    add_brand(&mut ftyp.compatible_brands, FourCC::from(ISO6))?;
    let mut out = Vec::new(alloc);
    push_box(&mut out, &ftyp, codes::FTYP)?;
    Ok(out)
}

/// Returns the plan of everything before the fragments.
fn head_of<S: Source>(
    alloc: Global,
    walk: &mut BoxWalk<S>,
    boxes: &[TreeBox],
    tracks: &[Track],
) -> Result<Plan, Stop> {
    let scale = movie_scale(alloc, walk, boxes)?;
    let Some(moov) = first_top(boxes, codes::MOOV) else {
        return Err(Stop::from(FormRefusal::NoMovie));
    };
    let extends = extends_of(alloc, tracks, scale)?;
    let tables = all_empty(alloc, tracks.len())?;
    let new = NewMovie {
        tables: tables.as_slice(),
        extends: extends.as_slice(),
        durations: None,
    };
    let movie = copy_movie(alloc, walk, boxes, new)?;
    let ftyp = new_ftyp(alloc, walk, boxes)?;
    let mut plan = Plan::new(alloc);
    push_piece(&mut plan, Piece::New(ftyp))?;
    push_kept(alloc, walk, boxes, moov.position, Side::Before, &mut plan)?;
    push_piece(&mut plan, Piece::New(movie.bytes))?;
    push_kept(alloc, walk, boxes, moov.position, Side::After, &mut plan)?;
    Ok(plan)
}

/// Returns the number of bytes of a `styp` before a `moof`.
fn styp_length(is_segmented: bool) -> u64 {
    if is_segmented { 24 } else { 0 }
}

/// Adds the fragments of `media` to `plan`, and the indexes that are asked for. The track with the track_ID `id` and
/// the timescale `scale` leads.
fn finish(
    alloc: Global,
    plan: Plan,
    media: NewMedia,
    options: FragmentOptions,
    id: u32,
    scale: u32,
) -> Result<Fragmented, FormStop> {
    let mut plan = plan;
    let NewMedia { pieces, parts } = media;
    if options.has_sidx {
        let mut bytes = Vec::new(alloc);
        push_sidx(alloc, &mut bytes, &parts, id, scale)?;
        push_piece(&mut plan, Piece::New(bytes))?;
    }
    let init_length = plan.length();
    for piece in pieces {
        push_piece(&mut plan, piece)?;
    }
    if options.has_mfra {
        let mut bytes = Vec::new(alloc);
        let skip = styp_length(options.is_segmented);
        push_mfra(alloc, &mut bytes, &parts, id, init_length, skip)?;
        push_piece(&mut plan, Piece::New(bytes))?;
    }
    Ok(Fragmented {
        plan,
        init_length,
        scale,
        parts,
    })
}

/// Adds the fragments of `tracks` to `plan`, which has everything before them. The tracks have these agreeing tables,
/// and are cut as `cuts` says.
fn plan_cut<S: Source>(
    alloc: Global,
    walk: &mut BoxWalk<S>,
    tracks: &[Track],
    tables: &[Option<SampleTables<'_>>],
    parts: &[TrackParts],
    cuts: &Cuts,
    plan: Plan,
    length: u64,
    options: FragmentOptions,
) -> Result<Fragmented, Stop> {
    let (mut cursors, lead) = cursors_of(alloc, walk, tracks, tables, parts, cuts.lead)?;
    let media = media_of(
        alloc,
        &mut cursors,
        lead,
        cuts,
        length,
        options.is_segmented,
    )?;
    let id = match tracks.get(cuts.lead) {
        Some(track) => track.id,
        None => 0,
    };
    Ok(finish(alloc, plan, media, options, id, cuts.scale)?)
}

/// Plans the fragments of `tracks`.
fn plan_media<S: Source>(
    alloc: Global,
    walk: &mut BoxWalk<S>,
    boxes: &[TreeBox],
    tracks: &[Track],
    length: u64,
    options: FragmentOptions,
) -> Result<Fragmented, Stop> {
    check_counts(tracks, 0, length)?;
    let parts = parts_of(alloc, boxes)?;
    let tables = all_agreeing(alloc, tracks)?;
    let Some(cuts) = cuts_of(alloc, tracks, &tables, options.least)? else {
        return Err(Stop::from(FormRefusal::NoSamples));
    };
    check_fragments(&cuts, &parts)?;
    let plan = head_of(alloc, walk, boxes, tracks)?;
    plan_cut(
        alloc, walk, tracks, &tables, &parts, &cuts, plan, length, options,
    )
}

/// Plans a fragmented file with the samples of a progressive file: `ftyp`, `moov` with an `mvex`, and then a `moof` and
/// an `mdat` for each fragment. Reads no media data. Needs the memory of all sample tables, of the new headers, and 40
/// bytes for each run of samples that follow each other in both files. Takes a step for each sample, and one for each
/// track in each fragment.
pub fn plan_fragments<S: Source>(
    alloc: Global,
    source: S,
    options: FragmentOptions,
) -> Result<Fragmented, Stop> {
    let mut source = source;
    let length = source.length()?;
    let mut movie = Movie::open(alloc, source)?;
    check_tops(movie.boxes())?;
    check_progressive(movie.boxes())?;
    let tracks = read_tracks(alloc, &mut movie)?;
    let (mut walk, boxes) = movie.into_parts();
    check_boxes(alloc, &mut walk, &boxes, false)?;
    plan_media(alloc, &mut walk, &boxes, &tracks.all, length, options)
}
