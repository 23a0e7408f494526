//! Reports what a file is, and lists its tracks.

ghost use Rattle.std.specs.Prelude.{◌≡◌, ◌-◌, ◌^◌, length, map, min};
ghost use Rattle.mp4_c.specs.FileInfos.{FillsInfo, Informs, brands_of, file_info, order_of, text_size, track_infos};
ghost use Rattle.mp4_c.specs.FileInfos.{track_texts};
ghost use Rattle.mp4_frame.specs.FourCC.{number_of};

use crate::track_info::{TrackInfo, put_text, saturated, text_size, track_info};
use mp4_c_boxes::status::{NO_ROOM, OK, OUT_OF_MEMORY};
use mp4_frame::FourCC;
use mp4_info::{FileFacts, InfoBoxes, ReadsInfo, TrackFacts, facts_of, longest};
use mp4_text::FtypBox;
use std::alloc::Global;

/// The facts of a file.
#[repr(C)]
#[derive(Clone, Copy)]
pub struct FileInfo {
    /// The number of brands: the major brand and the compatible brands.
    pub brand_count: usize,
    /// The number of tracks.
    pub track_count: usize,
    /// The number of bytes of the texts of all tracks, or the largest number if there are more.
    pub text_bytes: usize,
    /// The number of bytes of the file.
    pub length: u64,
    /// The duration of the longest track in thousandths of a second; the largest number stands for all larger ones.
    pub milliseconds: u64,
    /// 1 if the movie may have fragments, or the file has some; else 0.
    pub is_fragmented: u8,
    /// 1 if the file has a movie whose header can be read, else 0.
    pub has_movie: u8,
    /// 1 if the file has pictures or other items, else 0.
    pub has_items: u8,
    /// 1 if the `moov` is before the first `mdat`, 2 if it is after it, 0 without one of them.
    pub order: u8,
}

/// Returns the number of brands of a file.
fn brand_count(brands: &Option<FtypBox>) -> usize
    ensures { result ≡ length (brands_of brands.now) }
{
    match brands {
        Some(brands) => 1 + brands.compatible_brands.as_slice().len(),
        None => 0,
    }
}

/// Returns the number of bytes of the texts of `tracks`, or 2^64 - 1 if there are more.
fn text_bytes(tracks: &[TrackFacts]) -> usize
    ensures { result ≡ min (text_size tracks.now) (2 ^ 64 - 1) }
{
    let mut size: usize = 0;
    for track in tracks {
        size = size.saturating_add(text_size(track));
    }
    size
}

/// Returns the number of the order of the movie and the media data.
fn order_of(movie_is_first: Option<bool>) -> u8
    ensures { result ≡ order_of movie_is_first }
{
    match movie_is_first {
        Some(true) => 1,
        Some(false) => 2,
        None => 0,
    }
}

/// Returns what a file is, for C.
fn file_info(facts: &FileFacts) -> FileInfo
    ensures { result ≡ file_info facts.now }
{
    FileInfo {
        brand_count: brand_count(&facts.brands),
        track_count: facts.tracks.len(),
        text_bytes: text_bytes(&facts.tracks),
        length: facts.length,
        milliseconds: saturated(longest(&facts.tracks)),
        is_fragmented: u8::from(facts.is_fragmented),
        has_movie: u8::from(facts.movie.is_some()),
        has_items: u8::from(facts.has_items),
        order: order_of(facts.movie_is_first),
    }
}

/// Writes `codes` to `out`, which has a place for each.
fn put_codes(codes: &[FourCC], out: &mut [u32])
    requires { length out.old ≡ length codes.now }
    ensures { out.new ≡ map number_of codes.now }
{
    for index in 0..codes.len() {
        out[index] = u32::from(codes[index]);
    }
}

/// Writes the brands of a file to `out`, which has a place for each.
fn put_brands(brands: &Option<FtypBox>, out: &mut [u32])
    requires { length out.old ≡ length (brands_of brands.now) }
    ensures { out.new ≡ brands_of brands.now }
{
    let Some(brands) = brands else {
        return;
    };
    out[0] = u32::from(brands.major_brand);
    put_codes(brands.compatible_brands.as_slice(), &mut out[1..]);
}

/// Writes `tracks` to `rows`, which has a place for each, and their texts to `text`, which has a place for each byte.
fn put_tracks(tracks: &[TrackFacts], rows: &mut [TrackInfo], text: &mut [u8])
    requires rows { length rows.old ≡ length tracks.now }
    requires text { length text.old ≡ text_size tracks.now }
    ensures rows { rows.new ≡ track_infos 0 tracks.now }
    ensures text { text.new ≡ track_texts tracks.now }
{
    let mut at: usize = 0;
    for index in 0..tracks.len() {
        rows[index] = track_info(at, &tracks[index]);
        at = put_text(text, at, &tracks[index]);
    }
}

/// Writes the brands of a file to the front of `brands`, its tracks to the front of `tracks`, and their texts to the
/// front of `text`. Returns `OK`, or `NO_ROOM` if one of the arrays is too short; all three then stay as they are.
fn fill_info(
    facts: &FileFacts,
    brands: &mut [u32],
    tracks: &mut [TrackInfo],
    text: &mut [u8],
) -> u32
    ensures { FillsInfo result facts.now
        (record { brands = brands.old; tracks = tracks.old; text = text.old })
        (record { brands = brands.new; tracks = tracks.new; text = text.new }) }
{
    let brand_count = brand_count(&facts.brands);
    let track_count = facts.tracks.len();
    let size = text_bytes(&facts.tracks);
    if brands.len() < brand_count || tracks.len() < track_count || text.len() < size {
        return NO_ROOM;
    }
    put_brands(&facts.brands, &mut brands[..brand_count]);
    put_tracks(&facts.tracks, &mut tracks[..track_count], &mut text[..size]);
    OK
}

/// Reports what `mp4inspect info` knows of the file `bytes`: fills `file`, and copies its brands to `brands`, its
/// tracks to `tracks` and their texts to `text`. Returns the status.
#[unsafe(no_mangle)]
pub extern "C" fn mp4_info(
    alloc: Global,
    bytes: &[u8],
    brands: &mut [u32],
    tracks: &mut [TrackInfo],
    text: &mut [u8],
    file: &mut FileInfo,
) -> u32
    ensures { Informs ⟦<InfoBoxes as ReadsInfo>⟧.readings bytes.now result
        (record { brands = brands.old; tracks = tracks.old; text = text.old })
        (record { brands = brands.new; tracks = tracks.new; text = text.new }) file.old file.new }
{
    match facts_of(alloc, bytes) {
        Ok(facts) => {
            *file = file_info(&facts);
            fill_info(&facts, brands, tracks, text)
        }
        Err(_) => OUT_OF_MEMORY,
    }
}
