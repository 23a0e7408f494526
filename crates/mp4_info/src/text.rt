//! The lines about a file, for people.

use crate::facts::{FileFacts, TrackFacts, longest};
use crate::tags::Tag;
use crate::words::{
    push_bits, push_codec, push_duration, push_kind, push_language, push_media, push_samples,
    push_thousands, push_thousandths, text_of,
};
use mp4_frame::FourCC;
use mp4_show::{columns, push_code, push_escaped};
use mp4_shown::Result;
use mp4_text::FtypBox;
use mp4_walk::name_of;
use std::alloc::Global;

/// The number of columns of the line of a track.
const COLUMNS: usize = 7;

/// The brand of QuickTime, `qt  `.
const QUICKTIME: u32 = 0x7174_2020;

/// The brands of files of pictures (ISO/IEC 23008-12, 10.2 to 10.4, and AVIF, 6): `mif1`, `msf1`, `heic`, `heix`,
/// `hevc`, `hevx`, `avif` and `avis`.
const HEIF: [u32; 8] = [
    0x6d69_6631,
    0x6d73_6631,
    0x6865_6963,
    0x6865_6978,
    0x6865_7663,
    0x6865_7678,
    0x6176_6966,
    0x6176_6973,
];

/// The columns of the line of a track.
#[derive(Clone, Copy, Debug, PartialEq, Eq)]
enum Column {
    /// Its number and its kind.
    Kind,
    /// Its codec.
    Codec,
    /// Its pictures or its sound.
    Media,
    /// Its duration.
    Duration,
    /// Its bit rate.
    Bits,
    /// Its language.
    Language,
    /// The number of its samples.
    Samples,
}

/// Returns a column by its number.
fn column_at(number: usize) -> Column {
    match number {
        0 => Column::Kind,
        1 => Column::Codec,
        2 => Column::Media,
        3 => Column::Duration,
        4 => Column::Bits,
        5 => Column::Language,
        _ => Column::Samples,
    }
}

/// Returns the text of a column of the line of track `index`.
fn cell_of(alloc: Global, tracks: &[TrackFacts], index: usize, column: Column) -> Result<String> {
    let mut cell = String::new(alloc);
    if index >= tracks.len() {
        return Ok(cell);
    }
    let facts = &tracks[index];
    match column {
        Column::Kind => push_kind(index.saturating_add(1), tracks, facts, &mut cell)?,
        Column::Codec => push_codec(&facts.entry, &mut cell)?,
        Column::Media => push_media(facts, &mut cell)?,
        Column::Duration => push_duration(facts.duration, &mut cell)?,
        Column::Bits => push_bits(&facts.samples, &mut cell)?,
        Column::Language => push_language(alloc, &facts.headers, &mut cell)?,
        Column::Samples => push_samples(&facts.samples, &mut cell)?,
    }
    Ok(cell)
}

/// Returns the width of the widest text of a column.
fn width_of(alloc: Global, tracks: &[TrackFacts], column: Column) -> Result<usize> {
    let mut width = 0;
    for index in 0..tracks.len() {
        let cell = cell_of(alloc, tracks, index, column)?;
        width = columns(cell.as_str()).max(width);
    }
    Ok(width)
}

/// Returns the widths of all columns.
fn widths_of(alloc: Global, tracks: &[TrackFacts]) -> Result<Vec<usize>> {
    let mut widths = Vec::new(alloc);
    for number in 0..COLUMNS {
        widths.push(width_of(alloc, tracks, column_at(number))?)?;
    }
    Ok(widths)
}

/// Appends `count` spaces.
fn push_spaces(count: usize, out: &mut String) -> Result<()> {
    for _ in 0..count {
        out.push(' ')?;
    }
    Ok(())
}

/// Appends the line of track `index`, with columns of these widths. A column without a width is left out.
fn push_track(
    alloc: Global,
    tracks: &[TrackFacts],
    index: usize,
    widths: &[usize],
    out: &mut String,
) -> Result<()> {
    let mut spaces: usize = 0;
    for number in 0..widths.len() {
        if widths[number] == 0 {
            continue;
        }
        let cell = cell_of(alloc, tracks, index, column_at(number))?;
        let width = columns(cell.as_str());
        spaces = spaces.saturating_add(2);
        if width > 0 {
            push_spaces(spaces, out)?;
            out.push_str(cell.as_str())?;
            spaces = 0;
        }
        spaces = spaces.saturating_add(widths[number].saturating_sub(width));
    }
    out.push_str("\n")
}

/// Appends a brand without spaces at its end.
fn push_brand(alloc: Global, brand: FourCC, out: &mut String) -> Result<()> {
    let mut text = String::new(alloc);
    push_code(brand, &mut text)?;
    out.push_str(text.as_str().trim_end())
}

/// Returns whether `brand` is the major brand, or one of the first `count` compatible brands.
fn is_listed(brands: &FtypBox, count: usize, brand: FourCC) -> bool {
    if brand == brands.major_brand {
        return true;
    }
    let listed = brands.compatible_brands.as_slice();
    listed[..count.min(listed.len())].contains(&brand)
}

/// Appends the brands of a file, each once.
fn push_brands(alloc: Global, brands: &FtypBox, out: &mut String) -> Result<()> {
    out.push_str(" (")?;
    push_brand(alloc, brands.major_brand, out)?;
    let listed = brands.compatible_brands.as_slice();
    for index in 0..listed.len() {
        if !is_listed(brands, index, listed[index]) {
            out.push_str(", ")?;
            push_brand(alloc, listed[index], out)?;
        }
    }
    out.push_str(")")
}

/// Returns the name of the format with the major brand `brand`.
fn format_of(brand: FourCC) -> &'static str {
    let brand = u32::from(brand);
    if brand == QUICKTIME {
        "QuickTime"
    } else if HEIF.contains(&brand) {
        "HEIF"
    } else {
        "MP4"
    }
}

/// Returns whether a file has samples: a movie, or fragments.
fn has_samples(facts: &FileFacts) -> bool {
    facts.movie.is_some() || facts.is_fragmented
}

/// Appends the format of a file, and its brands. A file without brands and samples may be anything.
fn push_format(alloc: Global, facts: &FileFacts, out: &mut String) -> Result<()> {
    match &facts.brands {
        None if has_samples(facts) => out.push_str("MP4"),
        None => out.push_str("no ftyp"),
        Some(brands) => {
            out.push_str(format_of(brands.major_brand))?;
            push_brands(alloc, brands, out)
        }
    }
}

/// Returns the number of segments of a file: those of its index, or those that begin with a `moof`.
pub(crate) fn segment_count(facts: &FileFacts) -> usize {
    match &facts.index {
        Some(index) => index.entries.as_slice().len(),
        None => facts.fragments.len(),
    }
}

/// Appends whether a file is fragmented, and the number of its segments.
fn push_layout(facts: &FileFacts, out: &mut String) -> Result<()> {
    if !facts.is_fragmented {
        return out.push_str(match facts.movie {
            Some(_) => ", progressive",
            None if facts.has_items => ", no movie",
            None => ", no moov",
        });
    }
    out.push_str(", fragmented")?;
    match segment_count(facts) {
        0 => Ok(()),
        1 => out.push_str(", 1 segment"),
        count => write!(out, ", {count} segments"),
    }
}

/// Appends whether the `moov` is before the media data.
fn push_order(movie_is_first: Option<bool>, out: &mut String) -> Result<()> {
    match movie_is_first {
        None => Ok(()),
        Some(true) => out.push_str(", moov before the media data"),
        Some(false) => out.push_str(", moov after the media data"),
    }
}

/// Appends the number of bytes of a file: as it is if it is below 1,000, or in kB.
fn push_size(length: u64, out: &mut String) -> Result<()> {
    match length {
        1 => out.push_str("1 byte"),
        0..=999 => write!(out, "{length} bytes"),
        _ => {
            push_thousands(u128::from(length), out)?;
            out.push_str(" kB")
        }
    }
}

/// Appends the duration of the longest track, if the file has samples.
fn push_longest(facts: &FileFacts, out: &mut String) -> Result<()> {
    if !has_samples(facts) {
        return Ok(());
    }
    out.push_str(", ")?;
    push_thousandths(longest(&facts.tracks), out)?;
    out.push_str(" s")
}

/// Appends the line of a file.
fn push_file(alloc: Global, name: &str, facts: &FileFacts, out: &mut String) -> Result<()> {
    out.push_str(name)?;
    out.push_str("  ")?;
    push_format(alloc, facts, out)?;
    push_layout(facts, out)?;
    push_order(facts.movie_is_first, out)?;
    push_longest(facts, out)?;
    out.push_str(", ")?;
    push_size(facts.length, out)?;
    out.push_str("\n")
}

/// Appends the name of a tag: its common name, or its code if it has none.
fn push_tag_name(code: FourCC, out: &mut String) -> Result<()> {
    match name_of(code) {
        Some(name) => out.push_str(name),
        None => push_code(code, out),
    }
}

/// Appends the line of a tag, if it is a text.
fn push_tag(alloc: Global, tag: &Tag, out: &mut String) -> Result<()> {
    let (Some(code), Some(text)) = (tag.code, text_of(tag)) else {
        return Ok(());
    };
    out.push_str("  ")?;
    push_tag_name(code, out)?;
    out.push_str(": ")?;
    let text = String::from_utf8_lossy(alloc, text)?;
    push_escaped(text.as_str(), out)?;
    out.push_str("\n")
}

/// Returns the lines about a file with this name: one for the file, one for each track, and one for each tag that is a
/// text.
pub fn info_text(alloc: Global, name: &str, facts: &FileFacts) -> Result<String> {
    let mut out = String::new(alloc);
    push_file(alloc, name, facts, &mut out)?;
    let widths = widths_of(alloc, &facts.tracks)?;
    for index in 0..facts.tracks.len() {
        push_track(alloc, &facts.tracks, index, &widths, &mut out)?;
    }
    for tag in facts.tags.as_slice() {
        push_tag(alloc, tag, &mut out)?;
    }
    Ok(out)
}
