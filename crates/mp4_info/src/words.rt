//! The words about a file and its tracks.

ghost use Rattle.std.specs.Prelude.{◌≡◌, ◌++◌, OnOk, decimal, string_bytes};
ghost use Rattle.std.specs.List.{list_any};
ghost use Rattle.std.specs.Option.{option_map};
ghost use Rattle.mp4_info.specs.Codecs.{colours_of};
ghost use Rattle.mp4_info.specs.FileJson.{text_of};
ghost use Rattle.mp4_info.specs.Members.{thousandths_text, three_digits};
ghost use Rattle.mp4_info.specs.TrackJson.{are_chapters, has_chapters, have_chapters, is_in, range_of, refers_to};

use crate::channels::push_channels;
use crate::codec::colours_of;
use crate::durations::Duration;
use crate::entry::Entry;
use crate::facts::{SampleFacts, TrackFacts};
use crate::headers::{Headers, language, turn};
use crate::kinds::kind_of;
use crate::picture::Picture;
use crate::rates::FrameRate;
use crate::sound::Sound;
use crate::tags::Tag;
use mp4_extra_pictures::colr::ColrBox;
use mp4_extra_tracks::tref::{TrackReference, TrefBox};
use mp4_frame::FourCC;
use mp4_show::{push_code, push_escaped, push_number};
use mp4_shown::Result;
use std::alloc::Global;

/// The type of a reference to chapters: `chap`.
const CHAP: u32 = 0x6368_6170;

/// Appends `number`.
pub(crate) fn push_large(number: u128, out: &mut String) -> Result<()>
    ensures text { OnOk result (string_bytes out.new ≡ string_bytes out.old ++ decimal number) }
{
    let mut buffer = itoa::Buffer::new();
    out.push_str(buffer.format(number))
}

/// Appends the last three digits of a number.
fn push_three(number: u128, out: &mut String) -> Result<()>
    ensures text { OnOk result (string_bytes out.new ≡ string_bytes out.old ++ three_digits number) }
{
    push_large(number / 100 % 10, out)?;
    push_large(number / 10 % 10, out)?;
    push_large(number % 10, out)
}

/// Appends a number of thousandths with three decimals.
pub(crate) fn push_thousandths(thousandths: u128, out: &mut String) -> Result<()>
    ensures text { OnOk result (string_bytes out.new ≡ string_bytes out.old ++ thousandths_text thousandths) }
{
    push_large(thousandths / 1000, out)?;
    out.push_str(".")?;
    push_three(thousandths, out)
}

/// Appends a number of thousandths without zeros at the end of its decimals.
fn push_short(thousandths: u128, out: &mut String) -> Result<()> {
    push_large(thousandths / 1000, out)?;
    if thousandths % 1000 == 0 {
        return Ok(());
    }
    out.push_str(".")?;
    push_large(thousandths / 100 % 10, out)?;
    if thousandths % 100 == 0 {
        return Ok(());
    }
    push_large(thousandths / 10 % 10, out)?;
    if thousandths % 10 == 0 {
        return Ok(());
    }
    push_large(thousandths % 10, out)
}

/// Appends thousands of `number`, rounded, and up from a half.
pub(crate) fn push_thousands(number: u128, out: &mut String) -> Result<()> {
    let more = if number % 1000 >= 500 { 1 } else { 0 };
    push_large(number / 1000 + more, out)
}

/// Returns whether one of `ids` is `id`.
fn is_in(id: u32, ids: &[u32]) -> bool
    ensures { result ≡ is_in id ids.now }
{
    for index in 0..ids.len() {
        if ids[index] == id {
            return true;
        }
    }
    false
}

/// Returns whether `reference` is one to the track with this track_ID for its chapters.
fn refers_to(id: u32, reference: &TrackReference) -> bool
    ensures { result ≡ refers_to id reference.now }
{
    u32::from(reference.reference_type) == CHAP && is_in(id, reference.track_ids.as_slice())
}

/// Returns whether one of `references` is one to the track with this track_ID for its chapters.
fn refer_to(id: u32, references: &[TrackReference]) -> bool
    ensures { result ≡ list_any (refers_to id) references.now }
{
    for index in 0..references.len() {
        if refers_to(id, &references[index]) {
            return true;
        }
    }
    false
}

/// Returns whether a track with these references refers to the track with this track_ID for its chapters.
fn has_chapters(id: u32, references: &Option<TrefBox>) -> bool
    ensures { result ≡ has_chapters id references.now }
{
    match references {
        Some(references) => refer_to(id, references.references.as_slice()),
        None => false,
    }
}

/// Returns whether the track with this track_ID has the chapters of one of `tracks`.
fn have_chapters(id: u32, tracks: &[TrackFacts]) -> bool
    ensures { result ≡ have_chapters id tracks.now }
{
    for index in 0..tracks.len() {
        if has_chapters(id, &tracks[index].headers.references) {
            return true;
        }
    }
    false
}

/// Returns whether the track `facts` has the chapters of another one of `tracks`.
pub(crate) fn are_chapters(tracks: &[TrackFacts], facts: &TrackFacts) -> bool
    ensures { result ≡ are_chapters tracks.now facts.now.headers.track }
{
    match &facts.headers.track {
        Some(header) => have_chapters(header.track_id, tracks),
        None => false,
    }
}

/// Appends the number of a track, counted from 1, and its kind.
pub(crate) fn push_kind(
    number: usize,
    tracks: &[TrackFacts],
    facts: &TrackFacts,
    out: &mut String,
) -> Result<()> {
    push_number(number as u64, out)?;
    out.push_str(" ")?;
    if are_chapters(tracks, facts) {
        return out.push_str("chapters");
    }
    let Some(handler) = &facts.headers.handler else {
        return out.push_str("-");
    };
    let word = kind_of(u32::from(handler.handler_type));
    if word.is_empty() {
        return push_code(handler.handler_type, out);
    }
    out.push_str(word)
}

/// Appends the codec of an entry, and the scheme of its encryption.
pub(crate) fn push_codec(entry: &Option<Entry>, out: &mut String) -> Result<()> {
    let Some(entry) = entry else {
        return out.push_str("-");
    };
    push_escaped(entry.codec.as_str(), out)?;
    let Some(scheme) = entry.protection.scheme else {
        return Ok(());
    };
    out.push_str(" (")?;
    push_code(scheme, out)?;
    out.push_str(")")
}

/// Appends the size of pictures.
fn push_size(picture: &Picture, out: &mut String) -> Result<()> {
    let Some(size) = picture.size else {
        return Ok(());
    };
    push_number(u64::from(size.width), out)?;
    out.push_str("x")?;
    push_number(u64::from(size.height), out)
}

/// Appends the turn of pictures, unless it is by 0 degrees or unknown.
fn push_turn(degrees: Option<u16>, out: &mut String) -> Result<()> {
    match degrees {
        None | Some(0) => Ok(()),
        Some(degrees) => {
            out.push_str(" rotated ")?;
            push_number(u64::from(degrees), out)
        }
    }
}

/// Appends the shape of pixels, unless they are squares.
fn push_aspect(picture: &Picture, out: &mut String) -> Result<()> {
    match &picture.aspect {
        Some(aspect) if aspect.h_spacing != aspect.v_spacing => {
            out.push_str(" pixels ")?;
            push_number(u64::from(aspect.h_spacing), out)?;
            out.push_str(":")?;
            push_number(u64::from(aspect.v_spacing), out)
        }
        _ => Ok(()),
    }
}

/// Returns the name of the transfer characteristics of high dynamic range that `colr` states (ISO/IEC 23091-2, 8.2), if
/// it states some.
pub(crate) fn range_of(colr: &Option<ColrBox>) -> Option<&'static str>
    ensures { option_map (λ name. name.now) result ≡ range_of (colours_of colr.now) }
{
    let Some(colours) = colours_of(colr) else {
        return None;
    };
    match colours.transfer_characteristics {
        16 => Some("PQ"),
        18 => Some("HLG"),
        _ => None,
    }
}

/// Appends the dynamic range of pictures, if it is high.
fn push_range(picture: &Picture, out: &mut String) -> Result<()> {
    match range_of(&picture.colours) {
        Some(range) => {
            out.push_str(" ")?;
            out.push_str(range)
        }
        None => Ok(()),
    }
}

/// Appends a frame rate, after `~` if it is an average.
fn push_rate(rate: FrameRate, out: &mut String) -> Result<()> {
    out.push_str(if rate.is_constant { "  " } else { "  ~" })?;
    push_short(rate.thousandths, out)?;
    out.push_str(" fps")
}

/// Appends the words about pictures.
fn push_picture(facts: &TrackFacts, picture: &Picture, out: &mut String) -> Result<()> {
    push_size(picture, out)?;
    push_turn(turn(&facts.headers.track), out)?;
    push_aspect(picture, out)?;
    push_range(picture, out)?;
    match facts.samples {
        Some(
            SampleFacts {
                frame_rate: Some(rate),
                ..
            },
        ) => push_rate(rate, out),
        _ => Ok(()),
    }
}

/// Appends the words about sound.
fn push_sound(sound: Sound, out: &mut String) -> Result<()> {
    if let Some(rate) = sound.sample_rate {
        push_number(rate, out)?;
        out.push_str(" Hz")?;
    }
    match sound.channels {
        Some(channels) => {
            out.push_str(" ")?;
            push_channels(channels, out)
        }
        None => Ok(()),
    }
}

/// Appends the words about the pictures or the sound of a track.
pub(crate) fn push_media(facts: &TrackFacts, out: &mut String) -> Result<()> {
    let Some(entry) = &facts.entry else {
        return Ok(());
    };
    if let Some(picture) = &entry.picture {
        return push_picture(facts, picture, out);
    }
    match entry.sound {
        Some(sound) => push_sound(sound, out),
        None => Ok(()),
    }
}

/// Appends a duration in seconds, if it is known.
pub(crate) fn push_duration(duration: Option<Duration>, out: &mut String) -> Result<()> {
    match duration {
        Some(duration) => {
            push_thousandths(duration.thousandths, out)?;
            out.push_str(" s")
        }
        None => Ok(()),
    }
}

/// Appends a bit rate in thousands of bits a second, if it is known.
pub(crate) fn push_bits(samples: &Option<SampleFacts>, out: &mut String) -> Result<()> {
    match samples {
        Some(
            SampleFacts {
                bit_rate: Some(bits),
                ..
            },
        ) => {
            push_thousands(*bits, out)?;
            out.push_str(" kb/s")
        }
        _ => Ok(()),
    }
}

/// Appends the language of a track, if it is known.
pub(crate) fn push_language(alloc: Global, headers: &Headers, out: &mut String) -> Result<()> {
    let text = String::from_utf8_lossy(alloc, language(headers))?;
    push_escaped(text.as_str(), out)
}

/// Appends a number and a word, with an `s` unless the number is 1.
fn push_counted(count: u64, word: &str, out: &mut String) -> Result<()> {
    push_number(count, out)?;
    out.push_str(" ")?;
    out.push_str(word)?;
    out.push_str(if count == 1 { "" } else { "s" })
}

/// Appends the number of samples of a track and of its key frames, if these are not all samples.
pub(crate) fn push_samples(samples: &Option<SampleFacts>, out: &mut String) -> Result<()> {
    let Some(samples) = samples else {
        return Ok(());
    };
    push_counted(samples.totals.samples, "sample", out)?;
    if samples.totals.key_frames == samples.totals.samples {
        return Ok(());
    }
    out.push_str(", ")?;
    push_counted(samples.totals.key_frames, "key frame", out)
}

/// Returns the text of a tag, if its value is one: type 1, UTF-8.
pub(crate) fn text_of(tag: &Tag) -> Option<&[u8]>
    ensures { option_map (λ text. text.now) result ≡ text_of tag.now.value }
{
    match &tag.value {
        Some(value) if value.type_set == 0 && value.data_type == 1 => Some(value.value.as_slice()),
        _ => None,
    }
}
