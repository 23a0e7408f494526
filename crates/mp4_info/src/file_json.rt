//! The JSON object about a file.

ghost use Rattle.std.specs.Prelude.{◌≡◌, IfOk, IsTrue, OnOk, codes, flat_map, string_bytes};
ghost use Rattle.std.specs.Option.{option_map};
ghost use Rattle.json.specs.Print.{IsNumber};
ghost use Rattle.mp4_info.specs.Codecs.{colours_of};
ghost use Rattle.mp4_info.specs.Durations.{of_ticks};
ghost use Rattle.mp4_info.specs.Headers.{language, timescale_of, turn};
ghost use Rattle.mp4_info.specs.FileJson.{IsFileJson, PutsFile, PutsTagList, PutsTags, brand_items, fragment_value};
ghost use Rattle.mp4_info.specs.Facts.{longest};
ghost use Rattle.mp4_info.specs.FileJson.{has_id, head_members, segment_items, segment_value, stated_duration};
ghost use Rattle.mp4_info.specs.FileJson.{tag_members, tag_value, text_of, timescale_by};
ghost use Rattle.mp4_info.specs.Members.{array, code_value, digits_value, duration_members, duration_object};
ghost use Rattle.mp4_info.specs.Members.{duration_value, flag_value, large_value, lossy_value, member, null_value};
ghost use Rattle.mp4_info.specs.Members.{number_value, object, or_null, pair_object, span_value, text_value};
ghost use Rattle.mp4_info.specs.Members.{thousandths_value};
ghost use Rattle.mp4_info.specs.TrackJson.{aspect_object, channels_object, colours_object, duration_pair};
ghost use Rattle.mp4_info.specs.TrackJson.{entry_members, handler_members, header_members, id_value, key_value};
ghost use Rattle.mp4_info.specs.TrackJson.{known_entry, known_samples, language_value, light_object, mastering_object};
ghost use Rattle.mp4_info.specs.TrackJson.{media_duration, media_in, media_members, nclx_members, no_entry, no_samples};
ghost use Rattle.mp4_info.specs.TrackJson.{original_code, picture_members, protection_members, protection_value};
ghost use Rattle.mp4_info.specs.TrackJson.{range_members, range_of, rate_members, rate_object, rate_of};
ghost use Rattle.mp4_info.specs.TrackJson.{reference_items, reference_value, sample_members, size_members, sound_if};
ghost use Rattle.mp4_info.specs.TrackJson.{sound_members, track_members, track_value, word_value};
ghost use Rattle.mp4_info.specs.Kinds.{kind_of};
ghost use Rattle.mp4_shown_json.specs.Tokens.{Puts, is_number};

use crate::channels::push_channels;
use crate::codec::colours_of;
use crate::durations::{Duration, whole_duration};
use crate::entry::{Entry, Protection, is_encrypted};
use crate::facts::{FileFacts, FragmentTime, SampleFacts, TrackFacts, longest};
use crate::headers::{Headers, language, timescale_of, turn};
use crate::kinds::kind_of;
use crate::picture::Picture;
use crate::rates::FrameRate;
use crate::sound::Sound;
use crate::tags::Tag;
use crate::words::{are_chapters, push_large, push_thousandths, range_of, text_of};
use mp4_extra_pictures::clli::ClliBox;
use mp4_extra_pictures::colr::Nclx;
use mp4_extra_pictures::mdcv::MdcvBox;
use mp4_extra_pictures::pasp::PaspBox;
use mp4_extra_samples::sidx::{SidxBox, SidxEntry};
use mp4_extra_tracks::tref::{TrackReference, TrefBox};
use mp4_flat::{MvhdBox, TkhdBox};
use mp4_frame::FourCC;
use mp4_show::json_text;
use mp4_shown::Result;
use mp4_shown_json::JsonSink;
use mp4_text::{FtypBox, HdlrBox};
use mp4_walk::name_of;
use std::alloc::Global;

/// Writes a member with a number.
fn put_number(name: &str, number: u64, sink: &mut JsonSink) -> Result<()>
    ensures { OnOk result (Puts sink.old.out sink.new.out (member name.now (number_value number))) }
{
    sink.out.key(name)?;
    sink.out.u64(number)?;
    Ok(())
}

/// Writes a member with a number, or `null` without one.
fn put_number_if(name: &str, number: Option<u64>, sink: &mut JsonSink) -> Result<()>
    ensures { OnOk result (Puts sink.old.out sink.new.out (member name.now (or_null number_value number))) }
{
    match number {
        Some(number) => put_number(name, number, sink),
        None => put_null(name, sink),
    }
}

/// Returns whether `text` is a number of JSON (RFC 8259, section 6).
fn is_number(text: &str) -> bool
    ensures same { result ≡ is_number text.now }
    ensures number { IsTrue result → IsNumber text.now }
{
    json::is_number(text)
}

/// Writes a member with the number in `text`.
fn put_digits(name: &str, text: &str, sink: &mut JsonSink) -> Result<()>
    ensures { OnOk result (Puts sink.old.out sink.new.out (member name.now (digits_value text.now))) }
{
    sink.out.key(name)?;
    if is_number(text) {
        sink.out.number(text)?;
    } else {
        sink.out.null()?;
    }
    Ok(())
}

/// Writes a member with a number that may be large.
fn put_large(alloc: Global, name: &str, number: u128, sink: &mut JsonSink) -> Result<()>
    ensures { OnOk result (Puts sink.old.out sink.new.out (member name.now (large_value number))) }
{
    let mut text = String::new(alloc);
    push_large(number, &mut text)?;
    put_digits(name, text.as_str(), sink)
}

/// Writes a member with a number of thousandths as a decimal.
fn put_thousandths(alloc: Global, name: &str, number: u128, sink: &mut JsonSink) -> Result<()>
    ensures { OnOk result (Puts sink.old.out sink.new.out (member name.now (thousandths_value number))) }
{
    let mut text = String::new(alloc);
    push_thousandths(number, &mut text)?;
    put_digits(name, text.as_str(), sink)
}

/// Writes a member with a text.
fn put_text(name: &str, text: &str, sink: &mut JsonSink) -> Result<()>
    ensures { OnOk result (Puts sink.old.out sink.new.out (member name.now (text_value text.now))) }
{
    sink.out.key(name)?;
    sink.out.string(text)?;
    Ok(())
}

/// Writes a member with a text, or `null` without one.
fn put_text_if(name: &str, text: Option<&str>, sink: &mut JsonSink) -> Result<()>
    ensures { OnOk result (Puts sink.old.out sink.new.out
        (member name.now (or_null text_value (option_map (λ text. text.now) text.entry)))) }
{
    match text {
        Some(text) => put_text(name, text, sink),
        None => put_null(name, sink),
    }
}

/// Writes a member with a code.
fn put_code(name: &str, code: FourCC, sink: &mut JsonSink) -> Result<()>
    ensures { OnOk result (Puts sink.old.out sink.new.out (member name.now (code_value code))) }
{
    sink.out.key(name)?;
    sink.code(code)
}

/// Writes a member with a code, or `null` without one.
fn put_code_if(name: &str, code: Option<FourCC>, sink: &mut JsonSink) -> Result<()>
    ensures { OnOk result (Puts sink.old.out sink.new.out (member name.now (or_null code_value code))) }
{
    match code {
        Some(code) => put_code(name, code, sink),
        None => put_null(name, sink),
    }
}

/// Writes a member with a flag.
fn put_flag(name: &str, flag: bool, sink: &mut JsonSink) -> Result<()>
    ensures { OnOk result (Puts sink.old.out sink.new.out (member name.now (flag_value flag))) }
{
    sink.out.key(name)?;
    sink.out.boolean(flag)?;
    Ok(())
}

/// Writes a member with `null`.
fn put_null(name: &str, sink: &mut JsonSink) -> Result<()>
    ensures { OnOk result (Puts sink.old.out sink.new.out (member name.now null_value)) }
{
    sink.out.key(name)?;
    sink.out.null()?;
    Ok(())
}

/// Writes the members of a duration.
fn put_duration(alloc: Global, duration: Duration, sink: &mut JsonSink) -> Result<()>
    ensures { OnOk result (Puts sink.old.out sink.new.out (duration_members duration)) }
{
    put_thousandths(alloc, "seconds", duration.thousandths, sink)?;
    put_large(alloc, "ticks", duration.ticks, sink)?;
    put_number("ticks_per_second", duration.ticks_per_second, sink)?;
    Ok(())
}

/// Writes a member with a duration.
fn put_known_duration(
    alloc: Global,
    name: &str,
    duration: Duration,
    sink: &mut JsonSink,
) -> Result<()>
    ensures { OnOk result (Puts sink.old.out sink.new.out (member name.now (duration_object duration))) }
{
    sink.out.key(name)?;
    sink.out.begin_object()?;
    put_duration(alloc, duration, sink)?;
    sink.out.end_object()?;
    Ok(())
}

/// Writes a member with a duration, or `null` without one.
fn put_duration_if(
    alloc: Global,
    name: &str,
    duration: Option<Duration>,
    sink: &mut JsonSink,
) -> Result<()>
    ensures { OnOk result (Puts sink.old.out sink.new.out (member name.now (duration_value duration))) }
{
    match duration {
        Some(duration) => put_known_duration(alloc, name, duration, sink),
        None => put_null(name, sink),
    }
}

/// Writes an object with a number and a duration.
fn put_span(
    alloc: Global,
    name: &str,
    number: u64,
    duration: Option<Duration>,
    sink: &mut JsonSink,
) -> Result<()>
    ensures { OnOk result (Puts sink.old.out sink.new.out (span_value name.now number duration)) }
{
    sink.out.begin_object()?;
    put_number(name, number, sink)?;
    put_duration_if(alloc, "duration", duration, sink)?;
    sink.out.end_object()?;
    Ok(())
}

/// Writes codes, one after the other.
fn put_codes(codes: &[FourCC], sink: &mut JsonSink) -> Result<()>
    ensures { OnOk result (Puts sink.old.out sink.new.out (flat_map code_value codes.now)) }
{
    for index in 0..codes.len() {
        sink.code(codes[index])?;
    }
    Ok(())
}

/// Writes the major brand of a file, then the compatible ones.
fn put_brand_items(brands: &Option<FtypBox>, sink: &mut JsonSink) -> Result<()>
    ensures { OnOk result (Puts sink.old.out sink.new.out (brand_items brands.now)) }
{
    match brands {
        Some(brands) => {
            sink.code(brands.major_brand)?;
            put_codes(brands.compatible_brands.as_slice(), sink)
        }
        None => Ok(()),
    }
}

/// Writes the brands of a file.
fn put_brands(brands: &Option<FtypBox>, sink: &mut JsonSink) -> Result<()>
    ensures { OnOk result (Puts sink.old.out sink.new.out (member (codes "brands") (array (brand_items brands.now)))) }
{
    sink.out.key("brands")?;
    sink.out.begin_array()?;
    put_brand_items(brands, sink)?;
    sink.out.end_array()?;
    Ok(())
}

/// Writes whether the `moov` is before the media data.
fn put_order(movie_is_first: Option<bool>, sink: &mut JsonSink) -> Result<()>
    ensures { OnOk result (Puts sink.old.out sink.new.out
        (member (codes "moov_first") (or_null flag_value movie_is_first))) }
{
    match movie_is_first {
        Some(first) => put_flag("moov_first", first, sink),
        None => put_null("moov_first", sink),
    }
}

/// Returns the duration that the header of the movie states.
fn stated_duration(movie: &Option<MvhdBox>) -> Option<Duration>
    ensures { result ≡ stated_duration movie.now }
{
    match movie {
        Some(movie) => whole_duration(movie.duration, movie.timescale),
        None => None,
    }
}

/// Writes the duration that the header of the movie states.
fn put_stated(alloc: Global, movie: &Option<MvhdBox>, sink: &mut JsonSink) -> Result<()>
    ensures { OnOk result (Puts sink.old.out sink.new.out
        (member (codes "stated_duration") (duration_value (stated_duration movie.now)))) }
{
    put_duration_if(alloc, "stated_duration", stated_duration(movie), sink)
}

/// Returns the duration of a segment of an index with this timescale.
fn part_duration(timescale: u32, entry: SidxEntry) -> Option<Duration>
    ensures { result ≡ of_ticks entry.subsegment_duration timescale }
{
    whole_duration(u64::from(entry.subsegment_duration), timescale)
}

/// Writes a segment of an index with this timescale.
fn put_entry_of(alloc: Global, timescale: u32, entry: SidxEntry, sink: &mut JsonSink) -> Result<()>
    ensures { OnOk result (Puts sink.old.out sink.new.out (segment_value timescale entry)) }
{
    let bytes = u64::from(entry.referenced_size);
    put_span(alloc, "bytes", bytes, part_duration(timescale, entry), sink)
}

/// Writes the segments of an index.
fn put_index(alloc: Global, index: &SidxBox, sink: &mut JsonSink) -> Result<()>
    ensures { OnOk result (Puts sink.old.out sink.new.out
        (flat_map (segment_value index.now.timescale) index.now.entries)) }
{
    put_entries(alloc, index.timescale, index.entries.as_slice(), sink)
}

/// Writes segments of an index with this timescale.
fn put_entries(
    alloc: Global,
    timescale: u32,
    entries: &[SidxEntry],
    sink: &mut JsonSink,
) -> Result<()>
    ensures { OnOk result (Puts sink.old.out sink.new.out (flat_map (segment_value timescale) entries.now)) }
{
    for index in 0..entries.len() {
        put_entry_of(alloc, timescale, entries[index], sink)?;
    }
    Ok(())
}

/// Returns whether the track with this header has this track_ID.
fn has_id(header: &Option<TkhdBox>, id: u32) -> bool
    ensures { result ≡ has_id id header.now }
{
    match header {
        Some(header) => header.track_id == id,
        None => false,
    }
}

/// Returns the timescale of the track with this track_ID, or 0 without one.
fn timescale_by(tracks: &[TrackFacts], id: u32) -> u32
    ensures { result ≡ timescale_by id tracks.now }
{
    for index in 0..tracks.len() {
        let headers = &tracks[index].headers;
        if has_id(&headers.track, id) {
            return timescale_of(&headers.media);
        }
    }
    0
}

/// Returns the duration of the segment that begins with a `moof`.
fn fragment_duration(tracks: &[TrackFacts], fragment: FragmentTime) -> Option<Duration>
    ensures { result ≡ of_ticks fragment.ticks (timescale_by fragment.track_id tracks.now) }
{
    whole_duration(fragment.ticks, timescale_by(tracks, fragment.track_id))
}

/// Writes the segment that begins with a `moof`.
fn put_fragment(
    alloc: Global,
    tracks: &[TrackFacts],
    fragment: FragmentTime,
    sink: &mut JsonSink,
) -> Result<()>
    ensures { OnOk result (Puts sink.old.out sink.new.out (fragment_value tracks.now fragment)) }
{
    let duration = fragment_duration(tracks, fragment);
    put_span(alloc, "position", fragment.position, duration, sink)
}

/// Writes the segments that begin with a `moof`.
fn put_fragments(
    alloc: Global,
    tracks: &[TrackFacts],
    fragments: &[FragmentTime],
    sink: &mut JsonSink,
) -> Result<()>
    ensures { OnOk result (Puts sink.old.out sink.new.out (flat_map (fragment_value tracks.now) fragments.now)) }
{
    for index in 0..fragments.len() {
        put_fragment(alloc, tracks, fragments[index], sink)?;
    }
    Ok(())
}

/// Writes the segments of a file, one after the other: those of its index, or those that begin with a `moof`.
fn put_segment_items(alloc: Global, facts: &FileFacts, sink: &mut JsonSink) -> Result<()>
    ensures { OnOk result (Puts sink.old.out sink.new.out
        (segment_items facts.now.index facts.now.tracks.items facts.now.fragments.items)) }
{
    match &facts.index {
        Some(index) => put_index(alloc, index, sink),
        None => put_fragments(alloc, &facts.tracks, facts.fragments.as_slice(), sink),
    }
}

/// Writes the segments of a file.
fn put_segments(alloc: Global, facts: &FileFacts, sink: &mut JsonSink) -> Result<()>
    ensures { OnOk result (Puts sink.old.out sink.new.out
        (member (codes "segments")
        (array (segment_items facts.now.index facts.now.tracks.items facts.now.fragments.items)))) }
{
    sink.out.key("segments")?;
    sink.out.begin_array()?;
    put_segment_items(alloc, facts, sink)?;
    sink.out.end_array()?;
    Ok(())
}

/// Returns the code of an entry before it was encrypted, if it is known.
fn original_code(entry: &Entry) -> Option<FourCC>
    ensures { result ≡ original_code entry.now }
{
    if u32::from(entry.protection.original) == u32::from(entry.code) {
        None
    } else {
        Some(entry.protection.original)
    }
}

/// Writes the protection of an encrypted entry.
fn put_encryption(alloc: Global, entry: &Entry, sink: &mut JsonSink) -> Result<()>
    ensures { OnOk result (Puts sink.old.out sink.new.out
        (member (codes "encryption") (object (protection_members entry.now)))) }
{
    sink.out.key("encryption")?;
    sink.out.begin_object()?;
    put_scheme(alloc, entry, sink)?;
    sink.out.end_object()?;
    Ok(())
}

/// Writes the protection of an entry, or `null` for one that is not encrypted.
fn put_protection(alloc: Global, entry: &Entry, sink: &mut JsonSink) -> Result<()>
    ensures { OnOk result (Puts sink.old.out sink.new.out (member (codes "encryption") (protection_value entry.now))) }
{
    if is_encrypted(entry.code) {
        put_encryption(alloc, entry, sink)
    } else {
        put_null("encryption", sink)
    }
}

/// Writes the original code, the scheme and the default key of an encrypted entry.
fn put_scheme(alloc: Global, entry: &Entry, sink: &mut JsonSink) -> Result<()>
    ensures { OnOk result (Puts sink.old.out sink.new.out (protection_members entry.now)) }
{
    put_code_if("original", original_code(entry), sink)?;
    put_code_if("scheme", entry.protection.scheme, sink)?;
    put_key(alloc, entry.protection.key, sink)
}

/// Writes the UUID of a key, or `null` without one.
fn put_key(alloc: Global, key: Option<[u8; 16]>, sink: &mut JsonSink) -> Result<()>
    ensures { OnOk result (Puts sink.old.out sink.new.out (member (codes "key") (or_null key_value key))) }
{
    match key {
        Some(key) => {
            let digits = hex::encode(alloc, key)?;
            put_text("key", digits.as_str(), sink)
        }
        None => put_null("key", sink),
    }
}

/// Writes the codec of an entry.
fn put_codec(entry: &Entry, sink: &mut JsonSink) -> Result<()>
    ensures { OnOk result (Puts sink.old.out sink.new.out
        (member (codes "codec") (text_value (string_bytes entry.now.codec)))) }
{
    put_text("codec", entry.codec.as_str(), sink)
}

/// Writes the code of an entry, its codec and its protection.
fn put_known_entry(alloc: Global, entry: &Entry, sink: &mut JsonSink) -> Result<()>
    ensures { OnOk result (Puts sink.old.out sink.new.out (known_entry entry.now)) }
{
    put_code("entry", entry.code, sink)?;
    put_codec(entry, sink)?;
    put_protection(alloc, entry, sink)?;
    Ok(())
}

/// Writes `null` for each value of an entry.
fn put_no_entry(sink: &mut JsonSink) -> Result<()>
    ensures { OnOk result (Puts sink.old.out sink.new.out no_entry) }
{
    put_null("entry", sink)?;
    put_null("codec", sink)?;
    put_null("encryption", sink)?;
    Ok(())
}

/// Writes the first sample entry of a track, or `null` for each of its values without one.
fn put_entry(alloc: Global, entry: &Option<Entry>, sink: &mut JsonSink) -> Result<()>
    ensures { OnOk result (Puts sink.old.out sink.new.out (entry_members entry.now)) }
{
    match entry {
        Some(entry) => put_known_entry(alloc, entry, sink),
        None => put_no_entry(sink),
    }
}

/// Writes the kind of media with this handler, or `null` if it has no word.
fn put_kind(handler: u32, sink: &mut JsonSink) -> Result<()>
    ensures { OnOk result (Puts sink.old.out sink.new.out (member (codes "kind") (word_value (kind_of handler)))) }
{
    let word = kind_of(handler);
    if word.is_empty() {
        return put_null("kind", sink);
    }
    put_text("kind", word, sink)
}

/// Writes the track_ID in a header, or `null` without one.
fn put_id(header: &Option<TkhdBox>, sink: &mut JsonSink) -> Result<()>
    ensures { OnOk result (Puts sink.old.out sink.new.out (member (codes "track_id") (or_null id_value header.now))) }
{
    match header {
        Some(header) => put_number("track_id", u64::from(header.track_id), sink),
        None => put_null("track_id", sink),
    }
}

/// Writes the handler of a track and the kind of its media, or `null` for each without one.
fn put_handler(handler: &Option<HdlrBox>, sink: &mut JsonSink) -> Result<()>
    ensures { OnOk result (Puts sink.old.out sink.new.out (handler_members handler.now)) }
{
    match handler {
        Some(handler) => {
            put_code("handler", handler.handler_type, sink)?;
            put_kind(u32::from(handler.handler_type), sink)
        }
        None => {
            put_null("handler", sink)?;
            put_null("kind", sink)
        }
    }
}

/// Writes the headers of a track.
#[tactic(auto, unfolding(crate::specs::TrackJson::header_members))]
fn put_headers(tracks: &[TrackFacts], facts: &TrackFacts, sink: &mut JsonSink) -> Result<()>
    ensures { OnOk result (Puts sink.old.out sink.new.out (header_members tracks.now facts.now.headers)) }
{
    put_id(&facts.headers.track, sink)?;
    put_handler(&facts.headers.handler, sink)?;
    put_flag("chapters", are_chapters(tracks, facts), sink)?;
    Ok(())
}

/// Writes the language of a track, or `null` if it is not known.
fn put_language(alloc: Global, headers: &Headers, sink: &mut JsonSink) -> Result<()>
    ensures { OnOk result (Puts sink.old.out sink.new.out
        (member (codes "language") (language_value (language headers.now)))) }
{
    let found = language(headers);
    if found.is_empty() {
        return put_null("language", sink);
    }
    let text = String::from_utf8_lossy(alloc, found)?;
    put_text("language", text.as_str(), sink)
}

/// Returns the duration of the media of a track, up to the end of its last sample.
fn media_duration(facts: &TrackFacts) -> Option<Duration>
    ensures { result ≡ media_duration facts.now.samples (timescale_of facts.now.headers.media) }
{
    match facts.samples {
        Some(samples) => whole_duration(samples.totals.end, timescale_of(&facts.headers.media)),
        None => None,
    }
}

/// Writes the duration of the media of a track.
fn put_media_duration(alloc: Global, facts: &TrackFacts, sink: &mut JsonSink) -> Result<()>
    ensures { OnOk result (Puts sink.old.out sink.new.out (member (codes "media_duration")
        (duration_value (media_duration facts.now.samples (timescale_of facts.now.headers.media))))) }
{
    put_duration_if(alloc, "media_duration", media_duration(facts), sink)
}

/// Writes the durations of a track and of its media.
fn put_durations(alloc: Global, facts: &TrackFacts, sink: &mut JsonSink) -> Result<()>
    ensures { OnOk result (Puts sink.old.out sink.new.out (duration_pair facts.now)) }
{
    put_duration_if(alloc, "duration", facts.duration, sink)?;
    put_media_duration(alloc, facts, sink)?;
    Ok(())
}

/// Writes a bit rate, or `null` without one.
fn put_bit_rate(alloc: Global, rate: Option<u128>, sink: &mut JsonSink) -> Result<()>
    ensures { OnOk result (Puts sink.old.out sink.new.out (member (codes "bit_rate") (or_null large_value rate))) }
{
    match rate {
        Some(rate) => put_large(alloc, "bit_rate", rate, sink),
        None => put_null("bit_rate", sink),
    }
}

/// Writes the totals of the samples of a track.
fn put_known_samples(alloc: Global, samples: SampleFacts, sink: &mut JsonSink) -> Result<()>
    ensures { OnOk result (Puts sink.old.out sink.new.out (known_samples samples)) }
{
    put_number("samples", samples.totals.samples, sink)?;
    put_number("key_frames", samples.totals.key_frames, sink)?;
    put_number("bytes", samples.totals.bytes, sink)?;
    put_bit_rate(alloc, samples.bit_rate, sink)?;
    Ok(())
}

/// Writes `null` for each total of samples.
fn put_no_samples(sink: &mut JsonSink) -> Result<()>
    ensures { OnOk result (Puts sink.old.out sink.new.out no_samples) }
{
    put_null("samples", sink)?;
    put_null("key_frames", sink)?;
    put_null("bytes", sink)?;
    put_null("bit_rate", sink)?;
    Ok(())
}

/// Writes the totals of the samples of a track, or `null` for each if its tables can't be read.
fn put_samples(alloc: Global, samples: Option<SampleFacts>, sink: &mut JsonSink) -> Result<()>
    ensures { OnOk result (Puts sink.old.out sink.new.out (sample_members samples)) }
{
    match samples {
        Some(samples) => put_known_samples(alloc, samples, sink),
        None => put_no_samples(sink),
    }
}

/// Writes the members of a frame rate.
fn put_rate(alloc: Global, rate: FrameRate, sink: &mut JsonSink) -> Result<()>
    ensures { OnOk result (Puts sink.old.out sink.new.out (rate_members rate)) }
{
    put_thousandths(alloc, "per_second", rate.thousandths, sink)?;
    put_large(alloc, "frames", rate.frames, sink)?;
    put_number("units", rate.units, sink)?;
    put_flag("constant", rate.is_constant, sink)?;
    Ok(())
}

/// Writes a member with a frame rate.
fn put_known_rate(alloc: Global, rate: FrameRate, sink: &mut JsonSink) -> Result<()>
    ensures { OnOk result (Puts sink.old.out sink.new.out (member (codes "frame_rate") (rate_object rate))) }
{
    sink.out.key("frame_rate")?;
    sink.out.begin_object()?;
    put_rate(alloc, rate, sink)?;
    sink.out.end_object()?;
    Ok(())
}

/// Returns the frame rate of a track with these samples.
fn rate_of(samples: Option<SampleFacts>) -> Option<FrameRate>
    ensures { result ≡ rate_of samples }
{
    match samples {
        Some(samples) => samples.frame_rate,
        None => None,
    }
}

/// Writes the frame rate of a track, or `null` without one.
fn put_rate_if(alloc: Global, samples: Option<SampleFacts>, sink: &mut JsonSink) -> Result<()>
    ensures { OnOk result (Puts sink.old.out sink.new.out
        (member (codes "frame_rate") (or_null rate_object (rate_of samples)))) }
{
    match rate_of(samples) {
        Some(rate) => put_known_rate(alloc, rate, sink),
        None => put_null("frame_rate", sink),
    }
}

/// Writes the size of pictures, or `null` for each number if the entry is too short.
fn put_size(picture: &Picture, sink: &mut JsonSink) -> Result<()>
    ensures { OnOk result (Puts sink.old.out sink.new.out (size_members picture.now.size)) }
{
    match picture.size {
        Some(size) => {
            put_number("width", u64::from(size.width), sink)?;
            put_number("height", u64::from(size.height), sink)
        }
        None => {
            put_null("width", sink)?;
            put_null("height", sink)
        }
    }
}

/// Writes a member with an object of two numbers.
fn put_pair(
    name: &str,
    first_name: &str,
    first: u64,
    second_name: &str,
    second: u64,
    sink: &mut JsonSink,
) -> Result<()>
    ensures { OnOk result (Puts sink.old.out sink.new.out
        (member name.now (pair_object first_name.now first second_name.now second))) }
{
    sink.out.key(name)?;
    sink.out.begin_object()?;
    put_number(first_name, first, sink)?;
    put_number(second_name, second, sink)?;
    sink.out.end_object()?;
    Ok(())
}

/// Writes the shape of pixels.
fn put_known_aspect(aspect: &PaspBox, sink: &mut JsonSink) -> Result<()>
    ensures { OnOk result (Puts sink.old.out sink.new.out (member (codes "pixel_aspect") (aspect_object aspect.now))) }
{
    let across = u64::from(aspect.h_spacing);
    let down = u64::from(aspect.v_spacing);
    put_pair("pixel_aspect", "horizontal", across, "vertical", down, sink)
}

/// Writes the shape of pixels, or `null` if it is not stated.
fn put_aspect(picture: &Picture, sink: &mut JsonSink) -> Result<()>
    ensures { OnOk result (Puts sink.old.out sink.new.out
        (member (codes "pixel_aspect") (or_null aspect_object picture.now.aspect))) }
{
    match &picture.aspect {
        Some(aspect) => put_known_aspect(aspect, sink),
        None => put_null("pixel_aspect", sink),
    }
}

/// Writes the numbers of colours.
fn put_nclx(
    primaries: u64,
    transfer: u64,
    matrix: u64,
    full_range: bool,
    sink: &mut JsonSink,
) -> Result<()>
    ensures { OnOk result (Puts sink.old.out sink.new.out (nclx_members primaries transfer matrix full_range)) }
{
    put_number("primaries", primaries, sink)?;
    put_number("transfer", transfer, sink)?;
    put_number("matrix", matrix, sink)?;
    put_flag("full_range", full_range, sink)?;
    Ok(())
}

/// Writes a member with the numbers of colours.
fn put_nclx_object(
    primaries: u64,
    transfer: u64,
    matrix: u64,
    full_range: bool,
    sink: &mut JsonSink,
) -> Result<()>
    ensures { OnOk result (Puts sink.old.out sink.new.out
        (member (codes "colours") (object (nclx_members primaries transfer matrix full_range)))) }
{
    sink.out.key("colours")?;
    sink.out.begin_object()?;
    put_nclx(primaries, transfer, matrix, full_range, sink)?;
    sink.out.end_object()?;
    Ok(())
}

/// Writes a member with colours.
fn put_known_colours(colours: Nclx, sink: &mut JsonSink) -> Result<()>
    ensures { OnOk result (Puts sink.old.out sink.new.out (member (codes "colours") (colours_object colours))) }
{
    let primaries = u64::from(colours.colour_primaries);
    let transfer = u64::from(colours.transfer_characteristics);
    let matrix = u64::from(colours.matrix_coefficients);
    put_nclx_object(primaries, transfer, matrix, colours.full_range_flag, sink)
}

/// Writes the colours of pictures, or `null` if they are not stated by numbers.
fn put_colours(picture: &Picture, sink: &mut JsonSink) -> Result<()>
    ensures { OnOk result (Puts sink.old.out sink.new.out
        (member (codes "colours") (or_null colours_object (colours_of picture.now.colours)))) }
{
    match colours_of(&picture.colours) {
        Some(colours) => put_known_colours(colours, sink),
        None => put_null("colours", sink),
    }
}

/// Writes the display on which a video was mastered.
fn put_known_mastering(mastering: &MdcvBox, sink: &mut JsonSink) -> Result<()>
    ensures { OnOk result (Puts sink.old.out sink.new.out
        (member (codes "mastering") (mastering_object mastering.now))) }
{
    let most = u64::from(mastering.max_display_mastering_luminance);
    let least = u64::from(mastering.min_display_mastering_luminance);
    put_pair(
        "mastering",
        "max_luminance",
        most,
        "min_luminance",
        least,
        sink,
    )
}

/// Writes the display on which a video was mastered, or `null` if it is not stated.
fn put_mastering(picture: &Picture, sink: &mut JsonSink) -> Result<()>
    ensures { OnOk result (Puts sink.old.out sink.new.out
        (member (codes "mastering") (or_null mastering_object picture.now.mastering))) }
{
    match &picture.mastering {
        Some(mastering) => put_known_mastering(mastering, sink),
        None => put_null("mastering", sink),
    }
}

/// Writes the brightness of the content.
fn put_known_light(light: &ClliBox, sink: &mut JsonSink) -> Result<()>
    ensures { OnOk result (Puts sink.old.out sink.new.out (member (codes "light") (light_object light.now))) }
{
    let most = u64::from(light.max_content_light_level);
    let average = u64::from(light.max_pic_average_light_level);
    put_pair("light", "max_content", most, "max_average", average, sink)
}

/// Writes the brightness of the content, or `null` if it is not stated.
fn put_light(picture: &Picture, sink: &mut JsonSink) -> Result<()>
    ensures { OnOk result (Puts sink.old.out sink.new.out
        (member (codes "light") (or_null light_object picture.now.light))) }
{
    match &picture.light {
        Some(light) => put_known_light(light, sink),
        None => put_null("light", sink),
    }
}

/// Writes the dynamic range of pictures, or `null` if it is not high.
fn put_dynamic_range(picture: &Picture, sink: &mut JsonSink) -> Result<()>
    ensures { OnOk result (Puts sink.old.out sink.new.out
        (member (codes "dynamic_range") (or_null text_value (range_of (colours_of picture.now.colours))))) }
{
    put_text_if("dynamic_range", range_of(&picture.colours), sink)
}

/// Writes the colours of pictures and their dynamic range.
#[tactic(auto, unfolding(crate::specs::TrackJson::range_members))]
fn put_range(picture: &Picture, sink: &mut JsonSink) -> Result<()>
    ensures { OnOk result (Puts sink.old.out sink.new.out (range_members picture.now)) }
{
    put_colours(picture, sink)?;
    put_dynamic_range(picture, sink)?;
    put_mastering(picture, sink)?;
    put_light(picture, sink)?;
    Ok(())
}

/// Writes the degrees by which pictures are turned, or `null` if they are not turned by a multiple of 90 degrees.
fn put_turn(header: &Option<TkhdBox>, sink: &mut JsonSink) -> Result<()>
    ensures { OnOk result (Puts sink.old.out sink.new.out
        (member (codes "rotation") (or_null number_value (turn header.now)))) }
{
    match turn(header) {
        Some(degrees) => put_number("rotation", u64::from(degrees), sink),
        None => put_null("rotation", sink),
    }
}

/// Writes the pictures of a track.
#[tactic(auto, unfolding(crate::specs::TrackJson::picture_members))]
fn put_picture(
    alloc: Global,
    facts: &TrackFacts,
    picture: &Picture,
    sink: &mut JsonSink,
) -> Result<()>
    ensures { OnOk result (Puts sink.old.out sink.new.out
        (picture_members facts.now.headers.track facts.now.samples picture.now)) }
{
    put_size(picture, sink)?;
    put_turn(&facts.headers.track, sink)?;
    put_aspect(picture, sink)?;
    put_rate_if(alloc, facts.samples, sink)?;
    put_range(picture, sink)?;
    Ok(())
}

/// Writes the channels of sound, or `null` if they are not known.
fn put_channels(alloc: Global, sound: Sound, sink: &mut JsonSink) -> Result<()>
    ensures { OnOk result (Puts sink.old.out sink.new.out
        (member (codes "channels") (or_null channels_object sound.channels))) }
{
    let Some(channels) = sound.channels else {
        return put_null("channels", sink);
    };
    let mut name = String::new(alloc);
    push_channels(channels, &mut name)?;
    sink.out.key("channels")?;
    sink.out.begin_object()?;
    put_text("layout", name.as_str(), sink)?;
    put_number("full", u64::from(channels.full), sink)?;
    put_number("low", u64::from(channels.low), sink)?;
    sink.out.end_object()?;
    Ok(())
}

/// Writes the sound of a track.
fn put_sound(alloc: Global, sound: Sound, sink: &mut JsonSink) -> Result<()>
    ensures { OnOk result (Puts sink.old.out sink.new.out (sound_members sound)) }
{
    put_number_if("sample_rate", sound.sample_rate, sink)?;
    put_channels(alloc, sound, sink)
}

/// Writes sound, if an entry has some.
fn put_sound_if(alloc: Global, sound: Option<Sound>, sink: &mut JsonSink) -> Result<()>
    ensures { OnOk result (Puts sink.old.out sink.new.out (sound_if sound)) }
{
    match sound {
        Some(sound) => put_sound(alloc, sound, sink),
        None => Ok(()),
    }
}

/// Writes the pictures of an entry, or else its sound.
fn put_entry_media(
    alloc: Global,
    facts: &TrackFacts,
    entry: &Entry,
    sink: &mut JsonSink,
) -> Result<()>
    ensures { OnOk result (Puts sink.old.out sink.new.out
        (media_in facts.now.headers.track facts.now.samples entry.now.picture entry.now.sound)) }
{
    match &entry.picture {
        Some(picture) => put_picture(alloc, facts, picture, sink),
        None => put_sound_if(alloc, entry.sound, sink),
    }
}

/// Writes the pictures or the sound of a track.
fn put_media(alloc: Global, facts: &TrackFacts, sink: &mut JsonSink) -> Result<()>
    ensures { OnOk result (Puts sink.old.out sink.new.out (media_members facts.now facts.now.entry)) }
{
    match &facts.entry {
        Some(entry) => put_entry_media(alloc, facts, entry, sink),
        None => Ok(()),
    }
}

/// Writes track_IDs.
fn put_ids(ids: &[u32], sink: &mut JsonSink) -> Result<()>
    ensures { OnOk result (Puts sink.old.out sink.new.out (flat_map number_value ids.now)) }
{
    for index in 0..ids.len() {
        sink.out.u64(u64::from(ids[index]))?;
    }
    Ok(())
}

/// Writes the track_IDs of a reference.
fn put_track_ids(reference: &TrackReference, sink: &mut JsonSink) -> Result<()>
    ensures { OnOk result (Puts sink.old.out sink.new.out
        (member (codes "track_ids") (array (flat_map number_value reference.now.track_ids)))) }
{
    sink.out.key("track_ids")?;
    sink.out.begin_array()?;
    put_ids(reference.track_ids.as_slice(), sink)?;
    sink.out.end_array()?;
    Ok(())
}

/// Writes the references of one type to other tracks.
fn put_reference(reference: &TrackReference, sink: &mut JsonSink) -> Result<()>
    ensures { OnOk result (Puts sink.old.out sink.new.out (reference_value reference.now)) }
{
    sink.out.begin_object()?;
    put_code("type", reference.reference_type, sink)?;
    put_track_ids(reference, sink)?;
    sink.out.end_object()?;
    Ok(())
}

/// Writes references, one after the other.
fn put_each(references: &[TrackReference], sink: &mut JsonSink) -> Result<()>
    ensures { OnOk result (Puts sink.old.out sink.new.out (flat_map reference_value references.now)) }
{
    for index in 0..references.len() {
        put_reference(&references[index], sink)?;
    }
    Ok(())
}

/// Writes the references of a track, one after the other.
fn put_reference_items(references: &Option<TrefBox>, sink: &mut JsonSink) -> Result<()>
    ensures { OnOk result (Puts sink.old.out sink.new.out (reference_items references.now)) }
{
    match references {
        Some(references) => put_each(references.references.as_slice(), sink),
        None => Ok(()),
    }
}

/// Writes the references of a track to other tracks.
fn put_references(headers: &Headers, sink: &mut JsonSink) -> Result<()>
    ensures { OnOk result (Puts sink.old.out sink.new.out
        (member (codes "references") (array (reference_items headers.now.references)))) }
{
    sink.out.key("references")?;
    sink.out.begin_array()?;
    put_reference_items(&headers.references, sink)?;
    sink.out.end_array()?;
    Ok(())
}

/// Writes the members of a track.
#[tactic(auto, unfolding(crate::specs::TrackJson::track_members))]
fn put_members(
    alloc: Global,
    tracks: &[TrackFacts],
    facts: &TrackFacts,
    sink: &mut JsonSink,
) -> Result<()>
    ensures { OnOk result (Puts sink.old.out sink.new.out (track_members tracks.now facts.now)) }
{
    put_headers(tracks, facts, sink)?;
    put_entry(alloc, &facts.entry, sink)?;
    put_durations(alloc, facts, sink)?;
    put_samples(alloc, facts.samples, sink)?;
    put_language(alloc, &facts.headers, sink)?;
    put_media(alloc, facts, sink)?;
    put_references(&facts.headers, sink)?;
    Ok(())
}

/// Writes the object of a track.
fn put_track(
    alloc: Global,
    tracks: &[TrackFacts],
    facts: &TrackFacts,
    sink: &mut JsonSink,
) -> Result<()>
    ensures { OnOk result (Puts sink.old.out sink.new.out (track_value tracks.now facts.now)) }
{
    sink.out.begin_object()?;
    put_members(alloc, tracks, facts, sink)?;
    sink.out.end_object()?;
    Ok(())
}

/// Writes the tracks of a file, one after the other.
fn put_tracks(alloc: Global, tracks: &[TrackFacts], sink: &mut JsonSink) -> Result<()>
    ensures { OnOk result (Puts sink.old.out sink.new.out (flat_map (track_value tracks.now) tracks.now)) }
{
    for index in 0..tracks.len() {
        put_track(alloc, tracks, &tracks[index], sink)?;
    }
    Ok(())
}

/// Writes the tracks of a file.
fn put_track_list(alloc: Global, tracks: &[TrackFacts], sink: &mut JsonSink) -> Result<()>
    ensures { OnOk result (Puts sink.old.out sink.new.out
        (member (codes "tracks") (array (flat_map (track_value tracks.now) tracks.now)))) }
{
    sink.out.key("tracks")?;
    sink.out.begin_array()?;
    put_tracks(alloc, tracks, sink)?;
    sink.out.end_array()?;
    Ok(())
}

/// Writes the name and the value of a tag.
fn put_value(alloc: Global, tag: &Tag, sink: &mut JsonSink) -> Result<()>
    ensures { OnOk result (Puts sink.old.out sink.new.out
        (member (codes "text") (or_null lossy_value (text_of tag.now.value)))) }
{
    match text_of(tag) {
        Some(text) => {
            let text = String::from_utf8_lossy(alloc, text)?;
            put_text("text", text.as_str(), sink)
        }
        None => put_null("text", sink),
    }
}

/// Returns the name of items with a code for people, if it is known.
fn name_by(code: Option<FourCC>) -> Option<&'static str> {
    match code {
        Some(code) => name_of(code),
        None => None,
    }
}

/// Writes the members of a tag with this name.
fn put_tag_members(alloc: Global, name: Option<&str>, tag: &Tag, sink: &mut JsonSink) -> Result<()>
    ensures { OnOk result (Puts sink.old.out sink.new.out
        (tag_members (option_map (λ name. name.now) name.entry) tag.now)) }
{
    put_code_if("code", tag.code, sink)?;
    put_text_if("name", name, sink)?;
    put_value(alloc, tag, sink)?;
    Ok(())
}

/// Writes the object of a tag with this name.
#[tactic(auto, unfolding(crate::specs::FileJson::tag_value))]
fn put_tag(alloc: Global, name: Option<&str>, tag: &Tag, sink: &mut JsonSink) -> Result<()>
    ensures { OnOk result (Puts sink.old.out sink.new.out
        (tag_value (option_map (λ name. name.now) name.entry) tag.now)) }
{
    sink.out.begin_object()?;
    put_tag_members(alloc, name, tag, sink)?;
    sink.out.end_object()?;
    Ok(())
}

/// Writes tags, one after the other.
fn put_tags(alloc: Global, tags: &[Tag], sink: &mut JsonSink) -> Result<()>
    ensures { OnOk result (PutsTags sink.old.out sink.new.out tags.now) }
{
    for index in 0..tags.len() {
        let tag = &tags[index];
        put_tag(alloc, name_by(tag.code), tag, sink)?;
    }
    Ok(())
}

/// Writes the tags of a file.
fn put_tag_list(alloc: Global, tags: &[Tag], sink: &mut JsonSink) -> Result<()>
    ensures { OnOk result (PutsTagList sink.old.out sink.new.out tags.now) }
{
    sink.out.key("tags")?;
    sink.out.begin_array()?;
    put_tags(alloc, tags, sink)?;
    sink.out.end_array()?;
    Ok(())
}

/// Writes the longest duration of the tracks of a file.
fn put_seconds(alloc: Global, facts: &FileFacts, sink: &mut JsonSink) -> Result<()>
    ensures { OnOk result (Puts sink.old.out sink.new.out
        (member (codes "seconds") (thousandths_value (longest facts.now.tracks.items)))) }
{
    put_thousandths(alloc, "seconds", longest(&facts.tracks), sink)
}

/// Writes the members of a file before its segments.
#[tactic(auto, unfolding(crate::specs::FileJson::head_members))]
fn put_head(alloc: Global, name: &str, facts: &FileFacts, sink: &mut JsonSink) -> Result<()>
    ensures { OnOk result (Puts sink.old.out sink.new.out (head_members name.now facts.now)) }
{
    put_text("file", name, sink)?;
    put_number("size", facts.length, sink)?;
    put_brands(&facts.brands, sink)?;
    put_flag("fragmented", facts.is_fragmented, sink)?;
    put_order(facts.movie_is_first, sink)?;
    put_seconds(alloc, facts, sink)?;
    put_stated(alloc, &facts.movie, sink)?;
    Ok(())
}

/// Writes the members of a file.
fn put_file(alloc: Global, name: &str, facts: &FileFacts, sink: &mut JsonSink) -> Result<()>
    ensures { OnOk result (PutsFile sink.old.out sink.new.out name.now facts.now) }
{
    put_head(alloc, name, facts, sink)?;
    put_segments(alloc, facts, sink)?;
    put_tag_list(alloc, &facts.tags, sink)?;
    put_track_list(alloc, &facts.tracks, sink)?;
    Ok(())
}

/// Returns the JSON object about a file with this name.
pub fn info_json(alloc: Global, name: &str, facts: &FileFacts) -> Result<Vec<u8>>
    ensures { IfOk result (λ text. IsFileJson name.now facts.now text.items) }
{
    let mut sink = JsonSink::new(alloc);
    sink.out.begin_object()?;
    put_file(alloc, name, facts, &mut sink)?;
    sink.out.end_object()?;
    json_text(alloc, sink)
}
