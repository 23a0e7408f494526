//! Turns a track of `mp4_info` into one for C.

ghost use Rattle.std.specs.Prelude.{◌≡◌, ◌+◌, ◌-◌, ◌^◌, ◌≤◌, ◌++◌, length, min, take};
ghost use Rattle.mp4_c.specs.TrackInfos.{channels_of, code_or_zero, codec_text, entry_code, frames_of, h_spacing};
ghost use Rattle.mp4_c.specs.TrackInfos.{handler_of, has_constant_rate, has_picture, has_sound, height_of, kid_of};
ghost use Rattle.mp4_c.specs.TrackInfos.{kind_text};
ghost use Rattle.mp4_c.specs.TrackInfos.{low_channels_of, number_or_zero, picture_of, picture_with, protection_of};
ghost use Rattle.mp4_c.specs.TrackInfos.{protection_with, sample_rate_of, samples_of, saturated, scale_of, sound_of};
ghost use Rattle.mp4_c.specs.TrackInfos.{sound_with, ticks_of, track_info, track_text, turn_of, units_of, v_spacing};
ghost use Rattle.mp4_c.specs.TrackInfos.{width_of};
ghost use Rattle.mp4_info.specs.Entries.{is_encrypted};

use crate::text_part::{TextPart, part_at};
use mp4_extra_pictures::pasp::PaspBox;
use mp4_frame::codes::{ENCA, ENCV};
use mp4_frame::{FourCC, put_bytes};
use mp4_info::{
    Channels, Duration, Entry, FrameRate, Picture, SampleFacts, Size, Sound, TrackFacts, id_of,
    kind_of, language, timescale_of, turn,
};
use mp4_text::HdlrBox;

/// The samples of a track. The largest number stands for all larger ones.
#[repr(C)]
#[derive(Clone, Copy)]
pub struct TrackSamples {
    /// The number of samples.
    pub sample_count: u64,
    /// The number of key frames.
    pub key_frames: u64,
    /// The number of bytes of all samples.
    pub bytes: u64,
    /// The time at which the last sample ends, in the timescale of the media.
    pub end: u64,
    /// The bits of a second, on average; 0 if the samples last for no time.
    pub bit_rate: u64,
    /// The number of frames in `frame_units` units of the timescale of the media; 0 without a frame rate.
    pub frames: u64,
    /// The units of time of `frames` frames; 0 without a frame rate.
    pub frame_units: u64,
    /// 1 if all distances between frames are equal; 0 if the rate is an average.
    pub is_constant: u8,
}

/// The pictures of a track.
#[repr(C)]
#[derive(Clone, Copy)]
pub struct TrackPicture {
    /// The width in pixels; 0 if the sample entry is too short.
    pub width: u16,
    /// The height in pixels; 0 if the sample entry is too short.
    pub height: u16,
    /// The relative width of a pixel; 0 if its shape is not stated.
    pub h_spacing: u32,
    /// The relative height of a pixel; 0 if its shape is not stated.
    pub v_spacing: u32,
    /// The degrees by which a player turns the pictures clockwise: 0, 90, 180 or 270.
    pub rotation: u16,
    /// 1 if the matrix of the track is a turn by `rotation`; 0 if it does something else, or is not known.
    pub has_rotation: u8,
}

/// The sound of a track.
#[repr(C)]
#[derive(Clone, Copy)]
pub struct TrackSound {
    /// The sample rate in whole hertz; 0 if it is not known.
    pub sample_rate: u64,
    /// The number of channels of the full range; 0 if it is not known.
    pub channels: u32,
    /// The number of channels of low frequencies.
    pub low_channels: u32,
}

/// The encryption of a track.
#[repr(C)]
#[derive(Clone, Copy)]
pub struct TrackProtection {
    /// The code of the sample entry before it was encrypted; that of the entry if it is clear, or if this is not known.
    pub original: u32,
    /// The scheme, such as `cenc`; 0 if it is not known.
    pub scheme: u32,
    /// The default KID; zeros if it is not known.
    pub kid: [u8; 16],
    /// 1 if the sample entry is encrypted, else 0.
    pub is_encrypted: u8,
    /// 1 if `kid` is known, else 0.
    pub has_kid: u8,
}

/// A track. A number that is not known is 0.
#[repr(C)]
#[derive(Clone, Copy)]
pub struct TrackInfo {
    /// The kind of media as a word, in the text; empty if there is no word for the handler.
    pub kind: TextPart,
    /// The codec (RFC 6381), in the text; empty without a sample entry.
    pub codec: TextPart,
    /// The language, in the text; empty if it is not known.
    pub language: TextPart,
    /// The samples.
    pub samples: TrackSamples,
    /// The number of ticks of the duration; the largest number stands for all larger ones.
    pub duration: u64,
    /// The number of ticks in a second; 0 if the duration is not known.
    pub duration_scale: u64,
    /// The sound.
    pub sound: TrackSound,
    /// The pictures.
    pub picture: TrackPicture,
    /// The track_ID.
    pub track_id: u32,
    /// The handler of the media.
    pub handler: u32,
    /// The timescale of the media.
    pub timescale: u32,
    /// The code of the first sample entry.
    pub entry: u32,
    /// The encryption.
    pub protection: TrackProtection,
    /// 1 if the samples are known, else 0.
    pub has_samples: u8,
    /// 1 if the track has pictures and a sample entry, else 0.
    pub has_picture: u8,
    /// 1 if the track has sound and a sample entry, else 0.
    pub has_sound: u8,
}

/// Returns `number`, or the largest number of 64 bits if it is larger.
pub(crate) fn saturated(number: u128) -> u64
    ensures { result ≡ saturated number }
{
    if number < 0x1_0000_0000_0000_0000 {
        number as u64
    } else {
        u64::MAX
    }
}

/// Returns the number of ticks of a duration, or 0 if it is not known.
fn ticks_of(duration: Option<Duration>) -> u64
    ensures { result ≡ ticks_of duration }
{
    match duration {
        Some(duration) => saturated(duration.ticks),
        None => 0,
    }
}

/// Returns the number of ticks in a second, or 0 if a duration is not known.
fn scale_of(duration: Option<Duration>) -> u64
    ensures { result ≡ scale_of duration }
{
    match duration {
        Some(duration) => duration.ticks_per_second,
        None => 0,
    }
}

/// Returns `number`, or 0 if it is not known.
fn number_or_zero(number: Option<u128>) -> u64
    ensures { result ≡ number_or_zero number }
{
    match number {
        Some(number) => saturated(number),
        None => 0,
    }
}

/// Returns the number of frames of a rate, or 0 without one.
fn frames_of(rate: Option<FrameRate>) -> u64
    ensures { result ≡ frames_of rate }
{
    match rate {
        Some(rate) => saturated(rate.frames),
        None => 0,
    }
}

/// Returns the units of time of a rate, or 0 without one.
fn units_of(rate: Option<FrameRate>) -> u64
    ensures { result ≡ units_of rate }
{
    match rate {
        Some(rate) => rate.units,
        None => 0,
    }
}

/// Returns whether a rate is constant.
fn has_constant_rate(rate: Option<FrameRate>) -> bool
    ensures { result ≡ has_constant_rate rate }
{
    match rate {
        Some(rate) => rate.is_constant,
        None => false,
    }
}

/// Returns the samples of a track for C.
fn samples_of(samples: Option<SampleFacts>) -> TrackSamples
    ensures { result ≡ samples_of samples }
{
    match samples {
        Some(samples) => TrackSamples {
            sample_count: samples.totals.samples,
            key_frames: samples.totals.key_frames,
            bytes: samples.totals.bytes,
            end: samples.totals.end,
            bit_rate: number_or_zero(samples.bit_rate),
            frames: frames_of(samples.frame_rate),
            frame_units: units_of(samples.frame_rate),
            is_constant: u8::from(has_constant_rate(samples.frame_rate)),
        },
        None => TrackSamples {
            sample_count: 0,
            key_frames: 0,
            bytes: 0,
            end: 0,
            bit_rate: 0,
            frames: 0,
            frame_units: 0,
            is_constant: 0,
        },
    }
}

/// Returns the width of pictures, or 0 if it is not known.
fn width_of(size: Option<Size>) -> u16
    ensures { result ≡ width_of size }
{
    match size {
        Some(size) => size.width,
        None => 0,
    }
}

/// Returns the height of pictures, or 0 if it is not known.
fn height_of(size: Option<Size>) -> u16
    ensures { result ≡ height_of size }
{
    match size {
        Some(size) => size.height,
        None => 0,
    }
}

/// Returns the relative width of a pixel, or 0 if its shape is not stated.
fn h_spacing(aspect: &Option<PaspBox>) -> u32
    ensures { result ≡ h_spacing aspect.now }
{
    match aspect {
        Some(aspect) => aspect.h_spacing,
        None => 0,
    }
}

/// Returns the relative height of a pixel, or 0 if its shape is not stated.
fn v_spacing(aspect: &Option<PaspBox>) -> u32
    ensures { result ≡ v_spacing aspect.now }
{
    match aspect {
        Some(aspect) => aspect.v_spacing,
        None => 0,
    }
}

/// Returns the degrees of a turn, or 0 if it is not known.
fn turn_of(turn: Option<u16>) -> u16
    ensures { result ≡ turn_of turn }
{
    match turn {
        Some(turn) => turn,
        None => 0,
    }
}

/// Returns `picture` of a track with the turn `turn` for C.
fn picture_with(picture: &Picture, turn: Option<u16>) -> TrackPicture
    ensures { result ≡ picture_with picture.now turn }
{
    TrackPicture {
        width: width_of(picture.size),
        height: height_of(picture.size),
        h_spacing: h_spacing(&picture.aspect),
        v_spacing: v_spacing(&picture.aspect),
        rotation: turn_of(turn),
        has_rotation: u8::from(turn.is_some()),
    }
}

/// Returns the pictures of a track with the sample entry `entry` and the turn `turn` for C: zeros without pictures.
fn picture_of(entry: &Option<Entry>, turn: Option<u16>) -> TrackPicture
    ensures { result ≡ picture_of entry.now turn }
{
    if let Some(entry) = entry
        && let Some(picture) = &entry.picture
    {
        return picture_with(picture, turn);
    }
    TrackPicture {
        width: 0,
        height: 0,
        h_spacing: 0,
        v_spacing: 0,
        rotation: 0,
        has_rotation: 0,
    }
}

/// Returns whether a track with the sample entry `entry` has pictures.
fn has_picture(entry: &Option<Entry>) -> bool
    ensures { result ≡ has_picture entry.now }
{
    match entry {
        Some(entry) => entry.picture.is_some(),
        None => false,
    }
}

/// Returns the whole hertz of the sample rate of `sound`, or 0 if they are not known.
fn sample_rate_of(sound: Sound) -> u64
    ensures { result ≡ sample_rate_of sound }
{
    match sound.sample_rate {
        Some(rate) => rate,
        None => 0,
    }
}

/// Returns the number of channels of the full range, or 0 if it is not known.
fn channels_of(channels: Option<Channels>) -> u32
    ensures { result ≡ channels_of channels }
{
    match channels {
        Some(channels) => channels.full,
        None => 0,
    }
}

/// Returns the number of channels of low frequencies, or 0 if it is not known.
fn low_channels_of(channels: Option<Channels>) -> u32
    ensures { result ≡ low_channels_of channels }
{
    match channels {
        Some(channels) => u32::from(channels.low),
        None => 0,
    }
}

/// Returns `sound` for C.
fn sound_with(sound: Sound) -> TrackSound
    ensures { result ≡ sound_with sound }
{
    TrackSound {
        sample_rate: sample_rate_of(sound),
        channels: channels_of(sound.channels),
        low_channels: low_channels_of(sound.channels),
    }
}

/// Returns the sound of a track with the sample entry `entry` for C: zeros without sound.
fn sound_of(entry: &Option<Entry>) -> TrackSound
    ensures { result ≡ sound_of entry.now }
{
    if let Some(entry) = entry
        && let Some(sound) = entry.sound
    {
        return sound_with(sound);
    }
    TrackSound {
        sample_rate: 0,
        channels: 0,
        low_channels: 0,
    }
}

/// Returns whether a track with the sample entry `entry` has sound.
fn has_sound(entry: &Option<Entry>) -> bool
    ensures { result ≡ has_sound entry.now }
{
    match entry {
        Some(entry) => entry.sound.is_some(),
        None => false,
    }
}

/// Returns `code`, or 0 if it is not known.
fn code_or_zero(code: Option<FourCC>) -> u32
    ensures { result ≡ code_or_zero code }
{
    match code {
        Some(code) => u32::from(code),
        None => 0,
    }
}

/// Returns the default KID, or zeros if it is not known.
fn kid_of(key: Option<[u8; 16]>) -> [u8; 16]
    ensures { result ≡ kid_of key }
{
    match key {
        Some(key) => key,
        None => [0; 16],
    }
}

/// Returns whether a sample entry with this code is encrypted.
fn is_encrypted(code: FourCC) -> bool
    ensures { result ≡ is_encrypted code }
{
    matches!(u32::from(code), ENCV | ENCA)
}

/// Returns the encryption of `entry` for C.
fn protection_with(entry: &Entry) -> TrackProtection
    ensures { result ≡ protection_with entry.now }
{
    let protection = entry.protection;
    TrackProtection {
        original: u32::from(protection.original),
        scheme: code_or_zero(protection.scheme),
        kid: kid_of(protection.key),
        is_encrypted: u8::from(is_encrypted(entry.code)),
        has_kid: u8::from(protection.key.is_some()),
    }
}

/// Returns the encryption of a track with the sample entry `entry` for C: zeros without an entry.
fn protection_of(entry: &Option<Entry>) -> TrackProtection
    ensures { result ≡ protection_of entry.now }
{
    match entry {
        Some(entry) => protection_with(entry),
        None => TrackProtection {
            original: 0,
            scheme: 0,
            kid: [0; 16],
            is_encrypted: 0,
            has_kid: 0,
        },
    }
}

/// Returns the code of a sample entry, or 0 without one.
fn entry_code(entry: &Option<Entry>) -> u32
    ensures { result ≡ entry_code entry.now }
{
    match entry {
        Some(entry) => u32::from(entry.code),
        None => 0,
    }
}

/// Returns the handler of media, or 0 if it is not known.
fn handler_of(handler: &Option<HdlrBox>) -> u32
    ensures { result ≡ handler_of handler.now }
{
    match handler {
        Some(handler) => u32::from(handler.handler_type),
        None => 0,
    }
}

/// Returns the word for media with the handler `handler`, or nothing if there is none.
fn kind_text(handler: &Option<HdlrBox>) -> &'static str
    ensures { result.now ≡ kind_text handler.now }
{
    kind_of(handler_of(handler))
}

/// Returns the codec of a sample entry, or nothing without one.
fn codec_text(entry: &Option<Entry>) -> &str
    ensures { result.now ≡ codec_text entry.now }
{
    match entry {
        Some(entry) => entry.codec.as_str(),
        None => "",
    }
}

/// Returns the number of bytes of the texts of a track, or 2^64 - 1 if there are more.
pub(crate) fn text_size(facts: &TrackFacts) -> usize
    ensures { result ≡ min (length (track_text facts.now)) (2 ^ 64 - 1) }
{
    kind_text(&facts.headers.handler)
        .len()
        .saturating_add(codec_text(&facts.entry).len())
        .saturating_add(language(&facts.headers).len())
}

/// Writes the texts of a track to `text`, starting at `at`. Returns the position after them.
pub(crate) fn put_text(text: &mut [u8], at: usize, facts: &TrackFacts) -> usize
    requires { at + length (track_text facts.now) ≤ length text.old }
    ensures next { result ≡ at + length (track_text facts.now) }
    ensures put { take result text.new ≡ take at text.old ++ track_text facts.now }
{
    let kind_end = put_bytes(text, at, kind_text(&facts.headers.handler).as_bytes());
    let codec_end = put_bytes(text, kind_end, codec_text(&facts.entry).as_bytes());
    put_bytes(text, codec_end, language(&facts.headers))
}

/// Returns a track for C, whose texts begin at `at`.
pub(crate) fn track_info(at: usize, facts: &TrackFacts) -> TrackInfo
    requires { at + length (track_text facts.now) ≤ 2 ^ 64 - 1 }
    ensures { result ≡ track_info at facts.now }
{
    let headers = &facts.headers;
    let kind = part_at(at, kind_text(&headers.handler).as_bytes());
    let codec = part_at(at + kind.length, codec_text(&facts.entry).as_bytes());
    TrackInfo {
        kind,
        codec,
        language: part_at(at + kind.length + codec.length, language(headers)),
        samples: samples_of(facts.samples),
        duration: ticks_of(facts.duration),
        duration_scale: scale_of(facts.duration),
        sound: sound_of(&facts.entry),
        picture: picture_of(&facts.entry, turn(&headers.track)),
        track_id: id_of(&headers.track),
        handler: handler_of(&headers.handler),
        timescale: timescale_of(&headers.media),
        entry: entry_code(&facts.entry),
        protection: protection_of(&facts.entry),
        has_samples: u8::from(facts.samples.is_some()),
        has_picture: u8::from(has_picture(&facts.entry)),
        has_sound: u8::from(has_sound(&facts.entry)),
    }
}
