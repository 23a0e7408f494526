//! The codec of a sample entry as a string, by the boxes in the entry.

ghost use Rattle.std.specs.Prelude.{◌≡◌, IfOk, IfSome, string_bytes};
ghost use Rattle.mp4_frame.specs.FourCC.{four_cc_of};
ghost use Rattle.mp4_frame.specs.declared.codes.TheConstants as names;
ghost use Rattle.mp4_info.specs.Avc.{avc_string};
ghost use Rattle.mp4_info.specs.Codecs.{audio_in, audio_text, av1_in, av1_text, avc_in, by_config, codec_in};
ghost use Rattle.mp4_info.specs.Codecs.{colours_of, dolby_in, dolby_text, family_of, hevc_in, hevc_text, in_entry};
ghost use Rattle.mp4_info.specs.Codecs.{Readings, sound_config, video_at, video_in, video_text, vp_in};
ghost use Rattle.mp4_info.specs.Vp.{vp_string};
ghost use Rattle.mp4_show.specs.Texts.{code_shown};

use crate::av1::push_av1;
use crate::avc::push_avc;
use crate::dolby::push_dolby;
use crate::found::{found, readable};
use crate::hevc::push_hevc;
use crate::mpeg4::{push_mpeg4_audio, push_mpeg4_video};
use crate::vp::push_vp;
use mp4_declared::OfType;
use mp4_entries::{AvcCBox, VpccBox};
use mp4_extra_pictures::av1c::Av1cBox;
use mp4_extra_pictures::colr::{ColrBox, Nclx};
use mp4_extra_pictures::dvcc::DvccBox;
use mp4_extra_pictures::dvvc::DvvcBox;
use mp4_extra_pictures::hvcc::HvccBox;
use mp4_frame::codes::{
    AV01, AVC1, AVC2, AVC3, AVC4, DVA1, DVAV, DVH1, DVHE, HEV1, HVC1, MP4A, MP4V, VP08, VP09,
};
use mp4_frame::{FourCC, ReadBox, codes};
use mp4_io::{Failure, or_read};
use mp4_movie::{first_in, inside, read_at};
use mp4_show::push_code;
use mp4_sound::EsdsBox;
use mp4_walk::{BoxWalk, Source, TreeBox};
use std::alloc::{AllocError, Global};

/// The depth of the boxes in a sample entry, which is inside `moov`, `trak`, `mdia`, `minf`, `stbl` and `stsd`.
pub const DEPTH: u64 = 7;

/// The codecs whose strings are made in one way.
#[derive(Clone, Copy, Debug, PartialEq, Eq)]
enum Family {
    /// AVC, by its `avcC`.
    Avc,
    /// HEVC, by its `hvcC`.
    Hevc,
    /// AV1, by its `av1C` and its `colr`.
    Av1,
    /// VP8 and VP9, by their `vpcC`.
    Vp,
    /// MPEG-4 audio, by its `esds`.
    Audio,
    /// MPEG-4 video, by its `esds`.
    Video,
    /// Dolby Vision, by its `dvcC` or `dvvC`.
    Dolby,
    /// Others, by their code only.
    Other,
}

/// For the prover: the readings of the declared boxes in sample entries.
pub trait ReadsEntries {
    ghost readings: { Readings };
}

/// The declared boxes in sample entries.
#[derive(Clone, Copy, Debug)]
pub struct EntryBoxes;

impl ReadsEntries for EntryBoxes {
    ghost readings = { record {
      hvcc = ⟦<HvccBox as ReadBox>⟧.reads;
      av1c = ⟦<Av1cBox as ReadBox>⟧.reads;
      colr = ⟦<ColrBox as ReadBox>⟧.reads;
      dvcc = ⟦<DvccBox as ReadBox>⟧.reads;
      dvvc = ⟦<DvvcBox as ReadBox>⟧.reads;
    } };
}

/// Returns the family of a code.
fn family_of(code: u32) -> Family
    ensures { result ≡ family_of code }
{
    match code {
        AVC1 | AVC2 | AVC3 | AVC4 => Family::Avc,
        HVC1 | HEV1 => Family::Hevc,
        AV01 => Family::Av1,
        VP08 | VP09 => Family::Vp,
        MP4A => Family::Audio,
        MP4V => Family::Video,
        DVH1 | DVHE | DVA1 | DVAV => Family::Dolby,
        _ => Family::Other,
    }
}

/// Returns the value of the first box with `code` in a sample entry, as far as it can be read. `entry` begins with the
/// boxes inside the entry.
pub fn in_entry<B: ReadBox + Drop, S: Source>(
    alloc: Global,
    walk: &mut BoxWalk<S>,
    entry: &[TreeBox],
    code: u32,
) -> Result<Option<B>, Failure>
    ensures value { IfSome walk.old.bytes (λ file. IfOk result (λ r. r ≡ in_entry B.reads code file entry.now)) }
    ensures kept { walk.new ≡ walk.old }
{
    found::<B, S>(alloc, walk, entry, DEPTH, code)
}

/// Returns `code` as text: its four characters if all can be printed, or else its hexadecimal digits.
fn plain_text(alloc: Global, code: FourCC) -> Result<String, AllocError>
    ensures { IfOk result (λ text. string_bytes text ≡ code_shown code.value) }
{
    let mut text = String::new(alloc);
    push_code(code, &mut text)?;
    Ok(text)
}

/// Returns the string of AVC video with this configuration.
fn avc_text(alloc: Global, code: FourCC, config: Option<AvcCBox>) -> Result<String, AllocError>
    ensures { IfOk result (λ text. string_bytes text ≡ by_config code (avc_string code) config) }
{
    let Some(config) = config else {
        return plain_text(alloc, code);
    };
    let mut text = String::new(alloc);
    push_avc(alloc, code, &config, &mut text)?;
    Ok(text)
}

/// Returns the string of an entry of AVC video.
fn avc_in<S: Source>(
    alloc: Global,
    walk: &mut BoxWalk<S>,
    code: FourCC,
    entry: &[TreeBox],
) -> Result<String, Failure>
    ensures value { IfSome walk.old.bytes
        (λ file. IfOk result (λ text. string_bytes text ≡ avc_in file code entry.now)) }
    ensures kept { walk.new ≡ walk.old }
{
    let config = in_entry::<AvcCBox, S>(alloc, walk, entry, codes::AVCC)?;
    Ok(avc_text(alloc, code, config)?)
}

/// Returns the string of HEVC video with this configuration.
fn hevc_text(alloc: Global, code: FourCC, config: Option<HvccBox>) -> Result<String, AllocError>
    ensures { IfOk result (λ text. string_bytes text ≡ hevc_text code config) }
{
    let Some(config) = config else {
        return plain_text(alloc, code);
    };
    let mut text = String::new(alloc);
    push_hevc(code, config.profile, &mut text)?;
    Ok(text)
}

/// Returns the string of an entry of HEVC video.
fn hevc_in<S: Source>(
    alloc: Global,
    walk: &mut BoxWalk<S>,
    code: FourCC,
    entry: &[TreeBox],
) -> Result<String, Failure>
    ensures value { IfSome walk.old.bytes
        (λ file. IfOk result (λ text. string_bytes text
        ≡ hevc_in ⟦<EntryBoxes as ReadsEntries>⟧.readings file code entry.now)) }
    ensures kept { walk.new ≡ walk.old }
{
    let config = in_entry::<HvccBox, S>(alloc, walk, entry, codes::HVCC)?;
    Ok(hevc_text(alloc, code, config)?)
}

/// Returns the numbers of a `colr`, if it has some.
pub fn colours_of(colr: &Option<ColrBox>) -> Option<Nclx>
    ensures { result ≡ colours_of colr.now }
{
    match colr {
        None => None,
        Some(colr) => match &colr.colour {
            OfType::Own(colours) => Some(*colours),
            OfType::Other(..) => None,
        },
    }
}

/// Returns the string of AV1 video with this configuration and these colours.
fn av1_text(
    alloc: Global,
    code: FourCC,
    config: Option<Av1cBox>,
    colr: Option<ColrBox>,
) -> Result<String, AllocError>
    ensures { IfOk result (λ text. string_bytes text ≡ av1_text code config colr) }
{
    let Some(config) = config else {
        return plain_text(alloc, code);
    };
    let mut text = String::new(alloc);
    push_av1(code, config.config, colours_of(&colr), &mut text)?;
    Ok(text)
}

/// Returns the string of an entry of AV1 video.
fn av1_in<S: Source>(
    alloc: Global,
    walk: &mut BoxWalk<S>,
    code: FourCC,
    entry: &[TreeBox],
) -> Result<String, Failure>
    ensures value { IfSome walk.old.bytes
        (λ file. IfOk result (λ text. string_bytes text
        ≡ av1_in ⟦<EntryBoxes as ReadsEntries>⟧.readings file code entry.now)) }
    ensures kept { walk.new ≡ walk.old }
{
    let config = in_entry::<Av1cBox, S>(alloc, walk, entry, codes::AV1C)?;
    let colr = in_entry::<ColrBox, S>(alloc, walk, entry, codes::COLR)?;
    Ok(av1_text(alloc, code, config, colr)?)
}

/// Returns the string of VP8 or VP9 video with this configuration.
fn vp_text(alloc: Global, code: FourCC, config: Option<VpccBox>) -> Result<String, AllocError>
    ensures { IfOk result (λ text. string_bytes text ≡ by_config code (vp_string code) config) }
{
    let Some(config) = config else {
        return plain_text(alloc, code);
    };
    let mut text = String::new(alloc);
    push_vp(code, &config, &mut text)?;
    Ok(text)
}

/// Returns the string of an entry of VP8 or VP9 video.
fn vp_in<S: Source>(
    alloc: Global,
    walk: &mut BoxWalk<S>,
    code: FourCC,
    entry: &[TreeBox],
) -> Result<String, Failure>
    ensures value { IfSome walk.old.bytes
        (λ file. IfOk result (λ text. string_bytes text ≡ vp_in file code entry.now)) }
    ensures kept { walk.new ≡ walk.old }
{
    let config = in_entry::<VpccBox, S>(alloc, walk, entry, codes::VPCC)?;
    Ok(vp_text(alloc, code, config)?)
}

/// Returns the configuration of an entry of MPEG-4 audio: the `esds` in it, or that in its `wave`.
pub fn sound_config<S: Source>(
    alloc: Global,
    walk: &mut BoxWalk<S>,
    entry: &[TreeBox],
) -> Result<Option<EsdsBox>, Failure>
    ensures value { IfSome walk.old.bytes (λ file. IfOk result (λ r. r ≡ sound_config file entry.now)) }
    ensures kept { walk.new ≡ walk.old }
{
    match in_entry::<EsdsBox, S>(alloc, walk, entry, codes::ESDS)? {
        Some(config) => Ok(Some(config)),
        None => {
            let wave = inside(entry, DEPTH, codes::WAVE);
            found::<EsdsBox, S>(alloc, walk, wave, DEPTH + 1, codes::ESDS)
        }
    }
}

/// Returns the string of MPEG-4 audio with this configuration.
fn audio_text(alloc: Global, code: FourCC, config: Option<EsdsBox>) -> Result<String, AllocError>
    ensures { IfOk result (λ text. string_bytes text ≡ audio_text code config) }
{
    let Some(config) = config else {
        return plain_text(alloc, code);
    };
    let mut text = String::new(alloc);
    push_mpeg4_audio(alloc, code, &config.es_desc.dec_config, &mut text)?;
    Ok(text)
}

/// Returns the string of an entry of MPEG-4 audio.
fn audio_in<S: Source>(
    alloc: Global,
    walk: &mut BoxWalk<S>,
    code: FourCC,
    entry: &[TreeBox],
) -> Result<String, Failure>
    ensures value { IfSome walk.old.bytes
        (λ file. IfOk result (λ text. string_bytes text ≡ audio_in file code entry.now)) }
    ensures kept { walk.new ≡ walk.old }
{
    let config = sound_config(alloc, walk, entry)?;
    Ok(audio_text(alloc, code, config)?)
}

/// Returns the string of MPEG-4 video with this configuration, which has the content `bytes`.
fn video_text(
    alloc: Global,
    code: FourCC,
    config: Option<EsdsBox>,
    bytes: &[u8],
) -> Result<String, AllocError>
    ensures { IfOk result (λ text. string_bytes text ≡ video_text code config bytes.now) }
{
    let Some(config) = config else {
        return plain_text(alloc, code);
    };
    let mut text = String::new(alloc);
    push_mpeg4_video(alloc, code, &config.es_desc.dec_config, bytes, &mut text)?;
    Ok(text)
}

/// Returns the string of an entry of MPEG-4 video.
fn video_in<S: Source>(
    alloc: Global,
    walk: &mut BoxWalk<S>,
    code: FourCC,
    entry: &[TreeBox],
) -> Result<String, Failure>
    ensures value { IfSome walk.old.bytes
        (λ file. IfOk result (λ text. string_bytes text ≡ video_in file code entry.now)) }
    ensures kept { walk.new ≡ walk.old }
{
    let Some(place) = first_in(entry, DEPTH, codes::ESDS) else {
        return Ok(plain_text(alloc, code)?);
    };
    let read = or_read(read_at::<EsdsBox, S>(alloc, walk, &place.found))?;
    let bytes = or_read(walk.read_content(alloc, &place.found))?;
    Ok(video_text(alloc, code, readable(read), &bytes)?)
}

/// Returns the string of Dolby Vision video with these configurations. The first one counts.
fn dolby_text(
    alloc: Global,
    code: FourCC,
    dvcc: Option<DvccBox>,
    dvvc: Option<DvvcBox>,
) -> Result<String, AllocError>
    ensures { IfOk result (λ text. string_bytes text ≡ dolby_text code dvcc dvvc) }
{
    let config = match (dvcc, dvvc) {
        (Some(found), _) => found.config,
        (None, Some(found)) => found.config,
        (None, None) => return plain_text(alloc, code),
    };
    let mut text = String::new(alloc);
    push_dolby(code, config, &mut text)?;
    Ok(text)
}

/// Returns the string of an entry of Dolby Vision video.
fn dolby_in<S: Source>(
    alloc: Global,
    walk: &mut BoxWalk<S>,
    code: FourCC,
    entry: &[TreeBox],
) -> Result<String, Failure>
    ensures value { IfSome walk.old.bytes
        (λ file. IfOk result (λ text. string_bytes text
        ≡ dolby_in ⟦<EntryBoxes as ReadsEntries>⟧.readings file code entry.now)) }
    ensures kept { walk.new ≡ walk.old }
{
    let dvcc = in_entry::<DvccBox, S>(alloc, walk, entry, codes::DVCC)?;
    let dvvc = in_entry::<DvvcBox, S>(alloc, walk, entry, codes::DVVC)?;
    Ok(dolby_text(alloc, code, dvcc, dvvc)?)
}

/// Returns the string of an entry (RFC 6381). `code` is its code, or the original one if the entry is encrypted.
/// `entry` begins with the boxes inside it.
pub fn codec_in<S: Source>(
    alloc: Global,
    walk: &mut BoxWalk<S>,
    code: FourCC,
    entry: &[TreeBox],
) -> Result<String, Failure>
    ensures value { IfSome walk.old.bytes
        (λ file. IfOk result (λ text. string_bytes text
        ≡ codec_in ⟦<EntryBoxes as ReadsEntries>⟧.readings file code entry.now)) }
    ensures kept { walk.new ≡ walk.old }
{
    match family_of(u32::from(code)) {
        Family::Avc => avc_in(alloc, walk, code, entry),
        Family::Hevc => hevc_in(alloc, walk, code, entry),
        Family::Av1 => av1_in(alloc, walk, code, entry),
        Family::Vp => vp_in(alloc, walk, code, entry),
        Family::Audio => audio_in(alloc, walk, code, entry),
        Family::Video => video_in(alloc, walk, code, entry),
        Family::Dolby => dolby_in(alloc, walk, code, entry),
        Family::Other => Ok(plain_text(alloc, code)?),
    }
}
