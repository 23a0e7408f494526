//! The strings of MPEG-4 audio and video.

ghost use Rattle.std.specs.Prelude.{◌≡◌, ◌++◌, OnOk, string_bytes};
ghost use Rattle.mp4_info.specs.Mpeg4.{audio_string, audio_type, further_element, mpeg4_string, video_level};
ghost use Rattle.mp4_info.specs.Mpeg4.{video_string};

use crate::digits::push_element;
use crate::visual::visual_level;
use mp4_frame::FourCC;
use mp4_shown::Result;
use mp4_shown_json::push_latin;
use mp4_sound::DecoderConfigDescriptor;
use std::alloc::Global;

/// The object type of MPEG-4 audio (ISO/IEC 14496-1, 7.2.6.6.2).
const MPEG4_AUDIO: u8 = 0x40;

/// The object type of MPEG-4 video (ISO/IEC 14496-1, 7.2.6.6.2).
const MPEG4_VIDEO: u8 = 0x20;

/// Appends a further element, if there is one.
fn push_further(further: Option<u8>, out: &mut String) -> Result<()>
    ensures text { OnOk result (string_bytes out.new ≡ string_bytes out.old ++ further_element further) }
{
    match further {
        None => Ok(()),
        Some(number) => push_element(u64::from(number), out),
    }
}

/// Appends the string of a stream with this object type, such as `mp4v.20.9`. `code` is that of its sample entry.
/// `further` is the further element of the object type: the profile and level of MPEG-4 video, which is 0x20, or the
/// audio object type of MPEG-4 audio, which is 0x40.
#[tactic(auto, unfolding(crate::specs::Mpeg4::mpeg4_string))]
pub fn push_mpeg4(
    alloc: Global,
    code: FourCC,
    object_type: u8,
    further: Option<u8>,
    out: &mut String,
) -> Result<()>
    ensures text { OnOk result
        (string_bytes out.new ≡ string_bytes out.old ++ mpeg4_string code object_type further) }
{
    let digits = hex::encode_upper(alloc, [object_type])?;
    push_latin(code, out)?;
    out.push_str(".")?;
    out.push_str(digits.as_str())?;
    push_further(further, out)
}

/// Returns the audio object type, if the stream is MPEG-4 audio and has one.
fn audio_type(config: &DecoderConfigDescriptor) -> Option<u8>
    ensures { result ≡ audio_type config.now }
{
    let audio_type = config.dec_specific.profile;
    if config.object_type_indication == MPEG4_AUDIO && audio_type != 0 {
        Some(audio_type)
    } else {
        None
    }
}

/// Appends the string of the sound that `config` describes, such as `mp4a.40.2`. `code` is that of its sample entry,
/// `mp4a`.
pub fn push_mpeg4_audio(
    alloc: Global,
    code: FourCC,
    config: &DecoderConfigDescriptor,
    out: &mut String,
) -> Result<()>
    ensures text { OnOk result (string_bytes out.new ≡ string_bytes out.old ++ audio_string code config.now) }
{
    push_mpeg4(
        alloc,
        code,
        config.object_type_indication,
        audio_type(config),
        out,
    )
}

/// Returns the profile and level, if the stream is MPEG-4 video and `bytes`, the content of its `esds`, have it.
fn video_level(config: &DecoderConfigDescriptor, bytes: &[u8]) -> Option<u8>
    ensures { result ≡ video_level config.now bytes.now }
{
    if config.object_type_indication == MPEG4_VIDEO {
        visual_level(bytes)
    } else {
        None
    }
}

/// Appends the string of the video that `config` describes, such as `mp4v.20.9`. `code` is that of its sample entry,
/// `mp4v`, and `bytes` are the content of the `esds` in it.
pub fn push_mpeg4_video(
    alloc: Global,
    code: FourCC,
    config: &DecoderConfigDescriptor,
    bytes: &[u8],
    out: &mut String,
) -> Result<()>
    ensures text { OnOk result
        (string_bytes out.new ≡ string_bytes out.old ++ video_string code config.now bytes.now) }
{
    let level = video_level(config, bytes);
    push_mpeg4(alloc, code, config.object_type_indication, level, out)
}
