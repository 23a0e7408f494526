//! Which boxes hold boxes, and the fields before the first one. This is the only table of them.

ghost use Rattle.std.specs.Prelude.{◌≡◌, ◌≤◌, IfSome};
ghost use Rattle.mp4_walk.specs.Fronts.{is_container, is_video, is_sound, is_video_handler, length_of, sound_front};
ghost use Rattle.mp4_walk.specs.Fronts.{front_by_code, entry_front, front_of, fields_in, context_in, level_after};

use crate::level::Level;
use crate::peek::Peek;
use crate::walk_context::WalkContext;
use mp4_frame::codes::{
    AC3, ALAC, AUXV, AV01, AVC1, AVC2, AVC3, AVC4, CLIP, CMOV, DINF, DREF, EC3, EDTS, ENCA, ENCV,
    EVC1, FIIN, FLAC, GMHD, GRPL, HDLR, HEV1, HEV2, HINF, HNTI, HVC1, HVC2, IINF, ILST, IPCO, IPRO,
    IPRP, IREF, LHE1, LHV1, LUDT, MATT, MDIA, MECO, META, MFRA, MINF, MOOF, MOOV, MP4A, MP4S, MP4V,
    MVC1, MVC2, MVC3, MVC4, MVEX, OPUS, PAEN, PICT, RESV, RINF, RMDA, RMRA, SCHI, SINF, SOUN, STBL,
    STRD, STRK, STSD, SVC1, SVC2, TAPT, TMCD, TRAF, TRAK, TREP, TRGR, TX3G, UDTA, URIM, VIDE, VP08,
    VP09, VVC1, VVI1, WAVE, WVTT,
};

/// The length of version and flags.
pub const FULL_BOX_LENGTH: u64 = 4;

/// The length of version, flags and a count of 2 bytes.
pub const SHORT_COUNT_LENGTH: u64 = 6;

/// The length of version, flags and a number of 4 bytes.
pub const COUNT_LENGTH: u64 = 8;

/// The length of the fields of any sample entry (ISO/IEC 14496-12, 8.5.2.2).
pub const ENTRY_LENGTH: u64 = 8;

/// The length of the fields of a timed text entry (3GPP TS 26.245, 5.16).
pub const TEXT_ENTRY_LENGTH: u64 = 38;

/// The length of the fields of a video entry (ISO/IEC 14496-12, 12.1.3).
pub const VIDEO_ENTRY_LENGTH: u64 = 78;

/// The length of the fields of a sound entry (ISO/IEC 14496-12, 12.2.3).
pub const SOUND_ENTRY_LENGTH: u64 = 28;

/// The length of the fields of a sound entry of version 1 in QuickTime.
pub const QUICKTIME_SOUND_1_LENGTH: u64 = 44;

/// The length of the fields of a sound entry of version 2 in QuickTime.
pub const QUICKTIME_SOUND_2_LENGTH: u64 = 64;

/// The fields of a box before the first box that it holds.
#[derive(Clone, Copy, Debug, PartialEq, Eq)]
pub enum Front {
    /// None: the box holds only boxes.
    Nothing,
    /// Version and flags.
    FullBox,
    /// Version, flags and a count of 2 bytes.
    ShortCount,
    /// Version, flags and a number of 4 bytes, such as a count.
    Count,
    /// The fields of any sample entry (ISO/IEC 14496-12, 8.5.2.2).
    Entry,
    /// The fields of a timed text entry (3GPP TS 26.245, 5.16).
    TextEntry,
    /// The fields of a video entry (ISO/IEC 14496-12, 12.1.3).
    VideoEntry,
    /// The fields of a sound entry (ISO/IEC 14496-12, 12.2.3).
    SoundEntry,
    /// The fields of a sound entry of version 1 in QuickTime.
    QuickTimeSound1,
    /// The fields of a sound entry of version 2 in QuickTime.
    QuickTimeSound2,
}

impl Front {
    /// Returns the number of bytes of the fields.
    pub fn length(self) -> u64
        ensures { result ≡ length_of self }
    {
        match self {
            Front::Nothing => 0,
            Front::FullBox => FULL_BOX_LENGTH,
            Front::ShortCount => SHORT_COUNT_LENGTH,
            Front::Count => COUNT_LENGTH,
            Front::Entry => ENTRY_LENGTH,
            Front::TextEntry => TEXT_ENTRY_LENGTH,
            Front::VideoEntry => VIDEO_ENTRY_LENGTH,
            Front::SoundEntry => SOUND_ENTRY_LENGTH,
            Front::QuickTimeSound1 => QUICKTIME_SOUND_1_LENGTH,
            Front::QuickTimeSound2 => QUICKTIME_SOUND_2_LENGTH,
        }
    }
}

/// Returns whether boxes with this `code` hold only boxes, wherever they are.
pub fn is_container(code: u32) -> bool
    ensures { result ≡ is_container code }
{
    matches!(
        code,
        MOOV | TRAK
            | TRGR
            | EDTS
            | MDIA
            | MINF
            | DINF
            | STBL
            | MVEX
            | MOOF
            | TRAF
            | MFRA
            | UDTA
            | MECO
            | SINF
            | SCHI
            | PAEN
            | STRK
            | STRD
            | RINF
            | HNTI
            | HINF
            | LUDT
            | IPRP
            | IPCO
            | GRPL
            | GMHD
            | TAPT
            | CLIP
            | MATT
            | RMRA
            | RMDA
            | CMOV
            | WAVE
            | ILST
    )
}

/// Returns whether `code` is that of a video entry.
pub fn is_video(code: u32) -> bool
    ensures { result ≡ is_video code }
{
    matches!(
        code,
        AVC1 | AVC2
            | AVC3
            | AVC4
            | SVC1
            | SVC2
            | MVC1
            | MVC2
            | MVC3
            | MVC4
            | HVC1
            | HEV1
            | HVC2
            | HEV2
            | LHV1
            | LHE1
            | VVC1
            | VVI1
            | EVC1
            | MP4V
            | ENCV
            | RESV
            | AV01
            | VP08
            | VP09
    )
}

/// Returns whether `code` is that of a sound entry.
pub fn is_sound(code: u32) -> bool
    ensures { result ≡ is_sound code }
{
    matches!(code, MP4A | ENCA | OPUS | FLAC | ALAC | AC3 | EC3)
}

/// Returns whether media with this `handler` have video entries.
pub fn is_video_handler(handler: u32) -> bool
    ensures { result ≡ is_video_handler handler }
{
    matches!(handler, VIDE | PICT | AUXV)
}

/// Returns the fields of a sound entry with this `version`, in an `stsd` of `stsd_version`.
pub fn sound_front(stsd_version: u8, version: u16) -> Front
    ensures { result ≡ sound_front stsd_version version }
{
    match version {
        1 if stsd_version == 0 => Front::QuickTimeSound1,
        2 if stsd_version == 0 => Front::QuickTimeSound2,
        _ => Front::SoundEntry,
    }
}

/// Returns the fields of a sample entry, or `None` if it is not known to hold boxes.
fn entry_front(around: WalkContext, code: u32, peek: Peek) -> Option<Front>
    ensures { result ≡ entry_front around code peek }
{
    if is_video_handler(around.handler) {
        return Some(Front::VideoEntry);
    }
    if around.handler == SOUN {
        return Some(sound_front(around.stsd_version, peek.entry_version));
    }
    if is_video(code) {
        return Some(Front::VideoEntry);
    }
    if is_sound(code) {
        return Some(sound_front(around.stsd_version, peek.entry_version));
    }
    match code {
        TX3G => Some(Front::TextEntry),
        WVTT | MP4S | URIM => Some(Front::Entry),
        _ => None,
    }
}

/// Returns the fields of a box that holds boxes wherever it is, or `None` if the box is not one of these.
fn front_by_code(code: u32, peek: Peek) -> Option<Front>
    ensures { result ≡ front_by_code code peek }
{
    if is_container(code) {
        return Some(Front::Nothing);
    }
    match code {
        META if peek.length >= 4 && peek.first == 0 => Some(Front::FullBox),
        META => Some(Front::Nothing),
        IREF => Some(Front::FullBox),
        IPRO | FIIN => Some(Front::ShortCount),
        IINF if peek.version == 0 => Some(Front::ShortCount),
        IINF | STSD | DREF | TREP => Some(Front::Count),
        _ => None,
    }
}

/// Returns the fields of a box before the first box that it holds, or `None` if it is not known to hold boxes. `peek`
/// has the first numbers of its content.
#[tactic(auto, unfolding(crate::specs::Fronts::front_of))]
pub fn front_of(around: WalkContext, code: u32, peek: Peek) -> Option<Front>
    ensures { result ≡ front_of around code peek }
{
    match around.parent {
        STSD => entry_front(around, code, peek),
        ILST => Some(Front::Nothing),
        GMHD if code == TMCD => Some(Front::Nothing),
        _ => front_by_code(code, peek),
    }
}

/// Returns the length of `front`, or `None` if there is none, or a content of `room` bytes is too short for it.
pub fn fields_in(front: Option<Front>, room: u64) -> Option<u64>
    ensures fields { result ≡ fields_in room front }
    ensures room { IfSome result (λ n. n ≤ room) }
{
    match front {
        Some(front) if front.length() <= room => Some(front.length()),
        _ => None,
    }
}

/// Returns the context of the boxes in a box with this `code` and `peek`, which is read in `around`.
pub fn context_in(around: WalkContext, code: u32, peek: Peek) -> WalkContext
    ensures { result ≡ context_in around code peek }
{
    WalkContext {
        parent: code,
        handler: around.handler,
        stsd_version: if code == STSD { peek.version } else { 0 },
    }
}

/// Returns `level` after a box with this `code` and `peek`. An `hdlr` in an `mdia` has the handler of the media.
pub fn level_after(level: Level, code: u32, peek: Peek) -> Level
    ensures { result ≡ level_after level code peek }
{
    let is_handler = level.context.parent == MDIA && code == HDLR;
    Level {
        context: WalkContext {
            handler: if is_handler {
                peek.handler
            } else {
                level.context.handler
            },
            ..level.context
        },
        ..level
    }
}
