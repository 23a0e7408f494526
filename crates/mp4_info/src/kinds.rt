//! The kinds of media.

ghost use Rattle.std.specs.Prelude.{◌≡◌};
ghost use Rattle.mp4_info.specs.Kinds.{kind_of};

use mp4_frame::codes::{AUXV, META, PICT, SOUN, TEXT, TMCD, VIDE};

/// The handler of subtitles: `subt`.
pub const SUBT: u32 = 0x7375_6274;

/// The handler of subtitles in Apple's files: `sbtl`.
pub const SBTL: u32 = 0x7362_746c;

/// The handler of closed captions: `clcp`.
pub const CLCP: u32 = 0x636c_6370;

/// The handler of hint tracks: `hint`.
pub const HINT: u32 = 0x6869_6e74;

/// Returns the word for media with this handler, or nothing if there is none.
pub fn kind_of(handler: u32) -> &'static str
    ensures { result.now ≡ kind_of handler }
{
    match handler {
        VIDE => "video",
        SOUN => "audio",
        SUBT | SBTL => "subtitles",
        TEXT => "text",
        CLCP => "captions",
        TMCD => "timecode",
        META => "metadata",
        HINT => "hint",
        AUXV => "auxiliary video",
        PICT => "picture",
        _ => "",
    }
}
