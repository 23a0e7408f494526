//! Files that are no MP4 files.

ghost use Rattle.std.specs.Prelude.{◌≡◌};
ghost use Rattle.mp4_content.specs.Foreign.{is_top_code, foreign_code, not_mp4};

use mp4_frame::codes::{
    EMSG, FREE, FTYP, MDAT, META, MFRA, MOOF, MOOV, PDIN, PNOT, PRFT, SIDX, SKIP, SSIX, STYP, UDTA,
    UUID, WIDE,
};
use mp4_walk::{BoxState, TreeBox};

/// The reason why a file is not an MP4 file.
#[derive(Clone, Copy, Debug, PartialEq, Eq)]
pub enum NotMp4 {
    /// The file is shorter than the header of a box: it has this number of bytes.
    Short(u64),
    /// The file begins with these bytes: a size of four bytes that is past its end, and a code of four bytes that no
    /// box of the top level has.
    Begins(u32, u32),
}

/// Returns whether files have boxes with the code `code` at their top level.
pub fn is_top_code(code: u32) -> bool
    ensures { result ≡ is_top_code code }
{
    matches!(
        code,
        FTYP | STYP
            | MOOV
            | MOOF
            | MDAT
            | META
            | FREE
            | SKIP
            | WIDE
            | UUID
            | UDTA
            | SIDX
            | SSIX
            | PRFT
            | EMSG
            | MFRA
            | PDIN
            | PNOT
    )
}

/// Returns why a file that begins with a cut box with the code `code` and the length `length` is not an MP4 file, or
/// `None` if it may be one.
fn foreign_code(code: u32, length: u64) -> Option<NotMp4>
    ensures { result ≡ foreign_code code length }
{
    if is_top_code(code) || length > u64::from(u32::MAX) {
        return None;
    }
    Some(NotMp4::Begins(length as u32, code))
}

/// Returns why the file with the box `found` is not an MP4 file, or `None` if it may be one or if `found` is not its
/// first box.
pub fn not_mp4(found: &TreeBox) -> Option<NotMp4>
    ensures { result ≡ not_mp4 found.now }
{
    if found.position != 0 || found.depth != 0 {
        return None;
    }
    match (found.state, found.code) {
        (BoxState::NoHeader, None) => Some(NotMp4::Short(found.length)),
        (BoxState::Cut, Some(code)) if found.header_length == 8 => {
            foreign_code(u32::from(code), found.length)
        }
        _ => None,
    }
}
