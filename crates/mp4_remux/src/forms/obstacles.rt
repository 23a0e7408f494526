//! The boxes that keep a file from being rewritten.

use crate::forms::refusal::FormRefusal;
use crate::refusal::Stop;
use mp4_frame::{FourCC, codes, u32_at};
use mp4_walk::{BoxWalk, Source, TreeBox};
use std::alloc::Global;
use std::io;

/// The flag of an entry of `dref` whose media data are in the same file (ISO/IEC 14496-12, 8.7.2).
const SELF_CONTAINED: u32 = 0x00_0001;

/// Returns the flags of `found` (4.2), or 0 if it has no room for them.
fn flags_of<S: Source>(alloc: Global, walk: &mut BoxWalk<S>, found: &TreeBox) -> io::Result<u32> {
    let front = TreeBox {
        length: found.header_length.saturating_add(4),
        ..*found
    };
    let bytes = walk.read_content(alloc, &front)?;
    if bytes.len() < 4 || found.content_length() < 4 {
        return Ok(0);
    }
    Ok(u32_at(&bytes, 0) & 0x00ff_ffff)
}

/// Returns whether an entry of `dref` with `code` says by its flags whether the media data are in the same file.
fn is_file_reference(code: u32) -> bool {
    matches!(code, codes::URL | codes::URN | codes::ALIS)
}

/// Returns whether a box with `code` has offsets that count from the front of the file and are not changed, or a
/// compressed movie.
fn has_offsets(code: u32) -> bool {
    matches!(code, codes::CMOV | codes::ILOC)
}

/// Returns whether a box with `code` in an `stbl` has another form in fragments, or speaks of no sample.
fn is_table(code: u32) -> bool {
    matches!(
        code,
        codes::STSD
            | codes::STTS
            | codes::CTTS
            | codes::CSLG
            | codes::STSS
            | codes::STSC
            | codes::STSZ
            | codes::STZ2
            | codes::STCO
            | codes::CO64
            | codes::SDTP
            | codes::SBGP
            | codes::SGPD
            | codes::FREE
            | codes::SKIP
    )
}

/// Returns whether a box with `code` in a `traf` has another form in tables, or speaks of no sample.
fn is_run(code: u32) -> bool {
    matches!(
        code,
        codes::TFHD | codes::TFDT | codes::TRUN | codes::SBGP | codes::FREE | codes::SKIP
    )
}

/// The extended type of a box with the time of a fragment in Smooth Streaming (`tfxd`).
const TFXD: [u8; 16] = [
    0x6d, 0x1d, 0x9b, 0x05, 0x42, 0xd5, 0x44, 0xe6, 0x80, 0xe2, 0x14, 0x1d, 0xaf, 0xf7, 0x57, 0xb2,
];
/// The extended type of a box with the times of the next fragments in Smooth Streaming (`tfrf`).
const TFRF: [u8; 16] = [
    0xd4, 0x80, 0x7e, 0xf2, 0xca, 0x39, 0x46, 0x95, 0x8e, 0x54, 0x26, 0xcb, 0x9e, 0x46, 0xa7, 0x9f,
];

/// Returns whether `found`, a `uuid` in a `traf`, only repeats the times of fragments.
fn is_time<S: Source>(alloc: Global, walk: &mut BoxWalk<S>, found: &TreeBox) -> io::Result<bool> {
    if found.content_length() < 16 {
        return Ok(false);
    }
    let front = TreeBox {
        length: found.header_length.saturating_add(16),
        ..*found
    };
    let bytes = walk.read_content(alloc, &front)?;
    Ok(bytes.as_slice() == TFXD.as_slice() || bytes.as_slice() == TFRF.as_slice())
}

/// Returns whether the other form of the file has no place for what `found`, a box with `code`, says of samples. An
/// `emsg` is an event at a time of the segment after it, which a file without fragments doesn't have.
fn is_unkept<S: Source>(
    alloc: Global,
    walk: &mut BoxWalk<S>,
    found: &TreeBox,
    code: u32,
    is_joined: bool,
) -> io::Result<bool> {
    match found.context.parent {
        codes::STBL => Ok(!is_table(code)),
        codes::TRAF => {
            if code == codes::UUID {
                return Ok(!is_time(alloc, walk, found)?);
            }
            Ok(!is_run(code))
        }
        _ => Ok(is_joined && found.depth == 0 && code == codes::EMSG),
    }
}

/// Returns why `found`, a box with `code`, keeps the file from being rewritten, if it does.
fn obstacle_at<S: Source>(
    alloc: Global,
    walk: &mut BoxWalk<S>,
    found: &TreeBox,
    code: FourCC,
    is_joined: bool,
) -> io::Result<Option<FormRefusal>> {
    let position = found.position;
    let number = u32::from(code);
    if has_offsets(number) {
        return Ok(Some(FormRefusal::Offsets { code, position }));
    }
    if is_unkept(alloc, walk, found, number, is_joined)? {
        return Ok(Some(FormRefusal::Unkept { code, position }));
    }
    if found.context.parent == codes::DREF
        && (!is_file_reference(number) || flags_of(alloc, walk, found)? & SELF_CONTAINED == 0)
    {
        return Ok(Some(FormRefusal::OtherFile { code, position }));
    }
    Ok(None)
}

/// Checks that each box of the top level is whole, and that there is one `moov`.
pub(crate) fn check_tops(boxes: &[TreeBox]) -> Result<(), FormRefusal> {
    let mut has_movie = false;
    for found in boxes {
        if found.depth > 0 {
            continue;
        }
        if !found.is_whole() {
            return Err(FormRefusal::NotWhole(found.position));
        }
        if found.has_code(FourCC::from(codes::MOOV)) {
            if has_movie {
                return Err(FormRefusal::TwoMovies(found.position));
            }
            has_movie = true;
        }
    }
    if has_movie {
        Ok(())
    } else {
        Err(FormRefusal::NoMovie)
    }
}

/// Checks that none of `boxes` keeps the file from being rewritten. If `is_joined`, fragments are joined, and otherwise
/// made.
pub(crate) fn check_boxes<S: Source>(
    alloc: Global,
    walk: &mut BoxWalk<S>,
    boxes: &[TreeBox],
    is_joined: bool,
) -> Result<(), Stop> {
    for found in boxes {
        let Some(code) = found.code else {
            continue;
        };
        if let Some(refusal) = obstacle_at(alloc, walk, found, code, is_joined)? {
            return Err(Stop::from(refusal));
        }
    }
    Ok(())
}
