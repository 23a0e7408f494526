//! Finds the box at a path.

ghost use Rattle.std.specs.Prelude.{◌≡◌};
ghost use Rattle.mp4_c.specs.Find.{Finds, FindsAt, FillsFound, place_as, place_of, stated_place};

use mp4_c_boxes::status::{BOX_NOT_FOUND, INVALID_DATA, OK, OUT_OF_MEMORY};
use mp4_frame::{bytes_from, u32_at, u64_at};
use mp4_walk::{BoxPath, BoxState, PathError, TreeBox, find};
use std::alloc::Global;
use std::str;

/// A box of a file, and the length of its header. Positions and lengths are in bytes.
#[repr(C)]
#[derive(Clone, Copy)]
pub struct Place {
    /// The offset of the first byte of the box, where its header begins.
    pub position: u64,
    /// The number of bytes of the box, including its header, as the header states it. This holds also for a box that is
    /// cut, and for one whose size is smaller than its header.
    pub length: u64,
    /// The number of bytes of the header: 8 or 16.
    pub header_length: u64,
    /// The four characters of the box's code, the first in the highest byte.
    pub code: u32,
    /// 1 if the file has the whole box, and its size counts its header; else 0.
    pub is_whole: u8,
}

/// Returns `found` for C, with a header of `header_length` bytes that states `length`.
fn place_as(found: &TreeBox, header_length: u64, length: u64) -> Place
    ensures { result ≡ place_as found.now header_length length }
{
    Place {
        position: found.position,
        length,
        header_length,
        code: match found.code {
            Some(code) => u32::from(code),
            None => 0,
        },
        is_whole: u8::from(found.is_whole()),
    }
}

/// Returns `found` for C, with the length that its header at the front of `head` states. `None` if `head` ends before
/// the header does.
fn stated_place(found: &TreeBox, head: &[u8]) -> Option<Place>
    ensures { result ≡ stated_place found.now head.now }
{
    if head.len() < 8 {
        return None;
    }
    let size = u32_at(head, 0);
    if size != 1 {
        return Some(place_as(found, 8, u64::from(size)));
    }
    if head.len() < 16 {
        return None;
    }
    Some(place_as(found, 16, u64_at(head, 8)))
}

/// Returns `found`, a box of the file `bytes`, for C. `None` if its header isn't whole.
fn place_of(bytes: &[u8], found: &TreeBox) -> Option<Place>
    ensures { result ≡ place_of bytes.now found.now }
{
    match found.state {
        BoxState::NoHeader => None,
        BoxState::Small => stated_place(found, bytes_from(bytes, found.position)),
        _ => Some(place_as(found, found.header_length, found.length)),
    }
}

/// Fills `place` with `found`, a box of the file `bytes`. Returns the status, which is `BOX_NOT_FOUND` if there is no
/// box, or if its header isn't whole.
fn fill_found(bytes: &[u8], found: Option<TreeBox>, place: &mut Place) -> u32
    ensures { FillsFound bytes.now found result place.old place.new }
{
    let Some(found) = found else {
        return BOX_NOT_FOUND;
    };
    match place_of(bytes, &found) {
        Some(it) => {
            *place = it;
            OK
        }
        None => BOX_NOT_FOUND,
    }
}

/// Fills `place` with the box of the file `bytes` at `path`. Returns the status.
fn find_at(alloc: Global, bytes: &[u8], path: &BoxPath, place: &mut Place) -> u32
    ensures { FindsAt bytes.now path.now.parts.items result place.old place.new }
{
    match find(alloc, bytes, path) {
        Ok(found) => fill_found(bytes, found, place),
        Err(_) => OUT_OF_MEMORY,
    }
}

/// Fills `place` with the box of the file `bytes` at `path`, such as `moov/trak[1]/mdia/mdhd`. Returns the status,
/// which is `INVALID_DATA` if `path` isn't a path in UTF-8.
#[unsafe(no_mangle)]
pub extern "C" fn mp4_find(alloc: Global, bytes: &[u8], path: &[u8], place: &mut Place) -> u32
    ensures { Finds bytes.now path.now result place.old place.new }
{
    let Ok(text) = str::from_utf8(path) else {
        return INVALID_DATA;
    };
    match BoxPath::parse(alloc, text) {
        Ok(path) => find_at(alloc, bytes, &path, place),
        Err(PathError::Memory) => OUT_OF_MEMORY,
        Err(PathError::Code(_)) => INVALID_DATA,
        Err(PathError::Index(_)) => INVALID_DATA,
    }
}
