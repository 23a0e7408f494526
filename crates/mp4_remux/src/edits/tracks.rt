//! Shortcuts for tracks.

ghost use Rattle.std.specs.Prelude.{◌≡◌, ◌≤◌, ◌-◌};
ghost use Rattle.std.specs.List.{list_all};
ghost use Rattle.mp4_remux.specs.Tags.{is_letter, packed_language};

use crate::edits::edit::Edit;
use crate::edits::finding::box_at;
use crate::edits::opened::{Opened, path_of};
use crate::edits::refusal::EditRefusal;
use crate::refusal::{Stop, refused};
use mp4_frame::{FourCC, codes, u8_at, u32_at};
use mp4_walk::{BoxPath, BoxWalk, Source, TreeBox};
use std::alloc::{AllocError, Global};

/// The largest number of boxes that a shortcut removes one by one.
pub const MANY: u64 = 1000;

/// A box of which shortcuts have changed some fields.
#[derive(Debug, Drop)]
pub struct Patched {
    /// The path of the box.
    path: BoxPath,
    /// The box.
    found: TreeBox,
    /// Its bytes with the changed fields.
    bytes: Vec<u8>,
}

/// Adds `edit` to `edits`.
pub(crate) fn add(edits: &mut Vec<Edit>, edit: Edit) -> Result<(), AllocError> {
    edits.push(edit)?;
    Ok(())
}

/// Adds `it` to `patched`.
fn keep(patched: &mut Vec<Patched>, it: Patched) -> Result<(), AllocError> {
    patched.push(it)?;
    Ok(())
}

/// Returns the index of the box at position `at` in `patched`, or the number of boxes if it is not there.
fn index_of(patched: &[Patched], at: u64) -> usize {
    for index in 0..patched.len() {
        if patched[index].found.position == at {
            return index;
        }
    }
    patched.len()
}

/// Writes `new` over the bytes of `bytes` starting with number `at`. Returns whether there are as many.
fn write_over(bytes: &mut Vec<u8>, at: u64, new: &[u8]) -> bool {
    let length = bytes.len() as u64;
    if at > length || new.len() as u64 > length - at {
        return false;
    }
    for index in 0..new.len() {
        let place = at as usize + index;
        bytes[place] = new[index];
    }
    true
}

/// Writes `new` over the fields of the box at `path`, which is `found`, starting with byte `at` of its content.
fn patch<S: Source>(
    alloc: Global,
    file: &mut Opened<S>,
    patched: &mut Vec<Patched>,
    path: BoxPath,
    found: TreeBox,
    at: u64,
    new: &[u8],
) -> Result<(), Stop> {
    // The fields are present, since they are read as well.
    file.front(alloc, &path, &found, at.saturating_add(new.len() as u64))?;
    let index = index_of(patched, found.position);
    if index == patched.len() {
        let bytes = file.walk.read_box(alloc, &found)?;
        keep(patched, Patched { path, found, bytes })?;
    }
    if index < patched.len() {
        let begin = found.header_length.saturating_add(at);
        write_over(&mut patched[index].bytes, begin, new);
    }
    Ok(())
}

/// Adds the edits that replace the boxes in `patched`.
pub(crate) fn add_patched(patched: Vec<Patched>, edits: &mut Vec<Edit>) -> Result<(), AllocError> {
    for it in patched {
        let Patched {
            path,
            found: _,
            bytes,
        } = it;
        add(edits, Edit::Replace(path, bytes))?;
    }
    Ok(())
}

/// Returns whether `byte` is a lower-case letter.
fn is_letter(byte: u8) -> bool
    ensures { result ≡ is_letter byte }
{
    byte >= b'a' && byte <= b'z'
}

/// Returns whether `bytes` are lower-case letters.
fn are_letters(bytes: &[u8]) -> bool
    ensures { result ≡ list_all is_letter bytes.now }
{
    bytes.iter().all(|byte| is_letter(*byte))
}

/// Returns the number of a letter, which is 1 for `a`.
fn letter_number(letter: u8) -> u16
    ensures value { result ≡ letter - 0x60 }
    ensures small { result ≤ 0x9f }
{
    u16::from(letter.saturating_sub(0x60))
}

/// Returns the language `text` as an `mdhd` has it: three lower-case letters of ISO 639-2 of five bits each
/// (ISO/IEC 14496-12, 8.4.2.3). Returns `None` if it is something else.
pub fn packed_language(text: &str) -> Option<u16>
    ensures { result ≡ packed_language text.now }
{
    let bytes = text.as_bytes();
    if bytes.len() != 3 || !are_letters(bytes) {
        return None;
    }
    Some(letter_number(bytes[0]) * 1024 + letter_number(bytes[1]) * 32 + letter_number(bytes[2]))
}

/// Gives the track with this track_ID a language: in its `mdhd`. An `elng`, which would be another one (8.4.6), is
/// removed.
pub(crate) fn set_language<S: Source>(
    alloc: Global,
    file: &mut Opened<S>,
    id: u32,
    language: u16,
    patched: &mut Vec<Patched>,
    edits: &mut Vec<Edit>,
) -> Result<(), Stop> {
    let number = file.number_of(id)?;
    let media = [
        (codes::MOOV, 0),
        (codes::TRAK, number),
        (codes::MDIA, 0),
        (codes::MDHD, 0),
    ];
    let path = path_of(alloc, &media)?;
    let found = file.expect(alloc, &path)?;
    let version = u8_at(&file.front(alloc, &path, &found, 1)?, 0);
    let at = if version == 1 { 32 } else { 20 };
    patch(
        alloc,
        file,
        patched,
        path,
        found,
        at,
        &language.to_be_bytes(),
    )?;
    let extended = [
        (codes::MOOV, 0),
        (codes::TRAK, number),
        (codes::MDIA, 0),
        (codes::ELNG, 0),
    ];
    let other = path_of(alloc, &extended)?;
    if file.find(&other).is_some() {
        add(edits, Edit::Remove(other))?;
    }
    Ok(())
}

/// Returns the nine numbers of the matrix that turns pictures of this size clockwise by `degrees`, which is 0, 90, 180
/// or 270. Sizes are of 16.16 bits (8.3.2, 6.2.2).
fn matrix(degrees: u32, width: u32, height: u32) -> [u32; 9] {
    let (one, minus) = (0x0001_0000, 0xffff_0000);
    let last = 0x4000_0000;
    match degrees {
        90 => [0, one, 0, minus, 0, 0, height, 0, last],
        180 => [minus, 0, 0, 0, minus, 0, width, height, last],
        270 => [0, minus, 0, one, 0, 0, 0, width, last],
        _ => [one, 0, 0, 0, one, 0, 0, 0, last],
    }
}

/// Turns the pictures of the track with this track_ID clockwise by `degrees`, whatever its matrix was.
pub(crate) fn rotate<S: Source>(
    alloc: Global,
    file: &mut Opened<S>,
    id: u32,
    degrees: u32,
    patched: &mut Vec<Patched>,
) -> Result<(), Stop> {
    let number = file.number_of(id)?;
    let header = [(codes::MOOV, 0), (codes::TRAK, number), (codes::TKHD, 0)];
    let path = path_of(alloc, &header)?;
    let found = file.expect(alloc, &path)?;
    let version = u8_at(&file.front(alloc, &path, &found, 1)?, 0);
    let at: u64 = if version == 1 { 52 } else { 40 };
    let fields = file.front(alloc, &path, &found, at + 44)?;
    let sizes = at as usize + 36;
    let (width, height) = if fields.len() >= sizes + 8 {
        (u32_at(&fields, sizes), u32_at(&fields, sizes + 4))
    } else {
        (0, 0)
    };
    let mut bytes = Vec::new(alloc);
    for entry in matrix(degrees, width, height) {
        bytes.extend_from_slice(&entry.to_be_bytes())?;
    }
    patch(alloc, file, patched, path, found, at, &bytes)
}

/// Enables the track with this track_ID, or disables it (8.3.2.3).
pub(crate) fn enable<S: Source>(
    alloc: Global,
    file: &mut Opened<S>,
    id: u32,
    is_enabled: bool,
    patched: &mut Vec<Patched>,
) -> Result<(), Stop> {
    let number = file.number_of(id)?;
    let header = [(codes::MOOV, 0), (codes::TRAK, number), (codes::TKHD, 0)];
    let path = path_of(alloc, &header)?;
    let found = file.expect(alloc, &path)?;
    let index = index_of(patched, found.position);
    let fields = if index < patched.len() {
        let begin = found.header_length.min(patched[index].bytes.len() as u64);
        Vec::from_slice(alloc, &patched[index].bytes[begin as usize..])?
    } else {
        file.front(alloc, &path, &found, 4)?
    };
    let flags = if fields.len() >= 4 {
        u8_at(&fields, 3)
    } else {
        0
    };
    let bits = if is_enabled { flags | 1 } else { flags & 0xfe };
    patch(alloc, file, patched, path, found, 3, &[bits])
}

/// Returns the track_ID after the version and flags of `found`, if it is there.
fn id_in<S: Source>(
    alloc: Global,
    walk: &mut BoxWalk<S>,
    found: &TreeBox,
) -> Result<Option<u32>, Stop> {
    let front = TreeBox {
        length: found.header_length.saturating_add(8).min(found.length),
        ..*found
    };
    let bytes = walk.read_content(alloc, &front)?;
    if bytes.len() < 8 {
        return Ok(None);
    }
    Ok(Some(u32_at(&bytes, 4)))
}

/// Adds the edits that remove each `trex` of the track with this track_ID.
fn drop_defaults<S: Source>(
    alloc: Global,
    walk: &mut BoxWalk<S>,
    boxes: &[TreeBox],
    id: u32,
    edits: &mut Vec<Edit>,
) -> Result<(), Stop> {
    let level = path_of(alloc, &[(codes::MOOV, 0), (codes::MVEX, 0)])?;
    let Some(around) = box_at(boxes, &level) else {
        return Ok(());
    };
    let end = around.position.saturating_add(around.length);
    let mut before: u64 = 0;
    let mut removed: u64 = 0;
    for found in boxes {
        if found.position > around.position
            && found.position < end
            && found.depth == 2
            && found.has_code(FourCC::from(codes::TREX))
        {
            if id_in(alloc, walk, found)? == Some(id) {
                if removed == MANY {
                    return Err(refused(EditRefusal::Many(found.position)));
                }
                removed = removed.saturating_add(1);
                let parts = [(codes::MOOV, 0), (codes::MVEX, 0), (codes::TREX, before)];
                let path = path_of(alloc, &parts)?;
                add(edits, Edit::Remove(path))?;
            }
            before = before.saturating_add(1);
        }
    }
    Ok(())
}

/// Adds the edits that hide each `traf` of the track with this track_ID.
fn drop_fragments<S: Source>(
    alloc: Global,
    walk: &mut BoxWalk<S>,
    boxes: &[TreeBox],
    id: u32,
    edits: &mut Vec<Edit>,
) -> Result<(), Stop> {
    let mut current = None;
    for found in boxes {
        if found.depth <= 1 {
            current = if found.depth == 1 && found.has_code(FourCC::from(codes::TRAF)) {
                Some(found.position)
            } else {
                None
            };
        } else if found.depth == 2 && found.has_code(FourCC::from(codes::TFHD)) {
            if let Some(position) = current {
                if id_in(alloc, walk, found)? == Some(id) {
                    add(edits, Edit::Hide(position, id))?;
                    current = None;
                }
            }
        }
    }
    Ok(())
}

/// Adds the edits that drop the track with this track_ID: they remove its `trak` and `trex`, and make a `free` box of
/// each of its `traf`. Its media data stay in the file, and so do references to it.
pub(crate) fn drop_track<S: Source>(
    alloc: Global,
    file: &mut Opened<S>,
    id: u32,
    edits: &mut Vec<Edit>,
) -> Result<(), Stop> {
    let number = file.number_of(id)?;
    let path = path_of(alloc, &[(codes::MOOV, 0), (codes::TRAK, number)])?;
    let found = file.expect(alloc, &path)?;
    add(edits, Edit::Hide(found.position, id))?;
    add(edits, Edit::Remove(path))?;
    drop_defaults(alloc, &mut file.walk, &file.boxes, id, edits)?;
    drop_fragments(alloc, &mut file.walk, &file.boxes, id, edits)
}
