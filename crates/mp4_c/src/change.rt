//! Reads the rows of changes, which are those of `mp4remux edit`.

ghost use Rattle.std.specs.Prelude.{ℕ, ◌≡◌, ◌++◌, ◌∷◌, [], IfOk, List, OnOk};
ghost use Rattle.std.specs.List.{AllZip, flat_map};
ghost use Rattle.mp4_c.specs.Changes.{AreBoxes, HasLevel, HasPath, IsChange, IsIn, code_bytes, place_of};
ghost use Rattle.mp4_c.specs.declared.change.TheConstants as kinds;
ghost use Rattle.mp4_remux.specs.declared.edits.shortcut.Shortcut.{Shortcut};
ghost use Rattle.mp4_walk.specs.PathText.{ArePathParts};

use crate::text_part::TextPart;
use mp4_frame::{FourCC, codes};
use mp4_remux::edits::{
    Edit, Parent, Shortcut, count_sized, cover_data, packed_language, text_data,
};
use mp4_walk::{BoxPath, PathError};
use std::alloc::{AllocError, Global};
use std::str;

/// A change of a file. Its kind says which fields it has.
#[repr(C)]
#[derive(Clone, Copy)]
pub struct ChangeRow {
    /// The path of a box, in the data.
    pub path: TextPart,
    /// New boxes, codes, a language, a text or a picture, in the data.
    pub bytes: TextPart,
    /// The number of the box before which boxes are inserted, or `LAST`.
    pub number: u64,
    /// The number of the kind.
    pub kind: u32,
    /// The track_ID of a track.
    pub track_id: u32,
    /// Degrees, a switch or the code of a tag.
    pub value: u32,
}

/// Removes the box at `path`.
pub const REMOVE: u32 = 1;
/// Inserts the boxes `bytes` before box `number` in the box at `path`.
pub const INSERT: u32 = 2;
/// Replaces the box at `path` by the box `bytes`.
pub const REPLACE: u32 = 3;
/// Sets the brands to the codes `bytes`.
pub const BRANDS: u32 = 4;
/// Sets the language of a track to the letters `bytes`.
pub const LANGUAGE: u32 = 5;
/// Turns the pictures of a track by `value` degrees.
pub const ROTATE: u32 = 6;
/// Enables or disables a track.
pub const ENABLE: u32 = 7;
/// Removes the tags.
pub const NO_TAGS: u32 = 8;
/// Sets the tag `value` to the text `bytes`.
pub const TAG: u32 = 9;
/// Sets the cover to the picture `bytes`.
pub const COVER: u32 = 10;
/// Drops a track.
pub const DROP_TRACK: u32 = 11;

/// The number of an insertion after the last box.
pub const LAST: u64 = 0xffff_ffff_ffff_ffff;

/// The reason why a row is no change.
#[derive(Clone, Copy, Debug, PartialEq, Eq, thiserror::Error)]
pub enum ChangeFault {
    /// No kind has this number.
    #[error("no kind of change has this number")]
    Kind,
    /// A part ends after the data.
    #[error("a part of the data ends after them")]
    Part,
    /// The path is none.
    #[error("this is not a path")]
    Path,
    /// There are no bytes.
    #[error("there is no box")]
    NoBox,
    /// The bytes are not one box.
    #[error("this is not one box")]
    OneBox,
    /// The bytes are not boxes.
    #[error("these are not whole boxes, each with a size")]
    Boxes,
    /// The bytes are not codes.
    #[error("these are not codes of four bytes")]
    Codes,
    /// The bytes are not a language.
    #[error("this is not three lower-case letters")]
    Language,
    /// The value is not a turn.
    #[error("this is not 0, 90, 180 or 270")]
    Degrees,
    /// The value is not a switch.
    #[error("this is neither 0 nor 1")]
    Switch,
    /// The bytes are not a text.
    #[error("this is not UTF-8")]
    Text,
    /// The bytes are not a picture.
    #[error("this is neither JPEG nor PNG")]
    Picture,
    /// Memory was refused.
    #[error("out of memory")]
    Memory,
}

impl From<AllocError> for ChangeFault {
    fn from(_error: AllocError) -> ChangeFault {
        ChangeFault::Memory
    }
}

/// A row that is no change, and the reason.
#[derive(Clone, Copy, Debug, PartialEq, Eq)]
pub struct NoChange {
    /// The number of the row, counted from 0.
    pub index: usize,
    /// The reason.
    pub fault: ChangeFault,
}

/// Returns the bytes of `part`, if they are in `data`.
fn part_in<'a>(data: &'a [u8], part: TextPart) -> Result<&'a [u8], ChangeFault>
    ensures { IfOk result (λ bytes. IsIn data.now part bytes.now) }
{
    if part.position > data.len() || part.length > data.len() - part.position {
        return Err(ChangeFault::Part);
    }
    Ok(&data[part.position..part.position + part.length])
}

/// Returns the text that `part` of `data` is.
fn text_in<'a>(data: &'a [u8], part: TextPart, fault: ChangeFault) -> Result<&'a str, ChangeFault>
    ensures { IfOk result (λ text. IsIn data.now part text.now) }
{
    match str::from_utf8(part_in(data, part)?) {
        Ok(text) => Ok(text),
        Err(_) => Err(fault),
    }
}

/// Returns the path that `text` is.
fn path_of(alloc: Global, text: &str) -> Result<BoxPath, ChangeFault>
    ensures { IfOk result (λ path. ArePathParts text.now path.parts.items) }
{
    match BoxPath::parse(alloc, text) {
        Ok(path) => Ok(path),
        Err(PathError::Memory) => Err(ChangeFault::Memory),
        Err(_) => Err(ChangeFault::Path),
    }
}

/// Returns the path that `part` of `data` is.
fn path_in(alloc: Global, data: &[u8], part: TextPart) -> Result<BoxPath, ChangeFault>
    ensures { IfOk result (λ path. HasPath data.now part path) }
{
    path_of(alloc, text_in(data, part, ChangeFault::Path)?)
}

/// Returns the level that `part` of `data` means: `/` is the file.
fn level_in(alloc: Global, data: &[u8], part: TextPart) -> Result<Parent, ChangeFault>
    ensures { IfOk result (λ level. HasLevel data.now part level) }
{
    let text = text_in(data, part, ChangeFault::Path)?;
    if text == "/" {
        return Ok(Parent::File);
    }
    Ok(Parent::In(path_of(alloc, text)?))
}

/// Checks that `bytes` are boxes, and one box only if `is_one`.
fn check_boxes(alloc: Global, bytes: &[u8], is_one: bool) -> Result<(), ChangeFault>
    ensures { OnOk result (AreBoxes is_one bytes.now) }
{
    match count_sized(alloc, bytes) {
        Ok(Some(1)) => Ok(()),
        Ok(Some(_)) if is_one => Err(ChangeFault::OneBox),
        Ok(Some(0)) => Err(ChangeFault::NoBox),
        Ok(Some(_)) => Ok(()),
        Ok(None) => Err(ChangeFault::Boxes),
        Err(_) => Err(ChangeFault::Memory),
    }
}

/// Returns a copy of `part` of `data`, if it is boxes, and one box only if `is_one`.
fn boxes_in(
    alloc: Global,
    data: &[u8],
    part: TextPart,
    is_one: bool,
) -> Result<Vec<u8>, ChangeFault>
    ensures part { IfOk result (λ bytes. IsIn data.now part bytes.items) }
    ensures boxes { IfOk result (λ bytes. AreBoxes is_one bytes.items) }
{
    let bytes = part_in(data, part)?;
    check_boxes(alloc, bytes, is_one)?;
    Ok(Vec::from_slice(alloc, bytes)?)
}

/// Returns the codes with these bytes.
fn codes_of(alloc: Global, values: &[[u8; 4]]) -> Result<Vec<FourCC>, AllocError>
    ensures { IfOk result (λ found. flat_map code_bytes found.items ≡ flat_map (λ value. value) values.now) }
{
    let mut found = Vec::new(alloc);
    for value in values {
        found.push(FourCC { value: *value })?;
    }
    Ok(found)
}

/// Returns the codes that `part` of `data` is, four bytes each.
fn codes_in(alloc: Global, data: &[u8], part: TextPart) -> Result<Vec<FourCC>, ChangeFault>
    ensures { IfOk result (λ found. IsIn data.now part (flat_map code_bytes found.items)) }
{
    let (values, rest) = part_in(data, part)?.as_chunks::<4>();
    if values.is_empty() || !rest.is_empty() {
        return Err(ChangeFault::Codes);
    }
    Ok(codes_of(alloc, values)?)
}

/// Returns the place before box `number`, or after the last box.
fn place_of(number: u64) -> Option<u64>
    ensures { result ≡ place_of number }
{
    if number == LAST { None } else { Some(number) }
}

/// Returns the insertion that `row` asks for.
fn insertion(alloc: Global, row: &ChangeRow, data: &[u8]) -> Result<Shortcut, ChangeFault>
    requires { row.now.kind ≡ kinds.INSERT }
    ensures { IfOk result (λ change. IsChange data.now row.now change) }
{
    let level = level_in(alloc, data, row.path)?;
    let bytes = boxes_in(alloc, data, row.bytes, false)?;
    Ok(Shortcut::Edit(Edit::Insert(level, place_of(row.number), bytes)))
}

/// Returns the replacement that `row` asks for.
fn replacement(alloc: Global, row: &ChangeRow, data: &[u8]) -> Result<Shortcut, ChangeFault>
    requires { row.now.kind ≡ kinds.REPLACE }
    ensures { IfOk result (λ change. IsChange data.now row.now change) }
{
    let path = path_in(alloc, data, row.path)?;
    let bytes = boxes_in(alloc, data, row.bytes, true)?;
    Ok(Shortcut::Edit(Edit::Replace(path, bytes)))
}

/// Returns the change of a language that `row` asks for.
fn language(row: &ChangeRow, data: &[u8]) -> Result<Shortcut, ChangeFault>
    requires { row.now.kind ≡ kinds.LANGUAGE }
    ensures { IfOk result (λ change. IsChange data.now row.now change) }
{
    match packed_language(text_in(data, row.bytes, ChangeFault::Language)?) {
        Some(packed) => Ok(Shortcut::Language(row.track_id, packed)),
        None => Err(ChangeFault::Language),
    }
}

/// Returns the turn that `row` asks for.
fn rotation(row: &ChangeRow) -> Result<Shortcut, ChangeFault>
    requires { row.now.kind ≡ kinds.ROTATE }
    ensures { IfOk result (λ change. (D : List ℕ) → IsChange D row.now change) }
{
    match row.value {
        0 | 90 | 180 | 270 => Ok(Shortcut::Rotate(row.track_id, row.value)),
        _ => Err(ChangeFault::Degrees),
    }
}

/// Returns the switch that `row` asks for.
fn switch(row: &ChangeRow) -> Result<Shortcut, ChangeFault>
    requires { row.now.kind ≡ kinds.ENABLE }
    ensures { IfOk result (λ change. (D : List ℕ) → IsChange D row.now change) }
{
    match row.value {
        0 => Ok(Shortcut::Enable(row.track_id, false)),
        1 => Ok(Shortcut::Enable(row.track_id, true)),
        _ => Err(ChangeFault::Switch),
    }
}

/// Returns the tag that `row` asks for.
fn tag(alloc: Global, row: &ChangeRow, data: &[u8]) -> Result<Shortcut, ChangeFault>
    requires { row.now.kind ≡ kinds.TAG }
    ensures { IfOk result (λ change. IsChange data.now row.now change) }
{
    let text = text_in(data, row.bytes, ChangeFault::Text)?;
    Ok(Shortcut::Tag(FourCC::from(row.value), text_data(alloc, text)?))
}

/// Returns the cover that `row` asks for.
fn cover(alloc: Global, row: &ChangeRow, data: &[u8]) -> Result<Shortcut, ChangeFault>
    requires { row.now.kind ≡ kinds.COVER }
    ensures { IfOk result (λ change. IsChange data.now row.now change) }
{
    match cover_data(alloc, part_in(data, row.bytes)?)? {
        Some(data) => Ok(Shortcut::Tag(FourCC::from(codes::COVR), data)),
        None => Err(ChangeFault::Picture),
    }
}

/// Returns the change that `row` asks for. Its parts are those of `data`.
fn change_of(alloc: Global, row: &ChangeRow, data: &[u8]) -> Result<Shortcut, ChangeFault>
    ensures { IfOk result (λ change. IsChange data.now row.now change) }
{
    match row.kind {
        REMOVE => Ok(Shortcut::Edit(Edit::Remove(path_in(alloc, data, row.path)?))),
        INSERT => insertion(alloc, row, data),
        REPLACE => replacement(alloc, row, data),
        BRANDS => Ok(Shortcut::Brands(codes_in(alloc, data, row.bytes)?)),
        LANGUAGE => language(row, data),
        ROTATE => rotation(row),
        ENABLE => switch(row),
        NO_TAGS => Ok(Shortcut::NoTags),
        TAG => tag(alloc, row, data),
        COVER => cover(alloc, row, data),
        DROP_TRACK => Ok(Shortcut::DropTrack(row.track_id)),
        _ => Err(ChangeFault::Kind),
    }
}

/// Adds `change` to `changes`.
fn push_change(changes: &mut Vec<Shortcut>, change: Shortcut) -> Result<(), ChangeFault>
    ensures { OnOk result (changes.new.items ≡ changes.old.items ++ change ∷ []) }
{
    match changes.push(change) {
        Ok(()) => Ok(()),
        Err(_) => Err(ChangeFault::Memory),
    }
}

/// Adds the change that `row` asks for to `changes`.
fn add_change(
    alloc: Global,
    row: &ChangeRow,
    data: &[u8],
    changes: &mut Vec<Shortcut>,
) -> Result<(), ChangeFault>
    ensures { OnOk result ((change : Shortcut) × IsChange data.now row.now change
        × (changes.new.items ≡ changes.old.items ++ change ∷ [])) }
{
    let change = change_of(alloc, row, data)?;
    push_change(changes, change)
}

/// Returns the changes that `rows` ask for, or the first row that is none. Their parts are those of `data`.
pub(crate) fn changes_of(
    alloc: Global,
    rows: &[ChangeRow],
    data: &[u8],
) -> Result<Vec<Shortcut>, NoChange>
    ensures { IfOk result (λ changes. AllZip (IsChange data.now) rows.now changes.items) }
{
    let mut changes = Vec::new(alloc);
    for index in 0..rows.len() {
        match add_change(alloc, &rows[index], data, &mut changes) {
            Ok(()) => {}
            Err(fault) => return Err(NoChange { index, fault }),
        }
    }
    Ok(changes)
}
