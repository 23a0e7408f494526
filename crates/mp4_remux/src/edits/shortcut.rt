//! Shortcuts: what people change most, as edits of the boxes of a file.

ghost use Rattle.std.specs.Prelude.{◌≡◌, ◌++◌, [], All, List, None, IfOk, OnOk};
ghost use Rattle.std.specs.List.{flat_map};
ghost use Rattle.mp4_remux.specs.Shortcuts.{HidesDropped, asked_by, dropped_by, other_by};
ghost use Rattle.mp4_remux.specs.declared.edits.edit.Edit.{Edit};

use crate::edits::boxed::boxed;
use crate::edits::edit::Edit;
use crate::edits::opened::{Opened, path_of};
use crate::edits::refusal::EditRefusal;
use crate::edits::tags::{Tag, remove_tags, set_tags};
use crate::edits::tracks::{Patched, add, add_patched, drop_track, enable, rotate, set_language};
use crate::refusal::{Stop, refused};
use mp4_frame::{FourCC, codes, u32_at};
use mp4_walk::Source;
use std::alloc::{AllocError, Global};

/// A change of a file.
#[derive(Debug, Drop)]
pub enum Shortcut {
    /// An edit, as it is.
    Edit(Edit),
    /// Sets the major brand to the first of these, and adds those that are missing to the compatible brands.
    Brands(Vec<FourCC>),
    /// Sets the language of the track with a track_ID to a result of `packed_language`.
    Language(u32, u16),
    /// Turns the pictures of the track with a track_ID clockwise by 0, 90, 180 or 270 degrees.
    Rotate(u32, u32),
    /// Enables the track with a track_ID, or disables it.
    Enable(u32, bool),
    /// Removes the tags of the movie.
    NoTags,
    /// Sets a tag of iTunes to a `data`.
    Tag(FourCC, Vec<u8>),
    /// Drops the track with a track_ID.
    DropTrack(u32),
}

/// The changes of a file that are not edits yet.
#[derive(Drop)]
struct Pending {
    /// The boxes of which fields are changed.
    pub patched: Vec<Patched>,
    /// The tags that are set.
    pub tags: Vec<Tag>,
    /// True if the tags of the file are removed.
    pub are_removed: bool,
}

/// Returns whether one of `brands` is `brand`.
fn has_brand(brands: &[u8], brand: FourCC) -> bool {
    for index in 0..brands.len() / 4 {
        if u32_at(brands, 4 * index) == u32::from(brand) {
            return true;
        }
    }
    false
}

/// Adds the edit that sets the brands of the file.
fn set_brands<S: Source>(
    alloc: Global,
    file: &mut Opened<S>,
    brands: &[FourCC],
    edits: &mut Vec<Edit>,
) -> Result<(), Stop> {
    let path = path_of(alloc, &[(codes::FTYP, 0)])?;
    let found = file.expect(alloc, &path)?;
    let old = file.front(alloc, &path, &found, found.content_length().max(8))?;
    let Some(major) = brands.first() else {
        return Ok(());
    };
    let mut content = Vec::new(alloc);
    content.extend_from_slice(&major.value)?;
    if old.len() >= 8 {
        content.extend_from_slice(&old[4..])?;
    }
    for brand in brands {
        if content.len() >= 8 && !has_brand(&content[8..], *brand) {
            content.extend_from_slice(&brand.value)?;
        }
    }
    let bytes = boxed(alloc, codes::FTYP, &content)?;
    Ok(add(edits, Edit::Replace(path, bytes))?)
}

/// Adds `tag` to `tags`.
fn add_tag(tags: &mut Vec<Tag>, tag: Tag) -> Result<(), AllocError> {
    tags.push(tag)?;
    Ok(())
}

/// Adds the edits that `shortcut` stands for, or keeps it in `pending`.
fn add_shortcut<S: Source>(
    alloc: Global,
    file: &mut Opened<S>,
    shortcut: Shortcut,
    pending: &mut Pending,
    edits: &mut Vec<Edit>,
) -> Result<(), Stop> {
    match shortcut {
        Shortcut::Edit(edit) => Ok(add(edits, edit)?),
        Shortcut::Brands(brands) => set_brands(alloc, file, &brands, edits),
        Shortcut::Language(id, language) => {
            set_language(alloc, file, id, language, &mut pending.patched, edits)
        }
        Shortcut::Rotate(id, degrees) => rotate(alloc, file, id, degrees, &mut pending.patched),
        Shortcut::Enable(id, is_enabled) => {
            enable(alloc, file, id, is_enabled, &mut pending.patched)
        }
        Shortcut::NoTags => {
            pending.are_removed = true;
            Ok(())
        }
        Shortcut::Tag(key, data) => Ok(add_tag(&mut pending.tags, Tag { key, data })?),
        Shortcut::DropTrack(id) => drop_track(alloc, file, id, edits),
    }
}

/// Returns the track_IDs of the tracks that `shortcuts` drop.
fn dropped_ids(alloc: Global, shortcuts: &[Shortcut]) -> Result<Vec<u32>, AllocError>
    ensures { IfOk result (λ ids. ids.items ≡ flat_map dropped_by shortcuts.now) }
{
    let mut ids = Vec::new(alloc);
    for shortcut in shortcuts {
        if let Shortcut::DropTrack(id) = shortcut {
            ids.push(*id)?;
        }
    }
    Ok(ids)
}

/// Adds `shortcut` to `asked` if it is an edit, and else to `others`.
fn put(
    asked: &mut Vec<Edit>,
    others: &mut Vec<Shortcut>,
    shortcut: Shortcut,
) -> Result<(), AllocError>
    ensures asked { OnOk result (asked.new.items ≡ asked.old.items ++ asked_by shortcut) }
    ensures others { OnOk result (others.new.items ≡ others.old.items ++ other_by shortcut) }
{
    match shortcut {
        Shortcut::Edit(edit) => asked.push(edit)?,
        other => others.push(other)?,
    }
    Ok(())
}

/// Returns those of `shortcuts` that are edits, and the others, both in order.
fn separate(
    alloc: Global,
    shortcuts: Vec<Shortcut>,
) -> Result<(Vec<Edit>, Vec<Shortcut>), AllocError>
    ensures asked { IfOk result (λ r. r.0.items ≡ flat_map asked_by shortcuts.items) }
    ensures others { IfOk result (λ r. r.1.items ≡ flat_map other_by shortcuts.items) }
{
    let mut asked = Vec::new(alloc);
    let mut others = Vec::new(alloc);
    for shortcut in shortcuts {
        put(&mut asked, &mut others, shortcut)?;
    }
    Ok((asked, others))
}

/// Returns the edits of `source` that `shortcuts`, of which none is an edit itself, stand for. No clause says which
/// edits they are.
fn planned<S: Source>(alloc: Global, source: S, shortcuts: Vec<Shortcut>) -> Result<Vec<Edit>, Stop>
    ensures { shortcuts.items ≡ [] → IfOk result (λ edits. edits.items ≡ []) }
{
    let mut edits = Vec::new(alloc);
    if shortcuts.is_empty() {
        return Ok(edits);
    }
    let mut file = Opened::new(alloc, source)?;
    let mut pending = Pending {
        patched: Vec::new(alloc),
        tags: Vec::new(alloc),
        are_removed: false,
    };
    for shortcut in shortcuts {
        add_shortcut(alloc, &mut file, shortcut, &mut pending, &mut edits)?;
    }
    let Pending {
        patched,
        tags,
        are_removed,
    } = pending;
    add_patched(patched, &mut edits)?;
    if are_removed {
        remove_tags(alloc, &file, &mut edits)?;
    }
    if !tags.is_empty() {
        set_tags(alloc, &mut file, &tags, are_removed, &mut edits)?;
    }
    Ok(edits)
}

/// Returns the track_ID of a box that `edit` hides, if it is none of `ids`.
fn stray(edit: &Edit, ids: &[u32]) -> Option<u32>
    ensures { result ≡ None → HidesDropped ids.now edit.now }
{
    let Edit::Hide(_, id) = edit else {
        return None;
    };
    if ids.contains(id) { None } else { Some(*id) }
}

/// Checks that `edits` hide only boxes of tracks with one of the track_IDs `ids`.
fn check_hidden(edits: &[Edit], ids: &[u32]) -> Result<(), Stop>
    ensures { OnOk result (All (HidesDropped ids.now) edits.now) }
{
    for edit in edits {
        match stray(edit, ids) {
            None => {}
            Some(id) => return Err(refused(EditRefusal::NoTrackId(id))),
        }
    }
    Ok(())
}

/// Returns `asked` with `more` after them.
fn joined(asked: Vec<Edit>, more: Vec<Edit>) -> Result<Vec<Edit>, AllocError>
    ensures { IfOk result (λ edits. edits.items ≡ asked.items ++ more.items) }
{
    let (mut edits, mut rest) = (asked, more);
    edits.append(&mut rest)?;
    Ok(edits)
}

/// Returns the edits of `source` that `shortcuts` stand for: first those that are edits themselves, in order, and then
/// those of the others. Only boxes of tracks that `shortcuts` drop are hidden.
pub fn edits_of<S: Source>(
    alloc: Global,
    source: S,
    shortcuts: Vec<Shortcut>,
) -> Result<Vec<Edit>, Stop>
    ensures asked { IfOk result
        (λ edits. (more : List Edit) × (edits.items ≡ flat_map asked_by shortcuts.items ++ more)) }
    ensures only { IfOk result
        (λ edits. flat_map other_by shortcuts.items ≡ [] → edits.items ≡ flat_map asked_by shortcuts.items) }
    ensures dropped { IfOk result
        (λ edits. All (HidesDropped (flat_map dropped_by shortcuts.items)) edits.items) }
{
    let ids = dropped_ids(alloc, &shortcuts)?;
    let (asked, others) = separate(alloc, shortcuts)?;
    let more = planned(alloc, source, others)?;
    let edits = joined(asked, more)?;
    check_hidden(&edits, &ids)?;
    Ok(edits)
}
