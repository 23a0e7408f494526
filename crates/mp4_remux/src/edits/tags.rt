//! Shortcuts for tags, which are those of iTunes: items of an `ilst` in `moov/udta/meta`.

ghost use Rattle.std.specs.Prelude.{◌≡◌, IfOk, option_map};
ghost use Rattle.mp4_remux.specs.Tags.{cover_box, data_box};

use crate::edits::boxed::boxed;
use crate::edits::edit::{Edit, Parent};
use crate::edits::opened::{Opened, path_of};
use crate::edits::path_text::path_text;
use crate::edits::refusal::EditRefusal;
use crate::edits::tracks::{MANY, add};
use crate::refusal::{Stop, refused};
use mp4_frame::{FourCC, codes, u8_at, u32_at};
use mp4_walk::{BoxPath, Source};
use std::alloc::{AllocError, Global};

/// The handler of a `meta` with tags of iTunes: `mdir`.
const MDIR: u32 = 0x6d64_6972;
/// The maker of such a handler: `appl`.
const APPL: u32 = 0x6170_706c;
/// The type of a `data` that is a text of UTF-8.
const UTF_8: u32 = 1;
/// The type of a `data` that is a JPEG picture.
const JPEG: u32 = 13;
/// The type of a `data` that is a PNG picture.
const PNG: u32 = 14;
/// The first bytes of a JPEG file.
const JPEG_BEGIN: [u8; 3] = [0xff, 0xd8, 0xff];
/// The first bytes of a PNG file.
const PNG_BEGIN: [u8; 8] = [0x89, 0x50, 0x4e, 0x47, 0x0d, 0x0a, 0x1a, 0x0a];
/// The first byte of the code of a text of QuickTime.
const COPYRIGHT: u8 = 0xa9;

/// A tag.
#[derive(Debug, Drop)]
pub struct Tag {
    /// The code of the item.
    pub key: FourCC,
    /// The bytes of its `data`.
    pub data: Vec<u8>,
}

/// Returns a `data` with a value of this type, for all countries and languages.
fn data_of(alloc: Global, kind: u32, value: &[u8]) -> Result<Vec<u8>, AllocError>
    ensures { IfOk result (λ bytes. bytes.items ≡ data_box kind value.now) }
{
    let mut content = Vec::new(alloc);
    content.extend_from_slice(&kind.to_be_bytes())?;
    content.extend_from_slice(&[0, 0, 0, 0])?;
    content.extend_from_slice(value)?;
    boxed(alloc, codes::DATA, &content)
}

/// Returns a `data` that is a text.
pub fn text_data(alloc: Global, text: &str) -> Result<Vec<u8>, AllocError>
    ensures { IfOk result (λ bytes. bytes.items ≡ data_box 1 text.now) }
{
    data_of(alloc, UTF_8, text.as_bytes())
}

/// Returns a `data` that is a picture, or `None` if `picture` is neither JPEG nor PNG.
pub fn cover_data(alloc: Global, picture: &[u8]) -> Result<Option<Vec<u8>>, AllocError>
    ensures { IfOk result (λ found. option_map (λ bytes. bytes.items) found ≡ cover_box picture.now) }
{
    let kind = if picture.starts_with(&JPEG_BEGIN) {
        JPEG
    } else if picture.starts_with(&PNG_BEGIN) {
        PNG
    } else {
        return Ok(None);
    };
    Ok(Some(data_of(alloc, kind, picture)?))
}

/// Returns the item of `tag`.
fn item_of(alloc: Global, tag: &Tag) -> Result<Vec<u8>, AllocError> {
    boxed(alloc, u32::from(tag.key), &tag.data)
}

/// Returns whether one of `tags` with a number of at least `from` has the key `key`.
fn comes_again(tags: &[Tag], from: usize, key: FourCC) -> bool {
    for index in from..tags.len() {
        if tags[index].key == key {
            return true;
        }
    }
    false
}

/// Returns the items of `tags`. The last of those with one key counts.
fn items_of(alloc: Global, tags: &[Tag]) -> Result<Vec<u8>, AllocError> {
    let mut items = Vec::new(alloc);
    for index in 0..tags.len() {
        if !comes_again(tags, index + 1, tags[index].key) {
            items.extend_from_slice(&item_of(alloc, &tags[index])?)?;
        }
    }
    Ok(items)
}

/// Returns a `meta` with these items.
fn meta_of(alloc: Global, items: &[u8]) -> Result<Vec<u8>, AllocError> {
    let mut handler = Vec::new(alloc);
    handler.extend_from_slice(&[0, 0, 0, 0, 0, 0, 0, 0])?;
    handler.extend_from_slice(&MDIR.to_be_bytes())?;
    handler.extend_from_slice(&APPL.to_be_bytes())?;
    handler.extend_from_slice(&[0, 0, 0, 0, 0, 0, 0, 0, 0])?;
    let mut content = Vec::new(alloc);
    content.extend_from_slice(&[0, 0, 0, 0])?;
    content.extend_from_slice(&boxed(alloc, codes::HDLR, &handler)?)?;
    content.extend_from_slice(&boxed(alloc, codes::ILST, items)?)?;
    boxed(alloc, codes::META, &content)
}

/// Checks that the `meta` at `path` has tags of iTunes, by its handler. A `meta` without one is taken to have them.
fn check_handler<S: Source>(
    alloc: Global,
    file: &mut Opened<S>,
    path: &BoxPath,
) -> Result<(), Stop> {
    let handler = path_of(
        alloc,
        &[
            (codes::MOOV, 0),
            (codes::UDTA, 0),
            (codes::META, 0),
            (codes::HDLR, 0),
        ],
    )?;
    let Some(found) = file.find(&handler) else {
        return Ok(());
    };
    let fields = file.front(alloc, &handler, &found, 12)?;
    if fields.len() >= 12 && u32_at(&fields, 8) == MDIR {
        return Ok(());
    }
    let text = path_text(alloc, path)?;
    Err(refused(EditRefusal::OtherTags {
        path: text,
        position: file.expect(alloc, path)?.position,
    }))
}

/// Adds the edits that put `tags` into the `ilst` of the file: each replaces the first item with its key, or comes
/// after the other items.
fn set_in_list<S: Source>(
    alloc: Global,
    file: &Opened<S>,
    list: BoxPath,
    tags: &[Tag],
    edits: &mut Vec<Edit>,
) -> Result<(), AllocError> {
    let mut items = Vec::new(alloc);
    for index in 0..tags.len() {
        let tag = &tags[index];
        if comes_again(tags, index + 1, tag.key) {
            continue;
        }
        let path = path_of(
            alloc,
            &[
                (codes::MOOV, 0),
                (codes::UDTA, 0),
                (codes::META, 0),
                (codes::ILST, 0),
                (u32::from(tag.key), 0),
            ],
        )?;
        let item = item_of(alloc, tag)?;
        if file.find(&path).is_some() {
            add(edits, Edit::Replace(path, item))?;
        } else {
            items.extend_from_slice(&item)?;
        }
    }
    if !items.is_empty() {
        add(edits, Edit::Insert(Parent::In(list), None, items))?;
    }
    Ok(())
}

/// Adds the edits that set `tags`. `are_removed` says that the tags of the file are removed.
pub(crate) fn set_tags<S: Source>(
    alloc: Global,
    file: &mut Opened<S>,
    tags: &[Tag],
    are_removed: bool,
    edits: &mut Vec<Edit>,
) -> Result<(), Stop> {
    let parts = [
        (codes::MOOV, 0),
        (codes::UDTA, 0),
        (codes::META, 0),
        (codes::ILST, 0),
    ];
    let movie = path_of(alloc, &parts[..1])?;
    let user = path_of(alloc, &parts[..2])?;
    let meta = path_of(alloc, &parts[..3])?;
    let list = path_of(alloc, &parts)?;
    if file.find(&meta).is_some() && !are_removed {
        check_handler(alloc, file, &meta)?;
        if file.find(&list).is_some() {
            return Ok(set_in_list(alloc, file, list, tags, edits)?);
        }
        let bytes = boxed(alloc, codes::ILST, &items_of(alloc, tags)?)?;
        return Ok(add(edits, Edit::Insert(Parent::In(meta), None, bytes))?);
    }
    let bytes = meta_of(alloc, &items_of(alloc, tags)?)?;
    if file.find(&user).is_some() {
        return Ok(add(edits, Edit::Insert(Parent::In(user), None, bytes))?);
    }
    let bytes = boxed(alloc, codes::UDTA, &bytes)?;
    Ok(add(edits, Edit::Insert(Parent::In(movie), None, bytes))?)
}

/// Adds the edits that remove the texts of QuickTime in `moov/udta`.
fn remove_texts<S: Source>(
    alloc: Global,
    file: &Opened<S>,
    user: &BoxPath,
    edits: &mut Vec<Edit>,
) -> Result<(), Stop> {
    let Some(around) = file.find(user) else {
        return Ok(());
    };
    let end = around.position.saturating_add(around.length);
    let mut removed: u64 = 0;
    for index in 0..file.boxes.len() {
        let found = file.boxes[index];
        if found.depth != 2 || found.position < around.position || found.position >= end {
            continue;
        }
        let Some(code) = found.code else {
            continue;
        };
        if u8_at(&code.value, 0) != COPYRIGHT {
            continue;
        }
        if removed == MANY {
            return Err(refused(EditRefusal::Many(found.position)));
        }
        let before = alike_after(file, around.position, index, code);
        let parts = [
            (codes::MOOV, 0),
            (codes::UDTA, 0),
            (u32::from(code), before),
        ];
        let path = path_of(alloc, &parts)?;
        add(edits, Edit::Remove(path))?;
        removed = removed.saturating_add(1);
    }
    Ok(())
}

/// Returns the number of boxes of depth 2 with this code after the position `from`, before the box of number `index`.
fn alike_after<S: Source>(file: &Opened<S>, from: u64, index: usize, code: FourCC) -> u64 {
    let mut count: u64 = 0;
    for at in 0..index.min(file.boxes.len()) {
        let found = file.boxes[at];
        if found.depth == 2 && found.position > from && found.has_code(code) {
            count = count.saturating_add(1);
        }
    }
    count
}

/// Adds the edits that remove the tags of the movie: its `meta`, that in its `udta`, and the texts of QuickTime there.
pub(crate) fn remove_tags<S: Source>(
    alloc: Global,
    file: &Opened<S>,
    edits: &mut Vec<Edit>,
) -> Result<(), Stop> {
    let own = path_of(alloc, &[(codes::MOOV, 0), (codes::META, 0)])?;
    if file.find(&own).is_some() {
        add(edits, Edit::Remove(own))?;
    }
    let parts = [(codes::MOOV, 0), (codes::UDTA, 0), (codes::META, 0)];
    let user = path_of(alloc, &parts[..2])?;
    let meta = path_of(alloc, &parts)?;
    if file.find(&meta).is_some() {
        add(edits, Edit::Remove(meta))?;
    }
    remove_texts(alloc, file, &user, edits)
}
