//! The media data of a file.

ghost use Rattle.std.specs.Prelude.{◌≡◌, ◌≤◌, true, IfOk, IfSome, None, length};
ghost use Rattle.mp4_check.specs.Media.{AreInOrder, extent_of, is_media, media_at, media_of};

use crate::extent::Extent;
use mp4_content::or_memory;
use mp4_frame::codes::MDAT;
use mp4_io::Failure;
use mp4_show::Result;
use mp4_stream::FourCC;
use mp4_walk::{BoxWalk, Source, TreeBox};
use std::alloc::Global;

/// The contents of the `mdat` boxes of a file, in the order of the file.
#[derive(Drop)]
pub struct Media {
    /// The contents.
    pub extents: Vec<Extent>,
    /// The length of the file.
    pub length: u64,
}

/// Returns whether `found` is an `mdat` of the top level.
fn is_media(found: &TreeBox) -> bool
    ensures { result ≡ is_media found.now }
{
    found.depth == 0 && found.has_code(FourCC::from(MDAT))
}

/// Returns the number of bytes of the file that `walk` walks over.
pub fn file_length<S: Source>(walk: &BoxWalk<S>) -> u64
    ensures { IfSome walk.now.bytes (λ file. result ≡ length file) }
{
    walk.length()
}

/// Returns the content of `found` that is present in a file of `length` bytes.
fn extent_of(found: &TreeBox, length: u64) -> Extent
    ensures { result ≡ extent_of length found.now }
{
    let begin = found.content_position();
    let end = found.position.saturating_add(found.length).min(length);
    Extent {
        begin,
        end: end.max(begin),
    }
}

/// Returns the media data of a file of `length` bytes with the boxes `boxes`.
fn media_of(alloc: Global, boxes: &[TreeBox], length: u64) -> Result<Media>
    ensures extents { IfOk result (λ media. media.extents.items ≡ media_of length boxes.now) }
    ensures length { IfOk result (λ media. media.length ≡ length) }
{
    let mut extents = Vec::new(alloc);
    for found in boxes {
        if is_media(found) {
            extents.push(extent_of(found, length))?;
        }
    }
    Ok(Media { extents, length })
}

/// Returns true only if each of `extents` begins at the beginning of the one before it or later.
fn are_in_order(extents: &[Extent]) -> bool
    ensures { result ≡ true → AreInOrder 0 extents.now }
{
    let mut last = 0u64;
    for extent in extents {
        if extent.begin < last {
            return false;
        }
        last = extent.begin;
    }
    true
}

/// Returns the media data of the file that `walk` walks over, with the boxes `boxes`. The search for an extent needs
/// them in order, so boxes in another order are a failed read. The boxes of a walk are in order.
pub fn media_in<S: Source>(
    alloc: Global,
    walk: &BoxWalk<S>,
    boxes: &[TreeBox],
) -> std::result::Result<Media, Failure>
    ensures value { IfSome walk.now.bytes
        (λ file. IfOk result (λ media. (media.extents.items ≡ media_of (length file) boxes.now)
        × (media.length ≡ length file))) }
    ensures order { IfOk result (λ media. AreInOrder 0 media.extents.items) }
{
    let size = file_length(walk);
    let media = or_memory(media_of(alloc, boxes, size))?;
    if !are_in_order(&media.extents) {
        return Err(Failure::Read);
    }
    Ok(media)
}

/// Returns the last of `extents` that begins at `offset` or before it. They are in the order of the file. It takes one
/// step each time that `extents` can be halved.
pub fn media_at(extents: &[Extent], offset: u64) -> Option<Extent>
    requires { AreInOrder 0 extents.now }
    ensures { result ≡ media_at None extents.now offset }
{
    let mut low = 0;
    let mut high = extents.len();
    'halves: while low < high {
        let middle = low + (high - low) / 2;
        if extents[middle].begin <= offset {
            low = middle + 1;
        } else {
            high = middle;
        }
    }
    if low == 0 {
        None
    } else {
        Some(extents[low - 1])
    }
}
