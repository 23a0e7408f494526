//! The pictures of a video entry.

ghost use Rattle.std.specs.Prelude.{◌≡◌, IfOk, IfSome};
ghost use Rattle.mp4_info.specs.Entries.{fields_of, picture_in, size_of};

use crate::codec::in_entry;
use crate::entry::{EntryReading, ReadsEntry};
use mp4_extra_pictures::clli::ClliBox;
use mp4_extra_pictures::colr::ColrBox;
use mp4_extra_pictures::mdcv::MdcvBox;
use mp4_extra_pictures::pasp::PaspBox;
use mp4_frame::{codes, u16_at};
use mp4_io::{Failure, or_read};
use mp4_movie::BoxLocation;
use mp4_walk::{BoxWalk, Source, TreeBox};
use std::alloc::Global;

/// The number of bytes of an entry's first fields that have its size, or its channels and sample rate.
const FIELDS: u64 = 44;

/// The size of pictures, in pixels.
#[derive(Clone, Copy, Debug, PartialEq, Eq)]
pub struct Size {
    /// The width.
    pub width: u16,
    /// The height.
    pub height: u16,
}

/// The pictures of a video entry. A value is `None` if its box is missing or has a fault.
#[derive(Debug, Drop)]
pub struct Picture {
    /// Their size, unless the entry is too short.
    pub size: Option<Size>,
    /// The shape of a pixel, `pasp`.
    pub aspect: Option<PaspBox>,
    /// The colours, `colr`.
    pub colours: Option<ColrBox>,
    /// The display on which the video was mastered, `mdcv`.
    pub mastering: Option<MdcvBox>,
    /// The brightness of the content, `clli`.
    pub light: Option<ClliBox>,
}

/// Returns the first fields of an entry: at most 44 bytes.
pub fn fields_of<S: Source>(
    alloc: Global,
    walk: &mut BoxWalk<S>,
    found: TreeBox,
) -> Result<Vec<u8>, Failure>
    ensures value { IfSome walk.old.bytes (λ file. IfOk result (λ r. r.items ≡ fields_of file found)) }
    ensures kept { walk.new ≡ walk.old }
{
    let content = found.length.saturating_sub(found.header_length).min(FIELDS);
    let front = TreeBox {
        length: found.header_length.saturating_add(content),
        ..found
    };
    or_read(walk.read_content(alloc, &front))
}

/// Returns the size of the pictures of a video entry with these first fields, or `None` if they are too short.
fn size_of(fields: &[u8]) -> Option<Size>
    ensures { result ≡ size_of fields.now }
{
    if fields.len() < 28 {
        return None;
    }
    Some(Size {
        width: u16_at(fields, 24),
        height: u16_at(fields, 26),
    })
}

/// Returns the pictures of the video entry at `place`.
pub fn picture_in<S: Source>(
    alloc: Global,
    walk: &mut BoxWalk<S>,
    place: BoxLocation<'_>,
) -> Result<Picture, Failure>
    ensures value { IfSome walk.old.bytes
        (λ file. IfOk result (λ r. r ≡ picture_in ⟦<EntryReading as ReadsEntry>⟧.readings file
        (record { box = place.entry.found; after = place.entry.after.now }))) }
    ensures kept { walk.new ≡ walk.old }
{
    let fields = fields_of(alloc, walk, place.found)?;
    Ok(Picture {
        size: size_of(&fields),
        aspect: in_entry::<PaspBox, S>(alloc, walk, place.after, codes::PASP)?,
        colours: in_entry::<ColrBox, S>(alloc, walk, place.after, codes::COLR)?,
        mastering: in_entry::<MdcvBox, S>(alloc, walk, place.after, codes::MDCV)?,
        light: in_entry::<ClliBox, S>(alloc, walk, place.after, codes::CLLI)?,
    })
}
