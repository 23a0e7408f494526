//! The operations that a box needs for the boxes that it holds.

ghost use Rattle.std.specs.Prelude.{◌≡◌, ◌↔◌, ◌-◌, ◌^◌, ℕ, Bool, List, min, All, IsTrue, length, sum_by};
ghost use Rattle.mp4_compose.specs.Kept.{KeepsBytes, AreKept};
ghost use Rattle.mp4_frame.specs.Format.{Format};
ghost use Rattle.mp4_frame.specs.Reading.{Reading, AnswersAs};
ghost use Rattle.mp4_frame.specs.Streams.{stream, boxes};
ghost use Rattle.mp4_frame.specs.declared.box_type.BoxType.{BoxType};
ghost use Rattle.mp4_compose.specs.Either.{format_or, known_or, reading_or};
ghost use Rattle.mp4_compose.specs.ChildBox.{IsChild, child_of};
ghost use Rattle.mp4_compose.specs.ChildLaws.{child_or};

use crate::either::{CodedBox, Either};
use crate::stable_box::StableBox;
use mp4_frame::{
    ByteCursor, Mp4Box, Result, StreamBox, WriteBox, frame_at, put_boxes, read_boxes_as, u32_at,
};
use std::alloc::Global;

/// A type of boxes that a box can hold. Lists of boxes ask for several traits of their members, and this trait has all
/// of them in one. So boxes can be held in boxes, at any depth.
pub trait ChildBox: Drop + Sized {
    /// The format of the boxes.
    ghost child_format: { Format Self };

    /// The names that are read. Boxes with other names are skipped.
    ghost child_known: { BoxType → Bool };

    /// The reading of a box with a given name. Its other arguments are the bytes of the content, the offset of the
    /// box's start, and the box's size.
    ghost child_reading: { BoxType → List ℕ → ℕ → ℕ → Reading Self };

    /// Reads the boxes of `content` from offset `at` to its end.
    fn read_children(alloc: Global, content: &[u8], at: u64) -> Result<Vec<Self>>
        ensures { AnswersAs (λ v. v.items) result (boxes child_known child_reading content.now at) };

    /// Returns `true` only if the boxes that are read in `content`, starting at offset `at`, are written in the same
    /// bytes. The function takes no memory. `false` decides nothing, and a type may always return it.
    fn are_kept_in(content: &[u8], at: usize) -> bool
        ensures { IsTrue result → AreKept child_known child_reading child_format content.now at }
    {
        let _unread = content;
        let _at = at;
        false
    }

    /// Returns the number of bytes of all boxes, at most 2^64 - 1.
    fn size_of_children(boxes: &[Self]) -> u64
        ensures { result ≡ min (sum_by child_format.size boxes.now) (2 ^ 64 - 1) };

    /// Returns whether all boxes can be written.
    fn can_write_children(boxes: &[Self]) -> bool
        ensures { IsTrue result ↔ All child_format.Writable boxes.now };

    /// Fills `out` with the boxes' bytes, one box after the other. The length of `out` is the number of these bytes.
    fn put_children(boxes: &[Self], out: &mut [u8])
        requires writable { All child_format.Writable boxes.now }
        requires room { length out.old ≡ length (stream child_format.bytes boxes.now) }
        ensures { out.new ≡ stream child_format.bytes boxes.now };

    /// The laws of boxes in lists.
    ghost child_laws: { IsChild child_known child_reading child_format };
}

/// Reads the boxes of `content` from offset `at` to its end.
pub fn read_children_as<B: StreamBox>(alloc: Global, content: &[u8], at: u64) -> Result<Vec<B>>
    ensures { AnswersAs (λ v. v.items) result (boxes B.known B.named_reading content.now at) }
{
    let mut reader = ByteCursor::new(content);
    reader.set_position(at);
    read_boxes_as(alloc, &mut reader)
}

/// Returns whether all boxes of `content`, starting at offset `start`, have headers of 8 bytes that hold their sizes.
/// Boxes of a type that keeps bytes are then written in the same bytes.
pub fn have_short_headers<B: StreamBox>(content: &[u8], start: usize) -> bool
    requires { KeepsBytes B.known B.named_reading B.format }
    ensures { IsTrue result → AreKept B.known B.named_reading B.format content.now start }
{
    let mut at = start;
    while at < content.len() {
        let Ok(frame) = frame_at(content, at) else {
            return false;
        };
        if frame.start != at as u64 {
            return false;
        }
        if u64::from(u32_at(content, at)) != frame.size {
            return false;
        }
        at = frame.end() as usize;
    }
    true
}

/// Returns the number of bytes of all boxes, at most 2^64 - 1.
pub fn total_size<B: Mp4Box>(boxes: &[B]) -> u64
    ensures { result ≡ min (sum_by B.format.size boxes.now) (2 ^ 64 - 1) }
{
    let mut total: u64 = 0;
    for b in boxes {
        total = total.saturating_add(b.box_size());
    }
    total
}

/// Returns whether all boxes can be written.
pub fn all_writable<B: WriteBox>(boxes: &[B]) -> bool
    ensures { IsTrue result ↔ All B.format.Writable boxes.now }
{
    for b in boxes {
        if !b.is_writable() {
            return false;
        }
    }
    true
}

/// Boxes of a type that knows names by their codes, beside boxes of another type.
impl<A: CodedBox, B: StableBox> ChildBox for Either<A, B> {
    ghost child_format = { format_or A.known A.format B.format };

    ghost child_known = { known_or A.known B.known };

    ghost child_reading = { reading_or A.known A.named_reading B.named_reading };

    fn read_children(alloc: Global, content: &[u8], at: u64) -> Result<Vec<Self>> {
        read_children_as(alloc, content, at)
    }

    fn size_of_children(boxes: &[Self]) -> u64 {
        total_size(boxes)
    }

    fn can_write_children(boxes: &[Self]) -> bool {
        all_writable(boxes)
    }

    fn put_children(boxes: &[Self], out: &mut [u8]) {
        put_boxes(boxes, out)
    }

    ghost child_laws = { child_or A.by_code (child_of A.write_laws A.own_name A.read_back A.stable)
        (child_of B.write_laws B.own_name B.read_back B.stable) B.own_code };
}
