//! An iterator over the boxes of a buffer.

ghost use Rattle.std.specs.Prelude.{◌≡◌, ◌+◌, ◌<◌, ◌^◌, length, IsTrue};
ghost use Rattle.std.specs.Iterator.{item_count};
ghost use Rattle.mp4_frame.specs.Heads.{name_in, content_in};
ghost use Rattle.mp4_frame.specs.Reading.{Answers};
ghost use Rattle.mp4_frame.specs.Streams.{reading_in};
ghost use Rattle.mp4_iterator.specs.Progress.{begins_at, left, GivesBox, GivesInto};
ghost use Rattle.mp4_iterator.specs.Seeks.{Seeks};

use mp4_frame::{ByteCursor, Frame, Result, StreamBox, frame_at};
use std::alloc::Global;
use std::iter::FusedIterator;
use std::marker::{Model, PhantomData};

/// The boxes of a buffer, one after the other, starting at an offset. Each item is a box or the first fault, and no
/// item follows a fault. Boxes with names that `B` does not know are skipped. The iterator makes no list, and takes
/// memory only for boxes whose reading takes memory.
#[derive(Drop)]
pub struct Boxes<'a, B> {
    alloc: Global,
    bytes: &'a [u8],
    offset: u64,
    ended: bool,
    item: PhantomData<B>,
}

impl<'a, B> Model for Boxes<'a, B> {
    ghost use Rattle.mp4_iterator.specs.Progress.{Progress};

    ghost Value = { Progress };

    ghost view = { λ b. record { bytes = b.bytes.now; offset = b.offset; ended = b.ended } };
}

/// Returns an iterator over the boxes of `bytes`, starting at the front.
pub fn boxes_as<B: StreamBox>(alloc: Global, bytes: &[u8]) -> Boxes<'_, B>
    ensures { result ≡ begins_at bytes.now 0 }
{
    Boxes {
        alloc,
        bytes,
        offset: 0,
        ended: false,
        item: PhantomData,
    }
}

/// Returns the frame of the first box of a known name at or after offset `at`, or `None` if no such box is left. Sets
/// `at` to the offset where that box or a faulty frame begins. If no box is left, `at` becomes the end of the buffer,
/// or stays where it is if that is past the end.
fn seek<B: StreamBox>(bytes: &[u8], at: &mut u64) -> Result<Option<Frame>>
    ensures { Seeks B.known B.named_reading bytes.now at.old at.new result }
{
    let mut start = *at;
    while start < bytes.len() as u64 {
        *at = start;
        let frame = frame_at(bytes, start as usize)?;
        if B::knows(frame.name()) {
            return Ok(Some(frame));
        }
        start = frame.end();
    }
    *at = start;
    Ok(None)
}

/// Reads the box in the frame `frame`.
fn read_frame<B: StreamBox>(alloc: Global, bytes: &[u8], frame: &Frame) -> Result<B>
    requires known { IsTrue (B.known (name_in frame.now)) }
    requires header { content_in frame.now < 2 ^ 64 }
    ensures { Answers result (reading_in B.named_reading bytes.now frame.now) }
{
    let mut reader = ByteCursor::new(bytes);
    reader.set_position(frame.content());
    B::read_named(alloc, frame.name(), &mut reader, frame.size)
}

impl<'a, B: StreamBox> Boxes<'a, B> {
    /// Returns an iterator over the boxes that start at the position of `reader`. The cursor stays where it is.
    pub fn from_cursor(alloc: Global, reader: &ByteCursor<'a>) -> Self
        ensures { result ≡ begins_at reader.now.bytes.now reader.now.position }
    {
        Boxes {
            alloc,
            bytes: reader.bytes(),
            offset: reader.position(),
            ended: false,
            item: PhantomData,
        }
    }

    /// Returns the offset in the buffer that the iterator has reached: the end of the last box that it returned. After
    /// a fault it is the offset where the faulty box begins. If no box was left, it is the end of the buffer.
    pub fn offset(&self) -> u64
        ensures { result ≡ self.now.offset }
    {
        self.offset
    }

    /// Reads the next box into `place`, and returns whether there is one. The box is that of `next`, but it is not
    /// moved. The call drops what was in `place` and uses its memory again, so one `place` serves for all boxes.
    /// `place` has one box after `Ok(true)`, and is empty after `Ok(false)` and after an `Err`.
    pub fn next_into(&mut self, place: &mut Vec<B>) -> Result<bool>
        ensures { GivesInto B.known B.named_reading self.old place.new.items result self.new }
    {
        place.clear();
        if self.ended {
            return Ok(false);
        }
        self.ended = true;
        let Some(frame) = seek::<B>(self.bytes, &mut self.offset)? else {
            return Ok(false);
        };
        B::push_named(
            self.alloc,
            frame.name(),
            self.bytes,
            frame.start,
            frame.size,
            place,
        )?;
        self.offset = frame.end();
        self.ended = false;
        Ok(true)
    }
}

impl<'a, B: StreamBox> Iterator for Boxes<'a, B> {
    type Item = Result<B>;

    ghost next_gives = { GivesBox B.known B.named_reading };

    ghost remaining = { item_count (left B.known B.named_reading) };

    fn next(&mut self) -> Option<Result<B>> {
        if self.ended {
            return None;
        }
        self.ended = true;
        let frame = match seek::<B>(self.bytes, &mut self.offset) {
            Ok(None) => return None,
            Ok(Some(frame)) => frame,
            Err(e) => return Some(Err(e)),
        };
        let read = read_frame(self.alloc, self.bytes, &frame);
        if read.is_ok() {
            self.offset = frame.end();
            self.ended = false;
        }
        Some(read)
    }
}

impl<'a, B: StreamBox> FusedIterator for Boxes<'a, B> {}
