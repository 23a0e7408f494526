//! `KeptBox`, a box of any type. A box of a type that the codec does not read is kept as its bytes.

ghost use Rattle.std.specs.Prelude.{◌≡◌, ◌+◌, ◌-◌, ◌≤◌, false, max, length, IsTrue, OnOk, OnErr};
ghost use Rattle.mp4_frame.specs.BoxType.{name_of};
ghost use Rattle.mp4_frame.specs.Reading.{Answers, AnswersAs, map_reading, reading};
ghost use Rattle.mp4_frame.specs.Streams.{append_read};
ghost use Rattle.mp4_stream.specs.AnyBox.{known_any, least_any, reading_any};
ghost use Rattle.mp4_stream.specs.Other.{is_typed};
ghost use Rattle.mp4_stream.specs.OtherBox.{reads_other};
ghost use Rattle.mp4_stream.specs.KeptBox.{format_kept, known_kept, reading_kept};
ghost use Rattle.mp4_stream.specs.KeptBoxLaws.{written_kept, own_name_kept, read_back_kept};
ghost use Rattle.mp4_declared.specs.NameLaws.{is_unknown};
ghost use Rattle.mp4_stream.specs.declared.kept_box.KeptBox.TheVariants as kept;

use crate::any_box::{AnyBox, push_any};
use crate::other_box::OtherBox;
use mp4_frame::{
    BoxType, ByteCursor, Holds, Mp4Box, Result, StreamBox, TryClone, WriteBox, clone_as,
};
use std::alloc::Global;

/// A box of any type. `Other` never holds a box of a type of `AnyBox`.
#[derive(Debug, Drop, PartialEq, Eq)]
pub enum KeptBox {
    /// A box of a type that the codec reads.
    Any(AnyBox),
    /// A box of another type.
    Other(OtherBox),
}

impl Holds<AnyBox> for KeptBox {
    ghost wrapped = { kept.Any };

    fn wrap(value: AnyBox) -> KeptBox {
        KeptBox::Any(value)
    }
}

impl Holds<OtherBox> for KeptBox {
    ghost wrapped = { kept.Other };

    fn wrap(value: OtherBox) -> KeptBox {
        KeptBox::Other(value)
    }
}

impl TryClone for KeptBox {
    fn try_clone(&self) -> Result<KeptBox> {
        match self {
            KeptBox::Any(b) => clone_as(b),
            KeptBox::Other(b) => clone_as(b),
        }
    }
}

impl Mp4Box for KeptBox {
    ghost format = { format_kept };

    fn box_type(&self) -> BoxType {
        match self {
            KeptBox::Any(b) => b.box_type(),
            KeptBox::Other(b) => b.box_type(),
        }
    }

    fn box_size(&self) -> u64 {
        match self {
            KeptBox::Any(b) => b.box_size(),
            KeptBox::Other(b) => b.box_size(),
        }
    }
}

impl WriteBox for KeptBox {
    fn is_writable(&self) -> bool {
        self.writable_size().is_some()
    }

    fn put_box(&self, out: &mut [u8]) {
        self.put_at_front(out);
    }

    fn writable_size(&self) -> Option<u64> {
        match self {
            KeptBox::Any(b) => b.writable_size(),
            KeptBox::Other(b) => b.writable_size(),
        }
    }

    fn put_at_front(&self, out: &mut [u8]) -> usize {
        match self {
            KeptBox::Any(b) => b.put_at_front(out),
            KeptBox::Other(b) => b.put_at_front(out),
        }
    }

    ghost write_laws = { written_kept };
}

/// Returns whether `code` is read as an `UnknownBox`.
fn is_unnamed(code: u32) -> bool
    ensures { result ≡ is_unknown (name_of code) }
{
    matches!(BoxType::from(code), BoxType::UnknownBox(_))
}

/// Reads the box called `name`, which is a name of `AnyBox`, after its header.
fn read_any(alloc: Global, name: BoxType, reader: &mut ByteCursor, size: u64) -> Result<KeptBox>
    requires known { IsTrue (known_any name) }
    requires after_header { 8 ≤ reader.old.position }
    ensures answer { Answers result
        (map_reading kept.Any (reading_any name reader.old.bytes.now (reader.old.position - 8) size)) }
    ensures moved { OnOk result (reader.new.position ≡ reader.old.position - 8 + max (least_any name) size) }
    ensures kept { OnErr result (reader.new.position ≡ reader.old.position) }
    ensures bytes { reader.new.bytes ≡ reader.old.bytes }
{
    Ok(KeptBox::Any(AnyBox::read_named(alloc, name, reader, size)?))
}

/// Reads the box with `code`, which is that of no type of `AnyBox`, after its header.
fn read_other(alloc: Global, code: u32, reader: &mut ByteCursor, size: u64) -> Result<KeptBox>
    requires untyped { is_typed code ≡ false }
    requires after_header { 8 ≤ reader.old.position }
    ensures answer { Answers result
        (map_reading kept.Other (reading (reads_other code) reader.old.bytes.now (reader.old.position - 8) size)) }
    ensures moved { OnOk result (reader.new.position ≡ reader.old.position - 8 + size) }
    ensures kept { OnErr result (reader.new.position ≡ reader.old.position) }
    ensures bytes { reader.new.bytes ≡ reader.old.bytes }
{
    Ok(KeptBox::Other(OtherBox::read_box(alloc, code, reader, size)?))
}

/// Reads the box with `code`, which is that of no type of `AnyBox`, at offset `start` of `bytes`, like
/// `StreamBox::push_named`, and appends it.
fn push_other(
    alloc: Global,
    code: u32,
    bytes: &[u8],
    start: u64,
    size: u64,
    boxes: &mut Vec<KeptBox>,
) -> Result<()>
    requires untyped { is_typed code ≡ false }
    requires room { start + size ≤ length bytes.now }
    ensures answer { AnswersAs (λ _. boxes.new.items) result
        (append_read boxes.old.items (map_reading kept.Other (reading (reads_other code) bytes.now start size))) }
    ensures kept { OnErr result (boxes.new.items ≡ boxes.old.items) }
{
    let value = OtherBox::read_content(alloc, code, &bytes[start as usize..], size)?;
    boxes.reserve(1)?;
    boxes.push_reserved(KeptBox::Other(value));
    Ok(())
}

impl StreamBox for KeptBox {
    ghost known = { known_kept };

    ghost named_reading = { reading_kept };

    ghost least = { least_any };

    fn knows(name: BoxType) -> bool {
        match name {
            BoxType::UnknownBox(code) => is_unnamed(code),
            _ => true,
        }
    }

    #[tactic(auto, using(crate::specs::KeptBoxLaws::untyped_code, crate::specs::KeptBoxLaws::least_of_other))]
    fn read_named(
        alloc: Global,
        name: BoxType,
        reader: &mut ByteCursor,
        size: u64,
    ) -> Result<KeptBox> {
        if AnyBox::knows(name) {
            read_any(alloc, name, reader, size)
        } else {
            read_other(alloc, u32::from(name), reader, size)
        }
    }

    #[tactic(auto, using(crate::specs::KeptBoxLaws::untyped_code))]
    fn push_named(
        alloc: Global,
        name: BoxType,
        bytes: &[u8],
        start: u64,
        size: u64,
        boxes: &mut Vec<KeptBox>,
    ) -> Result<()> {
        if AnyBox::knows(name) {
            push_any(alloc, name, bytes, start, size, boxes)
        } else {
            push_other(alloc, u32::from(name), bytes, start, size, boxes)
        }
    }

    ghost own_name = { own_name_kept };

    ghost read_back = { read_back_kept };
}
