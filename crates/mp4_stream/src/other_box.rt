//! `OtherBox`, a box of a type that the codec does not read, kept as its bytes.

ghost use Rattle.std.specs.Prelude.{◌≡◌, ◌↔◌, ◌+◌, ◌-◌, ◌≤◌, ◌^◌, false, IsTrue, OnOk, OnErr, length, min};
ghost use Rattle.mp4_frame.specs.BoxType.{name_of};
ghost use Rattle.mp4_frame.specs.Reading.{Answers, reading};
ghost use Rattle.mp4_stream.specs.Other.{is_typed};
ghost use Rattle.mp4_stream.specs.OtherBox.{copy_other, content_other, reads_other, WritableOther, format_other};
ghost use Rattle.mp4_stream.specs.OtherBoxLaws.{written_other};

use crate::any_box::AnyBox;
use mp4_frame::{
    BoxType, ByteCursor, Entries, Mp4Box, Result, StreamBox, TryClone, WriteBox, bytes_from, check,
    check_end, piece_at, put_bytes, put_u32,
};
use std::alloc::Global;
use std::marker::Model;

/// A box of a type that `AnyBox` doesn't have: a code, and the bytes of the content.
#[derive(Debug, Drop, PartialEq, Eq)]
pub struct OtherBox {
    code: u32,
    content: Entries<u8>,
}

impl Model for OtherBox {
    ghost use Rattle.std.specs.Prelude.{◌≡◌, false};
    ghost use Rattle.mp4_stream.specs.Other.{Other, is_typed};

    ghost Value = { Other };

    ghost view = { λ b. record { code = b.code; content = b.content } };

    ghost invariant = { λ b. is_typed b.code ≡ false };

    ghost inverse = { λ v. record { code = v.code; content = v.content } };
}

impl OtherBox {
    /// Creates a box with this `code` and a copy of `content`. Fails with invalid data if the code is that of a type of
    /// `AnyBox`, before memory is asked for.
    pub fn copy_of(alloc: Global, code: u32, content: &[u8]) -> Result<OtherBox>
        ensures { Answers result (copy_other code content.now) }
    {
        check(
            !AnyBox::knows(BoxType::from(code)),
            "code of a box with a type of its own",
        )?;
        Ok(OtherBox {
            code,
            content: Vec::from_slice(alloc, content)?.into(),
        })
    }

    /// Returns the name that stands for the code.
    pub fn name(&self) -> BoxType
        ensures { result ≡ name_of self.now.code }
    {
        BoxType::from(self.code)
    }

    /// Returns the bytes of the content, which follow the header.
    pub fn content(&self) -> &[u8]
        ensures { result.now ≡ self.now.content }
    {
        self.content.as_slice()
    }

    /// Reads the box with this `code` and `size` at the start of `bytes`.
    #[tactic(auto, unfolding(crate::specs::OtherBox::content_other))]
    pub(crate) fn read_content(
        alloc: Global,
        code: u32,
        bytes: &[u8],
        size: u64,
    ) -> Result<OtherBox>
        requires { is_typed code ≡ false }
        ensures { Answers result (content_other code bytes.now size) }
    {
        check(size >= 8, "box size too small")?;
        let content = piece_at(bytes, 8, size as usize - 8)?;
        Ok(OtherBox {
            code,
            content: Vec::from_slice(alloc, content)?.into(),
        })
    }

    /// Reads the box with this `code` after its header. After an `Ok` the cursor is at the end of the box. After an
    /// `Err` it is where it was.
    pub(crate) fn read_box(
        alloc: Global,
        code: u32,
        reader: &mut ByteCursor,
        size: u64,
    ) -> Result<OtherBox>
        requires untyped { is_typed code ≡ false }
        requires after_header { 8 ≤ reader.old.position }
        ensures answer { Answers result
            (reading (reads_other code) reader.old.bytes.now (reader.old.position - 8) size) }
        ensures moved { OnOk result (reader.new.position ≡ reader.old.position - 8 + size) }
        ensures kept { OnErr result (reader.new.position ≡ reader.old.position) }
        ensures bytes { reader.new.bytes ≡ reader.old.bytes }
    {
        let start = reader.position() - 8;
        check_end(start, size)?;
        let bytes = bytes_from(reader.bytes(), start);
        let value = OtherBox::read_content(alloc, code, bytes, size)?;
        reader.set_position(start + size);
        Ok(value)
    }
}

impl TryClone for OtherBox {
    fn try_clone(&self) -> Result<OtherBox> {
        Ok(OtherBox {
            code: self.code,
            content: self.content.try_clone()?,
        })
    }
}

impl Mp4Box for OtherBox {
    ghost format = { format_other };

    fn box_type(&self) -> BoxType {
        self.name()
    }

    fn box_size(&self) -> u64 {
        (self.content.len() as u64).saturating_add(8)
    }
}

/// Returns whether a box of `size` bytes with this `code` and `content` can be written.
fn fits(code: u32, size: u64, content: &[u8]) -> bool
    requires untyped { is_typed code ≡ false }
    requires saturated { size ≡ min (8 + length content.now) (2 ^ 64 - 1) }
    ensures { IsTrue result ↔ WritableOther (record { code = code; content = content.now }) }
{
    size < 1 << 32
}

impl WriteBox for OtherBox {
    fn is_writable(&self) -> bool {
        fits(self.code, self.box_size(), self.content.as_slice())
    }

    #[tactic(auto, unfolding(crate::specs::OtherBox::bytes_other, mp4_frame::specs::Bytes::bytes_of_fields, mp4_frame::specs::Bytes::bytes_of_fields_onto))]
    fn put_box(&self, out: &mut [u8]) {
        let at = put_u32(out, 0, self.box_size() as u32);
        let at = put_u32(out, at, self.code);
        put_bytes(out, at, self.content.as_slice());
    }

    ghost write_laws = { written_other };
}
