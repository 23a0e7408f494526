//! The header of a box, and the version and flags of a full box.

ghost use Rattle.std.specs.Prelude.{◌≡◌, ℕ, ◌+◌, ◌-◌, ◌<◌, ◌≤◌, ◌^◌, ◌++◌, [], ◌∷◌, List, length, OnOk, OnErr};
ghost use Rattle.mp4_frame.specs.Bytes.{bytes_of_fields};
ghost use Rattle.mp4_frame.specs.BoxType.{code_of, name_of};
ghost use Rattle.mp4_frame.specs.Heads.{header, header_length, header_ext, bytes_header};
ghost use Rattle.mp4_frame.specs.Reading.{Answers, NeverOutOfMemory, done};
ghost use Rattle.mp4_frame.specs.Written.{Writes};

use crate::box_type::BoxType;
use crate::byte_cursor::ByteCursor;
use crate::error::{Error, Result};
use crate::frame::Frame;
use crate::number::{u8_at, u24_at};
use crate::put::{put_u32, put_u64, put_version_and_flags};
use crate::reading::expect_bytes;
use crate::write::lengthen;
use std::alloc::Allocator;

/// The number of bytes of a header with a 32-bit size.
pub const HEADER_SIZE: u64 = 8;

/// The number of bytes of version and flags, which follow the header of a full box.
pub const HEADER_EXT_SIZE: u64 = 4;

/// The name and the size of a box (ISO/IEC 14496-12, 4.2).
#[derive(Clone, Copy, Debug)]
pub struct BoxHeader {
    /// The name.
    pub name: BoxType,
    /// The number of bytes from 8 bytes before the content to the end of the box. A box whose header has a 64-bit
    /// size has 8 bytes more than this.
    pub size: u64,
}

impl BoxHeader {
    /// Returns the header of a box with the name `name` and the size `size`.
    pub fn new(name: BoxType, size: u64) -> Self
        ensures { result ≡ record { name = name; size = size } }
    {
        BoxHeader { name, size }
    }

    /// Reads the header at the cursor, and moves the cursor to the end of the header. The size is 0 if the header says
    /// 0, in both forms. The errors are those of `Frame::at`.
    pub fn read(reader: &mut ByteCursor) -> Result<BoxHeader>
        ensures answer { Answers result (header reader.old.bytes.now reader.old.position) }
        ensures moved { OnOk result
            (reader.new.position ≡ reader.old.position + header_length reader.old.bytes.now reader.old.position) }
        ensures kept { OnErr result (reader.new.position ≡ reader.old.position) }
        ensures memory { NeverOutOfMemory result }
        ensures bytes { reader.new.bytes ≡ reader.old.bytes }
    {
        let frame = Frame::at(reader.bytes(), reader.position())?;
        reader.set_position(frame.content());
        Ok(BoxHeader {
            name: frame.name(),
            size: frame.size,
        })
    }

    /// Appends the header to `writer`, and returns its length: 8 bytes, or 16 if the size needs more than 32 bits. A
    /// size above 2^64 - 9 is invalid data, since the 64-bit form counts 8 bytes more.
    #[tactic(auto, unfolding(crate::specs::Bytes::bytes_of_fields, crate::specs::Bytes::bytes_of_fields_onto))]
    pub fn write<A: Allocator>(&self, writer: &mut Vec<u8, A>) -> Result<u64>
        ensures { Writes (self.now.size ≤ 2 ^ 64 - 9) (bytes_header self.now) writer.old.items writer.new.items result }
    {
        let old = writer.len();
        if self.size < 1 << 32 {
            lengthen(writer, 8)?;
            let out = &mut writer[old..];
            let at = put_u32(out, 0, self.size as u32);
            put_u32(out, at, u32::from(self.name));
            return Ok(8);
        }
        let Some(size) = self.size.checked_add(8) else {
            return Err(Error::InvalidData("box too large"));
        };
        lengthen(writer, 16)?;
        let out = &mut writer[old..];
        let at = put_u32(out, 0, 1);
        let at = put_u32(out, at, u32::from(self.name));
        put_u64(out, at, size);
        Ok(16)
    }
}

/// Proves that a written header is read back, with any bytes before and after it. The exceptions are a size of 1 and a
/// name that is an `UnknownBox` with a named code.
pub fn header_is_read_back()
    ensures { (h : _) (x y : List ℕ) → h.size ≤ 2 ^ 64 - 9 → (h.size ≡ 1 → ⊥) → code_of h.name < 2 ^ 32
        → name_of (code_of h.name) ≡ h.name
        → (header (x ++ (bytes_header h ++ y)) (length x) ≡ done h)
        × (header_length (x ++ (bytes_header h ++ y)) (length x) ≡ length (bytes_header h)) }
{}

/// Reads version and flags at the cursor, and moves the cursor after them.
pub fn read_box_header_ext(reader: &mut ByteCursor) -> Result<(u8, u32)>
    ensures answer { Answers result (header_ext reader.old.bytes.now reader.old.position) }
    ensures moved { OnOk result (reader.new.position ≡ reader.old.position + 4) }
    ensures kept { OnErr result (reader.new.position ≡ reader.old.position) }
    ensures memory { NeverOutOfMemory result }
    ensures bytes { reader.new.bytes ≡ reader.old.bytes }
{
    let bytes = reader.bytes();
    let at = reader.position() as usize;
    expect_bytes(bytes, at, 4)?;
    reader.set_position(at as u64 + HEADER_EXT_SIZE);
    Ok((u8_at(bytes, at), u24_at(bytes, at + 1)))
}

/// Appends version and flags to `writer`, and returns 4. Flags of more than 24 bits are invalid data.
#[tactic(auto, unfolding(crate::specs::Bytes::bytes_of_fields, crate::specs::Bytes::bytes_of_fields_onto))]
pub fn write_box_header_ext<A: Allocator>(
    writer: &mut Vec<u8, A>,
    version: u8,
    flags: u32,
) -> Result<u64>
    ensures { Writes (flags < 2 ^ 24) (bytes_of_fields ((1, version) ∷ (3, flags) ∷ [])) writer.old.items
        writer.new.items result }
{
    if flags >= 1 << 24 {
        return Err(Error::InvalidData("value does not fit its field"));
    }
    let old = writer.len();
    lengthen(writer, 4)?;
    put_version_and_flags(&mut writer[old..], 0, version, flags);
    Ok(4)
}
