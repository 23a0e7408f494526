//! The traits of a box: its name and size, its reading and writing, and both of them in lists.

ghost use Rattle.std.specs.Prelude.{◌≡◌, ℕ, ◌+◌, ◌-◌, ◌^◌, ◌<◌, ◌≤◌, ◌↔◌, min, max, Bool, IsTrue, List, length, ◌++◌};
ghost use Rattle.std.specs.Prelude.{drop, None, IfSome, OnOk, OnErr};
ghost use Rattle.mp4_frame.specs.Reading.{Reading, Answers, AnswersAs, TakesNone, reading};
ghost use Rattle.mp4_frame.specs.Written.{Writes};
ghost use Rattle.mp4_frame.specs.Streams.{append_read};
ghost use Rattle.mp4_frame.specs.Format.{Format, IsWritten, IsBox, IsNormalForm};
ghost use Rattle.mp4_frame.specs.Laws.{OwnName, ReadsBack};
ghost use Rattle.mp4_frame.specs.declared.box_type.BoxType.{BoxType};

use crate::box_type::BoxType;
use crate::byte_cursor::ByteCursor;
use crate::error::{Error, Result};
use crate::reading::{bytes_from, check_end};
use crate::write::lengthen;
use std::alloc::{Allocator, Global};

/// A box: it has a name and a size (ISO/IEC 14496-12, 4.2).
pub trait Mp4Box: Sized {
    /// The format: name, size in bytes, condition for writing, bytes and normal form of each value. The normal form is
    /// the value that the bytes are read back as. It differs from the value only in what the bytes do not hold.
    ghost format: { Format Self };

    /// Returns the name. The header holds it as a code of four characters.
    fn box_type(&self) -> BoxType
        ensures { result ≡ format.name self.now };

    /// Returns the number of bytes that the box is written in, with its header. The result saturates at 2^64 - 1.
    fn box_size(&self) -> u64
        ensures { result ≡ min (format.size self.now) (2 ^ 64 - 1) };
}

/// A box whose content is read after its header.
pub trait ReadBox: Sized {
    /// The reading of a box. Its arguments are the bytes from the box's start to the end of the buffer, the offset of
    /// that start, and the box's size.
    ghost reads: { List ℕ → ℕ → ℕ → Reading Self };

    /// The minimum number of bytes of a box, even if its size is smaller.
    ghost LEAST: { ℕ } = { 0 };

    /// The minimum number of bytes of a box, even if its size is smaller. It is 0 for a type whose boxes end where
    /// their size says.
    const LEAST: u64;

    /// Reads the content of a box. `bytes` begins at the box's start, 8 bytes before the content, and ends at the end
    /// of the buffer. `start` is the offset of the box's start in the buffer, and `size` is the box's size from there.
    /// Fields are at fixed offsets of `bytes`, and may be read past `size`. The error is the first fault (missing
    /// bytes, a failed check, a missing child), or out of memory.
    fn read_content(alloc: Global, bytes: &[u8], start: u64, size: u64) -> Result<Self>
        requires { start + size < 2 ^ 64 }
        ensures answer { Answers result (reads bytes.now start size) }
        ensures least { OnOk result (LEAST ≤ length bytes.now) };

    /// Reads the box whose header was just read. `size` is the header's size, and the cursor is at the end of the
    /// header. After an `Ok` the cursor is at the end of the box, which has at least `LEAST` bytes. After an `Err`
    /// (invalid data, end of input, a missing child, out of memory) the cursor is where it was.
    final fn read_box(alloc: Global, reader: &mut ByteCursor, size: u64) -> Result<Self>
        requires { 8 ≤ reader.old.position }
        ensures answer { Answers result (reading reads reader.old.bytes.now (reader.old.position - 8) size) }
        ensures moved { OnOk result (reader.new.position ≡ reader.old.position - 8 + max LEAST size) }
        ensures kept { OnErr result (reader.new.position ≡ reader.old.position) }
        ensures bytes { reader.new.bytes ≡ reader.old.bytes }
    {
        let start = reader.position() - 8;
        check_end(start, size)?;
        let value = Self::read_content(alloc, bytes_from(reader.bytes(), start), start, size)?;
        reader.set_position(start + size.max(Self::LEAST));
        Ok(value)
    }
}

/// A box that is read without memory.
pub trait ReadsWithoutMemory: ReadBox {
    /// The proof that its reading asks for no memory.
    ghost takes_none: { (bytes : List ℕ) (start size : ℕ) → TakesNone (Self.reads bytes start size) };
}

/// A box that can be written, either as a whole or not at all.
pub trait WriteBox: Mp4Box {
    /// Returns whether the box can be written: each number fits its field, and the size of the whole box fits 32 bits.
    fn is_writable(&self) -> bool
        ensures { IsTrue result ↔ Self.format.Writable self.now };

    /// Fills `out` with the box's bytes. The length of `out` is the box's size.
    fn put_box(&self, out: &mut [u8])
        requires writable { Self.format.Writable self.now }
        requires room { length out.old ≡ Self.format.size self.now }
        ensures { out.new ≡ Self.format.bytes self.now };

    /// Returns the box's size in bytes, or `None` if the box can't be written.
    fn writable_size(&self) -> Option<u64>
        ensures size { IfSome result (λ n. n ≡ Self.format.size self.now) }
        ensures some { IfSome result (λ _. Self.format.Writable self.now) }
        ensures none { result ≡ None → ¬ Self.format.Writable self.now }
    {
        if self.is_writable() {
            Some(self.box_size())
        } else {
            None
        }
    }

    /// Puts the box's bytes at the front of `out`, and returns their number.
    fn put_at_front(&self, out: &mut [u8]) -> usize
        requires writable { Self.format.Writable self.now }
        requires room { Self.format.size self.now ≤ length out.old }
        ensures size { result ≡ Self.format.size self.now }
        ensures front { out.new ≡ Self.format.bytes self.now ++ drop (Self.format.size self.now) out.old }
    {
        let size = self.box_size() as usize;
        self.put_box(&mut out[..size]);
        size
    }

    /// Returns `true` only if `bytes` are all bytes, with the header, of a box of this type that can be written. The
    /// function makes no value and takes no memory. `false` decides nothing, and a type may always return it. After a
    /// `true` the bytes are read as a box with exactly these bytes (`laws::normal_form_is_read`).
    fn is_normal_form(bytes: &[u8]) -> bool
        ensures { IsTrue result → IsNormalForm Self.format bytes.now }
    {
        let _unread = bytes;
        false
    }

    /// The laws of writing. A box's bytes begin with its size and its code, and their number is its size. Its normal
    /// form can be written, has the same bytes, and is its own normal form.
    ghost write_laws: { IsWritten Self.format };

    /// Appends the box's bytes to `writer`, and returns their number. After an `Err` the vector is as it was. The error
    /// is invalid data if the box can't be written, else out of memory.
    final fn write_box<A: Allocator>(&self, writer: &mut Vec<u8, A>) -> Result<u64>
        ensures { Writes (Self.format.Writable self.now) (Self.format.bytes self.now) writer.old.items
            writer.new.items result }
    {
        let Some(size) = self.writable_size() else {
            return Err(Error::InvalidData("value does not fit its field"));
        };
        let old = writer.len();
        lengthen(writer, size as usize)?;
        self.put_box(&mut writer[old..]);
        Ok(size)
    }
}

/// A box that can be in a list of boxes.
pub trait StreamBox: WriteBox + Drop {
    /// The names that are read. Lists skip boxes with other names.
    ghost known: { BoxType → Bool };

    /// The reading of a box with a given name. Its other arguments are the bytes of the buffer, the offset of the box's
    /// start, and the box's size.
    ghost named_reading: { BoxType → List ℕ → ℕ → ℕ → Reading Self };

    /// The minimum number of bytes of a box with a given name, even if the box's size is smaller.
    ghost least: { BoxType → ℕ } = { λ _. 0 };

    /// Returns whether boxes with the name `name` are read.
    fn knows(name: BoxType) -> bool
        ensures { result ≡ known name };

    /// Reads the box with the name `name`, whose header was just read. `size` is the header's size. After an `Ok` the
    /// cursor is at the end of the box, which has at least `least name` bytes. After an `Err` the cursor is where it
    /// was.
    fn read_named(alloc: Global, name: BoxType, reader: &mut ByteCursor, size: u64) -> Result<Self>
        requires known { IsTrue (known name) }
        requires after_header { 8 ≤ reader.old.position }
        ensures answer { Answers result (named_reading name reader.old.bytes.now (reader.old.position - 8) size) }
        ensures moved { OnOk result (reader.new.position ≡ reader.old.position - 8 + max (least name) size) }
        ensures kept { OnErr result (reader.new.position ≡ reader.old.position) }
        ensures bytes { reader.new.bytes ≡ reader.old.bytes };

    /// Reads the box with the name `name` at offset `start` of the buffer `bytes`, and appends it to `boxes`. `start`
    /// is 8 bytes before the box's content, and `size` is the box's size from there. After an `Err` the list is as it
    /// was.
    fn push_named(
        alloc: Global,
        name: BoxType,
        bytes: &[u8],
        start: u64,
        size: u64,
        boxes: &mut Vec<Self>,
    ) -> Result<()>
        requires known { IsTrue (known name) }
        requires header { start + 8 ≤ length bytes.now }
        requires room { start + size ≤ length bytes.now }
        ensures answer { AnswersAs (λ _. boxes.new.items) result
            (append_read boxes.old.items (named_reading name bytes.now start size)) }
        ensures kept { OnErr result (boxes.new.items ≡ boxes.old.items) }
    {
        let mut reader = ByteCursor::new(bytes);
        reader.set_position(start + 8);
        let value = Self::read_named(alloc, name, &mut reader, size)?;
        boxes.reserve(1)?;
        boxes.push_reserved(value);
        Ok(())
    }

    /// The proof that the name of a box that can be written is known, and is the name that its code is read as.
    ghost own_name: { (v : Self) → Self.format.Writable v → OwnName known (Self.format.name v) };

    /// The proof that a box's bytes are read, under its name, as its normal form, with any bytes before and after them.
    ghost read_back: { (v : Self) → Self.format.Writable v
        → ReadsBack (named_reading (Self.format.name v)) (Self.format.bytes v) (Self.format.normal v) };
}

/// A box with its laws: a written box is read back.
pub trait BoxLaws: ReadBox + WriteBox {
    /// The laws of a box: those of writing, and two more. Its bytes are read as its normal form, with any bytes after
    /// them. A value that was read is its own normal form, and can be written unless it is too large.
    ghost laws: { IsBox Self.reads Self.format };
}
