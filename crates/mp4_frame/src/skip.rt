//! Moves of the cursor in its buffer.

ghost use Rattle.std.specs.Prelude.{◌≡◌, ◌+◌, ◌-◌, ◌≤◌, ◌^◌, nat_lt, Ok, OnOk, OnErr};
ghost use Rattle.mp4_frame.specs.Reading.{Answers, NeverOutOfMemory, check};

use crate::box_header::HEADER_SIZE;
use crate::byte_cursor::ByteCursor;
use crate::error::Result;
use crate::reading::check_end;

/// Returns the start of the box whose header was just read: 8 bytes before the cursor's position.
pub fn box_start(reader: &ByteCursor) -> Result<u64>
    requires { 8 ≤ reader.now.position }
    ensures { result ≡ Ok (reader.now.position - 8) }
{
    Ok(reader.position() - HEADER_SIZE)
}

/// Moves the cursor forward by `size` bytes. A position past 2^64 - 1 is invalid data.
pub fn skip_bytes(reader: &mut ByteCursor, size: u64) -> Result<()>
    ensures answer { Answers result (check (nat_lt (reader.old.position + size) (2 ^ 64))) }
    ensures moved { OnOk result (reader.new.position ≡ reader.old.position + size) }
    ensures kept { OnErr result (reader.new.position ≡ reader.old.position) }
    ensures memory { NeverOutOfMemory result }
    ensures bytes { reader.new.bytes ≡ reader.old.bytes }
{
    let position = reader.position();
    check_end(position, size)?;
    reader.set_position(position + size);
    Ok(())
}

/// Moves the cursor to offset `position` of the buffer, which may be past the buffer's end.
pub fn skip_bytes_to(reader: &mut ByteCursor, position: u64) -> Result<()>
    ensures answer { result ≡ Ok tt }
    ensures moved { reader.new.position ≡ position }
    ensures bytes { reader.new.bytes ≡ reader.old.bytes }
{
    reader.set_position(position);
    Ok(())
}

/// Moves the cursor to the end of the box of `size` bytes whose header was just read. An end past 2^64 - 1 is invalid
/// data.
pub fn skip_box(reader: &mut ByteCursor, size: u64) -> Result<()>
    requires { 8 ≤ reader.old.position }
    ensures answer { Answers result (check (nat_lt (reader.old.position - 8 + size) (2 ^ 64))) }
    ensures moved { OnOk result (reader.new.position ≡ reader.old.position - 8 + size) }
    ensures kept { OnErr result (reader.new.position ≡ reader.old.position) }
    ensures memory { NeverOutOfMemory result }
    ensures bytes { reader.new.bytes ≡ reader.old.bytes }
{
    let start = box_start(reader)?;
    check_end(start, size)?;
    skip_bytes_to(reader, start + size)
}
