//! A cursor over a buffer.

ghost use Rattle.std.specs.Prelude.{◌≡◌, ◌+◌, ◌*◌, ◌<◌, length, IfOk, OnOk, OnErr};
ghost use Rattle.mp4_frame.specs.Reading.{AnswersAs, NeverOutOfMemory, piece_at};
ghost use Rattle.mp4_frame.specs.Tables.{rows_at};

use crate::error::Result;
use crate::reading::{piece_at, rows_at};

/// A position in a buffer. The position may be past the end of the buffer.
#[derive(Drop)]
pub struct ByteCursor<'a> {
    bytes: &'a [u8],
    position: u64,
}

impl<'a> ByteCursor<'a> {
    /// Returns a cursor at the front of the buffer `bytes`.
    pub fn new(bytes: &'a [u8]) -> Self
        ensures bytes { result.bytes ≡ bytes.entry }
        ensures position { result.position ≡ 0 }
    {
        ByteCursor { bytes, position: 0 }
    }

    /// Returns the position: the number of bytes from the front of the buffer.
    pub fn position(&self) -> u64
        ensures { result ≡ self.now.position }
    {
        self.position
    }

    /// Moves the cursor to offset `position` of the buffer, which may be past the buffer's end.
    pub fn set_position(&mut self, position: u64)
        ensures position { self.new.position ≡ position }
        ensures bytes { self.new.bytes ≡ self.old.bytes }
    {
        self.position = position;
    }

    /// Returns the whole buffer.
    pub fn bytes(&self) -> &'a [u8]
        ensures { result.now ≡ self.now.bytes.now }
    {
        self.bytes
    }

    /// Returns the next `n` bytes and moves the cursor after them, or returns end of input unless all of them are
    /// present. If `n` is 0, the result is empty at every position.
    pub fn take(&mut self, n: u64) -> Result<&'a [u8]>
        ensures piece { AnswersAs (λ piece. piece.now) result (piece_at self.old.bytes.now self.old.position n) }
        ensures long { IfOk result (λ piece. length piece.now ≡ n) }
        ensures moved { OnOk result (self.new.position ≡ self.old.position + n) }
        ensures kept { OnErr result (self.new.position ≡ self.old.position) }
        ensures memory { NeverOutOfMemory result }
        ensures bytes { self.new.bytes ≡ self.old.bytes }
    {
        let piece = piece_at(self.bytes, self.position as usize, n as usize)?;
        self.position += n;
        Ok(piece)
    }

    /// Returns the next `n` rows of `E` bytes each and moves the cursor after them, or returns end of input unless all
    /// of them are present.
    pub fn take_rows<const E: usize>(&mut self, n: u64) -> Result<&'a [[u8; E]]>
        requires { 0 < E }
        ensures rows { AnswersAs (λ rows. rows.now) result (rows_at self.old.bytes.now self.old.position E n) }
        ensures moved { OnOk result (self.new.position ≡ self.old.position + n * E) }
        ensures kept { OnErr result (self.new.position ≡ self.old.position) }
        ensures memory { NeverOutOfMemory result }
        ensures bytes { self.new.bytes ≡ self.old.bytes }
    {
        let rows = rows_at::<E>(self.bytes, self.position as usize, n)?;
        self.position += n * E as u64;
        Ok(rows)
    }
}
