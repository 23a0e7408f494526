//! The move of a movie box.

/// The move of the `moov` of a file, the bytes from `begin` to `end`, to the position `insert` before it. Positions are
/// in bytes from the front of the file.
#[derive(Clone, Copy, Debug, PartialEq, Eq)]
pub struct Move {
    /// The new position of the `moov`.
    pub insert: u64,
    /// The position at which the `moov` begins.
    pub begin: u64,
    /// The position at which the `moov` ends.
    pub end: u64,
}

impl Move {
    ghost use Rattle.std.specs.Prelude.{◌≡◌, ◌^◌, ◌≤◌, MatchOption};
    ghost use Rattle.mp4_remux_files.specs.Moved.{moved};

    /// Returns the position after the move of the byte at `offset`, or `None` if that is past 2^64 - 1. The byte is not
    /// in the `moov`, which has `length` bytes at its new place.
    pub fn moved(&self, length: u64, offset: u64) -> Option<u64>
        ensures { MatchOption result (2 ^ 64 ≤ moved self.now length offset) (λ o. o ≡ moved self.now length offset) }
    {
        if self.insert <= offset && offset < self.begin {
            offset.checked_add(length)
        } else if self.end <= offset {
            (offset - self.end.saturating_sub(self.begin)).checked_add(length)
        } else {
            Some(offset)
        }
    }
}
