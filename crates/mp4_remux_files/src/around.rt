//! Changes of a file outside its movie box.

use crate::edited::{TopEdits, moved_top};
use crate::movement::Move;
use mp4_remux::edits::place;

/// A change of a file outside its movie box.
#[derive(Clone, Copy)]
pub enum Around<'a> {
    /// The movie box is moved.
    Moved(Move),
    /// Boxes of the top level are edited.
    Edited(TopEdits<'a>),
}

impl<'a> Around<'a> {
    /// Returns whether the movie box is moved.
    pub(crate) fn is_move(self) -> bool {
        matches!(self, Around::Moved(_))
    }

    /// Returns the position at which the `moov` begins.
    pub(crate) fn begin(self) -> u64 {
        match self {
            Around::Moved(shift) => shift.begin,
            Around::Edited(edits) => edits.begin,
        }
    }

    /// Returns the position at which the `moov` ends.
    pub(crate) fn end(self) -> u64 {
        match self {
            Around::Moved(shift) => shift.end,
            Around::Edited(edits) => edits.end,
        }
    }

    /// Returns the position at which the `moov` begins after the change.
    pub(crate) fn insert(self) -> Option<u64> {
        match self {
            Around::Moved(shift) => Some(shift.insert),
            Around::Edited(edits) => place(edits.splices, edits.begin),
        }
    }

    /// Returns the position after the change of the byte at `offset`, which is not in the `moov`. The `moov` has
    /// `length` bytes after the change. Returns `None` if the byte is replaced, or the position is past 2^64 - 1.
    pub(crate) fn moved(self, length: u64, offset: u64) -> Option<u64> {
        match self {
            Around::Moved(shift) => shift.moved(length, offset),
            Around::Edited(edits) => moved_top(edits, length, offset),
        }
    }
}
