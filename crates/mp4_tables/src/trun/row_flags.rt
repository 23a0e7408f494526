//! The numbers in the rows of the track fragment run box, which depend on its flags.

ghost use Rattle.std.specs.Prelude.{◌≡◌, ◌≤◌};
ghost use Rattle.mp4_tables.specs.TrunRows.{row_flags, row_length};

use crate::flagged::{is_set, width_if};
use crate::trun::TrunBox;

/// The flags of the four lists of a run. Each row has a number for each list whose flag is set.
#[derive(Clone, Copy)]
pub(crate) struct RowFlags {
    pub(crate) duration: bool,
    pub(crate) size: bool,
    pub(crate) flags: bool,
    pub(crate) cts: bool,
}

impl RowFlags {
    /// Returns the list flags among `flags`, the flags of the box.
    pub(crate) fn of(flags: u32) -> RowFlags
        ensures { result ≡ row_flags flags }
    {
        RowFlags {
            duration: is_set(flags, TrunBox::FLAG_SAMPLE_DURATION),
            size: is_set(flags, TrunBox::FLAG_SAMPLE_SIZE),
            flags: is_set(flags, TrunBox::FLAG_SAMPLE_FLAGS),
            cts: is_set(flags, TrunBox::FLAG_SAMPLE_CTS),
        }
    }

    /// Returns the number of bytes of a row.
    pub(crate) fn row_length(self) -> usize
        ensures length { result ≡ row_length self }
        ensures bounded { result ≤ 16 }
    {
        width_if(self.duration, 4)
            + width_if(self.size, 4)
            + width_if(self.flags, 4)
            + width_if(self.cts, 4)
    }
}
