//! An entry of the composition time to sample box.

ghost use Rattle.std.specs.Prelude.{◌↔◌, IsTrue};
ghost use Rattle.mp4_tables.specs.CttsEntry.{entry_ctts, row_ctts, FitsCttsEntry};

use crate::rows::RowEntry;
use mp4_frame::{TableEntry, i32_at, put_i32, put_u32, u32_at};

/// A run of consecutive samples with the same composition offset (ISO/IEC 14496-12, 8.6.1.3).
#[derive(Clone, Copy, Debug, Default, PartialEq, Eq)]
pub struct CttsEntry {
    /// The number of samples in the run.
    pub sample_count: u32,
    /// The composition time of each of these samples minus its decoding time, in the timescale of the media. It is
    /// signed in every version.
    pub sample_offset: i32,
}

/// Returns true, always. For the prover: each number of `entry` has the range of its type.
fn has_fitting_numbers(entry: CttsEntry) -> bool
    ensures { IsTrue result ↔ FitsCttsEntry entry }
{
    // For the prover: a value that was read has the range of its type.
    let _entry = entry;
    true
}

impl TableEntry<8> for CttsEntry {
    ghost row_of = { row_ctts };

    ghost Fits = { FitsCttsEntry };

    #[tactic(auto, unfolding(mp4_frame::specs::Bytes::bytes_of_fields, mp4_frame::specs::Bytes::bytes_of_fields_onto))]
    fn to_row(&self) -> [u8; 8] {
        let mut row = [0; 8];
        let at = put_u32(&mut row, 0, self.sample_count);
        put_i32(&mut row, at, self.sample_offset);
        row
    }

    fn fits(&self) -> bool {
        has_fitting_numbers(*self)
    }
}

impl RowEntry<8> for CttsEntry {
    ghost entry_of = { entry_ctts };

    fn from_row(row: &[u8; 8]) -> CttsEntry {
        CttsEntry {
            sample_count: u32_at(row, 0),
            sample_offset: i32_at(row, 4),
        }
    }
}
