//! An entry of the decoding time to sample box.

ghost use Rattle.std.specs.Prelude.{◌↔◌, IsTrue};
ghost use Rattle.mp4_tables.specs.SttsEntry.{entry_stts, row_stts, FitsSttsEntry};

use crate::rows::RowEntry;
use mp4_frame::{TableEntry, put_u32, u32_at};

/// A run of consecutive samples with the same duration (ISO/IEC 14496-12, 8.6.1.2).
#[derive(Clone, Copy, Debug, Default, PartialEq, Eq)]
pub struct SttsEntry {
    /// The number of samples in the run.
    pub sample_count: u32,
    /// The duration of each of these samples, in the timescale of the media.
    pub sample_delta: u32,
}

/// Returns true, always. For the prover: each number of `entry` has the range of its type.
fn has_fitting_numbers(entry: SttsEntry) -> bool
    ensures { IsTrue result ↔ FitsSttsEntry entry }
{
    // For the prover: a value that was read has the range of its type.
    let _entry = entry;
    true
}

impl TableEntry<8> for SttsEntry {
    ghost row_of = { row_stts };

    ghost Fits = { FitsSttsEntry };

    #[tactic(auto, unfolding(mp4_frame::specs::Bytes::bytes_of_fields, mp4_frame::specs::Bytes::bytes_of_fields_onto))]
    fn to_row(&self) -> [u8; 8] {
        let mut row = [0; 8];
        let at = put_u32(&mut row, 0, self.sample_count);
        put_u32(&mut row, at, self.sample_delta);
        row
    }

    fn fits(&self) -> bool {
        has_fitting_numbers(*self)
    }
}

impl RowEntry<8> for SttsEntry {
    ghost entry_of = { entry_stts };

    fn from_row(row: &[u8; 8]) -> SttsEntry {
        SttsEntry {
            sample_count: u32_at(row, 0),
            sample_delta: u32_at(row, 4),
        }
    }
}
