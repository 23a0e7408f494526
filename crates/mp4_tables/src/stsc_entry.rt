//! An entry of the sample to chunk box.

ghost use Rattle.std.specs.Prelude.{◌↔◌, IsTrue};
ghost use Rattle.mp4_tables.specs.StscEntry.{entry_stsc, row_stsc, FitsStscEntry};

use crate::rows::RowEntry;
use mp4_frame::{TableEntry, put_u32, u32_at};

/// A run of consecutive chunks with the same number of samples each (ISO/IEC 14496-12, 8.7.4).
#[derive(Clone, Copy, Debug, Default, PartialEq, Eq)]
pub struct StscEntry {
    /// The number of the run's first chunk, counted from 1 in the standard. The run ends before the first chunk of
    /// the next entry.
    pub first_chunk: u32,
    /// The number of samples in each chunk of the run.
    pub samples_per_chunk: u32,
    /// The index of the sample entry that the samples use, counted from 1.
    pub sample_description_index: u32,
    /// The number of the run's first sample, counted from 1. It is computed when a box is read, and is not written.
    pub first_sample: u32,
}

/// Returns true, always. For the prover: each number of `entry` has the range of its type.
fn has_fitting_numbers(entry: StscEntry) -> bool
    ensures { IsTrue result ↔ FitsStscEntry entry }
{
    // For the prover: a value that was read has the range of its type.
    let _entry = entry;
    true
}

impl TableEntry<12> for StscEntry {
    ghost row_of = { row_stsc };

    ghost Fits = { FitsStscEntry };

    #[tactic(auto, unfolding(mp4_frame::specs::Bytes::bytes_of_fields, mp4_frame::specs::Bytes::bytes_of_fields_onto))]
    fn to_row(&self) -> [u8; 12] {
        let mut row = [0; 12];
        let at = put_u32(&mut row, 0, self.first_chunk);
        let at = put_u32(&mut row, at, self.samples_per_chunk);
        put_u32(&mut row, at, self.sample_description_index);
        row
    }

    fn fits(&self) -> bool {
        has_fitting_numbers(*self)
    }
}

impl RowEntry<12> for StscEntry {
    ghost entry_of = { entry_stsc };

    fn from_row(row: &[u8; 12]) -> StscEntry {
        StscEntry {
            first_chunk: u32_at(row, 0),
            samples_per_chunk: u32_at(row, 4),
            sample_description_index: u32_at(row, 8),
            first_sample: 0,
        }
    }
}
