//! An entry of the edit list box.

ghost use Rattle.std.specs.Prelude.{◌≡◌, ◌≤◌, ◌+◌, ◌++◌, ◌↔◌, IsTrue, true, false, length, take};
ghost use Rattle.mp4_frame.specs.Bytes.{be_bytes};
ghost use Rattle.mp4_tables.specs.ElstEntry.{entry_elst, row_elst, FitsElstEntry};

use crate::rows::RowEntry;
use mp4_frame::{TableEntry, put_bytes, put_u16, put_u64, u16_at, u32_at, u64_at};

/// An edit: a part of a track's media, with the duration and the rate of its presentation (ISO/IEC 14496-12, 8.6.6).
#[derive(Clone, Copy, Debug, Default, PartialEq, Eq)]
pub struct ElstEntry {
    /// The duration of the part, in the timescale of the movie header. 32 bits unless the box has version 1.
    pub segment_duration: u64,
    /// The time in the media at which the part begins, in the timescale of the media. 32 bits unless the box has
    /// version 1. The number is unsigned: an empty edit (-1 in the standard) has the largest number of its width.
    pub media_time: u64,
    /// The whole part of the playback rate. 1 is normal speed; 0 means that the media at `media_time` is shown for
    /// the whole duration.
    pub media_rate: u16,
    /// The fraction of the playback rate, 0 in the standard.
    pub media_rate_fraction: u16,
}

/// Returns true, always. For the prover: each number of `entry` has the range of its type.
fn has_fitting_numbers(entry: ElstEntry) -> bool
    ensures { IsTrue result ↔ FitsElstEntry true entry }
{
    // For the prover: a value that was read has the range of its type.
    let _entry = entry;
    true
}

/// Returns whether both times of `entry` fit 32 bits.
fn has_short_times(entry: ElstEntry) -> bool
    ensures { IsTrue result ↔ FitsElstEntry false entry }
{
    // For the prover: a value that was read has the range of its type.
    let _entry = entry;
    entry.segment_duration < 1 << 32 && entry.media_time < 1 << 32
}

/// Writes the lowest four bytes of `n` to `out` at offset `at`, and returns the offset after them.
#[tactic(auto, unfolding(mp4_frame::specs::Bytes::be_bytes))]
fn put_low_u32(out: &mut [u8], at: usize, n: u64) -> usize
    requires { at + 4 ≤ length out.old }
    ensures next { result ≡ at + 4 }
    ensures put { take result out.new ≡ take at out.old ++ be_bytes 4 n }
{
    put_bytes(out, at, &n.to_be_bytes()[4..])
}

impl TableEntry<20> for ElstEntry {
    ghost row_of = { row_elst true };

    ghost Fits = { FitsElstEntry true };

    #[tactic(auto, unfolding(mp4_frame::specs::Bytes::bytes_of_fields, mp4_frame::specs::Bytes::bytes_of_fields_onto))]
    fn to_row(&self) -> [u8; 20] {
        let mut row = [0; 20];
        let at = put_u64(&mut row, 0, self.segment_duration);
        let at = put_u64(&mut row, at, self.media_time);
        let at = put_u16(&mut row, at, self.media_rate);
        put_u16(&mut row, at, self.media_rate_fraction);
        row
    }

    fn fits(&self) -> bool {
        has_fitting_numbers(*self)
    }
}

impl TableEntry<12> for ElstEntry {
    ghost row_of = { row_elst false };

    ghost Fits = { FitsElstEntry false };

    #[tactic(auto, unfolding(mp4_frame::specs::Bytes::bytes_of_fields, mp4_frame::specs::Bytes::bytes_of_fields_onto))]
    fn to_row(&self) -> [u8; 12] {
        let mut row = [0; 12];
        let at = put_low_u32(&mut row, 0, self.segment_duration);
        let at = put_low_u32(&mut row, at, self.media_time);
        let at = put_u16(&mut row, at, self.media_rate);
        put_u16(&mut row, at, self.media_rate_fraction);
        row
    }

    fn fits(&self) -> bool {
        has_short_times(*self)
    }
}

impl RowEntry<20> for ElstEntry {
    ghost entry_of = { entry_elst true };

    fn from_row(row: &[u8; 20]) -> ElstEntry {
        ElstEntry {
            segment_duration: u64_at(row, 0),
            media_time: u64_at(row, 8),
            media_rate: u16_at(row, 16),
            media_rate_fraction: u16_at(row, 18),
        }
    }
}

impl RowEntry<12> for ElstEntry {
    ghost entry_of = { entry_elst false };

    fn from_row(row: &[u8; 12]) -> ElstEntry {
        ElstEntry {
            segment_duration: u64::from(u32_at(row, 0)),
            media_time: u64::from(u32_at(row, 4)),
            media_rate: u16_at(row, 8),
            media_rate_fraction: u16_at(row, 10),
        }
    }
}
