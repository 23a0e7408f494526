//! The sample to chunk box.

ghost use Rattle.std.specs.Prelude.{◌≡◌, ◌-◌, ◌^◌, [], min};
ghost use Rattle.mp4_frame.specs.Reading.{AnswersAs};
ghost use Rattle.mp4_frame.specs.declared.box_type.BoxType.TheVariants as names;
ghost use Rattle.mp4_tables.specs.Chunks.{chunks_fit, next_sample};
ghost use Rattle.mp4_frame.specs.Format.{write_laws};
ghost use Rattle.mp4_tables.specs.Stsc.{numbered_entries, size_stsc, reads_stsc, format_stsc};
ghost use Rattle.mp4_tables.specs.StscLaws.{laws_stsc};

use crate::rows::RowEntry;
use crate::stsc_entry::StscEntry;
use mp4_frame::{
    BoxLaws, BoxType, Entries, Error, Mp4Box, ReadBox, Result, TryClone, WriteBox, codes,
    is_writable_table, put_table, read_table, table_size, u32_at,
};
use std::alloc::Global;

/// The number of samples in each chunk of a track (`stsc`, ISO/IEC 14496-12, 8.7.4). A box is invalid data, in reading
/// and in writing, if an entry has a first chunk below that of the entry before it, or a first sample above 2^32 - 1.
#[derive(Debug, Drop, PartialEq, Eq)]
pub struct StscBox {
    /// The version, 0 in the standard. Every version is read and written in the same way.
    pub version: u8,
    /// Flags of 24 bits, 0 in the standard.
    pub flags: u32,
    /// Runs of chunks with the same number of samples each. The first sample of each run is computed when a box is
    /// read, and ignored when it is written.
    pub entries: Entries<StscEntry>,
}

impl StscBox {
    /// Returns a box of version 0 and flags 0 without entries. It takes no memory from `alloc`.
    pub fn default_in(alloc: Global) -> StscBox
        ensures { result ≡ record { version = 0; flags = 0; entries = [] } }
    {
        StscBox {
            version: 0,
            flags: 0,
            entries: Entries::new(alloc),
        }
    }

    /// Returns the type of the box, like `box_type`.
    pub fn get_type(&self) -> BoxType
        ensures { result ≡ names.StscBox }
    {
        self.box_type()
    }

    /// Returns the size of the box in bytes, like `box_size`.
    pub fn get_size(&self) -> u64
        ensures { result ≡ min (size_stsc self.now) (2 ^ 64 - 1) }
    {
        self.box_size()
    }
}

impl TryClone for StscBox {
    fn try_clone(&self) -> Result<StscBox> {
        Ok(StscBox {
            version: self.version,
            flags: self.flags,
            entries: self.entries.try_clone()?,
        })
    }
}

impl Mp4Box for StscBox {
    ghost format = { format_stsc };

    fn box_type(&self) -> BoxType {
        BoxType::StscBox
    }

    fn box_size(&self) -> u64 {
        table_size(self.entries.as_slice())
    }
}

/// Returns the number of the first sample of a run that begins at chunk `first`. The run before it begins at chunk
/// `chunk` with sample `sample`, and has `samples` samples in each chunk. Returns `None` if `first` is below `chunk`,
/// or if the number is above 2^32 - 1.
fn next_sample(sample: u32, chunk: u32, samples: u32, first: u32) -> Option<u32>
    ensures { result ≡ next_sample sample chunk samples first }
{
    let skipped = first.checked_sub(chunk)?;
    let next = u64::from(sample) + u64::from(skipped) * u64::from(samples);
    if next >= 1 << 32 {
        return None;
    }
    Some(next as u32)
}

/// Returns the entry in each of `rows`, with its first sample. Fails with invalid data if a first chunk is below the
/// one before it, or if a first sample is above 2^32 - 1. It asks for all memory before the loop, so that no step of
/// the loop can run out of memory. It is not inlined, so that the loop keeps its constants in registers.
#[inline(never)]
fn numbered_entries(alloc: Global, rows: &[[u8; 12]]) -> Result<Vec<StscEntry>>
    ensures { AnswersAs (λ entries. entries.items) result (numbered_entries rows.now) }
{
    let mut entries = Vec::with_capacity(alloc, rows.len())?;
    let mut sample = 1;
    let mut chunk = match rows.first() {
        Some(row) => u32_at(row, 0),
        None => 0,
    };
    let mut samples = 0;
    for row in rows {
        let mut entry = StscEntry::from_row(row);
        let Some(next) = next_sample(sample, chunk, samples, entry.first_chunk) else {
            return Err(Error::InvalidData("attempt to calculate stsc sample_id with overflow"));
        };
        entry.first_sample = next;
        sample = next;
        chunk = entry.first_chunk;
        samples = entry.samples_per_chunk;
        entries.push_reserved(entry);
    }
    Ok(entries)
}

/// Returns whether the first samples of `entries` can be computed: no first chunk is below the one before it, and no
/// first sample is above 2^32 - 1.
fn samples_fit(entries: &[StscEntry]) -> bool
    ensures { result ≡ chunks_fit entries.now }
{
    let mut sample = 1;
    let mut chunk = match entries.first() {
        Some(entry) => entry.first_chunk,
        None => 0,
    };
    let mut samples = 0;
    for entry in entries {
        let Some(next) = next_sample(sample, chunk, samples, entry.first_chunk) else {
            return false;
        };
        sample = next;
        chunk = entry.first_chunk;
        samples = entry.samples_per_chunk;
    }
    true
}

impl ReadBox for StscBox {
    ghost reads = { reads_stsc };

    const LEAST: u64 = 0;

    #[tactic(auto, unfolding(crate::specs::Stsc::reads_stsc))]
    fn read_content(alloc: Global, bytes: &[u8], _start: u64, size: u64) -> Result<StscBox> {
        let (version, flags, rows) = read_table::<12>(
            bytes,
            size,
            "stsc entry_count indicates more entries than could fit in the box",
        )?;
        Ok(StscBox {
            version,
            flags,
            entries: numbered_entries(alloc, rows)?.into(),
        })
    }
}

impl WriteBox for StscBox {
    fn is_writable(&self) -> bool {
        is_writable_table(
            codes::STSC,
            self.version,
            self.flags,
            self.entries.as_slice(),
        ) && samples_fit(self.entries.as_slice())
    }

    #[tactic(auto, unfolding(crate::specs::Stsc::bytes_stsc))]
    fn put_box(&self, out: &mut [u8]) {
        put_table(
            out,
            codes::STSC,
            self.version,
            self.flags,
            self.entries.as_slice(),
        );
    }

    ghost write_laws = { write_laws laws_stsc };
}

impl BoxLaws for StscBox {
    ghost laws = { laws_stsc };
}
