//! The chunk offset box.

ghost use Rattle.std.specs.Prelude.{◌≡◌, ◌↔◌, ◌<◌, ◌-◌, ◌%◌, ◌^◌, [], All, IsTrue, IfOk, IfErr, OnOk, map, min};
ghost use Rattle.mp4_frame.specs.Written.{WriteRefuses};
ghost use Rattle.mp4_frame.specs.declared.box_type.BoxType.TheVariants as names;
ghost use Rattle.mp4_frame.specs.Format.{write_laws};
ghost use Rattle.mp4_tables.specs.Stco.{made_stco, size_stco, reads_stco, format_stco};
ghost use Rattle.mp4_tables.specs.StcoLaws.{laws_stco};

use crate::co64::Co64Box;
use crate::rows::entries_of;
use mp4_frame::{
    BoxLaws, BoxType, Entries, Error, Mp4Box, ReadBox, Result, TryClone, WriteBox, codes,
    is_whole_table, is_writable_table, put_table, read_table, table_size,
};
use std::alloc::Global;

/// The offsets of the chunks of a track, in 32 bits each (`stco`, ISO/IEC 14496-12, 8.7.5).
#[derive(Debug, Drop, PartialEq, Eq)]
pub struct StcoBox {
    /// The version, 0 in the standard. Every version is read and written in the same way.
    pub version: u8,
    /// Flags of 24 bits, 0 in the standard.
    pub flags: u32,
    /// The offset of each chunk, in bytes from the start of the file.
    pub entries: Entries<u32>,
}

impl StcoBox {
    /// Returns a box of version 0 and flags 0 without chunks. It takes no memory from `alloc`.
    pub fn default_in(alloc: Global) -> StcoBox
        ensures { result ≡ record { version = 0; flags = 0; entries = [] } }
    {
        StcoBox {
            version: 0,
            flags: 0,
            entries: Entries::new(alloc),
        }
    }

    /// Returns the offsets of `co64` in a box of version 0 and flags 0. Fails with invalid data if an offset is above
    /// 2^32 - 1, before it asks for memory. The only other error is out of memory.
    #[tactic(auto, using(mp4_lemmas::proofs::Lists::lowest_bits))]
    pub fn try_from_co64(alloc: Global, co64: &Co64Box) -> Result<StcoBox>
        ensures value { IfOk result (λ stco. stco ≡ made_stco 0 0 co64.now.entries) }
        ensures fits { OnOk result (All (λ offset. offset < 2 ^ 32) co64.now.entries) }
        ensures refused { IfErr result (λ e. WriteRefuses (All (λ offset. offset < 2 ^ 32) co64.now.entries) e) }
    {
        let offsets = co64.entries.as_slice();
        if !are_short(offsets) {
            return Err(Error::InvalidData("value does not fit its field"));
        }
        Ok(StcoBox {
            version: 0,
            flags: 0,
            entries: lowest_bits_of(alloc, offsets)?.into(),
        })
    }

    /// Returns the type of the box, like `box_type`.
    pub fn get_type(&self) -> BoxType
        ensures { result ≡ names.StcoBox }
    {
        self.box_type()
    }

    /// Returns the size of the box in bytes, like `box_size`.
    pub fn get_size(&self) -> u64
        ensures { result ≡ min (size_stco self.now) (2 ^ 64 - 1) }
    {
        self.box_size()
    }
}

impl TryClone for StcoBox {
    fn try_clone(&self) -> Result<StcoBox> {
        Ok(StcoBox {
            version: self.version,
            flags: self.flags,
            entries: self.entries.try_clone()?,
        })
    }
}

/// Returns whether all of `offsets` fit 32 bits.
fn are_short(offsets: &[u64]) -> bool
    ensures { IsTrue result ↔ All (λ offset. offset < 2 ^ 32) offsets.now }
{
    offsets.iter().all(
        |offset: &u64| -> bool
            ensures { IsTrue result ↔ (offset.now < 2 ^ 32) }
        { *offset < 1 << 32 },
    )
}

/// Returns the lowest 32 bits of each of `offsets`. The only error is out of memory.
fn lowest_bits_of(alloc: Global, offsets: &[u64]) -> Result<Vec<u32>>
    ensures value { IfOk result (λ lowest. lowest.items ≡ map (λ offset. offset % 2 ^ 32) offsets.now) }
    ensures memory { IfErr result (λ e. e ≡ Error.OutOfMemory) }
{
    let lowest: Vec<u32> = offsets
        .iter()
        .map(
            |offset: &u64| -> u32
                ensures { result ≡ offset.now % 2 ^ 32 }
            { (*offset % (1 << 32)) as u32 },
        )
        .collect(alloc)?;
    Ok(lowest)
}

impl Mp4Box for StcoBox {
    ghost format = { format_stco };

    fn box_type(&self) -> BoxType {
        BoxType::StcoBox
    }

    fn box_size(&self) -> u64 {
        table_size(self.entries.as_slice())
    }
}

impl ReadBox for StcoBox {
    ghost reads = { reads_stco };

    const LEAST: u64 = 0;

    #[tactic(auto, unfolding(crate::specs::Stco::reads_stco))]
    fn read_content(alloc: Global, bytes: &[u8], _start: u64, size: u64) -> Result<StcoBox> {
        let (version, flags, rows) = read_table::<4>(
            bytes,
            size,
            "stco entry_count indicates more entries than could fit in the box",
        )?;
        Ok(StcoBox {
            version,
            flags,
            entries: entries_of(alloc, rows)?.into(),
        })
    }
}

impl WriteBox for StcoBox {
    fn is_writable(&self) -> bool {
        is_writable_table(
            codes::STCO,
            self.version,
            self.flags,
            self.entries.as_slice(),
        )
    }

    #[tactic(auto, unfolding(crate::specs::Stco::bytes_stco))]
    fn put_box(&self, out: &mut [u8]) {
        put_table(
            out,
            codes::STCO,
            self.version,
            self.flags,
            self.entries.as_slice(),
        );
    }

    #[tactic(auto, using(crate::specs::StcoLaws::normal_stco))]
    fn is_normal_form(bytes: &[u8]) -> bool {
        is_whole_table::<4>(bytes, codes::STCO)
    }

    ghost write_laws = { write_laws laws_stco };
}

impl BoxLaws for StcoBox {
    ghost laws = { laws_stco };
}
