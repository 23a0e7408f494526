//! Tables with a count or with flags, and their bytes.

mod fragments;

pub use fragments::{
    TFHD, TFHD_BARE, TRUN, TRUN_NONE, TRUN_OF_FOUR_LISTS, tfhd, tfhd_all, tfhd_bare, trun,
    trun_of_durations, trun_of_four_lists, trun_of_three_lists,
};
use mp4_stream::{
    Co64Box, CttsBox, CttsEntry, ElstBox, ElstEntry, Entries, Result, StcoBox, StscBox, StscEntry,
    StssBox, StszBox, SttsBox, SttsEntry,
};
use std::alloc::Global;

/// `stco`, version 1 with flags 5: one offset.
pub const STCO_OF_ONE: [u8; 20] = *b"\0\0\0\x14stco\x01\0\0\x05\0\0\0\x01\0\0\x01\x0b";

/// `stco`, version 0: the offsets of seven chunks.
pub const STCO: [u8; 44] =
    *b"\0\0\0\x2cstco\0\0\0\0\0\0\0\x07\0\0\x01\x0b\0\0\x07\xb2\0\0\x09\xe7\0\0\x0a\xf3\0\0\x2e\x43\0\0\x56\xcf\0\0\
\x83\x30";

/// `co64`, version 0: the offsets of two chunks, one of them past 32 bits.
pub const CO64: [u8; 32] =
    *b"\0\0\0 co64\0\0\0\0\0\0\0\x02\0\0\0\0\0\0\x01\x0b\0\0\0\x01\0\0\x07\xb2";

/// `stts`, version 0: the time between samples, for two runs of samples.
pub const STTS: [u8; 32] = *b"\0\0\0 stts\0\0\0\0\0\0\0\x02\0\0t\x1e\0\0\x04\0\0\0\0\x01\0\0\x02\0";

/// `ctts`, version 0: composition offsets of two runs of samples, one of them negative.
pub const CTTS: [u8; 32] =
    *b"\0\0\0 ctts\0\0\0\0\0\0\0\x02\0\0\0\x01\0\0\0\xc8\0\0\0\x02\xff\xff\xff\x9c";

/// `stss`, version 0: five sync samples.
pub const STSS: [u8; 36] =
    *b"\0\0\0$stss\0\0\0\0\0\0\0\x05\0\0\0\x01\0\0\0=\0\0\0y\0\0\0\xb5\0\0\0\xf1";

/// `stsz`, version 0: the sizes of three samples.
pub const STSZ: [u8; 32] =
    *b"\0\0\0 stsz\0\0\0\0\0\0\0\0\0\0\0\x03\0\0\x04\x8d\0\0\0\x0b\0\0\0\x0b";

/// `stsc`, version 0: two runs of chunks.
pub const STSC: [u8; 40] =
    *b"\0\0\0(stsc\0\0\0\0\0\0\0\x02\0\0\0\x01\0\0\0\x01\0\0\0\x01\0\0JR\0\0\0\x0e\0\0\0\x01";

/// `elst`, version 0: one edit, with times of 32 bits.
pub const ELST: [u8; 28] = *b"\0\0\0\x1celst\0\0\0\0\0\0\0\x01\0\x09\xaf\x0a\0\0\0\0\0\x01\0\0";

/// `co64`, version 0: the offsets of seven chunks, in 64 bits.
pub const CO64_OF_SEVEN: [u8; 72] =
    *b"\0\0\0Hco64\0\0\0\0\0\0\0\x07\0\0\0\0\0\0\x01\x0b\0\0\0\0\0\0\x07\xb2\0\0\0\0\0\0\x09\xe7\0\0\0\0\0\0\x0a\xf3\0\
\0\0\0\0\0\x2e\x43\0\0\0\0\0\0\x56\xcf\0\0\0\0\0\0\x83\x30";

/// `stss`, version 0: nine sync samples.
pub const STSS_OF_NINE: [u8; 52] =
    *b"\0\0\04stss\0\0\0\0\0\0\0\x09\0\0\0\x01\0\0\0\x3d\0\0\0\x79\0\0\0\xb5\0\0\0\xf1\0\0\x01\x2d\0\0\x01\x69\0\0\x01\
\xa5\0\0\x01\xe1";

/// `stsz`, version 0: twelve samples of one size.
pub const STSZ_OF_ONE_SIZE: [u8; 20] = *b"\0\0\0\x14stsz\0\0\0\0\0\0\x04\x8d\0\0\0\x0c";

/// `stsz`, version 0: the sizes of nine samples.
pub const STSZ_OF_NINE: [u8; 56] =
    *b"\0\0\08stsz\0\0\0\0\0\0\0\0\0\0\0\x09\0\0\x04\x8d\0\0\0\x0b\0\0\0\x0b\0\0\x21\x61\0\0\x27\x8e\0\0\x2a\x72\0\0\
\x25\xab\0\0\x24\x87\0\0\x1e\x32";

/// `elst`, version 1: one edit, with times of 64 bits.
pub const ELST_LONG: [u8; 36] =
    *b"\0\0\0$elst\x01\0\0\0\0\0\0\x01\0\0\0\0\0\x09\xaf\x0a\0\0\0\0\0\0\0\0\0\x01\0\0";

/// The sizes of nine samples.
const SIZES: [u32; 9] = [1165, 11, 11, 8545, 10126, 10866, 9643, 9351, 7730];

/// Returns the list of `numbers`.
pub fn list(alloc: Global, numbers: &[u32]) -> Result<Entries<u32>> {
    Ok(Vec::from_slice(alloc, numbers)?.into())
}

/// Returns an `stco` of version 0: the offsets of seven chunks.
pub fn stco(alloc: Global) -> Result<StcoBox> {
    let offsets = [267, 1970, 2535, 2803, 11843, 22223, 33584];
    Ok(StcoBox {
        version: 0,
        flags: 0,
        entries: list(alloc, &offsets)?,
    })
}

fn co64_of(alloc: Global, offsets: &[u64]) -> Result<Co64Box> {
    Ok(Co64Box {
        version: 0,
        flags: 0,
        entries: Vec::from_slice(alloc, offsets)?.into(),
    })
}

/// Returns a `co64` of version 0: the offsets of two chunks, one of them past 32 bits.
pub fn co64(alloc: Global) -> Result<Co64Box> {
    co64_of(alloc, &[267, 0x1_0000_07b2])
}

/// Returns a `co64` of version 0: the offsets of seven chunks, in 64 bits.
pub fn co64_of_seven(alloc: Global) -> Result<Co64Box> {
    co64_of(alloc, &[267, 1970, 2535, 2803, 11843, 22223, 33584])
}

/// Returns an `stts` of version 0: the time between samples, for two runs of samples.
pub fn stts(alloc: Global) -> Result<SttsBox> {
    let entries = [
        SttsEntry {
            sample_count: 29726,
            sample_delta: 1024,
        },
        SttsEntry {
            sample_count: 1,
            sample_delta: 512,
        },
    ];
    Ok(SttsBox {
        version: 0,
        flags: 0,
        entries: Vec::from_slice(alloc, &entries)?.into(),
    })
}

/// Returns a `ctts` of version 0: composition offsets of two runs of samples, one of them negative.
pub fn ctts(alloc: Global) -> Result<CttsBox> {
    let entries = [
        CttsEntry {
            sample_count: 1,
            sample_offset: 200,
        },
        CttsEntry {
            sample_count: 2,
            sample_offset: -100,
        },
    ];
    Ok(CttsBox {
        version: 0,
        flags: 0,
        entries: Vec::from_slice(alloc, &entries)?.into(),
    })
}

fn stss_of(alloc: Global, samples: &[u32]) -> Result<StssBox> {
    Ok(StssBox {
        version: 0,
        flags: 0,
        entries: list(alloc, samples)?,
    })
}

/// Returns an `stss` of version 0: five sync samples.
pub fn stss(alloc: Global) -> Result<StssBox> {
    stss_of(alloc, &[1, 61, 121, 181, 241])
}

/// Returns an `stss` of version 0: nine sync samples.
pub fn stss_of_nine(alloc: Global) -> Result<StssBox> {
    stss_of(alloc, &[1, 61, 121, 181, 241, 301, 361, 421, 481])
}

/// Returns an `stsz` of version 0: the sizes of three samples.
pub fn stsz(alloc: Global) -> Result<StszBox> {
    Ok(StszBox {
        version: 0,
        flags: 0,
        sample_size: 0,
        sample_count: 3,
        sample_sizes: list(alloc, &[1165, 11, 11])?,
    })
}

/// Returns an `stsz` of version 0: the sizes of nine samples.
pub fn stsz_of_nine(alloc: Global) -> Result<StszBox> {
    Ok(StszBox {
        version: 0,
        flags: 0,
        sample_size: 0,
        sample_count: 9,
        sample_sizes: list(alloc, &SIZES)?,
    })
}

/// Returns an `stsz` of version 0: `sample_count` samples, all of size `sample_size`, without a list of sizes.
pub fn stsz_of_one_size(alloc: Global, sample_size: u32, sample_count: u32) -> StszBox {
    let mut stsz = StszBox::default_in(alloc);
    stsz.sample_size = sample_size;
    stsz.sample_count = sample_count;
    stsz
}

/// Returns an entry of `stsc`: a run of chunks with `samples_per_chunk` samples each, all of the first sample
/// description.
pub fn chunk_run(first_chunk: u32, samples_per_chunk: u32, first_sample: u32) -> StscEntry {
    StscEntry {
        first_chunk,
        samples_per_chunk,
        sample_description_index: 1,
        first_sample,
    }
}

/// Returns an `stsc` of version 0: the runs of chunks in `entries`.
pub fn stsc_of(alloc: Global, entries: &[StscEntry]) -> Result<StscBox> {
    Ok(StscBox {
        version: 0,
        flags: 0,
        entries: Vec::from_slice(alloc, entries)?.into(),
    })
}

/// Returns an `stsc` of version 0: two runs of chunks.
pub fn stsc(alloc: Global) -> Result<StscBox> {
    stsc_of(alloc, &[chunk_run(1, 1, 1), chunk_run(19026, 14, 19026)])
}

/// Returns an `elst` of this `version`: one edit with this media time.
pub fn elst_of(alloc: Global, version: u8, media_time: u64) -> Result<ElstBox> {
    let entries = [ElstEntry {
        segment_duration: 634_634,
        media_time,
        media_rate: 1,
        media_rate_fraction: 0,
    }];
    Ok(ElstBox {
        version,
        flags: 0,
        entries: Vec::from_slice(alloc, &entries)?.into(),
    })
}

/// Returns an `elst` of version 0: one edit, with times of 32 bits.
pub fn elst(alloc: Global) -> Result<ElstBox> {
    elst_of(alloc, 0, 0)
}

/// Returns an `elst` of version 1: one edit, with times of 64 bits.
pub fn elst_long(alloc: Global) -> Result<ElstBox> {
    elst_of(alloc, 1, 0)
}
