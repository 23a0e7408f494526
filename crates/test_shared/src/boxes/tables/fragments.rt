//! The tables of fragments, with their bytes.

use super::{SIZES, list};
use mp4_stream::{Entries, Result, TfhdBox, TrunBox};
use std::alloc::Global;

/// `tfhd`, version 0: three of the five optional fields.
pub const TFHD: [u8; 28] = *b"\0\0\0\x1ctfhd\0\0\0*\0\0\0\x01\0\0\0\x01\0\0\x02\0\x01\x01\0\0";

/// `trun`, version 0: a data offset, and the sizes of two samples.
pub const TRUN: [u8; 28] = *b"\0\0\0\x1ctrun\0\0\x02\x01\0\0\0\x02\0\0\0d\0\0\0\x0a\0\0\0\x14";

/// `tfhd`, version 0: none of the five optional fields.
pub const TFHD_BARE: [u8; 16] = *b"\0\0\0\x10tfhd\0\0\0\0\0\0\0\x01";

/// `trun`, version 0: no samples, and none of the lists.
pub const TRUN_NONE: [u8; 16] = *b"\0\0\0\x10trun\0\0\0\0\0\0\0\0";

/// `trun`, version 0: durations, sizes, flags and composition times of nine samples.
pub const TRUN_OF_FOUR_LISTS: [u8; 160] =
    *b"\0\0\0\xa0trun\0\0\x0f\0\0\0\0\x09\0\0\x04\x8d\0\0\x04\x8d\0\0\x04\x8d\0\0\x04\x8d\0\0\0\x0b\0\0\0\x0b\0\0\0\
\x0b\0\0\0\x0b\0\0\0\x0b\0\0\0\x0b\0\0\0\x0b\0\0\0\x0b\0\0\x21\x61\0\0\x21\x61\0\0\x21\x61\0\0\x21\x61\0\0\x27\x8e\0\0\
\x27\x8e\0\0\x27\x8e\0\0\x27\x8e\0\0\x2a\x72\0\0\x2a\x72\0\0\x2a\x72\0\0\x2a\x72\0\0\x25\xab\0\0\x25\xab\0\0\x25\xab\0\
\0\x25\xab\0\0\x24\x87\0\0\x24\x87\0\0\x24\x87\0\0\x24\x87\0\0\x1e\x32\0\0\x1e\x32\0\0\x1e\x32\0\0\x1e\x32";

/// Returns a `tfhd` of version 0: a track fragment with three of the five optional fields.
pub fn tfhd() -> TfhdBox {
    TfhdBox {
        version: 0,
        flags: TfhdBox::FLAG_SAMPLE_DESCRIPTION_INDEX
            | TfhdBox::FLAG_DEFAULT_SAMPLE_DURATION
            | TfhdBox::FLAG_DEFAULT_SAMPLE_FLAGS,
        track_id: 1,
        base_data_offset: None,
        sample_description_index: Some(1),
        default_sample_duration: Some(512),
        default_sample_size: None,
        default_sample_flags: Some(0x101_0000),
    }
}

/// Returns a `tfhd` of version 0: a track fragment with none of the optional fields.
pub fn tfhd_bare() -> TfhdBox {
    let mut tfhd = TfhdBox::default();
    tfhd.track_id = 1;
    tfhd
}

/// Returns a `tfhd` of version 0: a track fragment with all of the optional fields.
pub fn tfhd_all() -> TfhdBox {
    TfhdBox {
        version: 0,
        flags: TfhdBox::FLAG_BASE_DATA_OFFSET
            | TfhdBox::FLAG_SAMPLE_DESCRIPTION_INDEX
            | TfhdBox::FLAG_DEFAULT_SAMPLE_DURATION
            | TfhdBox::FLAG_DEFAULT_SAMPLE_SIZE
            | TfhdBox::FLAG_DEFAULT_SAMPLE_FLAGS,
        track_id: 1,
        base_data_offset: Some(1 << 33),
        sample_description_index: Some(2),
        default_sample_duration: Some(3),
        default_sample_size: Some(4),
        default_sample_flags: Some(5),
    }
}

/// Returns a `trun` of version 0: a run of two samples with a data offset and their sizes.
pub fn trun(alloc: Global) -> Result<TrunBox> {
    Ok(TrunBox {
        version: 0,
        flags: TrunBox::FLAG_DATA_OFFSET | TrunBox::FLAG_SAMPLE_SIZE,
        sample_count: 2,
        data_offset: Some(100),
        first_sample_flags: None,
        sample_durations: Entries::new(alloc),
        sample_sizes: list(alloc, &[10, 20])?,
        sample_flags: Entries::new(alloc),
        sample_cts: Entries::new(alloc),
    })
}

/// Returns a `trun` of version 0: a run of one sample with its duration.
pub fn trun_of_durations(alloc: Global) -> Result<TrunBox> {
    let mut duration = TrunBox::default_in(alloc);
    duration.flags = TrunBox::FLAG_SAMPLE_DURATION;
    duration.sample_count = 1;
    duration.sample_durations = list(alloc, &[1024])?;
    Ok(duration)
}

/// Replaces the four lists of `trun`.
fn put_lists(
    alloc: Global,
    trun: &mut TrunBox,
    durations: &[u32],
    sizes: &[u32],
    flags: &[u32],
    cts: &[u32],
) -> Result<()> {
    trun.sample_durations = list(alloc, durations)?;
    trun.sample_sizes = list(alloc, sizes)?;
    trun.sample_flags = list(alloc, flags)?;
    trun.sample_cts = list(alloc, cts)?;
    Ok(())
}

/// Returns a `trun` of version 0: a run of two samples with both optional fields, durations, sizes and composition
/// times.
pub fn trun_of_three_lists(alloc: Global) -> Result<TrunBox> {
    let mut trun = TrunBox::default_in(alloc);
    trun.flags = TrunBox::FLAG_DATA_OFFSET
        | TrunBox::FLAG_FIRST_SAMPLE_FLAGS
        | TrunBox::FLAG_SAMPLE_DURATION
        | TrunBox::FLAG_SAMPLE_SIZE
        | TrunBox::FLAG_SAMPLE_CTS;
    trun.sample_count = 2;
    trun.data_offset = Some(-8);
    trun.first_sample_flags = Some(0x0200_0000);
    put_lists(
        alloc,
        &mut trun,
        &[1024, 1025],
        &[10, 20],
        &[],
        &[512, 4294967295],
    )?;
    Ok(trun)
}

/// Returns a `trun` of version 0: a run of nine samples with all four lists.
pub fn trun_of_four_lists(alloc: Global) -> Result<TrunBox> {
    let mut trun = TrunBox::default_in(alloc);
    trun.flags = TrunBox::FLAG_SAMPLE_DURATION
        | TrunBox::FLAG_SAMPLE_SIZE
        | TrunBox::FLAG_SAMPLE_FLAGS
        | TrunBox::FLAG_SAMPLE_CTS;
    trun.sample_count = 9;
    put_lists(alloc, &mut trun, &SIZES, &SIZES, &SIZES, &SIZES)?;
    Ok(trun)
}
