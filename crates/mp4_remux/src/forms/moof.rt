//! A movie fragment: the `moof`, and the ranges of the old file that are its data.

use crate::forms::new_bytes::{
    begin_box, end_box, media_header_length, push_box, push_media_header,
};
use crate::forms::ranges::Ranges;
use crate::forms::refusal::{FormRefusal, FormStop};
use crate::forms::sample_groups::Grouping;
use mp4_extra_samples::sbgp::SbgpBox;
use mp4_flat::{MfhdBox, TfdtBox};
use mp4_frame::{Entries, Mp4Box, codes};
use mp4_samples::{DEFAULT_BASE_IS_MOOF, SAMPLE_IS_NON_SYNC, Sample};
use mp4_tables::{TfhdBox, TrunBox};
use std::alloc::Global;

/// The dependencies of a sync sample without an `sdtp`: it depends on no other (ISO/IEC 14496-12, 8.6.4).
const INDEPENDENT: u8 = 0x20;
/// The dependencies of another sample without an `sdtp`: it depends on others.
const DEPENDENT: u8 = 0x10;

/// Returns the dependencies of a sample without an `sdtp`.
pub(crate) fn usual_dependencies(is_sync: bool) -> u8 {
    if is_sync { INDEPENDENT } else { DEPENDENT }
}

/// Returns the flags of a sample in a fragment (8.8.3.1). `dependencies` is its byte of an `sdtp`.
fn flags_of(dependencies: u8, is_sync: bool) -> u32 {
    let flags = u32::from(dependencies) * 0x10_0000;
    if is_sync {
        flags
    } else {
        flags | SAMPLE_IS_NON_SYNC
    }
}

/// The columns of a run: a number for each sample.
#[derive(Debug, Drop)]
struct Columns {
    durations: Vec<u32>,
    sizes: Vec<u32>,
    flags: Vec<u32>,
    offsets: Vec<u32>,
}

/// The numbers that all samples of a run share.
#[derive(Clone, Copy)]
struct Shared {
    duration: Option<u32>,
    size: Option<u32>,
    /// The flags of all samples, or of all but the first.
    flags: Option<u32>,
    /// The flags of the first sample, if the others have other flags.
    first_flags: Option<u32>,
}

/// The samples of a track of a fragment that follow each other and have one description.
#[derive(Debug, Drop)]
pub struct Run {
    /// The track_ID.
    id: u32,
    /// The index of the sample description.
    pub description: u32,
    /// The decode time of the first sample.
    begin: u64,
    /// The number of samples.
    pub count: u32,
    /// The number of bytes of all samples.
    bytes: u64,
    /// True if a rendering offset is not 0.
    has_offsets: bool,
    /// True if a rendering offset is negative.
    is_signed: bool,
    columns: Columns,
    /// The groups of the samples.
    groups: Vec<SbgpBox>,
}

/// Returns the number that each of `numbers` is, if they are the same.
fn common(numbers: &[u32]) -> Option<u32> {
    let first = numbers.first().copied()?;
    for number in numbers {
        if *number != first {
            return None;
        }
    }
    Some(first)
}

/// Returns `numbers` without the first.
fn rest(numbers: &[u32]) -> &[u32] {
    match numbers.split_first() {
        Some((_, others)) => others,
        None => &[],
    }
}

/// Returns `flag` if `is_set`, and else 0.
fn flag_if(is_set: bool, flag: u32) -> u32 {
    if is_set { flag } else { 0 }
}

/// Returns the numbers that all samples of `columns` share.
fn shared_in(columns: &Columns) -> Shared {
    let all = common(&columns.flags);
    let others = if all.is_some() {
        None
    } else {
        common(rest(&columns.flags))
    };
    Shared {
        duration: common(&columns.durations),
        size: common(&columns.sizes),
        flags: all.or(others),
        first_flags: if others.is_some() {
            columns.flags.first().copied()
        } else {
            None
        },
    }
}

/// Returns the header of a `traf` of the track with the track_ID `id`, which has what all samples share.
fn header_of(id: u32, description: u32, shared: Shared) -> TfhdBox {
    let flags = DEFAULT_BASE_IS_MOOF
        | TfhdBox::FLAG_SAMPLE_DESCRIPTION_INDEX
        | flag_if(
            shared.duration.is_some(),
            TfhdBox::FLAG_DEFAULT_SAMPLE_DURATION,
        )
        | flag_if(shared.size.is_some(), TfhdBox::FLAG_DEFAULT_SAMPLE_SIZE)
        | flag_if(shared.flags.is_some(), TfhdBox::FLAG_DEFAULT_SAMPLE_FLAGS);
    TfhdBox {
        version: 0,
        flags,
        track_id: id,
        base_data_offset: None,
        sample_description_index: Some(description),
        default_sample_duration: shared.duration,
        default_sample_size: shared.size,
        default_sample_flags: shared.flags,
    }
}

/// Returns the flags of a `trun` with the columns of which samples don't share the number.
fn run_flags(shared: Shared, has_offsets: bool) -> u32 {
    TrunBox::FLAG_DATA_OFFSET
        | flag_if(shared.duration.is_none(), TrunBox::FLAG_SAMPLE_DURATION)
        | flag_if(shared.size.is_none(), TrunBox::FLAG_SAMPLE_SIZE)
        | flag_if(shared.flags.is_none(), TrunBox::FLAG_SAMPLE_FLAGS)
        | flag_if(
            shared.first_flags.is_some(),
            TrunBox::FLAG_FIRST_SAMPLE_FLAGS,
        )
        | flag_if(has_offsets, TrunBox::FLAG_SAMPLE_CTS)
}

/// Returns a column of a `trun`, which is empty unless it is listed.
fn column(alloc: Global, numbers: Vec<u32>, is_listed: bool) -> Entries<u32> {
    if is_listed {
        Entries::from_vec(numbers)
    } else {
        Entries::new(alloc)
    }
}

/// Returns a `trun` of `count` samples with `columns`, without those that all samples share.
fn trun_of(
    alloc: Global,
    columns: Columns,
    shared: Shared,
    count: u32,
    has_offsets: bool,
    is_signed: bool,
) -> TrunBox {
    let Columns {
        durations,
        sizes,
        flags,
        offsets,
    } = columns;
    TrunBox {
        version: if is_signed { 1 } else { 0 },
        flags: run_flags(shared, has_offsets),
        sample_count: count,
        data_offset: Some(0),
        first_sample_flags: shared.first_flags,
        sample_durations: column(alloc, durations, shared.duration.is_none()),
        sample_sizes: column(alloc, sizes, shared.size.is_none()),
        sample_flags: column(alloc, flags, shared.flags.is_none()),
        sample_cts: column(alloc, offsets, has_offsets),
    }
}

impl Columns {
    /// Returns columns without samples.
    fn new(alloc: Global) -> Columns {
        Columns {
            durations: Vec::new(alloc),
            sizes: Vec::new(alloc),
            flags: Vec::new(alloc),
            offsets: Vec::new(alloc),
        }
    }

    /// Adds the numbers of a sample with these flags and this rendering offset.
    fn push(&mut self, sample: &Sample, flags: u32, offset: i32) -> Result<(), FormStop> {
        self.durations.push(sample.duration)?;
        self.sizes.push(sample.size)?;
        self.flags.push(flags)?;
        self.offsets.push(offset.cast_unsigned())?;
        Ok(())
    }
}

impl Run {
    /// Returns a run of the track with the track_ID `id`, which begins with `sample`, and has no samples yet.
    pub(crate) fn new(alloc: Global, id: u32, sample: &Sample) -> Run {
        Run {
            id,
            description: sample.sample_description_index,
            begin: sample.start_time,
            count: 0,
            bytes: 0,
            has_offsets: false,
            is_signed: false,
            columns: Columns::new(alloc),
            groups: Vec::new(alloc),
        }
    }

    /// Adds `sample`, whose rendering offset is `offset`.
    pub(crate) fn push(
        &mut self,
        sample: &Sample,
        offset: i32,
        dependencies: u8,
    ) -> Result<(), FormStop> {
        let flags = flags_of(dependencies, sample.is_sync);
        self.columns.push(sample, flags, offset)?;
        self.has_offsets = self.has_offsets || offset != 0;
        self.is_signed = self.is_signed || offset < 0;
        self.count = self.count.saturating_add(1);
        self.bytes = self.bytes.saturating_add(u64::from(sample.size));
        Ok(())
    }

    /// Takes the groups of the samples from those of the track.
    pub(crate) fn take_groups(
        &mut self,
        alloc: Global,
        groups: &mut [Grouping],
    ) -> Result<(), FormStop> {
        for grouping in groups.iter_mut() {
            if let Some(found) = grouping.take_box(alloc, self.count)? {
                self.groups.push(found)?;
            }
        }
        Ok(())
    }

    /// Returns the `traf` of the run. The numbers that all samples share are in the header, and not in the columns.
    fn into_traf(self, alloc: Global) -> Traf {
        let Run {
            id,
            description,
            begin,
            count,
            bytes,
            has_offsets,
            is_signed,
            columns,
            groups,
        } = self;
        let shared = shared_in(&columns);
        Traf {
            header: header_of(id, description, shared),
            time: TfdtBox {
                version: 1,
                flags: 0,
                base_media_decode_time: begin,
            },
            run: trun_of(alloc, columns, shared, count, has_offsets, is_signed),
            groups,
            bytes,
        }
    }
}

/// A `traf`, and the number of bytes of its data.
#[derive(Debug, Drop)]
struct Traf {
    header: TfhdBox,
    time: TfdtBox,
    run: TrunBox,
    groups: Vec<SbgpBox>,
    bytes: u64,
}

impl Traf {
    /// Returns the number of bytes of the box.
    fn length(&self) -> u64 {
        let mut length = self
            .header
            .box_size()
            .saturating_add(self.time.box_size())
            .saturating_add(self.run.box_size())
            .saturating_add(8);
        for grouping in &self.groups {
            length = length.saturating_add(grouping.box_size());
        }
        length
    }

    /// Appends the box. Its data begin `offset` bytes after the beginning of the `moof` with the number `sequence`.
    fn write(&mut self, out: &mut Vec<u8>, offset: u64, sequence: u32) -> Result<(), FormStop> {
        let Ok(short) = i32::try_from(offset) else {
            return Err(FormStop::Refused(FormRefusal::FarData(sequence)));
        };
        self.run.data_offset = Some(short);
        let at = begin_box(out, codes::TRAF)?;
        push_box(out, &self.header, codes::TFHD)?;
        push_box(out, &self.time, codes::TFDT)?;
        push_box(out, &self.run, codes::TRUN)?;
        for grouping in &self.groups {
            push_box(out, grouping, codes::SBGP)?;
        }
        end_box(out, at, codes::TRAF)
    }
}

/// Returns the `traf` of each run.
fn trafs_of(alloc: Global, runs: Vec<Run>) -> Result<Vec<Traf>, FormStop> {
    let mut trafs = Vec::new(alloc);
    for run in runs {
        trafs.push(run.into_traf(alloc))?;
    }
    Ok(trafs)
}

/// Returns the number of bytes of a `moof` with these `traf`s.
fn moof_length(trafs: &[Traf]) -> u64 {
    // The header of the moof, and the mfhd.
    let mut length: u64 = 24;
    for traf in trafs {
        length = length.saturating_add(traf.length());
    }
    length
}

/// Appends the `moof` with the number `sequence` that has these runs, and the header of the `mdat` after it, in which
/// the data of the runs follow each other. Takes no more memory than both have bytes.
pub(crate) fn push_moof(
    alloc: Global,
    out: &mut Vec<u8>,
    sequence: u32,
    runs: Vec<Run>,
    media: &Ranges,
) -> Result<(), FormStop> {
    let mut trafs = trafs_of(alloc, runs)?;
    let mut offset = moof_length(&trafs).saturating_add(media_header_length(media.length));
    out.reserve_exact(offset as usize)?;
    let at = begin_box(out, codes::MOOF)?;
    let header = MfhdBox {
        version: 0,
        flags: 0,
        sequence_number: sequence,
    };
    push_box(out, &header, codes::MFHD)?;
    for traf in trafs.iter_mut() {
        traf.write(out, offset, sequence)?;
        offset = offset.saturating_add(traf.bytes);
    }
    end_box(out, at, codes::MOOF)?;
    Ok(push_media_header(out, media.length)?)
}
