//! The indexes of a fragmented file: `sidx` and `mfra` (ISO/IEC 14496-12, 8.16.3 and 8.8.9).

use crate::forms::fragment_part::FragmentPart;
use crate::forms::new_bytes::{begin_box, end_box, push_box, push_u32, push_u64};
use crate::forms::refusal::{FormRefusal, FormStop};
use mp4_declared::Declared;
use mp4_extra_samples::mfro::Mfro;
use mp4_extra_samples::sidx::{Sidx, SidxEntry};
use mp4_extra_samples::tfra::{Tfra, TfraLengths};
use mp4_frame::{Entries, codes};
use std::alloc::Global;

/// The number of references that a `sidx` can have.
const MOST: usize = 65_535;

/// Returns the reference of a `sidx` to `part`, fragment `number`.
fn reference_to(part: &FragmentPart, number: u32) -> Result<SidxEntry, FormStop> {
    let (Ok(size), Ok(duration)) = (u32::try_from(part.length), u32::try_from(part.duration)) else {
        return Err(FormStop::Refused(FormRefusal::Index(number)));
    };
    if size >= 1 << 31 {
        return Err(FormStop::Refused(FormRefusal::Index(number)));
    }
    Ok(SidxEntry {
        reference_type: false,
        referenced_size: size,
        subsegment_duration: duration,
        starts_with_sap: part.is_sync,
        sap_type: if part.is_sync { 1 } else { 0 },
        sap_delta_time: 0,
    })
}

/// Appends the `sidx` of the fragments `parts`, which follow it. The track with the track_ID `id` and the timescale
/// `scale` leads.
pub(crate) fn push_sidx(
    alloc: Global,
    out: &mut Vec<u8>,
    parts: &[FragmentPart],
    id: u32,
    scale: u32,
) -> Result<(), FormStop> {
    let mut entries = Vec::new(alloc);
    let mut number: u32 = 1;
    let mut earliest = 0;
    for part in parts {
        if entries.len() >= MOST {
            return Err(FormStop::Refused(FormRefusal::Index(number)));
        }
        if number == 1 {
            earliest = part.earliest;
        }
        entries.push(reference_to(part, number)?)?;
        number = number.saturating_add(1);
    }
    let sidx = Declared::new(Sidx {
        version: 1,
        flags: 0,
        reference_id: id,
        timescale: scale,
        earliest_presentation_time: earliest,
        first_offset: 0,
        entries: Entries::from_vec(entries),
    });
    push_box(out, &sidx, codes::SIDX)
}

/// Returns the rows of a `tfra` of version 1, with four bytes for the number of a `traf`, and their number. The
/// fragments begin at position `first`, and the `moof` of each is `skip` bytes after its beginning.
fn rows_of(
    alloc: Global,
    parts: &[FragmentPart],
    first: u64,
    skip: u64,
) -> Result<(Vec<u8>, u32), FormStop> {
    let mut rows = Vec::new(alloc);
    let mut count: u32 = 0;
    let mut at = first;
    for part in parts {
        if part.is_sync {
            push_u64(&mut rows, part.shown)?;
            push_u64(&mut rows, at.saturating_add(skip))?;
            push_u32(&mut rows, part.traf)?;
            rows.push(1)?;
            rows.push(1)?;
            count = count.saturating_add(1);
        }
        at = at.saturating_add(part.length);
    }
    Ok((rows, count))
}

/// Appends the `mfra` of the fragments `parts`. They begin at position `first`, and the `moof` of each is `skip` bytes
/// after its beginning. The track with the track_ID `id` leads.
pub(crate) fn push_mfra(
    alloc: Global,
    out: &mut Vec<u8>,
    parts: &[FragmentPart],
    id: u32,
    first: u64,
    skip: u64,
) -> Result<(), FormStop> {
    let (rows, count) = rows_of(alloc, parts, first, skip)?;
    let at = begin_box(out, codes::MFRA)?;
    let tfra = Declared::new(Tfra {
        version: 1,
        flags: 0,
        track_id: id,
        lengths: TfraLengths {
            reserved: 0,
            length_size_of_traf_num: 3,
            length_size_of_trun_num: 0,
            length_size_of_sample_num: 0,
        },
        number_of_entry: count,
        entries: Entries::from_vec(rows),
    });
    push_box(out, &tfra, codes::TFRA)?;
    // The mfro has 16 bytes.
    let size = out.len().saturating_sub(at).saturating_add(16);
    let mfro = Declared::new(Mfro {
        version: 0,
        flags: 0,
        parent_size: u32::try_from(size as u64).unwrap_or(u32::MAX),
    });
    push_box(out, &mfro, codes::MFRO)?;
    end_box(out, at, codes::MFRA)
}
