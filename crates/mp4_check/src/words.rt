//! The words for people of a fault.

use crate::duration::Duration;
use crate::extent::Lies;
use crate::fault::{Fault, Reason, What};
use crate::outside::{Outside, Stray};
use crate::overlap::Overlap;
use crate::sample_faults::SampleFaults;
use mp4_content::push_foreign;
use mp4_frame::codes::{MDAT, STCO, STSZ, VMHD};
use mp4_show::{Result, push_code, push_number};
use mp4_stream::FourCC;
use std::alloc::Global;

/// Appends `text`, and then `number`.
fn push_numbered(text: &str, number: u64, out: &mut String) -> Result<()> {
    out.push_str(text)?;
    push_number(number, out)
}

/// Appends the code `code`.
fn push_name(code: u32, out: &mut String) -> Result<()> {
    push_code(FourCC::from(code), out)
}

/// Appends the codes of the boxes of `group`, of which a box may contain only one.
fn push_group(group: u32, out: &mut String) -> Result<()> {
    match group {
        STSZ => out.push_str("stsz, stz2"),
        STCO => out.push_str("stco, co64"),
        VMHD => out.push_str("vmhd, smhd, hmhd, sthd, nmhd, gmhd"),
        _ => push_name(group, out),
    }
}

/// Appends the code of the box that is needed, and the code of the box that serves instead.
fn push_part(part: u32, out: &mut String) -> Result<()> {
    push_name(part, out)?;
    match part {
        STSZ => out.push_str(" or stz2"),
        STCO => out.push_str(" or co64"),
        _ => Ok(()),
    }
}

/// Appends what is said of a box of the top level with the code `code` that ends after the file.
fn push_lost(code: Option<FourCC>, declared: u64, present: u64, out: &mut String) -> Result<()> {
    match code {
        Some(code) => push_code(code, out)?,
        None => out.push_str("a box")?,
    }
    push_numbered(" declares ", declared, out)?;
    push_numbered(" bytes and ", present, out)?;
    out.push_str(" are present: the file lost its last ")?;
    push_number(declared.saturating_sub(present), out)?;
    match code {
        Some(code) if u32::from(code) == MDAT => out.push_str(" bytes"),
        _ => out.push_str(" bytes, or this size is wrong"),
    }
}

/// Appends where bytes end that begin before `limit`.
fn push_end(first: Stray, limit: u64, out: &mut String) -> Result<()> {
    if first.offset < limit {
        let end = first.offset.saturating_add(first.size);
        push_numbered(", which ends at ", end, out)?;
    }
    Ok(())
}

/// Appends where the first chunk or run outside the media data of a file of `length` bytes lies.
fn push_where(first: Stray, length: u64, out: &mut String) -> Result<()> {
    if first.lies == Lies::BeforeFile {
        return out.push_str(", which begins before the file");
    }
    push_numbered(" at offset ", first.offset, out)?;
    match first.lies {
        Lies::PastFile => {
            push_end(first, length, out)?;
            push_numbered(", past the end of the file (", length, out)?;
            out.push_str(" bytes)")
        }
        Lies::PastMedia(end) => {
            push_end(first, end, out)?;
            push_numbered(", past the end of its mdat at ", end, out)
        }
        _ => out.push_str(", which is in no mdat"),
    }
}

/// Appends what is said of chunks or runs outside the media data, which are called `word`.
fn push_outside(outside: Outside, word: &str, out: &mut String) -> Result<()> {
    push_number(outside.outside, out)?;
    push_numbered(" of ", outside.all, out)?;
    out.push(' ')?;
    out.push_str(word)?;
    out.push_str(if outside.all == 1 {
        " lies"
    } else if outside.outside == 1 {
        "s lies"
    } else {
        "s lie"
    })?;
    out.push_str(" outside the media data; the first is ")?;
    out.push_str(word)?;
    push_numbered(" ", outside.first.number, out)?;
    push_where(outside.first, outside.length, out)
}

/// Appends what is said of chunks that overlap.
fn push_overlap(overlap: Overlap, out: &mut String) -> Result<()> {
    push_number(overlap.count, out)?;
    out.push_str(if overlap.count == 1 {
        " chunk shares"
    } else {
        " chunks share"
    })?;
    out.push_str(" bytes with the chunk before; the first is chunk ")?;
    push_number(overlap.number, out)?;
    push_numbered(" at offset ", overlap.chunk.offset, out)?;
    let begin = overlap.before.offset;
    push_numbered(", and chunk ", overlap.number.saturating_sub(1), out)?;
    push_numbered(" has the bytes from ", begin, out)?;
    push_numbered(" to ", begin.saturating_add(overlap.before.size), out)
}

/// Appends what is said of a duration that contradicts `other`.
fn push_duration(duration: Duration, other: &str, out: &mut String) -> Result<()> {
    push_numbered("the duration is ", duration.declared, out)?;
    out.push_str(other)?;
    push_numbered(" ", duration.found, out)?;
    push_numbered(", in ticks of 1/", u64::from(duration.timescale), out)?;
    out.push_str(" s")
}

/// Appends the words of a fault of the box itself that no reader found.
fn push_box(code: Option<FourCC>, what: What, out: &mut String) -> Result<()> {
    match what {
        What::Foreign(why) => push_foreign(why, out),
        What::Lost { declared, present } => push_lost(code, declared, present, out),
        What::Repeated {
            parent,
            group,
            earlier,
        } => {
            out.push_str("a ")?;
            push_name(parent, out)?;
            out.push_str(" may have only one ")?;
            push_group(group, out)?;
            push_numbered(", and there is one before this at ", earlier, out)
        }
        What::Missing(part) => {
            out.push_str("there is no ")?;
            push_part(part, out)
        }
        What::WithoutSets => {
            out.push_str("there is no sequence parameter set or no picture parameter set")
        }
        What::NoMovie => out.push_str("there is no moov, moof, meta or sidx"),
        _ => Ok(()),
    }
}

/// Appends the words of a fault of a track.
fn push_track(what: What, out: &mut String) -> Result<()> {
    match what {
        What::TrackZero => { out.push_str("track_ID 0 is no number of a track; these begin at 1") }
        What::TrackTwice { track_id, earlier } => {
            push_numbered("track_ID ", u64::from(track_id), out)?;
            push_numbered(
                " is that of another track too, whose tkhd is at ",
                earlier,
                out,
            )
        }
        What::ChunksOutside(outside) => push_outside(outside, "chunk", out),
        What::ChunksOverlap(overlap) => push_overlap(overlap, out),
        What::MediaDuration(duration) => push_duration(duration, ", and that of the samples", out),
        What::TrackDuration(duration) => {
            push_duration(duration, ", and that of the edits or the samples", out)
        }
        What::MovieDuration(duration) => {
            push_duration(duration, ", and that of the longest track", out)
        }
        _ => Ok(()),
    }
}

/// Appends the words of a fault of a fragment or an index.
fn push_segment(what: What, out: &mut String) -> Result<()> {
    match what {
        What::NoTrack(track_id) => {
            push_numbered("track_ID ", u64::from(track_id), out)?;
            out.push_str(" is that of no track of the moov")
        }
        What::RunsOutside(outside) => push_outside(outside, "run", out),
        What::TimeBack { time, earlier } => {
            push_numbered("the fragment starts at ", time, out)?;
            push_numbered(
                ", and the fragment of this track before it at ",
                earlier,
                out,
            )
        }
        What::IndexSizes { before, position } => {
            push_numbered("after ", before, out)?;
            out.push_str(if before == 1 {
                " subsegment"
            } else {
                " subsegments"
            })?;
            push_numbered(" the index is at ", position, out)?;
            out.push_str(", where no box begins and the file doesn't end")
        }
        _ => Ok(()),
    }
}

/// Appends the number, the offset and the size of the first sample with a fault.
fn push_sample(faults: SampleFaults, out: &mut String) -> Result<()> {
    push_numbered("; the first is sample ", faults.first.number, out)?;
    push_numbered(" at offset ", faults.first.offset, out)?;
    push_numbered(" of ", u64::from(faults.first.size), out)?;
    out.push_str(if faults.first.size == 1 {
        " byte"
    } else {
        " bytes"
    })
}

/// Appends the number of samples with a fault, of those that were looked at.
fn push_samples(faults: SampleFaults, out: &mut String) -> Result<()> {
    push_number(faults.count, out)?;
    push_numbered(" of ", faults.all, out)?;
    out.push_str(if faults.all == 1 {
        " sample"
    } else {
        " samples"
    })
}

/// Appends the words of a fault of samples.
fn push_media(what: What, out: &mut String) -> Result<()> {
    match what {
        What::Units(faults) => {
            out.push_str("NAL units don't fill ")?;
            push_samples(faults, out)?;
            push_sample(faults, out)?;
            push_numbered(", whose unit at ", faults.first.cause, out)?;
            out.push_str(" ends after it")
        }
        What::Frames(faults) => {
            push_samples(faults, out)?;
            out.push_str(if faults.count == 1 {
                " has a part of a frame"
            } else {
                " have a part of a frame"
            })?;
            push_sample(faults, out)?;
            push_numbered(", and a frame has ", faults.first.cause, out)?;
            out.push_str(" bytes")
        }
        _ => Ok(()),
    }
}

/// Appends the words for `what`, a fault of a box with the code `code`. Appends nothing if only a reader can say it.
fn push_what(code: Option<FourCC>, what: What, out: &mut String) -> Result<()> {
    push_box(code, what, out)?;
    push_track(what, out)?;
    push_segment(what, out)?;
    push_media(what, out)
}

/// Returns the words of `fault`.
pub fn words_of(alloc: Global, fault: &Fault) -> Result<String> {
    let code = match fault.path.last() {
        Some(part) => part.code,
        None => None,
    };
    let mut text = String::new(alloc);
    push_what(code, fault.what, &mut text)?;
    if !text.is_empty() {
        return Ok(text);
    }
    match &fault.reason {
        Reason::Content(error) => format!(in alloc; "{error}"),
        Reason::Tables(disagreement) => format!(in alloc; "{disagreement}"),
        Reason::None => Ok(text),
    }
}
