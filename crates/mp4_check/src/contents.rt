//! The rules about the contents of single boxes: sizes of an `stz2` that can't be listed, and an `avcC` without sets.

ghost use Rattle.std.specs.Prelude.{◌≡◌, ◌==◌, ◌&&◌, ◌||◌, IfOk, IfSome, is_some, length};
ghost use Rattle.mp4_check.specs.Contents.{has_no_sets, is_avcc, is_stz2, is_unlisted, lacks_sets};

use crate::fault::Reason;
use mp4_entries::AvcCBox;
use mp4_extra_samples::stz2::Stz2Box;
use mp4_frame::Error;
use mp4_frame::codes::{AVC1, AVC2, AVCC, STBL, STZ2};
use mp4_io::{Failure, or_read};
use mp4_movie::{read_at, sizes_fault};
use mp4_stream::FourCC;
use mp4_walk::{BoxWalk, Source, TreeBox};
use std::alloc::Global;

/// Returns whether `found` is an `stz2` of the sample table of a track.
fn is_stz2(found: &TreeBox) -> bool
    ensures { result ≡ is_stz2 found.now }
{
    found.depth == 5 && found.has_code(FourCC::from(STZ2)) && found.context.parent == STBL
}

/// Returns why the sizes of `found` can't be listed, if it is an `stz2` and they can't.
pub fn unlisted<S: Source>(
    alloc: Global,
    walk: &mut BoxWalk<S>,
    found: &TreeBox,
) -> Result<Option<Reason>, Failure>
    ensures value { IfSome walk.old.bytes (λ file. IfOk result (λ r. is_some r ≡ is_unlisted file found.now)) }
    ensures kept { walk.new ≡ walk.old }
{
    if !is_stz2(found) {
        return Ok(None);
    }
    match or_read(read_at::<Stz2Box, S>(alloc, walk, found))? {
        Ok(stz2) => Ok(sizes_reason(sizes_fault(&stz2))),
        Err(_) => Ok(None),
    }
}

/// Returns the reason of a fault.
fn sizes_reason(fault: Option<Error>) -> Option<Reason>
    ensures { is_some result ≡ is_some fault }
{
    match fault {
        Some(error) => Some(Reason::Content(error)),
        None => None,
    }
}

/// Returns whether `found` is the configuration of an entry whose parameter sets may not be in its samples.
fn is_avcc(found: &TreeBox) -> bool
    ensures { result ≡ is_avcc found.now }
{
    let parent = found.context.parent;
    found.has_code(FourCC::from(AVCC)) && (parent == AVC1 || parent == AVC2)
}

/// Returns whether `avcc` has no sequence parameter set or no picture parameter set.
fn has_no_sets(avcc: &AvcCBox) -> bool
    ensures { result ≡ has_no_sets avcc.now }
{
    avcc.sequence_parameter_sets.is_empty() || avcc.picture_parameter_sets.is_empty()
}

/// Returns whether `found` is an `avcC` that lacks sets which its entry needs.
pub fn lacks_sets<S: Source>(
    alloc: Global,
    walk: &mut BoxWalk<S>,
    found: &TreeBox,
) -> Result<bool, Failure>
    ensures value { IfSome walk.old.bytes (λ file. IfOk result (λ r. r ≡ lacks_sets file found.now)) }
    ensures kept { walk.new ≡ walk.old }
{
    if !is_avcc(found) {
        return Ok(false);
    }
    match or_read(read_at::<AvcCBox, S>(alloc, walk, found))? {
        Ok(avcc) => Ok(has_no_sets(&avcc)),
        Err(_) => Ok(false),
    }
}
