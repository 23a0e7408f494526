//! The splices that hide the boxes of dropped tracks.

ghost use Rattle.std.specs.Prelude.{◌≡◌, ◌<◌, Ok, Some, IfOk, IfSome, IsTrue, length, slice_get};
ghost use Rattle.mp4_movie.specs.Movies.{track_id};
ghost use Rattle.mp4_remux.specs.Edits.{Hides, IsOfTrack, IsSpliceOf, fragment_id};
ghost use Rattle.mp4_walk.specs.FileBoxes.{boxes_of};

use crate::edits::edit::Edit;
use crate::edits::refusal::EditRefusal;
use crate::edits::splice::Splice;
use crate::refusal::{Stop, refused};
use mp4_flat::TkhdBox;
use mp4_frame::{FourCC, codes};
use mp4_io::{Failure, read_failure};
use mp4_movie::{boxes_after, first_in, read_at};
use mp4_tables::TfhdBox;
use mp4_walk::{BoxWalk, Source, TreeBox};
use std::alloc::{AllocError, Global};

/// The bytes of the code of a `free` box (ISO/IEC 14496-12, 8.1.2).
const FREE: [u8; 4] = [0x66, 0x72, 0x65, 0x65];

/// Returns the number of the box that begins at position `at`. The positions of boxes ascend.
fn index_from(boxes: &[TreeBox], at: u64) -> Option<usize>
    ensures { IfSome result (λ n. (n < length boxes.now) × IfSome (slice_get boxes.now n) (λ x. x.position ≡ at)) }
{
    let index = boxes.partition_point(|found| found.position < at);
    if index < boxes.len() && boxes[index].position == at {
        return Some(index);
    }
    None
}

/// Returns the track_ID of a track, or `None` if it can't be read. `inside` begins with the boxes inside its `trak`.
fn id_of_trak<S: Source>(
    alloc: Global,
    walk: &mut BoxWalk<S>,
    inside: &[TreeBox],
) -> Result<Option<u32>, Failure>
    ensures value { IfSome walk.old.bytes (λ B. IfOk result (λ id. IfSome id (λ n. track_id B inside.now ≡ Ok n))) }
    ensures kept { walk.new ≡ walk.old }
{
    let Some(place) = first_in(inside, 2, codes::TKHD) else {
        return Ok(None);
    };
    match read_at::<TkhdBox, S>(alloc, walk, &place.found) {
        Ok(Ok(header)) => Ok(Some(header.track_id)),
        Ok(Err(_)) => Ok(None),
        Err(error) => Err(read_failure(&error)),
    }
}

/// Returns the track_ID of a part of a track in a fragment, or `None` if it can't be read. `inside` begins with the
/// boxes inside its `traf`.
fn id_of_traf<S: Source>(
    alloc: Global,
    walk: &mut BoxWalk<S>,
    inside: &[TreeBox],
) -> Result<Option<u32>, Failure>
    ensures value { IfSome walk.old.bytes (λ B. IfOk result (λ id. IfSome id (λ n. fragment_id B inside.now ≡ Ok n))) }
    ensures kept { walk.new ≡ walk.old }
{
    let Some(place) = first_in(inside, 2, codes::TFHD) else {
        return Ok(None);
    };
    match read_at::<TfhdBox, S>(alloc, walk, &place.found) {
        Ok(Ok(header)) => Ok(Some(header.track_id)),
        Ok(Err(_)) => Ok(None),
        Err(error) => Err(read_failure(&error)),
    }
}

/// Returns whether `found` is the track_ID `id`.
fn is_id(found: Option<u32>, id: u32) -> bool
    ensures { IsTrue result → found ≡ Some id }
{
    match found {
        Some(found) => found == id,
        None => false,
    }
}

/// Returns whether `found` is the track with the track_ID `id`, or a part of it in a fragment. `inside` begins with the
/// boxes inside `found`.
fn is_of_track<S: Source>(
    alloc: Global,
    walk: &mut BoxWalk<S>,
    found: &TreeBox,
    inside: &[TreeBox],
    id: u32,
) -> Result<bool, Failure>
    ensures value { IfSome walk.old.bytes
        (λ B. IfOk result (λ is. IsTrue is → IsOfTrack B id found.now inside.now)) }
    ensures kept { walk.new ≡ walk.old }
{
    if found.has_code(FourCC::from(codes::TRAK)) {
        return Ok(is_id(id_of_trak(alloc, walk, inside)?, id));
    }
    if found.has_code(FourCC::from(codes::TRAF)) {
        return Ok(is_id(id_of_traf(alloc, walk, inside)?, id));
    }
    Ok(false)
}

/// Returns the splice that makes a `free` box of `found`, or `None` if it has another depth than a `trak` or `traf`.
fn freeing(alloc: Global, found: &TreeBox) -> Result<Option<Splice>, AllocError>
    ensures { IfOk result (λ s. IfSome s (Hides found.now.position found.now)) }
{
    if found.depth != 1 {
        return Ok(None);
    }
    let Some(end) = found.position.checked_add(8) else {
        return Ok(None);
    };
    Ok(Some(Splice {
        depth: 2,
        begin: found.position + 4,
        end,
        bytes: Vec::from_slice(alloc, &FREE)?,
    }))
}

/// Returns the splice that hides the box at position `at`, which is of the track with the track_ID `id`.
pub fn hiding<S: Source>(
    alloc: Global,
    walk: &mut BoxWalk<S>,
    boxes: &[TreeBox],
    at: u64,
    id: u32,
) -> Result<Splice, Stop>
    ensures splice { IfSome walk.old.bytes
        (λ B. boxes.now ≡ boxes_of B → IfOk result (IsSpliceOf B (Edit.Hide at id))) }
    ensures kept { walk.new ≡ walk.old }
{
    let Some(index) = index_from(boxes, at) else {
        return Err(refused(EditRefusal::NoTrack(at)));
    };
    let found = boxes[index];
    if !is_of_track(alloc, walk, &found, boxes_after(boxes, index + 1), id)? {
        return Err(refused(EditRefusal::NoTrack(at)));
    }
    match freeing(alloc, &found)? {
        Some(splice) => Ok(splice),
        None => Err(refused(EditRefusal::NoTrack(at))),
    }
}
