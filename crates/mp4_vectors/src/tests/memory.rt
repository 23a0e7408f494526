//! Tests that writing asks for memory once, and leaves the vector unchanged if the request is refused.

use linked_list_allocator::LocalHeap;
use mp4_stream::{AnyBox, Error, WriteBox, write_boxes};
use std::alloc::{AllocError, Global};
use std::test::Fail;
use test_shared::helpers::{Kind, kind_of};
use test_shared::vectors::{FIRST_VECTORS, SECOND_VECTORS, Vector};

/// Writes `original` with a heap that has no memory left. Returns the kind of the outcome, and whether nothing was
/// written.
fn write_over_none<B: WriteBox>(alloc: Global, original: &B) -> Result<(Kind, bool), AllocError> {
    let heap = LocalHeap::new(alloc, 16)?;
    let _all = Vec::from_slice(&heap, &[7])?;
    let mut out = Vec::new(&heap);
    let outcome = original.write_box(&mut out);
    Ok((kind_of(&outcome), out.is_empty()))
}

/// Writes `original` with a heap that has memory for `bytes`, rounded up to blocks of 16 bytes. Returns the kind of the
/// outcome, and whether `bytes` were written.
fn write_over_one<B: WriteBox>(
    alloc: Global,
    original: &B,
    bytes: &[u8],
) -> Result<(Kind, bool), AllocError> {
    let heap = LocalHeap::new(alloc, bytes.len())?;
    let mut out = Vec::new(&heap);
    let outcome = original.write_box(&mut out);
    Ok((kind_of(&outcome), out.as_slice() == bytes))
}

/// Returns whether writing `original` is out of memory with a full heap, and succeeds with one that has memory for
/// `bytes`.
fn is_refused_and_written<B: WriteBox>(alloc: Global, original: &B, bytes: &[u8]) -> bool {
    write_over_none(alloc, original) == Ok((Kind::Memory, true))
        && write_over_one(alloc, original, bytes) == Ok((Kind::Ok, true))
}

/// Returns whether there is a box in `made`, and `is_refused_and_written` holds for it.
fn takes_one_block<B: WriteBox + Drop>(
    alloc: Global,
    made: Result<B, Error>,
    bytes: &[u8],
) -> bool {
    match made {
        Ok(original) => is_refused_and_written(alloc, &original, bytes),
        Err(_) => false,
    }
}

/// Returns whether writing each vector is out of memory with the full heap, and succeeds with the other one.
fn are_written_at_once<V: Vector>(alloc: Global, vectors: &[V]) -> bool {
    for vector in vectors {
        if !takes_one_block(alloc, vector.make(alloc), vector.bytes()) {
            return false;
        }
    }
    true
}

/// The heap has memory for one request, so a second one would be refused.
#[test]
fn a_write_takes_one_block(rt: HostRuntime) {
    assert!(rt; are_written_at_once(rt.alloc(), &FIRST_VECTORS));
    assert!(rt; are_written_at_once(rt.alloc(), &SECOND_VECTORS));
}

/// Writes a list of boxes with a heap of `room` bytes. Returns the kind of the outcome and the number of bytes that
/// were written.
fn write_list_over(
    alloc: Global,
    boxes: &[AnyBox],
    room: usize,
) -> Result<(Kind, usize), AllocError> {
    let heap = LocalHeap::new(alloc, room)?;
    let mut out = Vec::new(&heap);
    let outcome = write_boxes(boxes, &mut out);
    Ok((kind_of(&outcome), out.len()))
}

/// Returns the boxes of all vectors, and the number of their bytes.
fn list_of<V: Vector>(alloc: Global, vectors: &[V]) -> Result<(Vec<AnyBox>, usize), Error> {
    let mut boxes = Vec::new(alloc);
    let mut room: usize = 0;
    for vector in vectors {
        boxes.push(vector.make(alloc)?)?;
        room = room.saturating_add(vector.bytes().len());
    }
    Ok((boxes, room))
}

/// Returns whether the list of the vectors is written with a heap that has memory only for its bytes, and is out of
/// memory with half of that.
fn is_written_at_once<V: Vector>(alloc: Global, vectors: &[V]) -> Result<bool, Error> {
    let (boxes, room) = list_of(alloc, vectors)?;
    let whole = write_list_over(alloc, &boxes, room)?;
    let half = write_list_over(alloc, &boxes, room / 2)?;
    Ok((whole, half) == ((Kind::Ok, room), (Kind::Memory, 0)))
}

#[test]
fn a_list_asks_for_one_block(rt: HostRuntime) -> Result<(), Fail> {
    assert!(rt; is_written_at_once(rt.alloc(), &FIRST_VECTORS)?);
    assert!(rt; is_written_at_once(rt.alloc(), &SECOND_VECTORS)?);
    Ok(())
}
