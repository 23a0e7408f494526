//! Tests of the iterator over the boxes of a buffer.

use super::streams::kind_and_count;
use example_boxes::mark::MarkBox;
use mp4_iterator::{Boxes, boxes_as, collect_boxes};
use mp4_stream::{AnyBox, ByteCursor, Error, StreamBox};
use std::alloc::Global;
use std::test::Fail;
use test_shared::boxes::THREE;
use test_shared::helpers::{Kind, kind_of};

/// Two boxes of a type from outside the codec, with a `free` box between them.
const MARKS: [u8; 32] = *b"\0\0\0\x0cmark\0\0\0\x07\0\0\0\x08free\0\0\0\x0cmark\0\0\0\x08";

/// Returns the kind of the next item of `boxes`, if there is one, and the offset after it.
fn step<B: StreamBox + Drop>(boxes: &mut Boxes<B>) -> (Option<Kind>, u64) {
    let kind = match boxes.next() {
        Some(item) => Some(kind_of(&item)),
        None => None,
    };
    (kind, boxes.offset())
}

/// Returns the first three steps over the boxes in `bytes`.
fn three_steps(alloc: Global, bytes: &[u8]) -> [(Option<Kind>, u64); 3] {
    let mut boxes = boxes_as::<AnyBox>(alloc, bytes);
    [step(&mut boxes), step(&mut boxes), step(&mut boxes)]
}

#[test]
fn boxes_come_one_at_a_time_up_to_a_fault(rt: HostRuntime) {
    let (ok, end) = (Some(Kind::Ok), Some(Kind::End));
    assert!(rt; three_steps(rt.alloc(), &THREE) == [(ok, 24), (ok, 52), (None, 52)]);
    assert!(rt; three_steps(rt.alloc(), &THREE[..51]) == [(ok, 24), (end, 32), (None, 32)]);
}

/// Reads both boxes of `MARKS` into the same vector, one after the other. Returns the number of each box, and whether
/// the vector is empty at the end and still has its capacity.
fn refilled(alloc: Global) -> Result<(u32, u32, bool), Error> {
    let mut boxes = boxes_as::<MarkBox>(alloc, &MARKS);
    let mut place = Vec::new(alloc);
    boxes.next_into(&mut place)?;
    let (first, room) = (number_in(&place), place.capacity());
    boxes.next_into(&mut place)?;
    let second = number_in(&place);
    let more = boxes.next_into(&mut place)?;
    Ok((
        first,
        second,
        !more && place.is_empty() && place.capacity() == room,
    ))
}

/// Returns the number of the only box in `place`, or 0 if there is another count of boxes.
fn number_in(place: &[MarkBox]) -> u32 {
    match place {
        [one] => one.mark,
        _ => 0,
    }
}

#[test]
fn a_place_is_used_again(rt: HostRuntime) -> Result<(), Fail> {
    assert_eq!(rt; refilled(rt.alloc())?, (7, 8, true));
    Ok(())
}

/// Returns whether the boxes after the cursor are collected, and the cursor stays where it is.
fn is_collected_from_the_cursor(alloc: Global) -> bool {
    let mut reader = ByteCursor::new(&MARKS);
    reader.set_position(12);
    match collect_boxes(alloc, Boxes::<MarkBox>::from_cursor(alloc, &reader)) {
        Ok(found) => number_in(&found) == 8 && reader.position() == 12,
        Err(_) => false,
    }
}

#[test]
fn what_is_left_is_collected(rt: HostRuntime) {
    assert!(rt; is_collected_from_the_cursor(rt.alloc()));
    let all = collect_boxes::<AnyBox>(rt.alloc(), boxes_as(rt.alloc(), &THREE));
    assert!(rt; kind_and_count(all) == (Kind::Ok, 2));
}
