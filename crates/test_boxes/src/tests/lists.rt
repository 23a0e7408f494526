//! Tests of the memory that a list of box positions takes. The rows in `tests/rows` compare the positions themselves.

use super::streams::kind_and_count;
use linked_list_allocator::LocalHeap;
use mp4_stream::{ByteCursor, list_boxes};
use std::alloc::Allocator;
use std::test::Fail;
use test_shared::helpers::Kind;

/// Lists the boxes in `bytes` starting at `position`. Returns the kind of the outcome, the number of boxes, and the
/// position of the cursor after the call.
pub(super) fn list_from<A: Allocator>(alloc: A, bytes: &[u8], position: u64) -> (Kind, usize, u64) {
    let mut reader = ByteCursor::new(bytes);
    reader.set_position(position);
    let (kind, count) = kind_and_count(list_boxes(alloc, &mut reader));
    (kind, count, reader.position())
}

#[test]
fn memory_is_asked_for_at_the_first_box(rt: HostRuntime) -> Result<(), Fail> {
    let heap = LocalHeap::new(rt.alloc(), 32)?;
    for (bytes, position, expected) in [
        (b"".as_slice(), 0, (Kind::Ok, 0, 0)),
        (b"\0\0\0\x08free", 8, (Kind::Ok, 0, 8)),
        (b"\0\0\0\x02free", 0, (Kind::Invalid, 0, 0)),
        (b"\0\0\0\x09free", 0, (Kind::End, 0, 0)),
        (b"\0\0\0", 0, (Kind::End, 0, 0)),
        (b"\0\0\0\x08free", 0, (Kind::Memory, 0, 0)),
        (b"\0\0\0\x08free\0\0\0\x02free", 0, (Kind::Memory, 0, 0)),
    ] {
        assert_eq!(rt; list_from(&heap, bytes, position), expected, "{bytes:?}");
        assert_eq!(rt; heap.used(), 0);
    }
    Ok(())
}

#[test]
fn a_list_that_is_out_of_memory_gives_its_memory_back(rt: HostRuntime) -> Result<(), Fail> {
    let heap = LocalHeap::new(rt.alloc(), 256)?;
    let mut stream = Vec::new(rt.alloc());
    for count in 0..4 {
        assert_eq!(rt;
            list_from(&heap, &stream, 0),
            (Kind::Ok, count, stream.len() as u64)
        );
        stream.extend_from_slice(b"\0\0\0\x08free")?;
    }
    for _ in 0..8 {
        stream.extend_from_slice(b"\0\0\0\x08free")?;
    }
    assert_eq!(rt; list_from(&heap, &stream, 0), (Kind::Memory, 0, 0));
    assert_eq!(rt; heap.used(), 0);
    Ok(())
}
