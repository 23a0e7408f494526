//! Tests of refused memory, with allocators that have little memory.

use super::streams::{any_ftyp, append_two};
use example_boxes::mark::MarkBox;
use linked_list_allocator::LocalHeap;
use mp4_stream::{
    AnyBox, BoxHeader, BoxType, Error, MfhdBox, WriteBox, write_box_header_ext, write_boxes,
    write_zeros,
};
use std::alloc::{AllocError, Global};
use std::test::Fail;
use test_shared::helpers::{Kind, kind_of};

/// A call that appends bytes to a vector.
#[derive(Clone, Copy, Debug, PartialEq, Eq)]
enum Call {
    OneBox,
    ListOfBoxes,
    ShortHeader,
    LongHeader,
    VersionAndFlags,
    Zeros,
}

const CALLS: [Call; 6] = [
    Call::OneBox,
    Call::ListOfBoxes,
    Call::ShortHeader,
    Call::LongHeader,
    Call::VersionAndFlags,
    Call::Zeros,
];

/// Appends bytes to `out` by this call, which uses `original` for one box.
fn append<'a>(
    call: Call,
    original: &MarkBox,
    out: &mut Vec<u8, &'a LocalHeap>,
) -> Result<u64, Error> {
    match call {
        Call::OneBox => original.write_box(out),
        Call::ListOfBoxes => write_boxes(&[MarkBox { mark: 1 }, MarkBox { mark: 2 }], out),
        Call::ShortHeader => BoxHeader::new(BoxType::FreeBox, 8).write(out),
        Call::LongHeader => BoxHeader::new(BoxType::FreeBox, 1 << 40).write(out),
        Call::VersionAndFlags => write_box_header_ext(out, 0, 0),
        Call::Zeros => {
            write_zeros(out, 100)?;
            Ok(100)
        }
    }
}

/// The effect of a call on a vector.
enum Effect {
    /// It appended bytes.
    Appended,
    /// It was out of memory and left the length.
    Refused,
    /// Something else.
    Wrong,
}

/// Makes this call, and returns what it did.
fn effect_of<'a>(call: Call, out: &mut Vec<u8, &'a LocalHeap>) -> Effect {
    let before = out.len();
    match append(call, &MarkBox { mark: 1 }, out) {
        Ok(_) if out.len() > before => Effect::Appended,
        Err(Error::OutOfMemory) if out.len() == before => Effect::Refused,
        _ => Effect::Wrong,
    }
}

/// Makes this call a hundred times. Returns whether one was refused, no call did something else than it should, and the
/// vector keeps its first byte.
fn is_refused(call: Call, heap: &LocalHeap) -> Result<bool, AllocError> {
    let mut out = Vec::from_slice(heap, &[9])?;
    let (mut is_refused, mut is_right) = (false, true);
    for _ in 0..100 {
        match effect_of(call, &mut out) {
            Effect::Appended => {}
            Effect::Refused => is_refused = true,
            Effect::Wrong => is_right = false,
        }
    }
    Ok(is_refused && is_right && out.first() == Some(&9))
}

#[test]
fn a_refused_append_leaves_the_vector(rt: HostRuntime) -> Result<(), Fail> {
    for call in CALLS {
        let heap = LocalHeap::new(rt.alloc(), 256)?;
        assert!(rt; is_refused(call, &heap)?, "{call:?}");
    }
    Ok(())
}

/// Appends to `out` what can't be written: flags of 25 bits, a header of a box that is too large, a box, and a list
/// whose last box is this box. Returns the kinds of the outcomes.
fn append_unwritable<'a>(
    alloc: Global,
    out: &mut Vec<u8, &'a LocalHeap>,
) -> Result<[Kind; 4], Error> {
    let header = BoxHeader::new(BoxType::FreeBox, u64::MAX);
    let flagged = MfhdBox {
        version: 0,
        flags: 1 << 24,
        sequence_number: 1,
    };
    Ok([
        kind_of(&write_box_header_ext(out, 0, 1 << 24)),
        kind_of(&header.write(out)),
        kind_of(&flagged.write_box(out)),
        append_two(alloc, any_ftyp(alloc), AnyBox::MfhdBox(flagged), out)?,
    ])
}

#[test]
fn an_unwritable_box_asks_for_no_memory(rt: HostRuntime) -> Result<(), Fail> {
    let heap = LocalHeap::new(rt.alloc(), 64)?;
    let mut out = Vec::new(&heap);
    assert_eq!(rt;
        append_unwritable(rt.alloc(), &mut out)?,
        [Kind::Invalid; 4]
    );
    assert_eq!(rt; heap.used(), 0);
    Ok(())
}
