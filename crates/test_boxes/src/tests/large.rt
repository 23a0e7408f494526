//! Tests of boxes with many parts, which are read and cloned, and of a list of many boxes, which is read and written.
//! Memory is ample.

use super::streams::is_rewritten;
use mp4_stream::{AvcCBox, Error, FtypBox, HdlrBox, KeptBox, OtherBox, ReadBox, StcoBox, TryClone};
use std::alloc::{AllocError, Global};
use std::test::Fail;
use test_shared::helpers::{Mismatch, read};
use test_shared::made;

/// Returns `front`, followed by `count` copies of `piece`.
fn repeated(
    alloc: Global,
    front: &[u8],
    piece: &[u8],
    count: usize,
) -> Result<Vec<u8>, AllocError> {
    let mut bytes = Vec::from_slice(alloc, front)?;
    for _ in 0..count {
        bytes.extend_from_slice(piece)?;
    }
    Ok(bytes)
}

/// Expects that a box is read from the bytes in `made`, and that it is equal to its clone.
fn clone_of_read<B: ReadBox + TryClone + PartialEq + Drop>(
    alloc: Global,
    made: Result<Vec<u8>, AllocError>,
) -> Result<(), Mismatch> {
    let bytes = made?;
    let (found, _) = read::<B>(alloc, &bytes, bytes.len() as u64);
    made::cloned(found)
}

/// The bytes of an `avcC` without sequence sets, up to the count of its picture sets.
const NO_SEQUENCE_SETS: &[u8] = b"\0\0\0\0avcC\x01\x64\0\x0d\xff\xe0";

/// Expects that an `avcC` of `count` picture sets is read and is equal to its clone. The bytes `set` are the length and
/// the content of each set.
fn clone_of_sets(alloc: Global, count: u8, set: &[u8]) -> Result<(), Mismatch> {
    let front = repeated(alloc, NO_SEQUENCE_SETS, &[count], 1)?;
    clone_of_read::<AvcCBox>(alloc, repeated(alloc, &front, set, count.into()))
}

#[test]
fn many_sets_and_a_set_of_65535_bytes_are_cloned(rt: HostRuntime) -> Result<(), Fail> {
    let alloc = rt.alloc();
    let set = repeated(alloc, &[], b"\xff", 65_537)?;
    clone_of_sets(alloc, 40, b"\0\x01\x68")
        .and(clone_of_sets(alloc, 255, b"\0\x02\x68\x69"))
        .and(clone_of_sets(alloc, 1, &set))?;
    Ok(())
}

/// Returns a box of another type with 70,000 bytes of content.
fn large_other(alloc: Global) -> Result<OtherBox, Error> {
    let content = repeated(alloc, &[], b"content", 10_000)?;
    OtherBox::copy_of(alloc, 0x6d64_6174, &content)
}

#[test]
fn long_tables_texts_and_contents_are_cloned(rt: HostRuntime) -> Result<(), Fail> {
    let alloc = rt.alloc();
    let offsets = repeated(
        alloc,
        b"\0\0\0\0stco\0\0\0\0\0\x01\x11\x70",
        b"offs",
        70_000,
    );
    let brands = repeated(alloc, b"\0\0\0\0ftypisom\0\0\x02\0", b"mp41", 20_000);
    let name = repeated(alloc, &[7; 33], b"name", 20_000);
    clone_of_read::<StcoBox>(alloc, offsets)
        .and(clone_of_read::<FtypBox>(alloc, brands))
        .and(clone_of_read::<HdlrBox>(alloc, name))
        .and(made::cloned(large_other(alloc)))
        .and(made::cloned(large_other(alloc).map(KeptBox::Other)))?;
    Ok(())
}

#[test]
fn a_list_of_131074_boxes_is_read_and_written(rt: HostRuntime) -> Result<(), Fail> {
    let bytes = repeated(
        rt.alloc(),
        &[],
        b"\0\0\0\x10mfhd\0\0\0\0\0\0\0\x01\0\0\0\x10stco\0\0\0\0\0\0\0\0",
        65_537,
    )?;
    assert!(rt; is_rewritten(rt.alloc(), &bytes));
    Ok(())
}
