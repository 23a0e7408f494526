//! Tests of a track whose sizes are in an `stz2`.

use crate::tests::files::track::{FILE, Reason, fault_of};
use mp4_frame::FourCC;
use mp4_movie::Movie;
use std::alloc::Global;

/// Returns `FILE` with an `stz2` in place of the `stsz` at offset 297. It has sizes of `bits` bits, counts `count` of
/// them, and has 12 bytes, which begin with `front`.
fn with_compact_sizes(bits: u8, count: u8, front: [u8; 6]) -> [u8; 449] {
    let mut file = FILE;
    file[301..305].copy_from_slice(b"stz2");
    file[312] = bits;
    file[316] = count;
    file[317..323].copy_from_slice(&front);
    file
}

/// Returns whether the second track of `file` has samples of these `sizes`, which are listed.
fn has_sizes(alloc: Global, file: &[u8], sizes: &[u32]) -> bool {
    let Ok(mut movie) = Movie::open(alloc, file) else {
        return false;
    };
    match movie.samples(alloc, 1) {
        Ok(Some(boxes)) => {
            boxes.stsz.sample_size == 0
                && boxes.stsz.sample_count as usize == sizes.len()
                && boxes.stsz.sample_sizes.as_slice() == sizes
        }
        _ => false,
    }
}

/// Of two sizes in a byte the first is in the upper half. The lower half of the second byte has no size.
#[test]
fn sizes_of_4_bits(rt: HostRuntime) {
    let file = with_compact_sizes(4, 3, [0x9A, 0xBC, 0xDE, 0, 0, 0]);
    assert!(rt; has_sizes(rt.alloc(), &file, &[9, 10, 11]));
}

#[test]
fn sizes_of_8_bits(rt: HostRuntime) {
    let file = with_compact_sizes(8, 3, [0x81, 0x82, 0x83, 0x84, 0, 0]);
    assert!(rt; has_sizes(rt.alloc(), &file, &[0x81, 0x82, 0x83]));
}

/// The numbers are big-endian.
#[test]
fn sizes_of_16_bits(rt: HostRuntime) {
    let file = with_compact_sizes(16, 3, [0x81, 0x82, 0, 4, 1, 0]);
    assert!(rt; has_sizes(rt.alloc(), &file, &[0x8182, 4, 256]));
}

/// The reason of a fault in the `stz2` at offset 297.
const INVALID_SIZES: Option<Reason> = Some(Reason::Invalid(FourCC { value: *b"stz2" }, 297));

/// Returns whether `count` sizes of `bits` bits are found in 12 bytes.
fn is_counted(alloc: Global, bits: u8, count: u8) -> bool {
    let file = with_compact_sizes(bits, count, [0; 6]);
    fault_of(alloc, &file, 7).is_none()
}

/// Returns whether `count` sizes of `bits` bits in 12 bytes are reported as invalid.
fn is_invalid(alloc: Global, bits: u8, count: u8) -> bool {
    let file = with_compact_sizes(bits, count, [0; 6]);
    fault_of(alloc, &file, 7) == INVALID_SIZES
}

/// 12 bytes have 24 sizes of 4 bits, 12 of 8, and 6 of 16.
#[test]
fn sizes_past_the_box(rt: HostRuntime) {
    let alloc = rt.alloc();
    assert!(rt; is_counted(alloc, 4, 24) && is_counted(alloc, 8, 12) && is_counted(alloc, 16, 6));
    assert!(rt; is_invalid(alloc, 4, 25) && is_invalid(alloc, 8, 13) && is_invalid(alloc, 16, 7));
}

/// The number of bits is 4, 8 or 16.
#[test]
fn sizes_of_other_numbers_of_bits(rt: HostRuntime) {
    let alloc = rt.alloc();
    assert!(rt; is_invalid(alloc, 0, 3) && is_invalid(alloc, 5, 3) && is_invalid(alloc, 32, 3));
}

/// Returns whether the sizes of `FILE` are those of its `stsz` if the `stss` after it is changed into an `stz2` of
/// three sizes of 8 bits.
fn stsz_is_first(alloc: Global) -> bool {
    let mut file = FILE;
    file[409..413].copy_from_slice(b"stz2");
    file[420] = 8;
    file[424] = 3;
    has_sizes(alloc, &file, &[3, 4, 5])
}

#[test]
fn sizes_in_both_boxes(rt: HostRuntime) {
    assert!(rt; stsz_is_first(rt.alloc()));
}
