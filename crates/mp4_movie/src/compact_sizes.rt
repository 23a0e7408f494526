//! The compact sizes of samples.

ghost use Rattle.std.specs.Prelude.{◌≡◌, ◌≤◌, ◌<◌, ◌+◌, ◌*◌, ◌/◌, nat_le, true, length, take, slice_index};
ghost use Rattle.std.specs.Prelude.{IfOk, IfSome, is_none};
ghost use Rattle.std.specs.List.{flat_map};
ghost use Rattle.mp4_movie.specs.CompactSizes.{compact_sizes, halves, has_sizes, is_width, listed, pairs, sizes_in};
ghost use Rattle.mp4_movie.specs.Problems.{IsFaultOf, Returns, ReturnsFor};
ghost use Rattle.mp4_movie.specs.Reads.{IsReadAs, or_fault};
ghost use Rattle.mp4_frame.specs.FourCC.{four_cc_of};
ghost use Rattle.mp4_frame.specs.declared.codes.TheConstants as names;
ghost use Rattle.mp4_frame.specs.Reading.{Invalid};

use crate::error::{BoxError, MovieError};
use crate::found::value_at;
use mp4_extra_samples::stz2::{Stz2, Stz2Box};
use mp4_frame::{Error, FourCC, codes};
use mp4_tables::StszBox;
use mp4_walk::{BoxWalk, Source, TreeBox};
use std::alloc::{AllocError, Global};
use std::io;

/// Returns whether sizes may have `bits` bits.
fn is_width(bits: u8) -> bool
    ensures { result ≡ is_width bits }
{
    matches!(bits, 4 | 8 | 16)
}

/// Returns the number of bytes of `count` sizes of `bits` bits each.
fn width_of(bits: u8, count: u32) -> u64
    ensures { result ≡ (count * bits + 7) / 8 }
{
    (u64::from(count) * u64::from(bits)).div_ceil(8)
}

/// Returns whether `bytes` has `count` sizes of `bits` bits each.
fn has_all(bits: u8, count: u32, bytes: &[u8]) -> bool
    requires { is_width bits ≡ true }
    ensures { result ≡ nat_le count (length (sizes_in bits bytes.now)) }
{
    width_of(bits, count) <= bytes.len() as u64
}

/// Returns the size of 4 bits with this `index`. Of two sizes in a byte the first is in the upper half.
fn half_at(bytes: &[u8], index: usize) -> u32
    requires { index < length (flat_map halves bytes.now) }
    ensures { result ≡ slice_index (flat_map halves bytes.now) index }
{
    let byte = bytes[index / 2];
    if index % 2 == 0 {
        u32::from(byte / 16)
    } else {
        u32::from(byte % 16)
    }
}

/// Returns the size of 16 bits with this `index`.
fn pair_at(bytes: &[u8], index: usize) -> u32
    requires { index < length (pairs bytes.now) }
    ensures { result ≡ slice_index (pairs bytes.now) index }
{
    u32::from(bytes[2 * index]) * 256 + u32::from(bytes[2 * index + 1])
}

/// Returns the size of `bits` bits with this `index`.
fn size_at(bits: u8, bytes: &[u8], index: usize) -> u32
    requires { index < length (sizes_in bits bytes.now) }
    ensures { result ≡ slice_index (sizes_in bits bytes.now) index }
{
    match bits {
        4 => half_at(bytes, index),
        8 => u32::from(bytes[index]),
        _ => pair_at(bytes, index),
    }
}

/// Returns the first `count` sizes of `bits` bits each in `bytes`. Asks for memory once, before the first size.
fn sizes_in(alloc: Global, bits: u8, bytes: &[u8], count: u32) -> Result<Vec<u32>, AllocError>
    requires { count ≤ length (sizes_in bits bytes.now) }
    ensures { IfOk result (λ sizes. sizes.items ≡ take count (sizes_in bits bytes.now)) }
{
    let mut sizes = Vec::with_capacity(alloc, count as usize)?;
    for index in 0..count as usize {
        sizes.push_reserved(size_at(bits, bytes, index));
    }
    Ok(sizes)
}

/// Returns why the sizes of `stz2` can't be listed, or `None` if they can. The reason is invalid data.
#[tactic(auto, using(crate::proofs::Packed::not_width, crate::proofs::Packed::too_few, crate::proofs::Packed::all_there))]
pub fn sizes_fault(stz2: &Stz2) -> Option<Error>
    ensures none { is_none result ≡ has_sizes stz2.now }
    ensures invalid { IfSome result (λ error. IsFaultOf error Invalid) }
{
    if !is_width(stz2.field_size) {
        return Some(Error::InvalidData("field_size must be 4, 8 or 16"));
    }
    if !has_all(
        stz2.field_size,
        stz2.sample_count,
        stz2.entry_sizes.as_slice(),
    ) {
        return Some(Error::InvalidData(
            "sample_count indicates more sizes than could fit in the box",
        ));
    }
    None
}

/// Returns the sizes of `stz2` as an `stsz` lists them, or the reason why they can't be listed. Fails if memory is
/// refused.
#[tactic(auto, using(crate::proofs::Packed::enough, crate::proofs::Packed::unlisted, crate::proofs::Packed::listed_as))]
fn listed(alloc: Global, stz2: &Stz2) -> io::Result<mp4_frame::Result<StszBox>>
    ensures { IfOk result (λ r. IsReadAs r (listed stz2.now)) }
{
    if let Some(error) = sizes_fault(stz2) {
        return Ok(Err(error));
    }
    let sizes = sizes_in(
        alloc,
        stz2.field_size,
        stz2.entry_sizes.as_slice(),
        stz2.sample_count,
    )?;
    Ok(Ok(StszBox {
        version: stz2.version,
        flags: stz2.flags,
        sample_size: 0,
        sample_count: stz2.sample_count,
        sample_sizes: sizes.into(),
    }))
}

/// Returns the sizes of `stz2`, the value of a box at `position`, as an `stsz` lists them.
fn listed_at(alloc: Global, stz2: &Stz2, position: u64) -> Result<StszBox, MovieError>
    ensures { Returns result (or_fault (four_cc_of names.STZ2) position (listed stz2.now)) }
{
    match listed(alloc, stz2)? {
        Ok(stsz) => Ok(stsz),
        Err(error) => Err(MovieError::Box(BoxError::Fault {
            code: FourCC::from(codes::STZ2),
            position,
            error,
        })),
    }
}

/// Returns the sizes in `found`, an `stz2`, as an `stsz` lists them.
pub fn compact_sizes<S: Source>(
    alloc: Global,
    walk: &mut BoxWalk<S>,
    found: &TreeBox,
) -> Result<StszBox, MovieError>
    ensures value { ReturnsFor walk.old.bytes result (λ file. compact_sizes file found.now) }
    ensures kept { walk.new ≡ walk.old }
{
    match value_at::<Stz2Box, S>(alloc, walk, codes::STZ2, found)? {
        Ok(stz2) => listed_at(alloc, &stz2, found.position),
        Err(error) => Err(MovieError::Box(error)),
    }
}
