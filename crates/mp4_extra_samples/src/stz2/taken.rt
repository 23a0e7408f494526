//! Takes the box back out of its JSON.

ghost use Rattle.mp4_declared.specs.OwnBox.{no_context};
ghost use Rattle.mp4_extra_samples.specs.declared.stz2.TheConstants as stz2;
ghost use Rattle.std.specs.Prelude.{◌≡◌, ◌<◌, ◌≤◌, ◌^◌, ◌++◌, [], All, IsTrue, IfOk, Ok, OnOk};
ghost use Rattle.mp4_shown.specs.Object.{left};
ghost use Rattle.mp4_shown.specs.TakenRuns.{small_in};
ghost use Rattle.mp4_extra_samples.specs.TakenStz2.{entries_or_bytes, halves, is_known, may_pad, padding_taken};
ghost use Rattle.mp4_extra_samples.specs.TakenStz2.{size_numbers, sizes_of, sizes_taken, stz2_taken, words};
ghost use Rattle.mp4_shown.specs.Taking.{TakesAs};

use super::Stz2;
use crate::stz2;
use json::Value;
use mp4_declared::{Full, Last, U8, U32};
use mp4_frame::Entries;
use mp4_shown::taken::{
    NO_CONTEXT, Object, Reason, Result, TakeFields, TakeItem, TakeShape, number_of, push_number,
    refuse, small_in, take_array, take_bytes, take_each, take_number,
};
use std::alloc::{AllocError, Global};

/// The fields before the sizes.
type Front = Full<1, (U8, Last<U32>)>;

/// An entry that is a size of `bits` bits.
#[derive(Drop)]
struct SizeItem {
    bits: u8,
    ghost few: { bits ≤ 16 },
}

impl TakeItem<u16> for SizeItem {
    ghost taken = { λ by j. small_in by.bits [] j };

    fn take(&self, alloc: Global, value: Value<'_>) -> Result<u16> {
        Ok(small_in(alloc, "", u32::from(self.bits), &value)? as u16)
    }
}

/// Appends `sizes` of 4 bits to `bytes`, two in a byte. `padding` follows the last one of an odd number.
fn push_halves(
    padding: u8,
    sizes: &[u16],
    bytes: &mut Vec<u8>,
) -> std::result::Result<(), AllocError>
    requires half { padding < 16 }
    requires fit { All (λ size. size < 16) sizes.now }
    ensures { OnOk result (bytes.new.items ≡ bytes.old.items ++ halves padding sizes.now) }
{
    for k in 0..sizes.len() / 2 {
        bytes.push(sizes[2 * k] as u8 * 16 + sizes[2 * k + 1] as u8)?;
    }
    if sizes.len() % 2 == 1 {
        bytes.push(sizes[sizes.len() - 1] as u8 * 16 + padding)?;
    }
    Ok(())
}

/// Appends `sizes` of 8 bits to `bytes`.
fn push_bytes(sizes: &[u16], bytes: &mut Vec<u8>) -> std::result::Result<(), AllocError>
    requires { All (λ size. size < 256) sizes.now }
    ensures { OnOk result (bytes.new.items ≡ bytes.old.items ++ sizes.now) }
{
    for size in sizes {
        bytes.push(*size as u8)?;
    }
    Ok(())
}

/// Appends `sizes` of 16 bits to `bytes`.
fn push_words(sizes: &[u16], bytes: &mut Vec<u8>) -> std::result::Result<(), AllocError>
    ensures { OnOk result (bytes.new.items ≡ bytes.old.items ++ words sizes.now) }
{
    for size in sizes {
        push_number(u64::from(*size), 2, bytes)?;
    }
    Ok(())
}

/// Returns the bytes of `sizes` of `bits` bits. `padding` follows an odd number of sizes of 4 bits.
fn bytes_of(alloc: Global, bits: u8, padding: u8, sizes: &[u16]) -> Result<Vec<u8>>
    requires half { padding < 16 }
    requires fit { All (λ size. size < 2 ^ bits) sizes.now }
    requires known { IsTrue (is_known bits) }
    ensures { TakesAs (λ bytes. bytes.items) result (Ok (sizes_of bits padding sizes.now)) }
{
    let mut bytes = Vec::new(alloc);
    if bits == 4 {
        push_halves(padding, sizes, &mut bytes)?;
    } else if bits == 8 {
        push_bytes(sizes, &mut bytes)?;
    } else {
        push_words(sizes, &mut bytes)?;
    }
    Ok(bytes)
}

/// Returns whether `count` sizes of `bits` bits may have this `padding`: only an odd number of sizes of 4 bits has one.
fn may_pad(bits: u8, count: u32, padding: u64) -> bool
    ensures { result ≡ may_pad bits count padding }
{
    padding == 0 || (bits == 4 && count % 2 == 1)
}

/// Returns whether a size may have `bits` bits.
fn is_known(bits: u8) -> bool
    ensures { result ≡ is_known bits }
{
    bits == 4 || bits == 8 || bits == 16
}

/// Takes `count` sizes of `bits` bits out.
fn take_size_numbers(
    alloc: Global,
    bits: u8,
    count: u32,
    object: &mut Object<'_>,
) -> Result<Vec<u16>>
    ensures value { TakesAs (λ ns. (ns.items, left object.new)) result (size_numbers bits count (left object.old)) }
    ensures known { OnOk result (IsTrue (is_known bits)) }
    ensures fit { IfOk result (λ ns. All (λ n. n < 2 ^ bits) ns.items) }
{
    let name = stz2::NAMES.1.1.1.1.0;
    let items = take_array(alloc, name, object)?;
    if number_of(items.as_slice()) != count as usize {
        return Err(refuse(alloc, stz2::NAMES.1.1.1.0.0, Reason::Contradiction));
    }
    if !is_known(bits) {
        return Err(refuse(alloc, stz2::NAMES.1.1.0.0, Reason::OutOfRange));
    }
    let sizes: Vec<u16> = take_each(alloc, name, &SizeItem { bits }, items)?;
    Ok(sizes)
}

/// Takes the padding of `count` sizes of `bits` bits out.
fn take_padding(alloc: Global, bits: u8, count: u32, object: &mut Object<'_>) -> Result<u8>
    ensures value { TakesAs (λ n. (n, left object.new)) result (padding_taken bits count (left object.old)) }
    ensures half { IfOk result (λ n. n < 16) }
{
    let name = stz2::NAMES.1.1.1.1.1.0;
    let padding = take_number(alloc, name, 4, object)?;
    if may_pad(bits, count, padding) {
        Ok(padding as u8)
    } else {
        Err(refuse(alloc, name.0, Reason::OutOfRange))
    }
}

/// Takes the bytes of `count` sizes of `bits` bits out, and the bytes after them.
fn take_sizes(alloc: Global, bits: u8, count: u32, object: &mut Object<'_>) -> Result<Vec<u8>>
    ensures { TakesAs (λ bytes. (bytes.items, left object.new)) result (sizes_taken bits count (left object.old)) }
{
    let sizes = take_size_numbers(alloc, bits, count, object)?;
    let padding = take_padding(alloc, bits, count, object)?;
    let mut bytes = bytes_of(alloc, bits, padding, sizes.as_slice())?;
    let rest = take_bytes(alloc, stz2::NAMES.1.1.1.1.1.1.1, object)?;
    bytes.extend_from_slice(rest.as_slice())?;
    Ok(bytes)
}

/// Takes the bytes of `count` sizes of `bits` bits out, and the bytes after them, or all bytes.
fn take_entries(alloc: Global, bits: u8, count: u32, object: &mut Object<'_>) -> Result<Entries<u8>>
    ensures { TakesAs (λ bytes. (bytes, left object.new)) result (entries_or_bytes bits count (left object.old)) }
{
    let (name, (_, (too_few, _))) = stz2::NAMES.1.1.1.1;
    if object.has(name) {
        Ok(take_sizes(alloc, bits, count, object)?.into())
    } else {
        Ok(take_bytes(alloc, too_few, object)?.into())
    }
}

impl TakeFields for Stz2 {
    ghost taken = { stz2_taken (⟦<Front as TakeShape>⟧.taken
        (stz2.NAMES.now.0, (stz2.NAMES.now.1.0, (stz2.NAMES.now.1.1.0, (stz2.NAMES.now.1.1.1.0, tt)))) no_context) };

    fn take(alloc: Global, object: &mut Object<'_>) -> Result<Stz2> {
        let names = (
            stz2::NAMES.0,
            (
                stz2::NAMES.1.0,
                (stz2::NAMES.1.1.0, (stz2::NAMES.1.1.1.0, ())),
            ),
        );
        let (version, (flags, front)) = Front::take(alloc, &names, NO_CONTEXT, object)?;
        let (field_size, (sample_count, ())) = front;
        let entry_sizes = take_entries(alloc, field_size, sample_count, object)?;
        Ok(Stz2 {
            version,
            flags,
            field_size,
            sample_count,
            entry_sizes,
        })
    }
}
