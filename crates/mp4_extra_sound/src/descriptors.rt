//! The shapes of descriptors (ISO/IEC 14496-1, 8.3.3): a tag, an expandable size, and a shape that ends where the size
//! says.

ghost use Rattle.std.specs.Prelude.{◌≡◌, ℕ, ◌+◌, ◌<◌, ◌≤◌, ◌^◌, ◌++◌, ◌↔◌, true, IfOk, IsTrue, length, take};
ghost use Rattle.mp4_extra_sound.specs.Expandable.{expandable_shape, fourth_byte, last_byte, second_byte, size_at};
ghost use Rattle.mp4_extra_sound.specs.Expandable.{size_bytes, sizes_in, third_byte, three_bytes, two_bytes};
ghost use Rattle.mp4_extra_sound.specs.Expandable.{four_bytes};
ghost use Rattle.mp4_extra_sound.specs.ExpandableLaws.{expandable_laws};
ghost use Rattle.mp4_extra_sound.specs.Tagged.{tagged_shape};
ghost use Rattle.mp4_extra_sound.specs.TaggedLaws.{tagged_laws};
ghost use Rattle.mp4_frame.specs.Reading.{Answers};

use mp4_declared::{Context, PutShape, Shape, WRONG_SIZE, read_after};
use mp4_frame::{Result, check, expect_bytes, put_u8, u8_at};
use std::alloc::Global;

/// The text of the error for a descriptor with another tag than the one that the standard has there.
pub const WRONG_TAG: &str = "descriptor has another tag than the one expected";

/// The text of the error for a size of more than four bytes.
const LONG_SIZE: &str = "size of a descriptor has more than four bytes";

/// Reads the fourth byte of the size at offset `at`. The first three bytes make `size`.
fn fourth_byte(bytes: &[u8], at: usize, size: u32) -> Result<(u8, u32)>
    requires present { at + 3 ≤ length bytes.now }
    requires short { size < 2 ^ 21 }
    ensures value { Answers result (fourth_byte bytes.now at size) }
    ensures within { IfOk result (λ r. at + r.0 ≤ length bytes.now) }
{
    expect_bytes(bytes, at + 3, 1)?;
    let byte = u8_at(bytes, at + 3);
    check(byte < 128, LONG_SIZE)?;
    Ok((4, size * 128 + u32::from(byte)))
}

/// Reads the third byte of the size at offset `at`, and the fourth if there is one. The first two bytes make `size`.
fn third_byte(bytes: &[u8], at: usize, size: u32) -> Result<(u8, u32)>
    requires present { at + 2 ≤ length bytes.now }
    requires short { size < 2 ^ 14 }
    ensures value { Answers result (third_byte bytes.now at size) }
    ensures within { IfOk result (λ r. at + r.0 ≤ length bytes.now) }
{
    expect_bytes(bytes, at + 2, 1)?;
    let byte = u8_at(bytes, at + 2);
    if byte < 128 {
        return Ok((3, size * 128 + u32::from(byte)));
    }
    fourth_byte(bytes, at, size * 128 + u32::from(byte % 128))
}

/// Reads the second byte of the size at offset `at`, and the later ones if there are any. The first byte makes `size`.
fn second_byte(bytes: &[u8], at: usize, size: u32) -> Result<(u8, u32)>
    requires present { at + 1 ≤ length bytes.now }
    requires short { size < 2 ^ 7 }
    ensures value { Answers result (second_byte bytes.now at size) }
    ensures within { IfOk result (λ r. at + r.0 ≤ length bytes.now) }
{
    expect_bytes(bytes, at + 1, 1)?;
    let byte = u8_at(bytes, at + 1);
    if byte < 128 {
        return Ok((2, size * 128 + u32::from(byte)));
    }
    third_byte(bytes, at, size * 128 + u32::from(byte % 128))
}

/// Reads the size at offset `at`. Returns its number of bytes, and the size itself.
#[tactic(auto, unfolding(crate::specs::Expandable::size_at))]
fn size_at(bytes: &[u8], at: usize) -> Result<(u8, u32)>
    requires reached { at ≤ length bytes.now }
    ensures value { Answers result (size_at bytes.now at) }
    ensures within { IfOk result (λ r. at + r.0 ≤ length bytes.now) }
{
    expect_bytes(bytes, at, 1)?;
    let byte = u8_at(bytes, at);
    if byte < 128 {
        return Ok((1, u32::from(byte)));
    }
    second_byte(bytes, at, u32::from(byte % 128))
}

/// Returns the number of sizes that `width` bytes can hold.
fn sizes_in(width: u8) -> u64
    ensures { result ≡ sizes_in width }
{
    if width == 1 {
        128
    } else if width == 2 {
        16384
    } else if width == 3 {
        2097152
    } else {
        268435456
    }
}

/// Puts the last byte of `size`, and returns the offset after it.
fn put_last(out: &mut [u8], at: usize, size: u32) -> usize
    requires room { at + 1 ≤ length out.old }
    ensures next { result ≡ at + 1 }
    ensures put { take result out.new ≡ take at out.old ++ last_byte size }
{
    put_u8(out, at, (size % 128) as u8)
}

/// Puts the last two bytes of `size`, and returns the offset after them.
fn put_two(out: &mut [u8], at: usize, size: u32) -> usize
    requires room { at + 2 ≤ length out.old }
    ensures next { result ≡ at + 2 }
    ensures put { take result out.new ≡ take at out.old ++ two_bytes size }
{
    let next = put_u8(out, at, 128 + (size / 128 % 128) as u8);
    put_last(out, next, size)
}

/// Puts the last three bytes of `size`, and returns the offset after them.
fn put_three(out: &mut [u8], at: usize, size: u32) -> usize
    requires room { at + 3 ≤ length out.old }
    ensures next { result ≡ at + 3 }
    ensures put { take result out.new ≡ take at out.old ++ three_bytes size }
{
    let next = put_u8(out, at, 128 + (size / 128 / 128 % 128) as u8);
    put_two(out, next, size)
}

/// Puts four bytes of `size`, and returns the offset after them.
fn put_four(out: &mut [u8], at: usize, size: u32) -> usize
    requires room { at + 4 ≤ length out.old }
    ensures next { result ≡ at + 4 }
    ensures put { take result out.new ≡ take at out.old ++ four_bytes size }
{
    let next = put_u8(out, at, 128 + (size / 128 / 128 / 128 % 128) as u8);
    put_three(out, next, size)
}

/// Puts `size` in `width` bytes, and returns the offset after them.
#[tactic(auto, unfolding(crate::specs::Expandable::size_bytes))]
fn put_size(out: &mut [u8], at: usize, width: u8, size: u32) -> usize
    requires least { 1 ≤ width }
    requires most { width ≤ 4 }
    requires room { at + width ≤ length out.old }
    ensures next { result ≡ at + width }
    ensures put { take result out.new ≡ take at out.old ++ size_bytes width size }
{
    if width == 1 {
        put_last(out, at, size)
    } else if width == 2 {
        put_two(out, at, size)
    } else if width == 3 {
        put_three(out, at, size)
    } else {
        put_four(out, at, size)
    }
}

/// Returns the number of bytes of `value`, which fits a size of `width` bytes.
#[inline]
#[tactic(auto, using(crate::specs::ExpandableLaws::sizes_small))]
fn size_of<S: PutShape<V>, V: Copy>(context: Context, width: u8, value: V) -> u32
    requires fits { S.shape.size context (S.content value) < sizes_in width }
    ensures { result ≡ S.shape.size context (S.content value) }
{
    S::size(context, value) as u32
}

/// An expandable size in 1 to 4 bytes, and an `S` that ends where the size says, as a box does. Inside the `S`, a part
/// that reaches to the end of the box, such as `Rest`, reaches to that end instead. The value is the number of bytes of
/// the size, and that of the `S`.
pub struct Expandable<S>(S);

impl<S: Shape> Shape for Expandable<S> {
    type Value = (u8, S::Value);

    ghost shape = { expandable_shape S.shape };

    ghost shape_laws = { expandable_laws S.shape S.shape_laws };

    #[inline]
    fn is_fixed() -> bool {
        false
    }

    #[inline]
    fn front(_context: Context) -> usize {
        1
    }

    #[inline]
    #[tactic(auto, unfolding(crate::specs::Expandable::reads_inside))]
    fn read(
        alloc: Global,
        bytes: &[u8],
        at: usize,
        end: u64,
        context: Context,
    ) -> Result<((u8, S::Value), usize)> {
        let (width, size) = size_at(bytes, at)?;
        let start = at + usize::from(width);
        let last = start as u64 + u64::from(size);
        check(last <= end, WRONG_SIZE)?;
        let (value, next) = read_after::<S>(alloc, bytes, start, last, context)?;
        check(next as u64 == last, WRONG_SIZE)?;
        Ok(((width, value), next))
    }
}

impl<S: PutShape<V>, V: Copy> PutShape<(u8, V)> for Expandable<S> {
    ghost content = { λ v. (v.0, S.content v.1) };

    #[inline]
    fn size(context: Context, value: (u8, V)) -> u64 {
        S::size(context, value.1).saturating_add(u64::from(value.0))
    }

    #[inline]
    fn fits(context: Context, value: (u8, V)) -> bool {
        1 <= value.0
            && value.0 <= 4
            && S::size(context, value.1) < sizes_in(value.0)
            && S::fits(context, value.1)
    }

    #[inline]
    fn put(out: &mut [u8], at: usize, context: Context, value: (u8, V)) -> usize {
        let (width, value) = value;
        let next = put_size(out, at, width, size_of::<S, V>(context, width, value));
        S::put(out, next, context, value)
    }
}

/// The tag of a kind of descriptors.
pub trait DescriptorTag {
    /// The tag.
    ghost TAG: { ℕ };

    /// The tag.
    const TAG: u8;

    /// The tag is a byte.
    ghost is_small: { TAG < 256 };
}

/// A descriptor with the tag `K`: the tag, an expandable size, and an `S` that ends where the size says.
pub struct Tagged<K, S>(K, S);

impl<K: DescriptorTag, S: Shape> Shape for Tagged<K, S> {
    type Value = (u8, S::Value);

    ghost shape = { tagged_shape K.TAG (expandable_shape S.shape) };

    ghost shape_laws = { tagged_laws K.TAG (expandable_shape S.shape) (expandable_laws S.shape S.shape_laws)
        K.is_small };

    #[inline]
    fn is_fixed() -> bool {
        false
    }

    #[inline]
    fn front(_context: Context) -> usize {
        1
    }

    #[inline]
    fn read(
        alloc: Global,
        bytes: &[u8],
        at: usize,
        end: u64,
        context: Context,
    ) -> Result<((u8, S::Value), usize)> {
        check(u8_at(bytes, at) == K::TAG, WRONG_TAG)?;
        read_after::<Expandable<S>>(alloc, bytes, at + 1, end, context)
    }
}

impl<K: DescriptorTag, S: PutShape<V>, V: Copy> PutShape<(u8, V)> for Tagged<K, S> {
    ghost content = { λ v. (v.0, S.content v.1) };

    #[inline]
    fn size(context: Context, value: (u8, V)) -> u64 {
        <Expandable<S> as PutShape<(u8, V)>>::size(context, value).saturating_add(1)
    }

    #[inline]
    fn fits(context: Context, value: (u8, V)) -> bool {
        <Expandable<S> as PutShape<(u8, V)>>::fits(context, value)
    }

    #[inline]
    fn put(out: &mut [u8], at: usize, context: Context, value: (u8, V)) -> usize {
        let next = put_u8(out, at, K::TAG);
        <Expandable<S> as PutShape<(u8, V)>>::put(out, next, context, value)
    }
}
