//! Strings, which end with a byte of 0, or begin with their length.

ghost use Rattle.std.specs.Prelude.{◌≡◌, false, ◌↔◌, ◌+◌, ◌≤◌, min, IfOk, IsTrue, length, position};
ghost use Rattle.std.specs.List.{list_any, position_or_len};
ghost use Rattle.mp4_frame.specs.Reading.{AnswersAs};
ghost use Rattle.mp4_declared.specs.Strings.{is_zero, terminated, terminated_shape, pascal_shape};
ghost use Rattle.mp4_declared.specs.StringsLaws.{terminated_laws, pascal_laws};

use crate::context::Context;
use crate::shape::{PutShape, Shape};
use mp4_frame::{Entries, Result, check, expect_bytes, put_bytes, put_u8, put_zeros, u8_at};
use std::alloc::Global;

/// Returns the index of the first byte of 0, or `None` if there is none.
fn first_zero(bytes: &[u8]) -> Option<usize>
    ensures { result ≡ position is_zero bytes.now }
{
    bytes.iter().position(|byte| *byte == 0)
}

/// Returns the number of bytes before the first byte of 0, or of all bytes if there is none.
#[tactic(auto, using(crate::proofs::FirstZero::first_or_all))]
fn before_zero(bytes: &[u8]) -> usize
    ensures { result ≡ position_or_len is_zero bytes.now }
{
    first_zero(bytes).unwrap_or(bytes.len())
}

/// Returns the number of bytes before the first byte of 0 among the first `available` bytes, or of all these bytes if
/// there is none.
#[tactic(auto, using(crate::proofs::FirstZero::first_within, crate::proofs::FirstZero::first_inside))]
fn before_zero_within(bytes: &[u8], available: u64) -> usize
    ensures { result ≡ min (position_or_len is_zero bytes.now) available }
{
    if available < bytes.len() as u64 {
        before_zero(&bytes[..available as usize])
    } else {
        before_zero(bytes)
    }
}

/// Returns the bytes between offset `at` and the first byte of 0, without that byte. Fails with invalid data if the
/// box, which ends at `end`, holds no such byte, and with end of input if the bytes aren't all present.
#[tactic(auto, unfolding(crate::specs::Strings::terminated))]
fn terminated_at(bytes: &[u8], at: usize, end: u64) -> Result<&[u8]>
    requires reached { at ≤ length bytes.now }
    ensures text { AnswersAs (λ text. text.now) result (terminated bytes.now at end) }
    ensures within { IfOk result (λ text. at + length text.now + 1 ≤ length bytes.now) }
{
    let available = end.saturating_sub(at as u64);
    let count = before_zero_within(&bytes[at..], available);
    check((count as u64) < available, "string has no end in the box")?;
    expect_bytes(bytes, at, count + 1)?;
    Ok(&bytes[at..at + count])
}

/// Bytes other than 0, and a byte of 0 that ends them, which is not part of the value. The bytes need not be UTF-8.
pub struct Terminated;

impl Shape for Terminated {
    type Value = Entries<u8>;

    ghost shape = { terminated_shape };

    ghost shape_laws = { terminated_laws };

    #[inline]
    fn is_fixed() -> bool {
        false
    }

    #[inline]
    fn front(_context: Context) -> usize {
        0
    }

    fn read(
        alloc: Global,
        bytes: &[u8],
        at: usize,
        end: u64,
        _context: Context,
    ) -> Result<(Entries<u8>, usize)> {
        let text = terminated_at(bytes, at, end)?;
        Ok((Vec::from_slice(alloc, text)?.into(), at + text.len() + 1))
    }
}

/// Returns whether none of `bytes` is 0, so that a byte of 0 can end them.
fn has_no_zero(bytes: &[u8]) -> bool
    ensures { IsTrue result ↔ (list_any is_zero bytes.now ≡ false) }
{
    !bytes.contains(&0)
}

impl<'a> PutShape<&'a [u8]> for Terminated {
    ghost content = { λ text. text.now };

    #[inline]
    fn size(_context: Context, value: &'a [u8]) -> u64 {
        (value.len() as u64).saturating_add(1)
    }

    #[inline]
    fn fits(_context: Context, value: &'a [u8]) -> bool {
        has_no_zero(value)
    }

    #[inline]
    #[tactic(auto, unfolding(mp4_frame::specs::Bytes::be_bytes))]
    fn put(out: &mut [u8], at: usize, _context: Context, value: &'a [u8]) -> usize {
        let next = put_bytes(out, at, value);
        put_u8(out, next, 0)
    }
}

/// A field of `N` bytes: a count of 1 byte, that many bytes, and padding, which is written as 0 and read as any.
pub struct Pascal<const N: usize>;

impl<const N: usize> Shape for Pascal<N> {
    type Value = Entries<u8>;

    ghost shape = { pascal_shape N };

    ghost shape_laws = { pascal_laws N };

    #[inline]
    fn is_fixed() -> bool {
        false
    }

    #[inline]
    fn front(_context: Context) -> usize {
        N
    }

    fn read(
        alloc: Global,
        bytes: &[u8],
        at: usize,
        _end: u64,
        _context: Context,
    ) -> Result<(Entries<u8>, usize)> {
        let count = usize::from(u8_at(bytes, at));
        check(count < N, "string is longer than its field")?;
        let text = &bytes[at + 1..at + 1 + count];
        Ok((Vec::from_slice(alloc, text)?.into(), at + N))
    }
}

impl<'a, const N: usize> PutShape<&'a [u8]> for Pascal<N> {
    ghost content = { λ text. text.now };

    #[inline]
    fn size(_context: Context, _value: &'a [u8]) -> u64 {
        N as u64
    }

    #[inline]
    fn fits(_context: Context, value: &'a [u8]) -> bool {
        value.len() < N && value.len() < 256
    }

    #[inline]
    fn put(out: &mut [u8], at: usize, _context: Context, value: &'a [u8]) -> usize {
        let next = put_u8(out, at, value.len() as u8);
        let next = put_bytes(out, next, value);
        put_zeros(out, next, N - 1 - value.len())
    }
}
