//! Runs of bytes: counted, up to the end of the box, or of a fixed length.

ghost use Rattle.std.specs.Prelude.{◌≡◌, ◌+◌, ◌<◌, ◌≤◌, length, IfOk};
ghost use Rattle.mp4_frame.specs.Reading.{AnswersAs};
ghost use Rattle.mp4_declared.specs.OptionalShapes.{reads_run, run_shape, rest_shape, array_shape};
ghost use Rattle.mp4_declared.specs.OptionalShapesLaws.{run_laws, rest_laws, array_laws};

use crate::bits::{number_at, put_number};
use crate::context::Context;
use crate::list::{Count, count_fits};
use crate::shape::{PutShape, Shape};
use mp4_frame::{Entries, Result, check, piece_at, put_bytes};
use std::alloc::Global;

/// Reads `n` bytes at offset `at`. Returns them, and the offset after them. Fails with invalid data if they would end
/// after `end`, the end of the box, and with end of input if they aren't all present.
#[tactic(auto, unfolding(crate::specs::OptionalShapes::reads_run))]
fn read_run(
    alloc: Global,
    bytes: &[u8],
    end: u64,
    at: usize,
    n: u64,
) -> Result<(Entries<u8>, usize)>
    requires reached { at ≤ length bytes.now }
    ensures value { AnswersAs (λ r. r.0) result (reads_run bytes.now end at n) }
    ensures next { IfOk result (λ r. r.1 ≡ at + length r.0) }
    ensures within { IfOk result (λ r. r.1 ≤ length bytes.now) }
{
    check(
        n <= end.saturating_sub(at as u64),
        "count indicates more bytes than could fit in the box",
    )?;
    let run = piece_at(bytes, at, n as usize)?;
    Ok((Vec::from_slice(alloc, run)?.into(), at + run.len()))
}

/// A count of the shape `C`, and that many bytes.
pub struct Bytes<C>(C);

impl<C: Count> Shape for Bytes<C> {
    type Value = Entries<u8>;

    ghost shape = { run_shape C.WIDTH };

    ghost shape_laws = { run_laws C.WIDTH };

    #[inline]
    fn is_fixed() -> bool {
        false
    }

    #[inline]
    fn front(_context: Context) -> usize {
        C::WIDTH
    }

    #[inline]
    fn read(
        alloc: Global,
        bytes: &[u8],
        at: usize,
        end: u64,
        _context: Context,
    ) -> Result<(Entries<u8>, usize)> {
        let count = number_at(bytes, at, C::WIDTH);
        read_run(alloc, bytes, end, at + C::WIDTH, count)
    }
}

impl<'a, C: Count> PutShape<&'a [u8]> for Bytes<C> {
    ghost content = { λ run. run.now };

    #[inline]
    fn size(_context: Context, value: &'a [u8]) -> u64 {
        (value.len() as u64).saturating_add(C::WIDTH as u64)
    }

    #[inline]
    fn fits(_context: Context, value: &'a [u8]) -> bool {
        count_fits::<C>(value.len() as u64)
    }

    #[inline]
    fn put(out: &mut [u8], at: usize, _context: Context, value: &'a [u8]) -> usize {
        let next = put_number(out, at, value.len() as u64, C::WIDTH);
        put_bytes(out, next, value)
    }
}

/// All bytes up to the end of the box, as its last part.
pub struct Rest;

impl Shape for Rest {
    type Value = Entries<u8>;

    ghost shape = { rest_shape };

    ghost shape_laws = { rest_laws };

    #[inline]
    fn is_fixed() -> bool {
        false
    }

    #[inline]
    fn front(_context: Context) -> usize {
        0
    }

    #[inline]
    fn read(
        alloc: Global,
        bytes: &[u8],
        at: usize,
        end: u64,
        _context: Context,
    ) -> Result<(Entries<u8>, usize)> {
        read_run(alloc, bytes, end, at, end.saturating_sub(at as u64))
    }
}

impl<'a> PutShape<&'a [u8]> for Rest {
    ghost content = { λ run. run.now };

    #[inline]
    fn size(_context: Context, value: &'a [u8]) -> u64 {
        value.len() as u64
    }

    #[inline]
    fn fits(_context: Context, _value: &'a [u8]) -> bool {
        true
    }

    #[inline]
    fn put(out: &mut [u8], at: usize, _context: Context, value: &'a [u8]) -> usize {
        put_bytes(out, at, value)
    }
}

/// `N` bytes.
pub struct Array<const N: usize>;

impl<const N: usize> Shape for Array<N> {
    type Value = [u8; N];

    ghost shape = { array_shape N };

    ghost shape_laws = { array_laws N };

    #[inline]
    fn is_fixed() -> bool {
        true
    }

    #[inline]
    fn front(_context: Context) -> usize {
        N
    }

    #[inline]
    fn read(
        _alloc: Global,
        bytes: &[u8],
        at: usize,
        _end: u64,
        _context: Context,
    ) -> Result<([u8; N], usize)> {
        let mut value = [0; N];
        value.copy_from_slice(&bytes[at..at + N]);
        Ok((value, at + N))
    }
}

impl<const N: usize> PutShape<[u8; N]> for Array<N> {
    ghost content = { λ bytes. bytes };

    #[inline]
    fn size(_context: Context, _value: [u8; N]) -> u64 {
        N as u64
    }

    #[inline]
    fn fits(_context: Context, _value: [u8; N]) -> bool {
        true
    }

    #[inline]
    fn put(out: &mut [u8], at: usize, _context: Context, value: [u8; N]) -> usize {
        put_bytes(out, at, &value)
    }
}
