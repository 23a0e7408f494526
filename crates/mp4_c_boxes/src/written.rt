//! Writes a box into an array of the caller.

ghost use Rattle.std.specs.Prelude.{◌≡◌, IfOk, IfErr, List};
ghost use Rattle.mp4_frame.specs.declared.error.Error.TheVariants.{OutOfMemory};
ghost use Rattle.mp4_c_boxes.specs.Calls.{PutsBox, PutsOrRefuses};

use crate::status::{INVALID_DATA, NO_ROOM, OK, status_of};
use mp4_frame::{Result, WriteBox};
use std::alloc::Global;

/// A box that is built from a struct for C of the type `S` and an array of rows of the type `R`.
pub trait FromStruct<S, R>: WriteBox {
    /// The box of a struct and its rows.
    ghost from_struct: { S → List R → Self };

    /// Returns the box with `fields` and `rows`. The only error is out of memory.
    fn from_struct(alloc: Global, fields: &S, rows: &[R]) -> Result<Self>
        ensures value { IfOk result (λ v. v ≡ from_struct fields.now rows.now) }
        ensures memory { IfErr result (λ e. e ≡ OutOfMemory) };
}

/// Writes the encoding of `value` to the front of `bytes`, and its length to `length`. Returns the status:
/// `INVALID_DATA` if `value` isn't writable, or `NO_ROOM` if `bytes` is too short, which then stays as it is. It writes
/// the length even if `bytes` is too short.
pub fn put_box<B: WriteBox>(value: &B, bytes: &mut [u8], length: &mut usize) -> u32
    ensures { PutsBox B.format value.now result bytes.old bytes.new length.old
        length.new }
{
    let Some(size) = value.writable_size() else {
        return INVALID_DATA;
    };
    *length = size as usize;
    if bytes.len() < size as usize {
        return NO_ROOM;
    }
    value.put_at_front(bytes);
    OK
}

/// Writes the box with `fields` and `rows`, as `put_box` does. Returns the status, which is also `OUT_OF_MEMORY` if
/// memory for the box is refused.
pub fn write_from<B: FromStruct<S, R> + Drop, S, R>(
    alloc: Global,
    fields: &S,
    rows: &[R],
    bytes: &mut [u8],
    length: &mut usize,
) -> u32
    ensures { PutsOrRefuses B.format (B.from_struct fields.now rows.now) result bytes.old bytes.new length.old
        length.new }
{
    match B::from_struct(alloc, fields, rows) {
        Ok(value) => put_box(&value, bytes, length),
        Err(error) => status_of(&error),
    }
}

/// Writes the box in the result `$made` like `put_box`, and evaluates to the status. An error in `$made` gives the
/// status of the error.
macro_rules! write_result {
    ($made:expr, $bytes:expr, $length:expr) => {
        match $made {
            Ok(value) => put_box(&value, $bytes, $length),
            Err(error) => status_of(&error),
        }
    };
}

pub(crate) use write_result;
