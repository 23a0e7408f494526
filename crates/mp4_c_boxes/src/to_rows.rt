//! Copies rows into an array of the caller.

ghost use Rattle.std.specs.Prelude.{◌≡◌, ◌<◌, ◌≤◌, ◌++◌, List, Some, drop, length, slice_get};
ghost use Rattle.mp4_frame.specs.WholeBox.{front_box};
ghost use Rattle.mp4_c_boxes.specs.Calls.{Fills, CopiesResult, CopiesReading};

use crate::status::{NO_ROOM, OK, status_of};
use mp4_frame::{ReadBox, Result, front_box};
use std::alloc::Global;

/// A value that a caller gets as rows, and as a summary that says how many rows it has.
pub trait ToRows<R, S>: Sized {
    /// The rows of a value.
    ghost rows: { Self → List R };

    /// The summary of a value.
    ghost summary: { Self → S };

    /// Returns the number of rows.
    fn count(&self) -> usize
        ensures { result ≡ length (rows self.now) };

    /// Returns the row at `index`.
    fn row(&self, index: usize) -> R
        requires { index < length (rows self.now) }
        ensures { slice_get (rows self.now) index ≡ Some result };

    /// Returns the summary.
    fn summary(&self) -> S
        ensures { result ≡ summary self.now };
}

/// Copies the rows of `value` to the front of `rows`, which is long enough for them.
fn put_rows<V: ToRows<R, S>, R: Copy, S>(value: &V, rows: &mut [R])
    requires { length (V.rows value.now) ≤ length rows.old }
    ensures { rows.new ≡ V.rows value.now ++ drop (length (V.rows value.now)) rows.old }
{
    for index in 0..value.count() {
        rows[index] = value.row(index);
    }
}

/// Copies the rows of `value` to the front of `rows`. Returns `OK`, or `NO_ROOM` if `rows` is too short, which then
/// stays as it is.
fn fill<V: ToRows<R, S>, R: Copy, S>(value: &V, rows: &mut [R]) -> u32
    ensures { Fills result (V.rows value.now) rows.old rows.new }
{
    if rows.len() < value.count() {
        return NO_ROOM;
    }
    put_rows(value, rows);
    OK
}

/// Copies the rows and the summary of the value in `found` to `rows` and `summary`. Returns the status: that of the
/// error in `found`, or `NO_ROOM` if `rows` is too short. Even then it fills `summary`.
pub fn copy_rows<V: ToRows<R, S> + Drop, R: Copy, S: Copy>(
    found: Result<V>,
    rows: &mut [R],
    summary: &mut S,
) -> u32
    ensures { CopiesResult V.rows V.summary found result rows.old rows.new summary.old summary.new }
{
    match found {
        Ok(value) => {
            *summary = value.summary();
            fill(&value, rows)
        }
        Err(error) => status_of(&error),
    }
}

/// Copies the rows and the summary of the box at the front of `bytes`, which has to have the code `code`. Returns the
/// status, as `copy_rows` does.
pub fn copy_box_rows<B: ReadBox + ToRows<R, S> + Drop, R: Copy, S: Copy>(
    alloc: Global,
    code: u32,
    bytes: &[u8],
    rows: &mut [R],
    summary: &mut S,
) -> u32
    ensures { CopiesReading (front_box B.reads code bytes.now) B.rows B.summary result rows.old rows.new summary.old
        summary.new }
{
    copy_rows(front_box::<B>(alloc, code, bytes), rows, summary)
}

impl<R: Copy> ToRows<R, usize> for Vec<R> {
    ghost rows = { λ v. v.items };

    ghost summary = { λ v. length v.items };

    fn count(&self) -> usize {
        self.len()
    }

    fn row(&self, index: usize) -> R {
        self[index]
    }

    fn summary(&self) -> usize {
        self.len()
    }
}

impl ToRows<u8, usize> for &'static str {
    ghost rows = { λ v. v.now };

    ghost summary = { λ v. length v.now };

    fn count(&self) -> usize {
        self.len()
    }

    fn row(&self, index: usize) -> u8 {
        self.as_bytes()[index]
    }

    fn summary(&self) -> usize {
        self.len()
    }
}
