//! Fills a struct of the caller with the fields of a box.

ghost use Rattle.std.specs.Prelude.{◌≡◌};
ghost use Rattle.mp4_frame.specs.WholeBox.{front_box};
ghost use Rattle.mp4_c_boxes.specs.Calls.{FillsStruct};

use crate::status::{OK, status_of};
use mp4_frame::{ReadBox, front_box};
use std::alloc::Global;

/// A box whose fields C has in a struct of the type `S`.
pub trait ToStruct<S>: Sized {
    /// The struct for C of a box.
    ghost to_struct: { Self → S };

    /// Returns the struct for C of the box.
    fn to_struct(&self) -> S
        ensures { result ≡ to_struct self.now };
}

/// Fills `fields` with those of the box at the front of `bytes`, which has to have the code `code`. Returns the status.
/// `fields` stays as it is unless the status is `OK`.
pub fn fill_struct<B: ReadBox + ToStruct<S> + Drop, S: Copy>(
    alloc: Global,
    code: u32,
    bytes: &[u8],
    fields: &mut S,
) -> u32
    ensures { FillsStruct (front_box B.reads code bytes.now) B.to_struct result fields.old fields.new }
{
    match front_box::<B>(alloc, code, bytes) {
        Ok(value) => {
            *fields = value.to_struct();
            OK
        }
        Err(error) => status_of(&error),
    }
}
