//! The trait of a vector, and two vectors of each type.

mod first;
mod second;

pub use first::{FIRST_VECTORS, First};
use mp4_stream::{AnyBox, Result};
pub use second::{SECOND_VECTORS, Second};
use std::alloc::Global;

/// A box with its bytes. The bytes are computed from the layout table, and not with this codec.
pub trait Vector: Copy {
    /// Returns the bytes to which the box is written.
    fn bytes(self) -> &'static [u8];

    /// Returns the box.
    fn make(self, alloc: Global) -> Result<AnyBox>;
}
