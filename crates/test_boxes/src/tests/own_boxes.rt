//! Tests of the boxes of `example_boxes` that docs/OWN-BOX.md explains, by their bytes. These were worked out from the
//! standards, not printed by this code.

mod fiel;
mod lists;
mod pdin;
mod ssix;
mod values;

use mp4_stream::{ByteCursor, Error, ReadBox, Result as Made};
use std::alloc::Global;

/// Reads the box with this `size` at the start of `bytes`, after its header of 8 bytes.
pub(crate) fn read<B: ReadBox>(alloc: Global, bytes: &[u8], size: u64) -> Made<B> {
    let mut reader = ByteCursor::new(bytes);
    reader.set_position(8);
    B::read_box(alloc, &mut reader, size)
}

/// Returns whether reading `bytes` with this `size` fails with the text `fault`.
pub(crate) fn has_fault<B: ReadBox + Drop>(
    alloc: Global,
    bytes: &[u8],
    size: u64,
    fault: &str,
) -> bool {
    matches!(read::<B>(alloc, bytes, size), Err(Error::InvalidData(text)) if text == fault)
}
