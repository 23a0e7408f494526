//! A caller of `mp4_stream`, which finds the brand of a file.

use mp4_stream::{AnyBox, FourCC, Result, boxes};
use std::alloc::Global;

/// Returns the major brand of `file`, or `None` if it has no `ftyp`. Nothing after the `ftyp` is read.
pub fn major_brand(alloc: Global, file: &[u8]) -> Result<Option<FourCC>> {
    for item in boxes(alloc, file) {
        if let AnyBox::FtypBox(ftyp) = item? {
            return Ok(Some(ftyp.major_brand));
        }
    }
    Ok(None)
}
