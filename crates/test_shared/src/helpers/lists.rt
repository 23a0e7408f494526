//! Checks of lists of boxes.

ghost use Rattle.std.specs.Prelude.{◌≡◌, List, Ok, OnOk};
ghost use Rattle.mp4_stream.specs.Streams.{stream, boxes};
ghost use Rattle.mp4_stream.specs.AnyBox.{format_any, known_any, reading_any};
ghost use Rattle.mp4_stream.specs.declared.any_box.AnyBox.{AnyBox};
ghost use Rattle.test_shared.specs.Checks.{EndsIn};

use super::mismatches::{Mismatch, expect_ending, expect_position};
use super::outcomes::{Kind, kind_of};
use mp4_stream::{ByteCursor, read_boxes, write_boxes};
use std::alloc::Global;

/// Expects that `read_boxes` reads the boxes in `bytes`, that they are written as `written`, and that the cursor is at
/// the end after reading.
pub fn expect_list(alloc: Global, bytes: &[u8], written: &[u8]) -> Result<(), Mismatch>
    ensures { OnOk result
        ((vs : List AnyBox) × ((boxes known_any reading_any bytes.now 0).outcome ≡ Ok vs)
        × (stream format_any.bytes vs ≡ written.now)) }
{
    let mut reader = ByteCursor::new(bytes);
    let found = read_boxes(alloc, &mut reader)?;
    expect_position(reader.position(), bytes.len() as u64)?;
    let mut out = Vec::new(alloc);
    write_boxes(&found, &mut out)?;
    if out.as_slice() == written {
        Ok(())
    } else {
        Err(Mismatch::OtherBytes)
    }
}

/// Expects that reading the boxes in `bytes` by `read_boxes` has a result of the kind `expected`. After an `Ok` the
/// cursor is at the end, and after an error it is at the front.
pub fn expect_list_kind(alloc: Global, bytes: &[u8], expected: Kind) -> Result<(), Mismatch>
    ensures { OnOk result (EndsIn expected (boxes known_any reading_any bytes.now 0)) }
{
    let mut reader = ByteCursor::new(bytes);
    let result = read_boxes(alloc, &mut reader);
    expect_ending(kind_of(&result), expected, bytes.len() as u64)?;
    expect_position(
        reader.position(),
        if expected == Kind::Ok {
            bytes.len() as u64
        } else {
            0
        },
    )
}
