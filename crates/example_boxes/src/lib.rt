//! For authors of box types and callers of the codec. `pdin`, `fiel` and `ssix` show how to declare boxes, and
//! `SegmentBox` is an enum of `ssix` and boxes of the codec: `docs/OWN-BOX.md` explains them. `shapes` has boxes with
//! more shapes. The other modules have callers of the codec with their contracts, and a box type without a declaration.
//! The CALLING.md of most crates of the codec quotes one of the callers. `test_boxes` has the tests.
#![tactic(auto)]

ghost use Rattle.std.specs.Prelude.{◌≡◌, ◌++◌, List, Ok, IfOk, OnErr};
ghost use Rattle.mp4_stream.specs.Streams.{stream, boxes};
ghost use Rattle.mp4_stream.specs.AnyBox.{format_any, known_any, reading_any};
ghost use Rattle.mp4_stream.specs.declared.any_box.AnyBox.{AnyBox};

pub mod audio;
pub mod brand;
mod change;
pub mod chunks;
pub mod defaults;
pub mod entries;
mod fiel;
pub mod lists;
pub mod mark;
pub mod numbers;
mod pdin;
pub mod references;
mod segment;
pub mod shapes;
pub mod sound;
mod ssix;
mod ssix_or_any;
pub mod times;

pub use change::set_flags;
pub use fiel::{FIEL, Fiel, FielBox};
use mp4_stream::{ByteCursor, Result, read_boxes, write_boxes};
pub use pdin::{PDIN, Pdin, PdinBox, PdinEntry};
pub use segment::SegmentBox;
pub use ssix::{SSIX, Ssix, SsixBox, SsixRange, Subsegment};
pub use ssix_or_any::SsixOrAny;
use std::alloc::Global;

/// Appends the boxes of a file, in their normal form.
pub fn append_normal(alloc: Global, file: &[u8], out: &mut Vec<u8>) -> Result<u64>
    ensures ok { IfOk result
        (λ _. (vs : List AnyBox) × ((boxes known_any reading_any file.now 0).outcome ≡ Ok vs)
        × (out.new.items ≡ out.old.items ++ stream format_any.bytes vs)) }
    ensures err { OnErr result (out.new.items ≡ out.old.items) }
{
    let boxes = read_boxes(alloc, &mut ByteCursor::new(file))?;
    write_boxes(&boxes, out)
}
