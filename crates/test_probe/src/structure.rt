//! The structure of trees of boxes, as text: a line for each box, and after that of a container those of its boxes.

use mp4_box_tree::{AllBoxes, Node};
use mp4_compose::{Either, Lossless};
use mp4_stream::{KeptBox, Mp4Box};
use std::alloc::{AllocError, Global};

/// Appends the line of a box that holds no other: what it is, and its code.
fn push_leaf(alloc: Global, kind: &str, code: u32, out: &mut Vec<u8>) -> Result<(), AllocError> {
    let line = format!(in alloc; "{kind} {code:#010X}\n")?;
    out.extend_from_slice(line.as_bytes())
}

/// Appends the line of a container: its code, the number of bytes before its first box, and the number of its boxes.
fn push_container(
    alloc: Global,
    code: u32,
    fields: usize,
    boxes: usize,
    out: &mut Vec<u8>,
) -> Result<(), AllocError> {
    let line = format!(in alloc; "container {code:#010X} {fields} {boxes}\n")?;
    out.extend_from_slice(line.as_bytes())
}

/// A box that is read as a type.
pub(crate) trait Leaf {
    /// Appends the line of the box.
    fn push_typed(&self, alloc: Global, out: &mut Vec<u8>) -> Result<(), AllocError>;
}

/// A box of `mp4_extra`, one of the codec, or a box of another type.
impl Leaf for AllBoxes {
    fn push_typed(&self, alloc: Global, out: &mut Vec<u8>) -> Result<(), AllocError> {
        let kind = match self {
            Either::First(_) => "extra",
            Either::Second(KeptBox::Any(_)) => "codec",
            Either::Second(KeptBox::Other(_)) => "other",
        };
        push_leaf(alloc, kind, u32::from(self.box_type()), out)
    }
}

/// A level of a tree.
pub(crate) trait Level {
    /// Appends the lines of `boxes`.
    fn push_structure(alloc: Global, boxes: &[Self], out: &mut Vec<u8>) -> Result<(), AllocError>;
}

/// The innermost level, which has no containers.
impl<B: Leaf> Level for Lossless<B> {
    fn push_structure(alloc: Global, boxes: &[Self], out: &mut Vec<u8>) -> Result<(), AllocError> {
        for it in boxes {
            match it {
                Lossless::Typed(found) => found.push_typed(alloc, out)?,
                Lossless::Raw { code, .. } => push_leaf(alloc, "raw", *code, out)?,
            }
        }
        Ok(())
    }
}

impl<L: Level, B: Leaf> Level for Node<L, B> {
    fn push_structure(alloc: Global, boxes: &[Self], out: &mut Vec<u8>) -> Result<(), AllocError> {
        for it in boxes {
            match &**it {
                Lossless::Typed(Either::First(found)) => {
                    push_container(
                        alloc,
                        found.code,
                        found.fields.len(),
                        found.boxes.len(),
                        out,
                    )?;
                    L::push_structure(alloc, &found.boxes, out)?;
                }
                Lossless::Typed(Either::Second(found)) => found.push_typed(alloc, out)?,
                Lossless::Raw { code, .. } => push_leaf(alloc, "raw", *code, out)?,
            }
        }
        Ok(())
    }
}
