//! A sequence of boxes: the top level of a file, or the content of a box.

use crate::walk_context::WalkContext;

/// A sequence of boxes, with the context from the boxes before.
#[derive(Clone, Copy, Debug, PartialEq, Eq)]
pub struct Level {
    /// The number of enclosing boxes: 0 at the top level of a file.
    pub depth: u64,
    /// The position in the file at which the level ends.
    pub end: u64,
    /// The context that determines how the next box of the level is read.
    pub context: WalkContext,
}
