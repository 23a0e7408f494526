//! For programs that read the boxes of a buffer one at a time, without a list of them.
#![tactic(auto)]

mod boxes;
mod collect;
pub mod laws;

pub use boxes::{Boxes, boxes_as};
pub use collect::collect_boxes;
