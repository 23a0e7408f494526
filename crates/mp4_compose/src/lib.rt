//! For programs that put boxes of two types into one list, or boxes into boxes, and for proofs about lists that were
//! read.
#![tactic(auto)]

mod child_box;
mod coded_enum;
mod either;
pub mod list_laws;
mod lossless;
mod stable_box;

pub use child_box::{ChildBox, all_writable, have_short_headers, read_children_as, total_size};
pub use coded_enum::CodedEnum;
pub use either::{CodedBox, Either};
pub use lossless::Lossless;
pub use stable_box::StableBox;
