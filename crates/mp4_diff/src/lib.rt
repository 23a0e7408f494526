//! For programs that compare files: the differences between the boxes of two files.
#![tactic(auto)]

mod bytes_differ;
mod changes;
mod pairs;
mod row_changes;
mod rows;

pub use changes::{Change, Side, What, differ, differences};
