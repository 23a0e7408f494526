//! For programs that show, check or change boxes: how a box of a walk is read, the content that is read, and its fields
//! or its fault. Also boxes that are read back from the JSON of their fields, and fields that are set.
#![tactic(auto)]

mod changed_json;
mod content;
mod failure;
mod fault_texts;
mod field;
mod for_prover;
mod foreign;
mod from_json;
mod kind;
mod path;
mod path_texts;
mod pieces;
mod setting;
mod shown;
mod terminator;

pub use content::{Content, content_of, put_content};
pub use failure::or_memory;
pub use fault_texts::{fault_text, push_foreign};
pub use field::{Step, steps_of, value_at};
pub use for_prover::either;
pub use foreign::{NotMp4, not_mp4};
pub use from_json::FromJson;
pub use kind::{Kind, kind_of};
pub use path::{BoxPaths, Part, in_file, in_fragment, in_track};
pub use path_texts::{path_text, push_path};
pub use pieces::{PIECE, present, size_of, start_of};
pub use setting::{SetError, Setting, set_fields};
pub use shown::{Shown, ShownBox};
pub use terminator::may_end;
