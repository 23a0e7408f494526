//! Walks over the boxes of a file in order, reading only their headers. The file can be any source of bytes that is
//! read at positions.
#![tactic(auto)]

mod box_walk;
mod content;
mod finding;
mod found;
mod fronts;
pub mod laws;
mod level;
mod name;
mod pages;
mod path;
mod peek;
mod rest;
mod search;
mod source;
mod step;
mod tree_box;
mod walk_context;

pub use box_walk::BoxWalk;
pub use content::{read_box, read_content};
pub use finding::find;
pub use fronts::{
    COUNT_LENGTH, ENTRY_LENGTH, FULL_BOX_LENGTH, Front, QUICKTIME_SOUND_1_LENGTH,
    QUICKTIME_SOUND_2_LENGTH, SHORT_COUNT_LENGTH, SOUND_ENTRY_LENGTH, TEXT_ENTRY_LENGTH,
    VIDEO_ENTRY_LENGTH, front_of, is_container, is_sound, is_video, is_video_handler, sound_front,
};
pub use level::Level;
pub use name::name_of;
pub use path::{BoxPath, PathError, PathPart, path_code, path_index};
pub use peek::{NO_CONTENT, Peek, peek_at};
pub use source::Source;
pub use step::{Step, step_in};
pub use tree_box::{BoxState, TreeBox};
pub use walk_context::WalkContext;
