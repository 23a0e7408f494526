//! The static library for programs in C and for other languages that call C: its exported functions.
//!
//! `include/mp4_box_codec.h` at the top of the repository declares these functions, and says what the caller ensures.
//! `docs/C.md` explains a calling program. The functions are of these kinds:
//!
//! - `check`, `list`, `find`, `fields` and `normal` take the bytes of a file or of a box of any type, and `from_json`
//!   writes such a box.
//! - `samples` and `fragment_samples` list the samples of a track.
//! - `file_faults` lists what `mp4inspect check` finds in a file, and `file_info` what `mp4inspect info` shows of it.
//! - `rewriting` plans the files of `mp4remux` as pieces (`new_file`). `change` reads their changes.
//! - `file_walk` visits the boxes of a file that isn't in memory.
//! - `about` gives the version and the meaning of a status.
//! - `flat`, `tables`, `text`, `entries` and `sound` read and write the boxes of `mp4_flat`, `mp4_tables` and so on.
//!
//! Every function returns a status (`mp4_c_boxes::status`), except `mp4_version`. It copies its results to the caller's
//! memory: rows to an array, whose length the caller gives, and a summary with their number. If the array is too short,
//! nothing is written to it, so a caller first passes an array of length 0. A function frees the memory that it takes
//! before it returns, and keeps no pointer.
#![tactic(auto)]

pub mod about;
pub mod change;
pub mod check;
pub mod entries;
pub mod fields;
pub mod file_faults;
pub mod file_info;
pub mod file_walk;
pub mod find;
pub mod flat;
pub mod found_box;
pub mod fragment_samples;
pub mod from_json;
pub mod front_box;
pub mod list;
pub mod new_file;
pub mod normal;
pub mod rewriting;
pub mod samples;
pub mod sound;
pub mod tables;
pub mod text;
pub mod text_part;
mod track;
pub mod track_info;
pub mod walk_level;
