//! Copies boxes to and from the structs and arrays of C, for `mp4_c`, which exports a function for each box.
//!
//! C has a struct for the fields of each box, rows for the entries of tables, and arrays for strings, lists and
//! parameter sets. `include/mp4_box_codec.h` at the top of the repository says what each field means.
//!
//! Every function that is exported returns a status (`status`). There is a module for each form of a box:
//!
//! - `to_struct` fills a struct with the fields of one box.
//! - `to_rows` copies rows into the caller's array, and fills a summary with their number.
//! - `sets` copies parameter sets into two arrays: their lengths and their bytes.
//! - `written` writes a box into an array of bytes.
//!
//! If an array is too short, nothing is written to it. The other modules have the structs of boxes:
//!
//! - `flat`, `tables`, `fragments` and `text` have those of headers, tables, track fragments and texts.
//! - `avc`, `hevc`, `vp9`, `audio`, `tx3g` and `stsd` have those of sample descriptions, and `emsg` that of events.
#![tactic(auto)]

pub mod audio;
pub mod avc;
pub mod emsg;
pub mod flat;
pub mod fragments;
pub mod hevc;
pub mod laws;
pub mod sets;
pub mod status;
pub mod stsd;
pub mod tables;
pub mod text;
pub mod to_rows;
pub mod to_struct;
pub mod tx3g;
pub mod visual;
pub mod vp9;
pub mod written;
