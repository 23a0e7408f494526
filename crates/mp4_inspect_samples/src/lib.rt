//! The samples of the tracks of a file, a row for each, with its place and its times. They come from the tables of the
//! first `moov` and the headers of each `moof`; media data are skipped.
#![tactic(auto)]

mod choice;
mod clock;
mod durations;
mod edits;
mod fault;
mod fragments;
mod heading;
mod limit;
mod lists;
mod reached;
mod row;
mod row_text;
mod rows;
mod samples_of_file;
mod segment_text;
mod segments;
mod tables;
mod time_text;
mod track;
mod track_times;
mod tracks;

pub use choice::Choice;
pub use fault::{Fault, TrackFault, TrackName};
pub use row_text::Form;
pub use samples_of_file::write_samples;
