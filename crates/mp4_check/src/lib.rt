//! For programs that check files: `write_faults` writes each fault of a file, as a line or as a JSON object, and
//! `write_sample_faults` those of its samples. A fault is a value, `Fault`, from which its words are made last.
//! docs/CHECK.md lists the faults.
//!
//! `write_faults_as` writes them in a form of your own (`FaultForm`), such as the rows of the library for C.
#![tactic(auto)]

mod box_faults;
mod contents;
mod duration;
mod extent;
mod fault;
mod fault_form;
mod faults;
mod fragments;
mod headers;
mod indexes;
mod lines;
mod media;
mod outside;
mod overlap;
mod parts;
mod references;
mod sample_faults;
mod samples;
mod siblings;
mod tables;
mod track_search;
mod tracks;
mod trafs;
mod unreadable;
mod words;

pub use duration::{Duration, Times, converted, duration_fault, longer, unknown};
pub use extent::{Extent, Lies, whereabouts};
pub use fault::{Code, Fault, Reason, Severity, What};
pub use fault_form::FaultForm;
pub use faults::{write_faults, write_faults_as};
pub use lines::{Form, Told};
pub use mp4_content::{BoxPaths, Part, path_text, push_path};
pub use outside::{Outside, Stray};
pub use overlap::{Overlap, chunks_overlap};
pub use parts::{group_of, is_file, is_part, needed};
pub use sample_faults::{SampleFaults, write_sample_faults};
pub use samples::SampleFault;
pub use track_search::track_at;
pub use words::words_of;
