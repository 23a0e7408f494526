//! For callers that read and write the tables of samples and edits: the boxes with a counted table of entries, and
//! `tfhd` and `trun`, whose flags say which of their fields and lists are present.
#![tactic(auto)]

mod co64;
mod ctts;
mod ctts_entry;
mod elst;
mod elst_entry;
mod flagged;
pub mod laws;
mod rows;
mod stco;
mod stsc;
mod stsc_entry;
mod stss;
mod stsz;
mod stts;
mod stts_entry;
mod tfhd;
mod trun;

pub use co64::Co64Box;
pub use ctts::CttsBox;
pub use ctts_entry::CttsEntry;
pub use elst::ElstBox;
pub use elst_entry::ElstEntry;
pub use rows::read_rows;
pub use stco::StcoBox;
pub use stsc::StscBox;
pub use stsc_entry::StscEntry;
pub use stss::StssBox;
pub use stsz::StszBox;
pub use stts::SttsBox;
pub use stts_entry::SttsEntry;
pub use tfhd::TfhdBox;
pub use trun::TrunBox;
