//! The offsets and times of a track's samples, from the tables of its `stbl` and from its fragments.
#![tactic(auto)]

mod access;
mod checks;
mod chunk_place;
mod chunks;
mod disagreement;
mod edit_checks;
mod edit_fault;
pub mod edit_laws;
mod edits;
mod fragment;
mod fragment_end;
mod fragment_fault;
mod fragment_place;
mod fragment_samples;
pub mod laws;
mod lookup;
mod marks;
mod presentation;
mod run_place;
mod runs;
mod sample;
mod sample_index;
mod sample_tables;
mod samples;
mod search;
mod state;
mod syncs;
mod tables;

pub use chunks::ChunkExtent;
pub use disagreement::Disagreement;
pub use edit_fault::EditFault;
pub use edits::Edits;
pub use fragment::{DEFAULT_BASE_IS_MOOF, Fragment, SAMPLE_IS_NON_SYNC};
pub use fragment_end::RunExtent;
pub use fragment_fault::FragmentFault;
pub use fragment_samples::FragmentSamples;
pub use presentation::Presentation;
pub use sample::Sample;
pub use sample_index::SampleIndex;
pub use sample_tables::SampleTables;
pub use samples::Samples;
pub use tables::{ChunkOffsets, Tables};
