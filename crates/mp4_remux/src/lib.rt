//! Rewrites the container of a file, and keeps every sample of every track.
#![tactic(auto)]

pub mod edits;
pub mod forms;
mod fragmented;
mod groups;
mod keeps;
mod kept;
mod kept_chunks;
mod media;
pub mod parts;
pub mod pieces;
mod planned;
mod refusal;
mod teller;
mod track;
mod track_samples;

pub use fragmented::{FragmentedSamples, Fragments};
pub use groups::{Group, Groups, fragments_of};
pub use keeps::keeps_media;
pub use kept::{Lost, keeps_samples};
pub use media::{Media, Untold};
pub use planned::{PlannedFile, check_media, flat_file, write_planned};
pub use refusal::{Refusal, Stop, TrackPlace};
pub use teller::Teller;
pub use track_samples::TrackSamples;
