//! The movie of a file: its tracks, the sample tables of a track, and the fragments of all tracks. The file can be any
//! source of bytes that is read at positions.
#![tactic(auto)]

mod compact_sizes;
mod defaults;
mod descriptions;
mod error;
mod found;
mod fragment;
mod info;
mod level;
mod moof;
mod movie;
mod places;
mod reading;
mod sample_boxes;
mod table;
mod track_fragment;
mod traf;

pub use compact_sizes::sizes_fault;
pub use defaults::{Defaults, defaults_of};
pub use error::{BoxError, MovieError};
pub use fragment::fragment_of;
pub use info::TrackInfo;
pub use level::{BoxLocation, boxes_after, first_in, has_box, inside, movie_in};
pub use moof::MoofFragments;
pub use movie::Movie;
pub use reading::read_at;
pub use sample_boxes::{ChunkBox, SampleBoxes};
pub use table::{chunks_of, tables_in};
pub use track_fragment::TrackFragment;
pub use traf::{Traf, traf_in};
