//! Rules about the samples of tracks: NAL units have to fill a sample of AVC or HEVC exactly, and a sample of PCM has a
//! whole number of frames. Nothing is decoded. At most 4096 bytes of a sample are in memory at a time.

mod block;
mod codes;
mod field;
mod kind;
mod looked;
mod pcm;
mod sample_walk;
mod track_samples;
mod units;

pub use kind::{Kind, kinds_in};
pub use looked::{Looked, SampleFault, Wrong, nothing};
pub use sample_walk::look_at_fragment;
pub use track_samples::look_at_track;
