//! Reads and writes box types of real files beyond those of the codec, one at a time and in lists. Each type is in a
//! module of its name in `mp4_extra_pictures`, `mp4_extra_sound`, `mp4_extra_samples` or `mp4_extra_tracks`, each of
//! which has an enum of its boxes. This crate has all of them as one type.
#![tactic(auto)]

mod extra_box;

pub use extra_box::{ExtraBox, TakenByCode};
pub use mp4_extra_pictures::picture_box::PictureBox;
pub use mp4_extra_samples::sample_box::SampleBox;
pub use mp4_extra_sound::sound_box::SoundBox;
pub use mp4_extra_tracks::track_box::TrackBox;
