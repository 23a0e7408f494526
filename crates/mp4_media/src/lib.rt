//! For callers that describe the media of an MP4 file: fixed-point numbers, types of tracks and codings, audio and
//! video configurations, samples and metadata.
#![tactic(auto)]

mod aac_config;
mod audio_object_type;
mod avc_config;
mod avc_profile;
mod channel_config;
mod data_type;
mod epoch;
mod fixed_point;
mod hevc_config;
pub mod laws;
mod media_config;
mod media_type;
mod metadata;
mod metadata_key;
mod mp4_sample;
mod sample_freq_index;
mod track_type;
mod ttxt_config;
mod vp9_config;

pub use aac_config::AacConfig;
pub use audio_object_type::AudioObjectType;
pub use avc_config::AvcConfig;
pub use avc_profile::AvcProfile;
pub use bytes::Bytes;
pub use channel_config::ChannelConfig;
pub use data_type::DataType;
pub use epoch::creation_time;
pub use fixed_point::{FixedPoint, FixedPointI8, FixedPointU8, FixedPointU16};
pub use hevc_config::HevcConfig;
pub use media_config::MediaConfig;
pub use media_type::MediaType;
pub use metadata::Metadata;
pub use metadata_key::MetadataKey;
pub use mp4_sample::Mp4Sample;
pub use sample_freq_index::SampleFreqIndex;
pub use track_type::TrackType;
pub use ttxt_config::TtxtConfig;
pub use vp9_config::Vp9Config;
