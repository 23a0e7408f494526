//! The configuration of a track.

use crate::aac_config::AacConfig;
use crate::avc_config::AvcConfig;
use crate::hevc_config::HevcConfig;
use crate::ttxt_config::TtxtConfig;
use crate::vp9_config::Vp9Config;
use mp4_frame::{Result, TryClone};

/// The configuration of a track, with a variant for each coding of samples.
#[derive(Debug, PartialEq, Eq, Drop)]
pub enum MediaConfig {
    /// Advanced video coding, H.264.
    AvcConfig(AvcConfig),
    /// High efficiency video coding, H.265.
    HevcConfig(HevcConfig),
    /// VP9 video.
    Vp9Config(Vp9Config),
    /// Advanced audio coding.
    AacConfig(AacConfig),
    /// Timed text.
    TtxtConfig(TtxtConfig),
}

impl TryClone for MediaConfig {
    fn try_clone(&self) -> Result<MediaConfig> {
        Ok(match self {
            MediaConfig::AvcConfig(config) => MediaConfig::AvcConfig(config.try_clone()?),
            MediaConfig::HevcConfig(config) => MediaConfig::HevcConfig(config.clone()?),
            MediaConfig::Vp9Config(config) => MediaConfig::Vp9Config(config.clone()?),
            MediaConfig::AacConfig(config) => MediaConfig::AacConfig(config.clone()?),
            MediaConfig::TtxtConfig(config) => MediaConfig::TtxtConfig(config.clone()?),
        })
    }
}
