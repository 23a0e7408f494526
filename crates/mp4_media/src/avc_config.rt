//! The configuration of a track of advanced video coding.

ghost use Rattle.std.specs.Prelude.{◌≡◌, []};

use mp4_frame::{Entries, Result, TryClone};
use std::alloc::Global;

/// The configuration of a track of advanced video coding, H.264 (ISO/IEC 14496-10).
#[derive(Debug, PartialEq, Eq, Drop)]
pub struct AvcConfig {
    /// The width of the picture, in pixels.
    pub width: u16,
    /// The height of the picture, in pixels.
    pub height: u16,
    /// The sequence parameter set: a whole NAL unit, without its length.
    pub seq_param_set: Entries<u8>,
    /// The picture parameter set: a whole NAL unit, without its length.
    pub pic_param_set: Entries<u8>,
}

impl AvcConfig {
    /// Returns a configuration with width and height 0 and empty parameter sets. It takes no memory from `alloc`.
    pub fn default_in(alloc: Global) -> Self
        ensures { result ≡ record { width = 0; height = 0; seq_param_set = []; pic_param_set = [] } }
    {
        AvcConfig {
            width: 0,
            height: 0,
            seq_param_set: Entries::new(alloc),
            pic_param_set: Entries::new(alloc),
        }
    }
}

impl TryClone for AvcConfig {
    fn try_clone(&self) -> Result<AvcConfig> {
        Ok(AvcConfig {
            width: self.width,
            height: self.height,
            seq_param_set: self.seq_param_set.try_clone()?,
            pic_param_set: self.pic_param_set.try_clone()?,
        })
    }
}
