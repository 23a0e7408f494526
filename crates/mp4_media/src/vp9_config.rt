//! The configuration of a track of VP9 video.

/// The configuration of a track of VP9 video.
#[derive(Clone, Debug, Default, PartialEq, Eq, Drop)]
pub struct Vp9Config {
    /// The width of the picture, in pixels.
    pub width: u16,
    /// The height of the picture, in pixels.
    pub height: u16,
}
