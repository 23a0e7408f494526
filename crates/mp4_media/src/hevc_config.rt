//! The configuration of a track of high efficiency video coding.

/// The configuration of a track of high efficiency video coding, H.265 (ISO/IEC 23008-2).
#[derive(Clone, Debug, Default, PartialEq, Eq, Drop)]
pub struct HevcConfig {
    /// The width of the picture, in pixels.
    pub width: u16,
    /// The height of the picture, in pixels.
    pub height: u16,
}
